//! Makes single calls, so that they can be timed without a command round them: `bench_calls CALL SIZE ROUNDS` makes the call as often as
//! it says and prints counts. Times are taken outside.
#![tactic(auto)]

mod calls;
mod pairs;
mod words;

use crate::calls::count_of;
use crate::pairs::count_of_pairs;
use crate::words::{Asked, call_in};
use std::env;
use std::process::ExitCode;

fn main(rt: HostRuntime) -> ExitCode {
    let Ok(mut arguments) = env::args(&rt) else {
        return ExitCode::from(2);
    };
    let Some(call) = call_in(&mut arguments) else {
        let _ = println!(rt;
            "bench_calls tables|copy|expand|copy-plain|expand-plain|guard-plain NAMES ROUNDS, or pairs|copy-pairs|subsume|conclude CLAUSES ROUNDS"
        );
        return ExitCode::from(2);
    };
    let made = match call {
        Asked::Forms(call) => count_of(rt.alloc(), call),
        Asked::Pairs(call) => count_of_pairs(rt.alloc(), call),
    };
    let Ok(count) = made else {
        return ExitCode::from(9);
    };
    let _ = println!(rt; "{count}");
    ExitCode::from(0)
}
