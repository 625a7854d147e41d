//! The program: the tool over files of the disk and standard output.
#![tactic(auto)]

mod arguments;
mod screen;
mod shelf;

use crate::arguments::Arguments;
use crate::screen::Screen;
use crate::shelf::FileShelf;
use sig_io::Words;
use sigma_app::run_tool;
use sigma_base::NoMemory;
use std::env;
use std::io::{self, ErrorKind};
use std::process::ExitCode;
use std::rt::Env;

/// The words after the program's name, or none where one of them isn't UTF-8.
fn words_of<R: Env + AllocGlobal>(rt: &R) -> Result<Words, NoMemory> {
    let mut words = Words::new(rt.alloc());
    let arguments = match env::args(&(Arguments { env: rt }, rt.alloc())) {
        Ok(arguments) => arguments,
        Err(error) if error.kind() == ErrorKind::OutOfMemory => return Err(NoMemory),
        Err(_) => return Ok(words),
    };
    for word in arguments {
        if words.count() == u32::MAX {
            return Err(NoMemory);
        }
        words.push(word.as_str())?;
    }
    Ok(words)
}

fn main(rt: HostRuntime) -> ExitCode {
    let Ok(words) = words_of(&rt) else {
        return ExitCode::from(9);
    };
    let mut files = FileShelf::new(&rt, rt.alloc());
    let mut screen = Screen::over(io::writer(&rt));
    ExitCode::from(run_tool(rt.alloc(), &words, &mut files, &mut screen))
}

#[cfg(test)]
mod tests;
