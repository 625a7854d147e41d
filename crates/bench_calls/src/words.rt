//! What the arguments ask for.
use crate::calls::{Call, Kind};
use crate::pairs::{PairCall, PairKind};
use std::alloc::Global;
use std::env::Args;

fn kind_of(word: &str) -> Option<Kind> {
    match word {
        "tables" => Some(Kind::Tables),
        "copy" => Some(Kind::Copy),
        "expand" => Some(Kind::Expand),
        "copy-plain" => Some(Kind::CopyPlain),
        "expand-plain" => Some(Kind::ExpandPlain),
        "guard-plain" => Some(Kind::GuardPlain),
        _ => None,
    }
}

fn pair_kind_of(word: &str) -> Option<PairKind> {
    match word {
        "pairs" => Some(PairKind::Nothing),
        "copy-pairs" => Some(PairKind::Copy),
        "subsume" => Some(PairKind::Subsume),
        "conclude" => Some(PairKind::Conclude),
        _ => None,
    }
}

/// A call over forms, or one over pairs of clauses.
#[derive(Clone, Copy)]
pub(crate) enum Asked {
    Forms(Call),
    Pairs(PairCall),
}

/// The call that the words after the program's name ask for: its kind, how many names or clauses, and how many rounds.
pub(crate) fn call_in(arguments: &mut Args<Global>) -> Option<Asked> {
    arguments.next()?;
    let word = arguments.next()?;
    let size = arguments.next()?.as_str().parse().ok()?;
    let rounds = arguments.next()?.as_str().parse().ok()?;
    if let Some(kind) = pair_kind_of(word.as_str()) {
        return Some(Asked::Pairs(PairCall {
            kind,
            clauses: size,
            rounds,
        }));
    }
    Some(Asked::Forms(Call {
        kind: kind_of(word.as_str())?,
        names: size,
        rounds,
    }))
}
