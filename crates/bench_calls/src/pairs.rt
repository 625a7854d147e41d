//! Calls over pairs of clauses.
ghost use Rattle.std.specs.Prelude.{◌≡◌, IfOk};

use clause_form::{ClauseForm, SkolemBase, clauses};
use infer::conclusions;
use kif_reader::read_forms;
use kif_tree::{Clause, Located};
use sigma_base::{Listed, NoMemory};
use std::alloc::Global;
use std::fmt::Write;
use unify::subsumes;

/// What is done with each pair: nothing, a copy of both, the test whether the first subsumes the second, or their conclusions.
#[derive(Clone, Copy)]
pub enum PairKind {
    Nothing,
    Copy,
    Subsume,
    Conclude,
}

/// A call for each pair of one of so many clauses and one of as many others, in so many rounds.
#[derive(Clone, Copy)]
pub struct PairCall {
    pub kind: PairKind,
    pub clauses: u16,
    pub rounds: u16,
}

/// Rules of two to five literals, the first of which resolves with the first of each fact.
fn rules(alloc: Global, count: u16) -> Result<Vec<u8>, NoMemory> {
    let mut text = String::new(alloc);
    for number in 0..count {
        let head = number % 7;
        match number % 4 {
            0 => writeln!(text, "(or (r ?X ?Y) (q{head} ?X))")?,
            1 => writeln!(
                text,
                "(or (r ?X ?Y) (q{head} ?X) (not (p{head} ?Y c{number})))"
            )?,
            2 => writeln!(
                text,
                "(or (r ?X ?Y) (q{head} ?X) (not (p{head} ?Y c{number})) (s ?Y))"
            )?,
            _ => writeln!(
                text,
                "(or (r ?X ?Y) (q{head} ?X) (not (p{head} ?Y c{number})) (s ?Y) (not (t ?X ?Y)))"
            )?,
        }
    }
    Ok(text.into_bytes())
}

/// Clauses of one to five literals, the first of which resolves with the first of each rule. No rule subsumes one of them.
fn facts(alloc: Global, count: u16) -> Result<Vec<u8>, NoMemory> {
    let mut text = String::new(alloc);
    for number in 0..count {
        let head = number % 7;
        match number % 5 {
            0 => writeln!(text, "(not (r c{number} ?Y))")?,
            1 => writeln!(text, "(or (not (r c{number} ?Y)) (q{head} ?Y))")?,
            2 => writeln!(text, "(or (not (r c{number} ?Y)) (q{head} ?Y) (u ?Y b))")?,
            3 => writeln!(
                text,
                "(or (not (r c{number} ?Y)) (q{head} ?Y) (u ?Y b) (v (fFn ?Y) c{number}))"
            )?,
            _ => writeln!(
                text,
                "(or (not (r c{number} ?Y)) (q{head} ?Y) (u ?Y b) (v (fFn ?Y) c{number}) (w ?Z ?Y))"
            )?,
        }
    }
    Ok(text.into_bytes())
}

fn forms_of(alloc: Global, text: &[u8]) -> Result<Vec<Located>, NoMemory> {
    if text.len() >= 1 << 31 {
        return Err(NoMemory);
    }
    read_forms(alloc, text, 1).map_err(|_| NoMemory)
}

/// The clauses of a text's forms.
fn clauses_of(alloc: Global, text: &[u8]) -> Result<Listed<Clause>, NoMemory> {
    let base = SkolemBase {
        load: 1,
        form: 1,
        variant: 1,
    };
    let mut all = Listed::new(alloc);
    for located in forms_of(alloc, text)?.as_slice() {
        if let ClauseForm::Clauses(list) = clauses(alloc, &located.form, base)? {
            all.append(list)?;
        }
    }
    Ok(all)
}

// ---- one pair

fn copies(alloc: Global, first: &Clause, second: &Clause) -> Result<usize, NoMemory>
    ensures { IfOk result (λ made. made ≡ 2) }
{
    let mut copies = Listed::new(alloc);
    copies.push(first.copy(alloc)?)?;
    copies.push(second.copy(alloc)?)?;
    Ok(copies.items().len())
}

fn made_of(
    alloc: Global,
    kind: PairKind,
    first: &Clause,
    second: &Clause,
) -> Result<usize, NoMemory> {
    match kind {
        PairKind::Nothing => Ok(0),
        PairKind::Copy => copies(alloc, first, second),
        PairKind::Subsume => Ok(usize::from(subsumes(alloc, first, second)?)),
        PairKind::Conclude => Ok(conclusions(alloc, first, second, false)?.items().len()),
    }
}

fn round(
    alloc: Global,
    kind: PairKind,
    firsts: &[Clause],
    seconds: &[Clause],
) -> Result<usize, NoMemory> {
    let mut count: usize = 0;
    for first in firsts {
        for second in seconds {
            count = count.saturating_add(made_of(alloc, kind, first, second)?);
        }
    }
    Ok(count)
}

/// How many copies, subsumed clauses or conclusions were made in all rounds.
pub(crate) fn count_of_pairs(alloc: Global, call: PairCall) -> Result<usize, NoMemory> {
    let firsts = clauses_of(alloc, rules(alloc, call.clauses)?.as_slice())?;
    let seconds = clauses_of(alloc, facts(alloc, call.clauses)?.as_slice())?;
    let mut count: usize = 0;
    for _ in 0..call.rounds {
        count = count.saturating_add(round(alloc, call.kind, firsts.items(), seconds.items())?);
    }
    Ok(count)
}
