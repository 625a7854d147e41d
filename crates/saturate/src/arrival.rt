//! What becomes of a clause that comes.
ghost use Rattle.std.specs.Prelude.{◌≡◌, IfOk};
ghost use Rattle.kif_tree.specs.Terms.{greatest};
ghost use Rattle.saturate.specs.Runs as spec;
ghost use Rattle.saturate.specs.Indexes.{IsIndexed, listed as listed_in};
ghost use Rattle.saturate.specs.States.{HasFingerprints};
ghost use Rattle.std.specs.Prelude.{min};

use crate::covered::is_covered;
use crate::reached::State;
use kif_tree::{Clause, depth, is_answer};
use sigma_base::NoMemory;
use std::alloc::Global;

/// How deep a clause that waits may nest.
const MOST_LEVELS: u64 = 1_000;

/// What becomes of a factor or conclusion as it comes, by the first of these rules that applies.
#[derive(Clone, Copy, Debug, PartialEq, Eq)]
pub enum Arrival {
    /// It has no literals, and ends the search.
    Contradiction,
    /// It is a tautology, or a clause that is processed, waits, is aside or was found subsumes it.
    Dropped,
    /// It has answer literals alone.
    Found,
    /// It nests too deep.
    Aside,
    Waits,
}

/// What becomes of the clause.
pub(crate) fn arrival_of(
    alloc: Global,
    state: &State<'_>,
    clause: &Clause,
) -> Result<Arrival, NoMemory>
    requires kept { HasFingerprints state.now }
    requires indexed { IsIndexed (listed_in state.now.listed) state.now.reached }
    ensures { IfOk result (λ arrival. spec.IsArrival state.now.reached clause.now arrival) }
{
    if clause.literals.items().is_empty() {
        return Ok(Arrival::Contradiction);
    }
    if is_covered(alloc, state, clause)? {
        return Ok(Arrival::Dropped);
    }
    if has_answers_alone(clause) {
        return Ok(Arrival::Found);
    }
    if clause_depth(clause) > MOST_LEVELS {
        return Ok(Arrival::Aside);
    }
    Ok(Arrival::Waits)
}

fn has_answers_alone(clause: &Clause) -> bool
    ensures { result ≡ spec.has_answers_alone clause.now }
{
    for literal in clause.literals.items() {
        if !is_answer(&literal.atom) {
            return false;
        }
    }
    true
}

/// How deep the clause nests, or the greatest `u64` where it nests deeper.
fn clause_depth(clause: &Clause) -> u64
    ensures { result ≡ min (spec.clause_depth clause.now) 18446744073709551615 }
{
    let mut deepest = 0;
    for literal in clause.literals.items() {
        deepest = depth(&literal.atom).max(deepest);
    }
    deepest
}
