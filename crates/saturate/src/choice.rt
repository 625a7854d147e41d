//! Which waiting clause is given next.
ghost use Rattle.std.specs.Prelude.{◌≡◌, ◌≤◌, ◌↔◌, [], ◌∷◌, IsTrue, MatchOption, IfOk};
ghost use Rattle.saturate.specs.Runs as spec;
ghost use Rattle.saturate.specs.States.{HasWeights};

use crate::reached::State;
use sigma_base::{Listed, NoMemory};
use std::alloc::Global;

/// The clause that is given in the turn of that number, or `None` where nothing waits: at each fifth turn the oldest one, and else the
/// one with the fewest symbols, the oldest of these.
pub(crate) fn next_given(state: &State<'_>, turn: u32) -> Option<u32>
    requires { HasWeights state.now }
    ensures { MatchOption result (state.now.reached.waiting ≡ []) (λ given. spec.IsGiven state.now.reached turn given) }
{
    if turn % 5 == 0 {
        oldest(state)
    } else {
        lightest(state)
    }
}

fn oldest(state: &State<'_>) -> Option<u32>
    ensures { MatchOption result (state.now.reached.waiting ≡ []) (spec.IsOldest state.now.reached) }
{
    let [first, rest @ ..] = state.reached.waiting.items() else {
        return None;
    };
    Some(older_of_all(*first, rest))
}

/// The least of the numbers.
fn older_of_all(first: u32, others: &[u32]) -> u32
    ensures { spec.IsFirstOf ◌≤◌ (first ∷ others.now) result }
{
    let mut best = first;
    for other in others {
        best = best.min(*other);
    }
    best
}

fn lightest(state: &State<'_>) -> Option<u32>
    requires { HasWeights state.now }
    ensures { MatchOption result (state.now.reached.waiting ≡ []) (spec.IsLightest state.now.reached) }
{
    let [first, rest @ ..] = state.reached.waiting.items() else {
        return None;
    };
    Some(lighter_of_all(state, *first, rest))
}

/// The lightest of the clauses, the oldest of these.
fn lighter_of_all(state: &State<'_>, first: u32, others: &[u32]) -> u32
    requires { HasWeights state.now }
    ensures { spec.IsFirstOf (spec.IsLighter state.now.reached) (first ∷ others.now) result }
{
    let mut best = first;
    for other in others {
        if is_lighter(state, *other, best) {
            best = *other;
        }
    }
    best
}

fn is_lighter(state: &State<'_>, number: u32, other: u32) -> bool
    requires { HasWeights state.now }
    ensures { IsTrue result ↔ spec.IsLighter state.now.reached number other }
{
    let weight = state.weight_of(number);
    let other_weight = state.weight_of(other);
    weight < other_weight || (weight == other_weight && number <= other)
}

/// The numbers without that one.
pub(crate) fn without(alloc: Global, number: u32, numbers: &[u32]) -> Result<Listed<u32>, NoMemory>
    ensures { IfOk result (λ others. others ≡ spec.without number numbers.now) }
{
    let mut others = Listed::new(alloc);
    for other in numbers {
        if *other != number {
            others.push(*other)?;
        }
    }
    Ok(others)
}
