//! The search.
ghost use Rattle.std.specs.Prelude.{◌≡◌, ◌<◌, ◌^◌, ◌+◌, [], length, Ok, Some, None, IfOk, MatchOption};
ghost use Rattle.sigma_base.specs.Lists.{Each};
ghost use Rattle.clause_form.specs.Sentences.{IsQueryClause};
ghost use Rattle.unify.specs.ClauseSets.{IsClauseSet};
ghost use Rattle.saturate.specs.Inputs.{search_inputs};
ghost use Rattle.saturate.specs.Limits.{checked};
ghost use Rattle.saturate.specs.Runs as spec;
ghost use Rattle.saturate.specs.Ends.{EndHolds, IsSound};
ghost use Rattle.saturate.specs.States.{IsConsistent};

use crate::beginning::beginning;
use crate::ended::{Ended, Search};
use crate::inputs::Inputs;
use crate::limits::Limits;
use crate::reached::{Reached, State};
use crate::turn::take_turn;
use clause_form::QueryClauses;
use sigma_base::NoMemory;
use std::alloc::Global;
use unify::ClauseSet;

/// Searches for answers to the query: saturation by resolution, factoring and paramodulation, with subsumption of new clauses by those known.
/// In each turn one waiting clause, the lightest or at each fifth turn the oldest, meets those that were processed before, and itself.
pub fn search<'a>(
    alloc: Global,
    set: &'a ClauseSet,
    query: &QueryClauses,
    limits: Limits,
) -> Result<Search<'a>, NoMemory>
    requires limits { checked limits ≡ Ok tt }
    requires few { length query.now.clauses < 2 ^ 30 }
    requires query { Each (IsQueryClause (length query.now.asked)) query.now.clauses }
    ensures run { IfOk result (λ search. spec.IsRun (search_inputs set.now query.now.clauses) limits search) }
    ensures inputs { IfOk result (λ search. search.inputs ≡ search_inputs set.now query.now.clauses) }
    ensures sound { IfOk result (λ search. IsSound (spec.reached_in search)) }
    ensures end { IfOk result (λ search. EndHolds limits search.turns (spec.reached_in search) search.ended) }
    ensures set { IsClauseSet set.now }
{
    let inputs = Inputs::of(alloc, set, query.clauses.items())?;
    let state = beginning(alloc, inputs, limits.mode)?;
    run(alloc, state, &limits)
}

/// Takes turns until the search ends.
fn run<'a>(alloc: Global, mut state: State<'a>, limits: &Limits) -> Result<Search<'a>, NoMemory>
    requires begins { state.reached ≡ spec.beginning state.reached.inputs limits.now.mode }
    requires consistent { IsConsistent state }
    ensures { IfOk result (λ search. spec.IsRun state.entry.reached.inputs limits.now search) }
{
    for taken in 0..limits.turns {
        if let Some(ended) = end_at_rest(&state.reached) {
            return Ok(ended_search(state, taken, ended));
        }
        if let Some(ended) = take_turn(alloc, &mut state, limits, taken + 1)? {
            return Ok(ended_search(state, taken + 1, ended));
        }
    }
    let ended = match end_at_rest(&state.reached) {
        Some(ended) => ended,
        None => Ended::Spent,
    };
    Ok(ended_search(state, limits.turns, ended))
}

/// How a search ends where nothing waits.
fn end_at_rest(reached: &Reached<'_>) -> Option<Ended>
    ensures { result ≡ spec.end_at_rest reached.now }
{
    if !reached.waiting.items().is_empty() {
        return None;
    }
    if reached.aside.items().is_empty() {
        Some(Ended::Saturated)
    } else {
        Some(Ended::Deep)
    }
}

fn ended_search<'a>(state: State<'a>, turns: u32, ended: Ended) -> Search<'a>
    ensures reached { spec.reached_in result ≡ state.entry.reached }
    ensures turns { result.turns ≡ turns }
    ensures ended { result.ended ≡ ended }
{
    let State { reached, .. } = state;
    let Reached {
        inputs,
        derived,
        steps,
        processed,
        waiting,
        aside,
        found,
    } = reached;
    Search {
        inputs,
        steps,
        derived,
        processed,
        waiting,
        aside,
        found,
        turns,
        ended,
    }
}
