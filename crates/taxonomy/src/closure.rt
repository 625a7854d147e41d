//! Which numbers reach which by paths of edges, whatever cycles there are.
ghost use Rattle.std.specs.Prelude.{◌≡◌, ◌<◌, ◌≤◌, ◌∷◌, true, false, length, IfOk, OnOk, MatchBool, MatchOption};
ghost use Rattle.taxonomy.specs.Graph as spec;
ghost use Rattle.taxonomy.specs.Runs.{has, HasAll, Lacks};

use crate::runs::{Run, Runs, has, join, missing};
use sigma_base::{Listed, NoMemory};
use std::alloc::Global;
use std::mem::replace;

/// Leads from one number to another. Edges are ordered by where they begin.
#[derive(Clone, Copy, Debug, PartialEq, Eq, PartialOrd, Ord)]
pub struct Edge {
    pub low: usize,
    pub high: usize,
}

/// Whether the number is the other one, or in its set.
pub fn is_at_or_below(sets: &[Runs], low: usize, high: usize) -> bool
    requires { high < length sets.now }
    ensures { result ≡ has (spec.at_or_below sets.now high) low }
{
    low == high || has(sets[high].items(), low)
}

/// As many empty sets. They take no memory of their own.
fn empty_sets(alloc: Global, count: usize) -> Result<Vec<Runs>, NoMemory>
    ensures { IfOk result (λ sets. spec.AreEmpty count sets.items) }
{
    let mut sets = Vec::with_capacity(alloc, count)?;
    for _ in 0..count {
        sets.push(Listed::new(alloc))?;
    }
    Ok(sets)
}

/// One of the numbers that the known runs don't have: the low one, or one of the others.
fn lacking(known: &[Run], low: usize, others: &[Run]) -> Option<usize>
    ensures { MatchOption result (HasAll known.now (spec.own low ∷ others.now)) (λ number. Lacks known.now (spec.own low ∷ others.now) number) }
{
    if !has(known, low) {
        return Some(low);
    }
    missing(known, others)
}

/// Adds to the set of the edge's end its start, and what reaches that. Whether anything was new.
fn pass(alloc: Global, sets: &mut Vec<Runs>, edge: Edge) -> Result<bool, NoMemory>
    requires low { edge.low < length sets.old.items }
    requires high { edge.high < length sets.old.items }
    ensures { IfOk result (λ changed. MatchBool changed (spec.Grows edge sets.old.items sets.new.items) (spec.Stays edge sets.old.items sets.new.items)) }
{
    let Some(_) = lacking(sets[edge.high].items(), edge.low, sets[edge.low].items()) else {
        return Ok(false);
    };
    let own = Run {
        start: edge.low,
        end: edge.low + 1,
    };
    let known = replace(&mut sets[edge.high], Listed::new(alloc));
    let more = join(alloc, known.into_items(), sets[edge.low].items())?;
    let both = join(alloc, more, [own].as_slice())?;
    sets[edge.high] = Listed::of(both);
    Ok(true)
}

/// Passes each edge once. Whether a set grew.
fn round(alloc: Global, sets: &mut Vec<Runs>, edges: &[Edge]) -> Result<bool, NoMemory>
    requires within { spec.AreWithin (length sets.old.items) edges.now }
    requires partial { spec.IsPartial edges.now (length sets.old.items) sets.old.items }
    ensures { IfOk result (λ changed. spec.IsRound edges.now edges.now sets.old.items sets.new.items changed) }
{
    let mut changed = false;
    for edge in edges {
        let grew = pass(alloc, sets, *edge)?;
        changed |= grew;
    }
    Ok(changed)
}

/// For each number below the count the set of the numbers from which one or more edges lead to it.
pub fn closure(alloc: Global, count: usize, edges: &[Edge]) -> Result<Vec<Runs>, NoMemory>
    requires { spec.AreWithin count edges.now }
    ensures { IfOk result (λ sets. spec.IsClosure edges.now count sets.items) }
{
    let mut sets = empty_sets(alloc, count)?;
    loop {
        if !round(alloc, &mut sets, edges)? {
            return Ok(sets);
        }
    }
}
