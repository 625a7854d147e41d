//! Sets of numbers, kept as runs of numbers that follow each other.
ghost use Rattle.std.specs.Prelude.{◌≡◌, ◌<◌, ◌≤◌, ◌||◌, ◌⊎◌, ℕ, true, false, length, IfOk, OnOk, MatchOption, MatchBool};
ghost use Rattle.taxonomy.specs.Runs as spec;

use sigma_base::{Listed, NoMemory};
use std::alloc::Global;

/// The numbers from `start` up to `end`, which is left out.
#[derive(Clone, Copy, Debug)]
pub struct Run {
    pub start: usize,
    pub end: usize,
}

/// A set of numbers, as runs in ascending order. Nothing but speed rests on the order.
pub type Runs = Listed<Run>;

/// Whether the number is in one of the runs.
pub fn has(runs: &[Run], number: usize) -> bool
    ensures { result ≡ spec.has runs.now number }
{
    for run in runs {
        if run.start <= number && number < run.end {
            return true;
        }
    }
    false
}

/// Where the run with the number ends, if one has it.
fn end_of(runs: &[Run], number: usize) -> Option<usize>
    ensures { MatchOption result (spec.has runs.now number ≡ false) (λ end. spec.IsCovered runs.now number end) }
{
    for run in runs {
        if run.start <= number && number < run.end {
            return Some(run.end);
        }
    }
    None
}

/// The place of the first run, from the given one on, that ends behind the number.
fn skip(runs: &[Run], from: usize, number: usize) -> usize {
    let mut at = from;
    while at < runs.len() && runs[at].end <= number {
        at += 1;
    }
    at
}

/// Where the run with the number ends, if one has it. The run at the given place is looked at first.
fn end_near(runs: &[Run], near: usize, number: usize) -> Option<usize>
    ensures { MatchOption result (spec.has runs.now number ≡ false) (λ end. spec.IsCovered runs.now number end) }
{
    if near >= runs.len() {
        return end_of(runs, number);
    }
    let run = runs[near];
    if run.start <= number && number < run.end {
        return Some(run.end);
    }
    end_of(runs, number)
}

/// A number of the run that the runs don't have. They are looked at from the given place on, and all of them only where that
/// doesn't settle it.
fn missing_of(runs: &[Run], run: Run, from: usize) -> Option<usize>
    ensures { MatchOption result (spec.HasRun runs.now run) (λ number. spec.LacksOf runs.now run number) }
{
    let mut at = run.start;
    let mut near = from;
    while at < run.end {
        near = skip(runs, near, at);
        let Some(end) = end_near(runs, near, at) else {
            return Some(at);
        };
        at = end;
    }
    None
}

/// A number of the second set that the first one doesn't have.
pub fn missing(first: &[Run], second: &[Run]) -> Option<usize>
    ensures { MatchOption result (spec.HasAll first.now second.now) (λ number. spec.Lacks first.now second.now number) }
{
    let mut near = 0;
    for run in second {
        near = skip(first, near, run.start);
        let found = missing_of(first, *run, near);
        if found.is_some() {
            return found;
        }
    }
    None
}

/// Adds the run last, or makes the last run longer where it reaches into it.
fn add(runs: &mut Vec<Run>, run: Run) -> Result<(), NoMemory>
    ensures { OnOk result (spec.IsWith runs.old.items runs.new.items run) }
{
    let Some(last) = runs.pop() else {
        runs.push(run)?;
        return Ok(());
    };
    if last.start <= run.start && run.start <= last.end {
        runs.push(Run {
            start: last.start,
            end: last.end.max(run.end),
        })?;
        return Ok(());
    }
    runs.push(last)?;
    runs.push(run)?;
    Ok(())
}

/// Whether the first set's run comes next in a merge, and not the second's.
fn comes_first(first: &[Run], at_first: usize, second: &[Run], at_second: usize) -> bool
    requires { (at_first < length first.now) ⊎ (at_second < length second.now) }
    ensures { MatchBool result (at_first < length first.now) (at_second < length second.now) }
{
    if at_first >= first.len() {
        return false;
    }
    at_second >= second.len() || first[at_first].start <= second[at_second].start
}

/// The numbers of both sets.
fn union(alloc: Global, first: &[Run], second: &[Run]) -> Result<Vec<Run>, NoMemory>
    ensures { IfOk result (λ both. spec.IsUnion both.items first.now second.now) }
{
    let mut both = Vec::new(alloc);
    let mut at_first = 0;
    let mut at_second = 0;
    while at_first < first.len() || at_second < second.len() {
        if comes_first(first, at_first, second, at_second) {
            add(&mut both, first[at_first])?;
            at_first += 1;
        } else {
            add(&mut both, second[at_second])?;
            at_second += 1;
        }
    }
    Ok(both)
}

/// Whether no run of the second set starts before the last one of the first.
fn is_behind(first: &[Run], second: &[Run]) -> bool {
    let Some(last) = first.last() else {
        return true;
    };
    match second.first() {
        Some(run) => last.start <= run.start,
        None => true,
    }
}

/// Adds the runs last.
fn append(runs: &mut Vec<Run>, more: &[Run]) -> Result<(), NoMemory>
    ensures { OnOk result (spec.IsUnion runs.new.items runs.old.items more.now) }
{
    for run in more {
        add(runs, *run)?;
    }
    Ok(())
}

/// The numbers of both sets. The first set's memory is used again where the second one's runs come last.
pub fn join(alloc: Global, first: Vec<Run>, second: &[Run]) -> Result<Vec<Run>, NoMemory>
    ensures { IfOk result (λ both. spec.IsUnion both.items first.items second.now) }
{
    if !is_behind(first.as_slice(), second) {
        return union(alloc, first.as_slice(), second);
    }
    let mut both = first;
    append(&mut both, second)?;
    Ok(both)
}
