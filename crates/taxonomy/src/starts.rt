//! From which group on a word may be disjoint from itself. A start that is too low costs time alone.
ghost use Rattle.std.specs.Prelude.{◌≡◌, ◌≢◌, ◌<◌, ◌≤◌, ◌++◌, ℕ, List, length, get_or, map, IfOk, OnOk};
ghost use Rattle.sigma_base.specs.Lists.{Each};
ghost use Rattle.taxonomy.specs.Numbered as numbered;
ghost use Rattle.taxonomy.specs.Starts as spec;

use crate::numbered::NumberedGroup;
use crate::runs::{Run, Runs};
use sigma_base::NoMemory;
use std::alloc::Global;

/// The numbers from `start` up to `end`, which is left out: some of those below the word that is the label.
#[derive(Clone, Copy, Debug, PartialEq, Eq, PartialOrd, Ord)]
pub struct Piece {
    pub start: usize,
    pub end: usize,
    pub label: usize,
}

/// How far pieces reach: all of them up to `end`, and those with another label up to `other`.
#[derive(Clone, Copy, Debug)]
pub struct Reach {
    pub label: usize,
    pub end: usize,
    pub other: usize,
}

/// Adds the runs as pieces of the label.
fn add_pieces(pieces: &mut Vec<Piece>, runs: &[Run], label: usize) -> Result<(), NoMemory>
    ensures { OnOk result (pieces.new.items ≡ pieces.old.items ++ map (spec.as_piece label) runs.now) }
{
    for run in runs {
        pieces.push(Piece {
            start: run.start,
            end: run.end,
            label,
        })?;
    }
    Ok(())
}

/// The group's words and their sets, in pieces.
fn pieces_of(alloc: Global, sets: &[Runs], group: &[usize]) -> Result<Vec<Piece>, NoMemory>
    requires { numbered.AreBelow (length sets.now) group.now }
    ensures { IfOk result (λ pieces. spec.ArePieces sets.now group.now pieces.items) }
{
    let mut pieces = Vec::new(alloc);
    for label in group {
        let runs = sets[*label].items();
        pieces.push(Piece {
            start: *label,
            end: *label + 1,
            label: *label,
        })?;
        add_pieces(&mut pieces, runs, *label)?;
    }
    Ok(pieces)
}

/// How far the pieces with another label reach at most.
fn reach_of_others(reach: Reach, label: usize) -> usize
    ensures { (pieces : List spec.Piece) → spec.Reaches reach pieces → Each (λ (piece : spec.Piece). piece.label ≢ label → piece.end ≤ result) pieces }
{
    if label == reach.label {
        reach.other
    } else {
        reach.end
    }
}

/// How far they reach with one more.
fn reach_with(reach: Reach, piece: Piece) -> Reach
    ensures { (pieces : List spec.Piece) → spec.Reaches reach pieces → spec.Reaches result (spec.with_piece pieces piece) }
{
    if piece.label == reach.label {
        return Reach {
            end: reach.end.max(piece.end),
            ..reach
        };
    }
    if piece.end > reach.end {
        return Reach {
            label: piece.label,
            end: piece.end,
            other: reach.end,
        };
    }
    Reach {
        other: reach.other.max(piece.end),
        ..reach
    }
}

/// Lets the number start at the group, unless it starts earlier.
fn lower(starts: &mut Vec<usize>, number: usize, group: usize)
    ensures lowered { spec.AreLowered starts.old.items starts.new.items }
    ensures here { get_or starts.new.items number 0 ≤ group }
{
    if number < starts.len() && starts[number] > group {
        starts[number] = group;
    }
}

/// The same for each number from one up to the other, which is left out.
fn lower_all(starts: &mut Vec<usize>, from: usize, to: usize, group: usize)
    ensures lowered { spec.AreLowered starts.old.items starts.new.items }
    ensures all { (number : ℕ) → from ≤ number → number < to → get_or starts.new.items number 0 ≤ group }
{
    for number in from..to {
        lower(starts, number, group);
    }
}

/// The same for each number that two pieces with different labels have. Nothing but speed rests on the order of the pieces.
fn sweep(starts: &mut Vec<usize>, pieces: &[Piece], group: usize)
    ensures lowered { spec.AreLowered starts.old.items starts.new.items }
    ensures twice { (number : ℕ) → spec.IsTwice pieces.now number → get_or starts.new.items number 0 ≤ group }
{
    let mut reach = Reach {
        label: 0,
        end: 0,
        other: 0,
    };
    for piece in pieces {
        let end = reach_of_others(reach, piece.label);
        lower_all(starts, piece.start, piece.end.min(end), group);
        reach = reach_with(reach, *piece);
    }
}

/// The same for each number that is at or below two different words of the group.
fn add_group(
    alloc: Global,
    starts: &mut Vec<usize>,
    sets: &[Runs],
    words: &[usize],
    group: usize,
) -> Result<(), NoMemory>
    requires { numbered.AreBelow (length sets.now) words.now }
    ensures lowered { OnOk result (spec.AreLowered starts.old.items starts.new.items) }
    ensures shared { OnOk result ((number : ℕ) → spec.IsShared sets.now words.now number → get_or starts.new.items number 0 ≤ group) }
{
    let mut pieces = pieces_of(alloc, sets, words)?;
    pieces.sort()?;
    sweep(starts, pieces.as_slice(), group);
    Ok(())
}

/// As many starts as numbers, none before the last group.
fn latest(alloc: Global, count: usize, group: usize) -> Result<Vec<usize>, NoMemory> {
    let mut starts = Vec::new(alloc);
    for _ in 0..count {
        starts.push(group)?;
    }
    Ok(starts)
}

/// For each number the first group that may have two different words at or above it.
pub fn starts_of(
    alloc: Global,
    count: usize,
    sets: &[Runs],
    groups: &[NumberedGroup],
) -> Result<Vec<usize>, NoMemory>
    requires { numbered.GroupsWithin (length sets.now) groups.now }
    ensures { IfOk result (λ starts. spec.AreStarts sets.now groups.now (length groups.now) starts.items) }
{
    let mut starts = latest(alloc, count, groups.len())?;
    for at in 0..groups.len() {
        add_group(alloc, &mut starts, sets, groups[at].words.items(), at)?;
    }
    Ok(starts)
}
