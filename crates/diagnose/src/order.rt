//! The order of diagnostics.
ghost use Rattle.std.specs.Prelude.{◌≡◌, ◌++◌, IfOk, OnOk};
ghost use Rattle.kif_tree.specs.Places.{PlacesDiffer};
ghost use Rattle.diagnose.specs.Order as spec;

use crate::diagnostic::Diagnostic;
use kif_tree::{Located, Place, Text};
use sigma_base::NoMemory;
use std::alloc::Global;
use std::collections::{BTreeMap, BTreeSet};

/// For the place of a form how many forms stand before it.
pub type Positions = BTreeMap<Place, usize>;

/// What the diagnostics of one form are ordered by. `other` is the position of the other place.
#[derive(Debug, Drop, PartialEq, Eq, PartialOrd, Ord)]
pub struct Rank {
    pub code: u8,
    pub term: Text,
    pub other: Option<usize>,
}

/// The positions of the forms.
pub fn positions(alloc: Global, forms: &[Located]) -> Result<Positions, NoMemory>
    requires { PlacesDiffer forms.now }
    ensures { IfOk result (spec.ArePositions forms.now) }
{
    let mut table = BTreeMap::new(alloc);
    let mut position: usize = 0;
    for located in forms {
        table.insert(located.place, position)?;
        position += 1;
    }
    Ok(table)
}

/// The position of the place, if it has one.
fn position_of(positions: &Positions, place: Option<Place>) -> Option<usize>
    ensures { result ≡ spec.position_of positions.now place }
{
    match positions.get(&place?) {
        Some(position) => Some(*position),
        None => None,
    }
}

/// The place of the form at that position.
fn place_at(forms: &[Located], position: Option<usize>) -> Option<Place>
    ensures { result ≡ spec.place_at forms.now position }
{
    match forms.get(position?) {
        Some(located) => Some(located.place),
        None => None,
    }
}

/// Adds the rank, if the set hasn't got it.
fn add_rank(ranks: &mut BTreeSet<Rank>, rank: Rank) -> Result<(), NoMemory>
    ensures { OnOk result (spec.AddsRank ranks.old ranks.new rank) }
{
    ranks.insert(rank)?;
    Ok(())
}

/// The ranks of the diagnostics, each once.
fn ranks(
    alloc: Global,
    positions: &Positions,
    found: Vec<Diagnostic>,
) -> Result<BTreeSet<Rank>, NoMemory>
    ensures { IfOk result (spec.AreRanks positions.now found.items) }
{
    let mut ranks = BTreeSet::new(alloc);
    for diagnostic in found {
        let Diagnostic {
            code,
            term,
            other,
            ..
        } = diagnostic;
        let other = position_of(positions, other);
        add_rank(&mut ranks, Rank { code, term, other })?;
    }
    Ok(ranks)
}

/// Whether the codes ascend, each above the one before, from `last` on.
fn codes_ascend(last: u8, found: &[Diagnostic]) -> bool
    ensures { result ≡ spec.codes_ascend last found.now }
{
    let [first, rest @ ..] = found else {
        return true;
    };
    last < first.code && codes_ascend(first.code, rest)
}

/// Adds the diagnostics that were found at the place, in order and each once. The few of most forms stand in order as they were found.
pub fn append_ordered(
    alloc: Global,
    forms: &[Located],
    positions: &Positions,
    place: Place,
    found: Vec<Diagnostic>,
    list: &mut Vec<Diagnostic>,
) -> Result<(), NoMemory>
    ensures { OnOk result (spec.ArePositions forms.now positions.now → spec.AreKnown forms.now place found.items → spec.Appends forms.now found.items list.old.items list.new.items) }
{
    if codes_ascend(0, found.as_slice()) {
        return append_all(found, list);
    }
    append_ranked(alloc, forms, positions, place, found, list)
}

fn append_all(found: Vec<Diagnostic>, list: &mut Vec<Diagnostic>) -> Result<(), NoMemory>
    ensures { OnOk result (list.new.items ≡ list.old.items ++ found.items) }
{
    let mut found = found;
    list.append(&mut found)?;
    Ok(())
}

/// Adds the diagnostics by their ranks.
fn append_ranked(
    alloc: Global,
    forms: &[Located],
    positions: &Positions,
    place: Place,
    found: Vec<Diagnostic>,
    list: &mut Vec<Diagnostic>,
) -> Result<(), NoMemory>
    ensures { OnOk result (spec.ArePositions forms.now positions.now → spec.AreKnown forms.now place found.items → spec.Appends forms.now found.items list.old.items list.new.items) }
{
    let mut ranks = ranks(alloc, positions, found)?;
    while let Some(rank) = ranks.pop_first() {
        list.push(diagnostic_of(forms, place, rank))?;
    }
    Ok(())
}

/// The diagnostic of that rank at the place.
fn diagnostic_of(forms: &[Located], place: Place, rank: Rank) -> Diagnostic
    ensures { result ≡ spec.diagnostic_of forms.now place rank }
{
    let Rank { code, term, other } = rank;
    Diagnostic {
        code,
        place,
        term,
        other: place_at(forms, other),
    }
}
