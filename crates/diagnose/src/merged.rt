//! Two lists of diagnostics in one. Both are in order, so what stands at one form stands at the front of what is left of each.
ghost use Rattle.std.specs.Prelude.{◌≡◌, ◌++◌, ◌≤◌, IfOk, OnOk, length, take, drop};
ghost use Rattle.kif_tree.specs.Places.{PlacesDiffer};
ghost use Rattle.diagnose.specs.Diagnostics.{AreAscending};
ghost use Rattle.diagnose.specs.Merged as spec;
ghost use Rattle.diagnose.specs.Order.{Appends, AreKnown, ArePositions};

use crate::diagnostic::Diagnostic;
use crate::order::{Positions, append_ordered, positions};
use kif_tree::{Located, Place};
use sigma_base::NoMemory;
use std::alloc::Global;

/// How many diagnostics at the front stand at the place.
fn count_at(place: Place, list: &[Diagnostic]) -> usize
    ensures within { result ≤ length list.now }
    ensures parted { spec.AreParted place list.now (take result list.now) (drop result list.now) }
{
    let mut count: usize = 0;
    for diagnostic in list {
        if diagnostic.place != place {
            return count;
        }
        count += 1;
    }
    count
}

/// The diagnostics at the front that stand at the place, and those from the first that doesn't on.
fn part_at(place: Place, list: &[Diagnostic]) -> (&[Diagnostic], &[Diagnostic])
    ensures { spec.AreParted place list.now result.0.now result.1.now }
{
    list.split_at(count_at(place, list))
}

fn copy_of(alloc: Global, diagnostic: &Diagnostic) -> Result<Diagnostic, NoMemory>
    ensures { IfOk result (λ copy. copy ≡ diagnostic.now) }
{
    let term = diagnostic.term.copy(alloc)?;
    Ok(Diagnostic {
        code: diagnostic.code,
        place: diagnostic.place,
        term,
        other: diagnostic.other,
    })
}

fn append_copies(
    alloc: Global,
    more: &[Diagnostic],
    list: &mut Vec<Diagnostic>,
) -> Result<(), NoMemory>
    ensures { OnOk result (list.new.items ≡ list.old.items ++ more.now) }
{
    for diagnostic in more {
        list.push(copy_of(alloc, diagnostic)?)?;
    }
    Ok(())
}

/// Adds the diagnostics of both lists, which stand at the place, in order and each once. Those of most forms are in one list alone.
fn append_both(
    alloc: Global,
    forms: &[Located],
    positions: &Positions,
    place: Place,
    first: &[Diagnostic],
    second: &[Diagnostic],
    list: &mut Vec<Diagnostic>,
) -> Result<(), NoMemory>
    ensures { OnOk result (ArePositions forms.now positions.now → AreAscending forms.now first.now → AreAscending forms.now second.now → AreKnown forms.now place (first.now ++ second.now) → Appends forms.now (first.now ++ second.now) list.old.items list.new.items) }
{
    if first.is_empty() {
        return append_copies(alloc, second, list);
    }
    if second.is_empty() {
        return append_copies(alloc, first, list);
    }
    let mut found = Vec::new(alloc);
    append_copies(alloc, first, &mut found)?;
    append_copies(alloc, second, &mut found)?;
    append_ordered(alloc, forms, positions, place, found, list)
}

/// The diagnostics of both lists, each once, in the order in which `diagnose` gives its own.
pub fn merge(
    alloc: Global,
    forms: &[Located],
    first: &[Diagnostic],
    second: &[Diagnostic],
) -> Result<Vec<Diagnostic>, NoMemory>
    requires places { PlacesDiffer forms.now }
    requires first_ascends { AreAscending forms.now first.now }
    requires second_ascends { AreAscending forms.now second.now }
    requires first_placed { spec.ArePlaced forms.now first.now }
    requires second_placed { spec.ArePlaced forms.now second.now }
    ensures { IfOk result (λ list. spec.AreMerged forms.now first.now second.now list.items) }
{
    let positions = positions(alloc, forms)?;
    let mut first_left = first;
    let mut second_left = second;
    let mut list = Vec::new(alloc);
    for located in forms {
        let place = located.place;
        let (first_here, first_later) = part_at(place, first_left);
        let (second_here, second_later) = part_at(place, second_left);
        append_both(
            alloc,
            forms,
            &positions,
            place,
            first_here,
            second_here,
            &mut list,
        )?;
        first_left = first_later;
        second_left = second_later;
    }
    Ok(list)
}
