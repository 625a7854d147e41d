//! Numbers that are given anew, each as its place in an order.
ghost use Rattle.std.specs.Prelude.{◌≡◌, ◌<◌, ◌≤◌, ℕ, true, length, map, IfOk, IsTrue, MatchOption};
ghost use Rattle.sigma_base.specs.Lists.{Each};
ghost use Rattle.taxonomy.specs.Numbered.{AreBelow, LinksWithin};
ghost use Rattle.taxonomy.specs.Reorder as spec;

use crate::numbered::NumberedLink;
use kif_tree::Text;
use sigma_base::NoMemory;
use std::alloc::Global;
use std::mem::replace;

/// As many places as numbers, none of them known: the count stands for it.
fn unknown_places(alloc: Global, count: usize) -> Result<Vec<usize>, NoMemory>
    ensures { IfOk result (λ places. spec.AreUnknown count places.items) }
{
    let mut places = Vec::with_capacity(alloc, count)?;
    for _ in 0..count {
        places.push(count)?;
    }
    Ok(places)
}

/// Whether all places are known.
fn are_known(places: &[usize], count: usize) -> bool
    ensures { IsTrue result → AreBelow count places.now }
{
    for place in places {
        if *place >= count {
            return false;
        }
    }
    true
}

/// The places of the numbers below the count that stand in the order, if no other ones do and none stands twice.
fn some_places(alloc: Global, count: usize, order: &[usize]) -> Result<Option<Vec<usize>>, NoMemory>
    requires { length order.now ≤ count }
    ensures { IfOk result (λ found. MatchOption found (Unit {0}) (λ places. spec.AreSomePlaces count (length order.now) order.now places.items)) }
{
    let mut places = unknown_places(alloc, count)?;
    for at in 0..order.len() {
        let number = order[at];
        if number >= count || places[number] != count {
            return Ok(None);
        }
        places[number] = at;
    }
    Ok(Some(places))
}

/// The place of each number below the count, if each stands in the order once.
pub fn places_of(
    alloc: Global,
    count: usize,
    order: &[usize],
) -> Result<Option<Vec<usize>>, NoMemory>
    ensures { IfOk result (λ found. MatchOption found (Unit {0}) (λ places. spec.ArePlaces count order.now places.items)) }
{
    if order.len() != count {
        return Ok(None);
    }
    let Some(places) = some_places(alloc, count, order)? else {
        return Ok(None);
    };
    if !are_known(places.as_slice(), count) {
        return Ok(None);
    }
    Ok(Some(places))
}

/// The words in the order.
pub fn moved_words(
    alloc: Global,
    mut words: Vec<Text>,
    order: &[usize],
) -> Result<Vec<Text>, NoMemory>
    requires { spec.AreDistinctBelow (length words.items) order.now }
    ensures { IfOk result (λ moved. spec.AreReordered order.now words.items moved.items) }
{
    let mut moved = Vec::with_capacity(alloc, order.len())?;
    for number in order {
        moved.push(replace(&mut words[*number], Text::new(alloc)))?;
    }
    Ok(moved)
}

/// The places of the numbers.
pub fn moved_numbers(
    alloc: Global,
    numbers: &[usize],
    places: &[usize],
) -> Result<Vec<usize>, NoMemory>
    requires { AreBelow (length places.now) numbers.now }
    ensures { IfOk result (λ moved. moved.items ≡ map (spec.place places.now) numbers.now) }
{
    let mut moved = Vec::with_capacity(alloc, numbers.len())?;
    for number in numbers {
        moved.push(places[*number])?;
    }
    Ok(moved)
}

/// The links with the places of their numbers.
pub fn moved_links(
    alloc: Global,
    links: &[NumberedLink],
    places: &[usize],
) -> Result<Vec<NumberedLink>, NoMemory>
    requires { LinksWithin (length places.now) links.now }
    ensures { IfOk result (λ moved. moved.items ≡ map (spec.moved places.now) links.now) }
{
    let mut moved = Vec::with_capacity(alloc, links.len())?;
    for link in links {
        moved.push(NumberedLink {
            low: places[link.low],
            high: places[link.high],
            ..*link
        })?;
    }
    Ok(moved)
}
