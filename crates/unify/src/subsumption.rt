//! Subsumption of clauses.
ghost use Rattle.std.specs.Prelude.{◌≡◌, ◌↔◌, ◌<◌, ◌+◌, ◌++◌, take, drop, length, IsTrue, IfOk, OnOk};
ghost use Rattle.kif_tree.specs.declared.clause.Literal.{Literal};
ghost use Rattle.unify.specs.Bindings.{AreConsistent, Grows};
ghost use Rattle.unify.specs.Subsumption.{behind, Subsumes, SubsumesUnder, SendsAt, Placed};

use crate::bindings::Bindings;
use crate::matching::match_form;
use crate::places::{each_has_place, looks_alike};
use kif_tree::{Clause, Literal};
use sigma_base::NoMemory;
use std::alloc::Global;

/// Whether some substitution sends the literals of the first clause to literals of the second, different ones to different ones.
/// Signs, heads and counts of arguments are looked at before anything is bound.
pub fn subsumes(alloc: Global, general: &Clause, special: &Clause) -> Result<bool, NoMemory>
    ensures { IfOk result (λ answer. IsTrue answer ↔ Subsumes general.now special.now) }
{
    let literals = general.literals.items();
    let others = special.literals.items();
    if !each_has_place(literals, others) {
        return Ok(false);
    }
    let unplaced = lent(alloc, literals)?;
    let free = lent(alloc, others)?;
    let mut bindings = Bindings::new(alloc);
    place_all(alloc, unplaced.as_slice(), free.as_slice(), &mut bindings)
}

fn lent<'a>(alloc: Global, literals: &'a [Literal]) -> Result<Vec<&'a Literal>, NoMemory>
    ensures { IfOk result (λ references. behind references.items ≡ literals.now) }
{
    let mut references = Vec::new(alloc);
    for literal in literals {
        references.push(literal)?;
    }
    Ok(references)
}

/// Whether the variables that aren't bound yet can be bound so that the literals become free ones, each one of its own.
/// The literal that can become the fewest free ones goes first.
#[cycle(place_all)]
fn place_all<'a>(
    alloc: Global,
    unplaced: &[&'a Literal],
    free: &[&'a Literal],
    bindings: &mut Bindings<'a>,
) -> Result<bool, NoMemory>
    ensures grows { OnOk result (Grows bindings.old bindings.new) }
    ensures answer { IfOk result (λ answer. AreConsistent bindings.old → IsTrue answer ↔ SubsumesUnder bindings.old (behind unplaced.now) (behind free.now)) }
{
    if unplaced.is_empty() {
        return Ok(true);
    }
    let next = most_confined(unplaced, free, bindings)?;
    let rest = without(alloc, unplaced, next)?;
    for place in 0..free.len() {
        if place_at(
            alloc,
            unplaced[next],
            rest.as_slice(),
            free,
            place,
            bindings,
        )? {
            return Ok(true);
        }
    }
    Ok(false)
}

/// Whether the literal can become the free one of that number, and the rest other free ones. Where not, the bindings are as before.
#[cycle(place_all)]
fn place_at<'a>(
    alloc: Global,
    literal: &'a Literal,
    rest: &[&'a Literal],
    free: &[&'a Literal],
    place: usize,
    bindings: &mut Bindings<'a>,
) -> Result<bool, NoMemory>
    requires { place < length free.now }
    ensures grows { OnOk result (Grows bindings.old bindings.new) }
    ensures same { IfOk result (λ answer. (IsTrue answer → ⊥) → bindings.new ≡ bindings.old) }
    ensures answer { IfOk result (λ answer. AreConsistent bindings.old → IsTrue answer ↔ SendsAt bindings.old literal.now (behind rest.now) (behind free.now) place) }
{
    let before = bindings.count();
    if match_literal(literal, free[place], bindings)? {
        let others = without(alloc, free, place)?;
        if place_all(alloc, rest, others.as_slice(), bindings)? {
            return Ok(true);
        }
    }
    bindings.truncate(before);
    Ok(false)
}

/// The number of a literal to place first: by choice one that can become the fewest free ones. Any number is right, some are slow.
fn most_confined<'a>(
    unplaced: &[&'a Literal],
    free: &[&'a Literal],
    bindings: &mut Bindings<'a>,
) -> Result<usize, NoMemory>
    requires { 0 < length unplaced.now }
    ensures number { IfOk result (λ number. number < length unplaced.now) }
    ensures same { OnOk result (bindings.new ≡ bindings.old) }
{
    let mut best = 0;
    if unplaced.len() == 1 {
        return Ok(best);
    }
    let mut fewest = usize::MAX;
    for at in 0..unplaced.len() {
        let count = places_left(unplaced[at], free, fewest, bindings)?;
        if count < fewest {
            best = at;
            fewest = count;
        }
    }
    Ok(best)
}

/// A guess at how many free literals the literal can become, up to `most`. The bindings stay as they were.
fn places_left<'a>(
    literal: &'a Literal,
    free: &[&'a Literal],
    most: usize,
    bindings: &mut Bindings<'a>,
) -> Result<usize, NoMemory>
    ensures { OnOk result (bindings.new ≡ bindings.old) }
{
    let before = bindings.count();
    let mut count = 0;
    for number in 0..free.len() {
        if count >= most {
            return Ok(count);
        }
        if match_literal(literal, free[number], bindings)? {
            count += 1;
        }
        bindings.truncate(before);
    }
    Ok(count)
}

fn match_literal<'a>(
    literal: &'a Literal,
    other: &'a Literal,
    bindings: &mut Bindings<'a>,
) -> Result<bool, NoMemory>
    ensures grows { OnOk result (Grows bindings.old bindings.new) }
    ensures consistent { OnOk result (AreConsistent bindings.old → AreConsistent bindings.new) }
    ensures placed { IfOk result (λ done. AreConsistent bindings.old → Placed bindings.old bindings.new literal.now other.now done) }
{
    if !looks_alike(literal, other) {
        return Ok(false);
    }
    match_form(&literal.atom, &other.atom, bindings)
}

/// The references without the one of that number.
fn without<'a>(
    alloc: Global,
    literals: &[&'a Literal],
    number: usize,
) -> Result<Vec<&'a Literal>, NoMemory>
    requires { number < length literals.now }
    ensures { IfOk result (λ others. behind others.items ≡ take number (behind literals.now) ++ drop (number + 1) (behind literals.now)) }
{
    let mut others = Vec::new(alloc);
    for at in 0..literals.len() {
        if at != number {
            others.push(literals[at])?;
        }
    }
    Ok(others)
}
