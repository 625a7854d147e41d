//! A turn of a search.
ghost use Rattle.std.specs.Prelude.{◌≡◌, ◌≢◌, ◌↔◌, ◌<◌, [], map, filter, length, nat_eq, IsTrue, IfOk, OnOk};
ghost use Rattle.sigma_base.specs.Lists.{Each};
ghost use Rattle.infer.specs.Conclusions.{clause_at, AreConclusions};
ghost use Rattle.infer.specs.Plain.{IsPlain, IsPlainConclusion};
ghost use Rattle.saturate.specs.declared.arrival.Arrival.TheVariants as arrivals;
ghost use Rattle.saturate.specs.Runs as spec;
ghost use Rattle.saturate.specs.States.{HasFingerprints, IsConsistent};

use crate::arrival::{Arrival, arrival_of};
use crate::choice::{next_given, without};
use crate::covered::is_needless;
use crate::ended::Ended;
use crate::limits::Limits;
use crate::reached::{Reached, State};
use calculus::Step;
use infer::{Conclusion, conclusions, factors};
use sigma_base::{Listed, NoMemory};
use std::alloc::Global;

/// Takes the turn of that number. The answer tells how the search ended, if it did.
pub(crate) fn take_turn(
    alloc: Global,
    state: &mut State<'_>,
    limits: &Limits,
    turn: u32,
) -> Result<Option<Ended>, NoMemory>
    requires consistent { IsConsistent state.old }
    requires waits { state.old.reached.waiting ≢ [] }
    ensures consistent { OnOk result (IsConsistent state.new) }
    ensures turn { IfOk result (λ end. spec.Turn limits.now turn state.old.reached state.new.reached end) }
{
    let Some(given) = next_given(state, turn) else {
        return Ok(None);
    };
    let dropped = is_dropped(alloc, state, given)?;
    state.reached.waiting = without(alloc, given, state.reached.waiting.items())?;
    if dropped {
        state.kept = kept_count(&state.reached);
        return Ok(None);
    }
    state.reached.processed.push(given)?;
    state.kept = kept_count(&state.reached);
    work(alloc, state, limits, given)
}

/// Whether the given clause is no clause of the query, and is a tautology or subsumed by a processed clause.
fn is_dropped(alloc: Global, state: &State<'_>, given: u32) -> Result<bool, NoMemory>
    requires given { given < length (spec.clauses state.now.reached) }
    requires fingerprints { HasFingerprints state.now }
    ensures { IfOk result (λ answer. IsTrue answer ↔ spec.IsDropped state.now.reached given) }
{
    let reached = &state.reached;
    if reached.is_of_query(given) {
        return Ok(false);
    }
    let Some(clause) = reached.clause(given) else {
        return Ok(false);
    };
    is_needless(alloc, state, reached.processed.items(), clause)
}

fn kept_count(reached: &Reached<'_>) -> usize
    ensures { result ≡ spec.kept_count reached.now }
{
    derived_count(reached, reached.processed.items())
        + derived_count(reached, reached.waiting.items())
        + derived_count(reached, reached.aside.items())
}

fn derived_count(reached: &Reached<'_>, numbers: &[u32]) -> usize
    ensures { result ≡ length (filter (spec.is_derived reached.now) numbers.now) }
{
    let mut count = 0;
    for number in numbers {
        if reached.is_derived(*number) {
            count += 1;
        }
    }
    count
}

/// The factors of the given clause come, and its conclusions with each processed clause, of which it is the last.
fn work(
    alloc: Global,
    state: &mut State<'_>,
    limits: &Limits,
    given: u32,
) -> Result<Option<Ended>, NoMemory>
    requires { IsConsistent state.old }
    ensures consistent { OnOk result (IsConsistent state.new) }
    ensures works { IfOk result (λ end. spec.Then (spec.Factors limits.now given) (spec.MeetsEach limits.now given state.old.reached.processed) state.old.reached state.new.reached end) }
{
    let partners = state.reached.processed.items().to_vec(alloc)?;
    if let Some(end) = factor(alloc, state, limits, given)? {
        return Ok(Some(end));
    }
    meet_each(alloc, state, limits, given, partners.as_slice())
}

fn factor(
    alloc: Global,
    state: &mut State<'_>,
    limits: &Limits,
    given: u32,
) -> Result<Option<Ended>, NoMemory>
    requires { IsConsistent state.old }
    ensures consistent { OnOk result (IsConsistent state.new) }
    ensures factors { IfOk result (λ end. spec.Factors limits.now given state.old.reached state.new.reached end) }
{
    let list = match state.reached.clause(given) {
        Some(clause) => factors(alloc, clause)?,
        None => Listed::new(alloc),
    };
    come(alloc, state, limits, given, given, list)
}

fn meet_each(
    alloc: Global,
    state: &mut State<'_>,
    limits: &Limits,
    given: u32,
    partners: &[u32],
) -> Result<Option<Ended>, NoMemory>
    requires { IsConsistent state.old }
    ensures consistent { OnOk result (IsConsistent state.new) }
    ensures meets { IfOk result (λ end. spec.MeetsEach limits.now given partners.now state.old.reached state.new.reached end) }
{
    for partner in partners {
        if let Some(end) = meet(alloc, state, limits, given, *partner)? {
            return Ok(Some(end));
        }
    }
    Ok(None)
}

fn meet(
    alloc: Global,
    state: &mut State<'_>,
    limits: &Limits,
    given: u32,
    partner: u32,
) -> Result<Option<Ended>, NoMemory>
    requires { IsConsistent state.old }
    ensures consistent { OnOk result (IsConsistent state.new) }
    ensures meets { IfOk result (λ end. spec.Meets limits.now given partner state.old.reached state.new.reached end) }
{
    if !state.may_meet(given, partner) {
        return Ok(None);
    }
    let list = concluded(alloc, &state.reached, given, partner)?;
    come(alloc, state, limits, given, partner, list)
}

fn concluded(
    alloc: Global,
    reached: &Reached<'_>,
    given: u32,
    partner: u32,
) -> Result<Listed<Conclusion>, NoMemory>
    requires { Each IsPlain (spec.clauses reached.now) }
    ensures all { IfOk result (λ list. AreConclusions (clause_at (spec.clauses reached.now) given) (clause_at (spec.clauses reached.now) partner) (nat_eq given partner) list) }
    ensures plain { IfOk result (λ list. Each IsPlainConclusion list) }
{
    let Some(given_clause) = reached.clause(given) else {
        return Ok(Listed::new(alloc));
    };
    let Some(partner_clause) = reached.clause(partner) else {
        return Ok(Listed::new(alloc));
    };
    conclusions(alloc, given_clause, partner_clause, given == partner)
}

/// The conclusions come in order, until one ends the search.
fn come(
    alloc: Global,
    state: &mut State<'_>,
    limits: &Limits,
    given: u32,
    partner: u32,
    list: Listed<Conclusion>,
) -> Result<Option<Ended>, NoMemory>
    requires consistent { IsConsistent state.old }
    requires plain { Each IsPlainConclusion list }
    ensures consistent { OnOk result (IsConsistent state.new) }
    ensures come { IfOk result (λ end. spec.Come limits.now (map (spec.renumbered given partner) list) state.old.reached state.new.reached end) }
{
    for conclusion in list.into_items() {
        let named = renumbered(given, partner, conclusion);
        if let Some(end) = comes(alloc, state, limits, named)? {
            return Ok(Some(end));
        }
    }
    Ok(None)
}

/// The conclusion, in whose step the parents have these numbers.
fn renumbered(given: u32, partner: u32, conclusion: Conclusion) -> Conclusion
    ensures { result ≡ spec.renumbered given partner conclusion }
{
    let Conclusion { clause, step } = conclusion;
    Conclusion {
        clause,
        step: renumbered_step(given, partner, step),
    }
}

fn parent_number(given: u32, partner: u32, number: u32) -> u32
    ensures { result ≡ spec.parent_number given partner number }
{
    if number == 0 { given } else { partner }
}

fn renumbered_step(given: u32, partner: u32, step: Step) -> Step
    ensures { result ≡ spec.renumbered_step given partner step }
{
    match step {
        Step::Input(number) => Step::Input(number),
        Step::Resolve {
            left,
            left_literal,
            left_subst,
            right,
            right_literal,
            right_subst,
        } => Step::Resolve {
            left: parent_number(given, partner, left),
            left_literal,
            left_subst,
            right: parent_number(given, partner, right),
            right_literal,
            right_subst,
        },
        Step::Factor {
            parent,
            kept_literal,
            dropped_literal,
            subst,
        } => Step::Factor {
            parent: parent_number(given, partner, parent),
            kept_literal,
            dropped_literal,
            subst,
        },
        Step::Paramodulate {
            source,
            source_literal,
            flipped,
            source_subst,
            target,
            target_literal,
            path,
            target_subst,
        } => Step::Paramodulate {
            source: parent_number(given, partner, source),
            source_literal,
            flipped,
            source_subst,
            target: parent_number(given, partner, target),
            target_literal,
            path,
            target_subst,
        },
    }
}

/// One conclusion comes. A count past 64 bits counts as want of memory, which comes long before.
fn comes(
    alloc: Global,
    state: &mut State<'_>,
    limits: &Limits,
    conclusion: Conclusion,
) -> Result<Option<Ended>, NoMemory>
    requires consistent { IsConsistent state.old }
    requires plain { IsPlain conclusion.clause }
    ensures consistent { OnOk result (IsConsistent state.new) }
    ensures comes { IfOk result (λ end. spec.Comes limits.now conclusion state.old.reached state.new.reached end) }
{
    match arrival_of(alloc, state, &conclusion.clause)? {
        Arrival::Contradiction => {
            state.add(alloc, conclusion)?;
            Ok(Some(Ended::Contradiction))
        }
        Arrival::Dropped => Ok(None),
        Arrival::Found => {
            let found = state.add(alloc, conclusion)?;
            state.list(alloc, found)?;
            state.reached.found.push(found)?;
            Ok(enough(state, limits))
        }
        Arrival::Aside => {
            let aside = state.add(alloc, conclusion)?;
            state.list(alloc, aside)?;
            state.reached.aside.push(aside)?;
            state.kept = state.kept.checked_add(1).ok_or(NoMemory)?;
            Ok(crowded(state, limits))
        }
        Arrival::Waits => {
            let waits = state.add(alloc, conclusion)?;
            state.list(alloc, waits)?;
            state.reached.waiting.push(waits)?;
            state.kept = state.kept.checked_add(1).ok_or(NoMemory)?;
            Ok(crowded(state, limits))
        }
    }
}

fn enough(state: &State<'_>, limits: &Limits) -> Option<Ended>
    ensures { result ≡ spec.end_with limits.now state.now.reached arrivals.Found }
{
    if limits.answers as usize <= state.reached.found.items().len() {
        Some(Ended::Enough)
    } else {
        None
    }
}

fn crowded(state: &State<'_>, limits: &Limits) -> Option<Ended>
    requires { IsConsistent state.now }
    ensures { result ≡ spec.end_with limits.now state.now.reached arrivals.Waits }
{
    if limits.kept as usize <= state.kept {
        Some(Ended::Crowded)
    } else {
        None
    }
}
