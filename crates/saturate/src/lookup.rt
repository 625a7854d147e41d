//! Looks among the clauses of an index for one that subsumes a clause.
ghost use Rattle.std.specs.Prelude.{◌≡◌, ◌↔◌, ◌∷◌, [], IsTrue, IfOk};
ghost use Rattle.sigma_base.specs.Lists.{Each};
ghost use Rattle.saturate.specs.Covered.{IsSubsumed};
ghost use Rattle.saturate.specs.Fingerprints.{fingerprints as prints_of, fingerprint_of};
ghost use Rattle.saturate.specs.Indexes as spec;
ghost use Rattle.saturate.specs.Runs.{clauses};
ghost use Rattle.saturate.specs.States.{HasFingerprints};

use crate::fingerprint::{Fingerprint, Fingerprints};
use crate::index::{key, listed};
use crate::reached::{Reached, State};
use kif_tree::Clause;
use sigma_base::NoMemory;
use std::alloc::Global;
use unify::subsumes;

/// The clause of that number subsumes the clause.
fn subsumes_at(
    alloc: Global,
    reached: &Reached<'_>,
    number: u32,
    clause: &Clause,
) -> Result<bool, NoMemory>
    ensures { IfOk result (λ answer. IsTrue answer ↔ IsSubsumed (clauses reached.now) (number ∷ []) clause.now) }
{
    match reached.clause(number) {
        Some(general) => subsumes(alloc, general, clause),
        None => Ok(false),
    }
}

/// One of the clauses with these numbers subsumes the clause, which has these fingerprints.
pub(crate) fn is_subsumed(
    alloc: Global,
    state: &State<'_>,
    numbers: &[u32],
    clause: &Clause,
    prints: &Fingerprints,
) -> Result<bool, NoMemory>
    requires kept { HasFingerprints state.now }
    requires prints { prints.now ≡ prints_of clause.now }
    ensures { IfOk result (λ answer. IsTrue answer ↔ IsSubsumed (clauses state.now.reached) numbers.now clause.now) }
{
    for number in numbers {
        if state.may_subsume(*number, prints)
            && subsumes_at(alloc, &state.reached, *number, clause)?
        {
            return Ok(true);
        }
    }
    Ok(false)
}

/// One of the clauses under the key of the fingerprint subsumes the clause.
fn under(
    alloc: Global,
    state: &State<'_>,
    clause: &Clause,
    prints: &Fingerprints,
    print: Fingerprint,
) -> Result<bool, NoMemory>
    requires kept { HasFingerprints state.now }
    requires prints { prints.now ≡ prints_of clause.now }
    requires codes { spec.HasCodes print }
    ensures { IfOk result (λ answer. IsTrue answer ↔ spec.Under (spec.listed state.now.listed) (clauses state.now.reached) clause.now print.positive print.head print.first print.second) }
{
    let place = key(print.positive, print.head, print.first, print.second);
    is_subsumed(alloc, state, listed(&state.listed, place), clause, prints)
}

/// One of the clauses with that sign, head and first argument, and with that second argument or no code of one, subsumes the clause.
fn under_second(
    alloc: Global,
    state: &State<'_>,
    clause: &Clause,
    prints: &Fingerprints,
    print: Fingerprint,
) -> Result<bool, NoMemory>
    requires kept { HasFingerprints state.now }
    requires prints { prints.now ≡ prints_of clause.now }
    requires codes { spec.HasCodes print }
    ensures { IfOk result (λ answer. IsTrue answer ↔ spec.UnderSecond (spec.listed state.now.listed) (clauses state.now.reached) clause.now print.positive print.head print.first print.second) }
{
    if under(alloc, state, clause, prints, print)? {
        return Ok(true);
    }
    if print.second == 0 {
        return Ok(false);
    }
    under(
        alloc,
        state,
        clause,
        prints,
        Fingerprint { second: 0, ..print },
    )
}

/// The same where the first argument may have no code either.
fn under_first(
    alloc: Global,
    state: &State<'_>,
    clause: &Clause,
    prints: &Fingerprints,
    print: Fingerprint,
) -> Result<bool, NoMemory>
    requires kept { HasFingerprints state.now }
    requires prints { prints.now ≡ prints_of clause.now }
    requires codes { spec.HasCodes print }
    ensures { IfOk result (λ answer. IsTrue answer ↔ spec.UnderFirst (spec.listed state.now.listed) (clauses state.now.reached) clause.now print.positive print.head print.first print.second) }
{
    if under_second(alloc, state, clause, prints, print)? {
        return Ok(true);
    }
    if print.first == 0 {
        return Ok(false);
    }
    under_second(
        alloc,
        state,
        clause,
        prints,
        Fingerprint { first: 0, ..print },
    )
}

/// The same where the head may have no code either.
fn under_head(
    alloc: Global,
    state: &State<'_>,
    clause: &Clause,
    prints: &Fingerprints,
    print: Fingerprint,
) -> Result<bool, NoMemory>
    requires kept { HasFingerprints state.now }
    requires prints { prints.now ≡ prints_of clause.now }
    requires codes { spec.HasCodes print }
    ensures { IfOk result (λ answer. IsTrue answer ↔ spec.UnderPrint (spec.listed state.now.listed) (clauses state.now.reached) clause.now print) }
{
    if under_first(alloc, state, clause, prints, print)? {
        return Ok(true);
    }
    if print.head == 0 {
        return Ok(false);
    }
    under_first(
        alloc,
        state,
        clause,
        prints,
        Fingerprint { head: 0, ..print },
    )
}

/// The same for one of the fingerprints.
fn under_any(
    alloc: Global,
    state: &State<'_>,
    clause: &Clause,
    prints: &Fingerprints,
    looked_up: &[Fingerprint],
) -> Result<bool, NoMemory>
    requires kept { HasFingerprints state.now }
    requires prints { prints.now ≡ prints_of clause.now }
    requires codes { Each spec.HasCodes looked_up.now }
    ensures { IfOk result (λ answer. IsTrue answer ↔ spec.UnderAny (spec.listed state.now.listed) (clauses state.now.reached) clause.now looked_up.now) }
{
    for print in looked_up {
        if under_head(alloc, state, clause, prints, *print)? {
            return Ok(true);
        }
    }
    Ok(false)
}

/// The fingerprint of a literal whose atom is no list.
fn without_parts(positive: bool) -> Fingerprint
    ensures { result ≡ fingerprint_of positive [] }
{
    Fingerprint {
        positive,
        parts: 0,
        head: 0,
        first: 0,
        second: 0,
    }
}

/// One of the clauses that are looked up for the clause, which has these fingerprints, subsumes it.
pub(crate) fn is_under(
    alloc: Global,
    state: &State<'_>,
    clause: &Clause,
    prints: &Fingerprints,
) -> Result<bool, NoMemory>
    requires kept { HasFingerprints state.now }
    requires prints { prints.now ≡ prints_of clause.now }
    ensures { IfOk result (λ answer. IsTrue answer ↔ spec.UnderClause (spec.listed state.now.listed) (clauses state.now.reached) clause.now) }
{
    if under(alloc, state, clause, prints, without_parts(true))? {
        return Ok(true);
    }
    if under(alloc, state, clause, prints, without_parts(false))? {
        return Ok(true);
    }
    if under_head(alloc, state, clause, prints, prints.first)? {
        return Ok(true);
    }
    under_any(alloc, state, clause, prints, prints.others.items())
}
