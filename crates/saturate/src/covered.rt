//! Clauses that a search needn't keep.
ghost use Rattle.std.specs.Prelude.{◌≡◌, ◌↔◌, IsTrue, IfOk};
ghost use Rattle.std.specs.List.{list_any};
ghost use Rattle.saturate.specs.Covered as spec;
ghost use Rattle.saturate.specs.Runs.{clauses, IsCovered};
ghost use Rattle.saturate.specs.Indexes.{IsIndexed, listed as listed_in};
ghost use Rattle.saturate.specs.States.{HasFingerprints};

use crate::fingerprint::Fingerprints;
use crate::lookup::{is_subsumed, is_under};
use crate::reached::State;
use kif_tree::{Clause, Literal, forms_equal};
use sigma_base::NoMemory;
use std::alloc::Global;

/// An atom stands in the clause with both signs. It takes no memory.
pub fn is_tautology(clause: &Clause) -> bool
    ensures { result ≡ spec.is_tautology clause.now }
{
    let literals = clause.literals.items();
    for literal in literals {
        if has_opposite(literal, literals) {
            return true;
        }
    }
    false
}

fn has_opposite(literal: &Literal, literals: &[Literal]) -> bool
    ensures { result ≡ list_any (spec.are_opposite literal.now) literals.now }
{
    for other in literals {
        if literal.positive != other.positive && forms_equal(&literal.atom, &other.atom) {
            return true;
        }
    }
    false
}

/// The clause is a tautology, or one of the clauses with these numbers subsumes it.
pub(crate) fn is_needless(
    alloc: Global,
    state: &State<'_>,
    numbers: &[u32],
    clause: &Clause,
) -> Result<bool, NoMemory>
    requires { HasFingerprints state.now }
    ensures { IfOk result (λ answer. IsTrue answer ↔ spec.IsNeedless (clauses state.now.reached) numbers.now clause.now) }
{
    if is_tautology(clause) {
        return Ok(true);
    }
    let prints = Fingerprints::of(alloc, clause)?;
    is_subsumed(alloc, state, numbers, clause, &prints)
}

/// The clause is a tautology, or one that is processed, waits, is aside or was found subsumes it.
pub(crate) fn is_covered(
    alloc: Global,
    state: &State<'_>,
    clause: &Clause,
) -> Result<bool, NoMemory>
    requires kept { HasFingerprints state.now }
    requires indexed { IsIndexed (listed_in state.now.listed) state.now.reached }
    ensures { IfOk result (λ answer. IsTrue answer ↔ IsCovered state.now.reached clause.now) }
{
    if is_tautology(clause) {
        return Ok(true);
    }
    let prints = Fingerprints::of(alloc, clause)?;
    is_under(alloc, state, clause, &prints)
}
