//! All conclusions of two clauses.
ghost use Rattle.std.specs.Prelude.{IfOk};
ghost use Rattle.sigma_base.specs.Lists.{Each};
ghost use Rattle.infer.specs.Conclusions.{AreConclusions};
ghost use Rattle.infer.specs.Plain.{IsPlain, IsPlainConclusion};

use crate::conclusion::Conclusion;
use crate::paramodulation::add_paramodulations;
use crate::resolution::add_resolutions;
use kif_tree::Clause;
use sigma_base::{Listed, NoMemory};
use std::alloc::Global;

/// What follows from the given clause and its partner by one resolution or paramodulation under most general unifiers, in this order:
/// resolutions, by the literal of the given clause and then the partner's; paramodulations from the given clause into its partner;
/// paramodulations from the partner into the given clause, left out where `same` says that the two are one clause of a search.
/// Paramodulations go by source literal, unflipped first, target literal, and place from left to right, outer before inner. The
/// clauses have variables of their own.
pub fn conclusions(
    alloc: Global,
    given: &Clause,
    partner: &Clause,
    same: bool,
) -> Result<Listed<Conclusion>, NoMemory>
    ensures all { IfOk result (λ found. AreConclusions given.now partner.now same found) }
    ensures plain { IfOk result (λ found. IsPlain given.now → IsPlain partner.now → Each IsPlainConclusion found) }
{
    let mut found = Listed::new(alloc);
    add_resolutions(alloc, &mut found, given, partner)?;
    add_paramodulations(alloc, &mut found, 0, given, 1, partner)?;
    if !same {
        add_paramodulations(alloc, &mut found, 1, partner, 0, given)?;
    }
    Ok(found)
}
