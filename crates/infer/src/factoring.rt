//! Factoring of a clause.
ghost use Rattle.std.specs.Prelude.{◌<◌, ◌∷◌, [], length, IfOk, OnOk, MatchOption};
ghost use Rattle.sigma_base.specs.Lists.{Each};
ghost use Rattle.calculus.specs.declared.step.Step.TheVariants as steps;
ghost use Rattle.infer.specs.Conclusions.{AreFactors, Adds, IsFoundAt};
ghost use Rattle.infer.specs.Plain.{IsPlain, IsPlainConclusion};
ghost use Rattle.infer.specs.Sites.{each_below, unset};

use crate::conclusion::{Conclusion, push_made};
use calculus::Step;
use calculus_programs::{append_others, made_tidy};
use kif_tree::{Clause, is_answer};
use sigma_base::{Listed, NoMemory};
use std::alloc::Global;
use unify::unify;

/// The factors of the clause under most general unifiers, by the kept literal and then the dropped one, which stands after it.
pub fn factors(alloc: Global, given: &Clause) -> Result<Listed<Conclusion>, NoMemory>
    ensures all { IfOk result (λ found. AreFactors given.now found) }
    ensures plain { IfOk result (λ found. IsPlain given.now → Each IsPlainConclusion found) }
{
    let mut found = Listed::new(alloc);
    for kept in 0..given.literals.items().len() {
        add_factors(alloc, &mut found, given, kept)?;
    }
    Ok(found)
}

fn add_factors(
    alloc: Global,
    found: &mut Listed<Conclusion>,
    given: &Clause,
    kept: usize,
) -> Result<(), NoMemory>
    requires { kept < length given.now }
    ensures adds { OnOk result (Adds (given.now ∷ []) (each_below (length given.now) (λ dropped. steps.Factor 0 kept dropped unset ∷ [])) found.old found.new) }
    ensures plain { OnOk result (IsPlain given.now → Each IsPlainConclusion found.old → Each IsPlainConclusion found.new) }
{
    let count = given.literals.items().len();
    for dropped in kept + 1..count {
        let made = factor_at(alloc, given, kept, dropped)?;
        push_made(found, made)?;
    }
    Ok(())
}

/// The factor that drops a literal for an earlier one.
fn factor_at(
    alloc: Global,
    given: &Clause,
    kept: usize,
    dropped: usize,
) -> Result<Option<Conclusion>, NoMemory>
    requires order { kept < dropped }
    requires there { dropped < length given.now }
    ensures at { IfOk result (λ made. IsFoundAt (given.now ∷ []) (steps.Factor 0 kept dropped unset) made) }
    ensures plain { IfOk result (λ made. IsPlain given.now → MatchOption made (Unit {0}) IsPlainConclusion) }
{
    let all = given.literals.items();
    let first = &all[kept];
    let second = &all[dropped];
    if first.positive != second.positive {
        return Ok(None);
    }
    if is_answer(&first.atom) {
        return Ok(None);
    }
    if is_answer(&second.atom) {
        return Ok(None);
    }
    let Some(subst) = unify(alloc, &first.atom, &second.atom)? else {
        return Ok(None);
    };
    let mut literals = Listed::new(alloc);
    append_others(alloc, &mut literals, all, dropped, &subst)?;
    let clause = made_tidy(alloc, Clause { literals })?;
    Ok(Some(Conclusion {
        clause,
        step: Step::Factor {
            parent: 0,
            kept_literal: kept as u64,
            dropped_literal: dropped as u64,
            subst,
        },
    }))
}
