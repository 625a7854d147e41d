//! Resolution of two clauses.
ghost use Rattle.std.specs.Prelude.{◌≡◌, ◌<◌, ◌∷◌, [], length, get_or, List, Some, IfOk, OnOk, MatchOption};
ghost use Rattle.kif_tree.specs.declared.clause.Literal.{Literal};
ghost use Rattle.kif_tree.specs.Clauses.{Literals};
ghost use Rattle.calculus.specs.Rules.{nth};
ghost use Rattle.calculus.specs.declared.step.Step.TheVariants as steps;
ghost use Rattle.sigma_base.specs.Lists.{Each};
ghost use Rattle.infer.specs.Conclusions.{Adds, IsFoundAt};
ghost use Rattle.infer.specs.Inside.{MayMeet};
ghost use Rattle.infer.specs.Plain.{IsPlain, IsPlainConclusion};
ghost use Rattle.infer.specs.Sites.{each_below, resolution_sites, resolutions, unset};

use crate::apart::meet;
use crate::conclusion::{Conclusion, Parent, push_made};
use calculus::Step;
use calculus_programs::{append_others, made_tidy};
use kif_tree::{Clause, is_answer};
use sigma_base::{Listed, NoMemory};
use std::alloc::Global;

/// Adds the resolvents of the given clause and its partner, by the literal of the given clause and then the partner's.
pub(crate) fn add_resolutions(
    alloc: Global,
    found: &mut Listed<Conclusion>,
    given: &Clause,
    partner: &Clause,
) -> Result<(), NoMemory>
    ensures adds { OnOk result (Adds (given.now ∷ partner.now ∷ []) (resolutions given.now partner.now) found.old found.new) }
    ensures plain { OnOk result (IsPlain given.now → IsPlain partner.now → Each IsPlainConclusion found.old → Each IsPlainConclusion found.new) }
{
    for literal in 0..given.literals.items().len() {
        add_resolutions_at(alloc, found, given, literal, partner)?;
    }
    Ok(())
}

fn add_resolutions_at(
    alloc: Global,
    found: &mut Listed<Conclusion>,
    given: &Clause,
    literal: usize,
    partner: &Clause,
) -> Result<(), NoMemory>
    requires { literal < length given.now }
    ensures adds { OnOk result (Adds (given.now ∷ partner.now ∷ []) (each_below (length partner.now) (resolution_sites literal)) found.old found.new) }
    ensures plain { OnOk result (IsPlain given.now → IsPlain partner.now → Each IsPlainConclusion found.old → Each IsPlainConclusion found.new) }
{
    for other in 0..partner.literals.items().len() {
        add_resolution(alloc, found, given, literal, partner, other)?;
    }
    Ok(())
}

fn add_resolution(
    alloc: Global,
    found: &mut Listed<Conclusion>,
    given: &Clause,
    literal: usize,
    partner: &Clause,
    other: usize,
) -> Result<(), NoMemory>
    requires literal { literal < length given.now }
    requires other { other < length partner.now }
    ensures adds { OnOk result (Adds (given.now ∷ partner.now ∷ []) (resolution_sites literal other) found.old found.new) }
    ensures plain { OnOk result (IsPlain given.now → IsPlain partner.now → Each IsPlainConclusion found.old → Each IsPlainConclusion found.new) }
{
    let first = &given.literals.items()[literal];
    let second = &partner.literals.items()[other];
    if first.positive == second.positive {
        return Ok(());
    }
    if is_answer(&first.atom) {
        return Ok(());
    }
    if is_answer(&second.atom) {
        return Ok(());
    }
    let of_given = Parent {
        number: 0,
        clause: given,
        literal,
    };
    let of_partner = Parent {
        number: 1,
        clause: partner,
        literal: other,
    };
    if first.positive {
        let made = resolvent(alloc, &of_given, &of_partner)?;
        push_made(found, made)
    } else {
        let made = resolvent(alloc, &of_partner, &of_given)?;
        push_made(found, made)
    }
}

/// The resolvent of a positive literal and a negative one, which are no answer literals.
fn resolvent(alloc: Global, left: &Parent, right: &Parent) -> Result<Option<Conclusion>, NoMemory>
    requires left { left.now.literal < length left.now.clause.now }
    requires right { right.now.literal < length right.now.clause.now }
    requires signs { (l r : Literal) → l ≡ get_or left.now.clause.now left.now.literal l → r ≡ get_or right.now.clause.now right.now.literal r → MayMeet l r }
    ensures at { IfOk result (λ made. (clauses : List Literals) → nth clauses left.now.number ≡ Some left.now.clause.now → nth clauses right.now.number ≡ Some right.now.clause.now → IsFoundAt clauses (steps.Resolve left.now.number left.now.literal unset right.now.number right.now.literal unset) made) }
    ensures plain { IfOk result (λ made. IsPlain left.now.clause.now → IsPlain right.now.clause.now → MatchOption made (Unit {0}) IsPlainConclusion) }
{
    let left_clause = left.clause;
    let right_clause = right.clause;
    let first = left_clause.literals.items();
    let second = right_clause.literals.items();
    let Some(apart) = meet(
        alloc,
        first,
        &first[left.literal].atom,
        second,
        &second[right.literal].atom,
    )?
    else {
        return Ok(None);
    };
    let mut literals = Listed::new(alloc);
    append_others(alloc, &mut literals, first, left.literal, &apart.left)?;
    append_others(alloc, &mut literals, second, right.literal, &apart.right)?;
    let clause = made_tidy(alloc, Clause { literals })?;
    Ok(Some(Conclusion {
        clause,
        step: Step::Resolve {
            left: left.number,
            left_literal: left.literal as u64,
            left_subst: apart.left,
            right: right.number,
            right_literal: right.literal as u64,
            right_subst: apart.right,
        },
    }))
}
