//! The clause of one step of a derivation, and of each.
ghost use Rattle.std.specs.Prelude.{◌≡◌, IfOk, Some, None, MatchOption};
ghost use Rattle.calculus.specs.Rules as rules;
ghost use Rattle.calculus_programs.specs.Derivations.{HasBadStep};

use crate::replacing::{Parent, replace};
use crate::rules::{factor, resolve};
use crate::tidying::tidy;
use calculus::{Replaced, Step};
use kif_tree::{Clause, Literal};
use sigma_base::{Listed, NoMemory};
use std::alloc::Global;

/// The clause of that number. It takes no memory.
pub fn nth(clauses: &[Clause], number: u32) -> Option<&Clause>
    ensures { MatchOption result (rules.nth clauses.now number ≡ None) (λ clause. rules.nth clauses.now number ≡ Some clause.now) }
{
    let at = number as usize;
    if at >= clauses.len() {
        return None;
    }
    Some(&clauses[at])
}

/// What a paramodulation replaces, where its rule allows it on the clauses so far.
pub fn replacement_of(
    alloc: Global,
    step: &Step,
    clauses: &[Clause],
) -> Result<Option<Replaced>, NoMemory>
    ensures { IfOk result (λ answer. answer ≡ rules.replacement step.now clauses.now) }
{
    let Step::Paramodulate {
        source,
        source_literal,
        flipped,
        source_subst,
        target,
        target_literal,
        path,
        target_subst,
    } = step
    else {
        return Ok(None);
    };
    let Some(source) = nth(clauses, *source) else {
        return Ok(None);
    };
    let Some(target) = nth(clauses, *target) else {
        return Ok(None);
    };
    let source = Parent {
        literals: source.literals.items(),
        at: *source_literal as usize,
        subst: source_subst,
    };
    let target = Parent {
        literals: target.literals.items(),
        at: *target_literal as usize,
        subst: target_subst,
    };
    replace(alloc, &source, *flipped, &target, path.items())
}

/// The conclusion of a step before it is tidied, where its rule allows it on the clauses so far.
pub fn untidy(
    alloc: Global,
    step: &Step,
    clauses: &[Clause],
) -> Result<Option<Listed<Literal>>, NoMemory>
    ensures { IfOk result (λ answer. answer ≡ rules.untidy step.now clauses.now) }
{
    match step {
        Step::Input(_) => Ok(None),
        Step::Resolve {
            left,
            left_literal,
            left_subst,
            right,
            right_literal,
            right_subst,
        } => {
            let Some(left) = nth(clauses, *left) else {
                return Ok(None);
            };
            let Some(right) = nth(clauses, *right) else {
                return Ok(None);
            };
            let left = left.literals.items();
            let right = right.literals.items();
            resolve(
                alloc,
                left,
                *left_literal,
                left_subst,
                right,
                *right_literal,
                right_subst,
            )
        }
        Step::Factor {
            parent,
            kept_literal,
            dropped_literal,
            subst,
        } => {
            let Some(parent) = nth(clauses, *parent) else {
                return Ok(None);
            };
            factor(
                alloc,
                parent.literals.items(),
                *kept_literal,
                *dropped_literal,
                subst,
            )
        }
        Step::Paramodulate { .. } => Ok(conclusion_of(replacement_of(alloc, step, clauses)?)),
    }
}

fn conclusion_of(made: Option<Replaced>) -> Option<Listed<Literal>>
    ensures { result ≡ rules.after made (λ replaced. Some replaced.conclusion) }
{
    let Some(
        Replaced {
            conclusion,
            left,
            right,
            frames,
        },
    ) = made
    else {
        return None;
    };
    Some(conclusion)
}

/// The clause of a step after those so far, where the step is allowed.
pub fn clause_of(
    alloc: Global,
    inputs: &[Clause],
    step: &Step,
    clauses: &[Clause],
) -> Result<Option<Clause>, NoMemory>
    ensures { IfOk result (λ answer. answer ≡ rules.clause_of inputs.now step.now clauses.now) }
{
    if let Step::Input(number) = step {
        let Some(input) = nth(inputs, *number) else {
            return Ok(None);
        };
        return Ok(Some(input.copy(alloc)?));
    }
    let Some(literals) = untidy(alloc, step, clauses)? else {
        return Ok(None);
    };
    Ok(Some(tidy(alloc, &Clause { literals })?))
}

/// The clauses of the steps, where each step is allowed on the clauses before it.
pub fn derive(
    alloc: Global,
    inputs: &[Clause],
    steps: &[Step],
) -> Result<Option<Listed<Clause>>, NoMemory>
    ensures { IfOk result (λ answer. MatchOption answer (HasBadStep inputs.now steps.now) (λ clauses. rules.Derivation inputs.now steps.now clauses)) }
{
    let mut clauses = Listed::new(alloc);
    for step in steps {
        let Some(clause) = clause_of(alloc, inputs, step, clauses.items())? else {
            return Ok(None);
        };
        clauses.push(clause)?;
    }
    Ok(Some(clauses))
}
