//! The check of derivations.
ghost use Rattle.std.specs.Prelude.{◌≡◌, ◌<◌, ◌^◌, ℕ, length, IfOk, IfErr};
ghost use Rattle.calculus.specs.Rules.{Derivation};
ghost use Rattle.calculus.specs.Rules as rules;
ghost use Rattle.infer.specs.Checks.{clauses_of, IsBadStep, HasGroundEvidence, FollowsFromEvidence, KeepsAnswers};
ghost use Rattle.infer.specs.declared.check.CheckError.TheVariants.{BadStep};

use calculus::Step;
use calculus_programs::{made_tidy, untidy};
use kif_tree::{Clause, InputClause};
use sigma_base::{Listed, NoMemory};
use std::alloc::Global;

/// Why steps have no clauses.
#[derive(Clone, Copy, Debug, PartialEq, Eq)]
pub enum CheckError {
    /// The first step that isn't allowed, counted from 0.
    BadStep(u32),
    NoMemory,
}

impl From<NoMemory> for CheckError {
    ghost use Rattle.std.specs.Prelude.{◌≡◌};
    ghost use Rattle.infer.specs.declared.check.CheckError.TheVariants as errors;

    ghost from_gives = { λ _ error. error ≡ errors.NoMemory };

    fn from(_: NoMemory) -> CheckError {
        CheckError::NoMemory
    }
}

/// The clause of each step. A step may take any substitutions under which the terms of its rule are equal.
///
/// For each clause and each ground substitution of its variables there is a list of clauses, its evidence, from which the clause's
/// instance follows. Where no row variable occurs in inputs and steps, each of them is a ground instance of an input, without its
/// answer literals, or of equality. The answer literals of each use of an input are answer literals of the clause, all filled in.
pub fn check_derivation(
    alloc: Global,
    inputs: &[InputClause],
    steps: &[Step],
) -> Result<Listed<Clause>, CheckError>
    requires { length steps.now < 2 ^ 32 }
    ensures derivation { IfOk result (λ clauses. Derivation (clauses_of inputs.now) steps.now clauses) }
    ensures bad_step { IfErr result (λ error. (number : ℕ) → error ≡ BadStep number → IsBadStep (clauses_of inputs.now) steps.now number) }
    ensures ground { IfOk result (λ clauses. HasGroundEvidence (clauses_of inputs.now) steps.now clauses) }
    ensures follows { IfOk result (λ clauses. FollowsFromEvidence (clauses_of inputs.now) steps.now clauses) }
    ensures answers { IfOk result (λ clauses. KeepsAnswers (clauses_of inputs.now) steps.now clauses) }
{
    let mut clauses = Listed::new(alloc);
    for number in 0..steps.len() {
        let Some(clause) = clause_of(alloc, inputs, &steps[number], clauses.items())? else {
            return Err(CheckError::BadStep(number as u32));
        };
        clauses.push(clause)?;
    }
    Ok(clauses)
}

/// The clause of a step after those so far, where the step is allowed.
fn clause_of(
    alloc: Global,
    inputs: &[InputClause],
    step: &Step,
    clauses: &[Clause],
) -> Result<Option<Clause>, NoMemory>
    ensures { IfOk result (λ answer. answer ≡ rules.clause_of (clauses_of inputs.now) step.now clauses.now) }
{
    if let Step::Input(number) = step {
        return input_clause(alloc, inputs, *number);
    }
    let Some(literals) = untidy(alloc, step, clauses)? else {
        return Ok(None);
    };
    Ok(Some(made_tidy(alloc, Clause { literals })?))
}

fn input_clause(
    alloc: Global,
    inputs: &[InputClause],
    number: u32,
) -> Result<Option<Clause>, NoMemory>
    ensures { IfOk result (λ answer. answer ≡ rules.nth (clauses_of inputs.now) number) }
{
    let at = number as usize;
    if at >= inputs.len() {
        return Ok(None);
    }
    Ok(Some(inputs[at].clause.copy(alloc)?))
}
