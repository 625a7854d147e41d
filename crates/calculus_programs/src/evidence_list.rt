//! The ground evidence of a derivation's clause under a filling, computed.
ghost use Rattle.std.specs.Prelude.{◌≡◌, ◌∷◌, [], ◌++◌, None, take, IfOk, OnOk, MatchOption};
ghost use Rattle.kif_tree.specs.Subst.{lookup, value_of, via};
ghost use Rattle.kif_tree.specs.Clauses.{bare};
ghost use Rattle.calculus.specs.Rules as rules;
ghost use Rattle.calculus.specs.Evidence as spec;
ghost use Rattle.calculus_programs.specs.Pairs.{Turned};

use crate::fillings::{follow, turn_back};
use crate::instances::append_equalities;
use crate::steps::{nth, replacement_of, untidy};
use calculus::Step;
use kif_tree::{Clause, Pair, Subst, ground_instance};
use sigma_base::{Listed, NoMemory};
use std::alloc::Global;

/// A derivation: what it begins from, its steps, and the clause of each step.
#[derive(Clone, Copy)]
pub struct Derived<'a> {
    pub inputs: &'a [Clause],
    pub steps: &'a [Step],
    pub clauses: &'a [Clause],
}

/// The evidence of the numbered clause under the filling that the pairs are: any other variable becomes the word `!any`.
pub fn evidence(
    alloc: Global,
    derived: &Derived,
    number: usize,
    filling: &Subst,
) -> Result<Listed<Clause>, NoMemory>
    ensures { IfOk result (λ list. list ≡ spec.evidence derived.now.inputs.now derived.now.steps.now derived.now.clauses.now number (value_of filling.now.pairs)) }
{
    let mut list = Listed::new(alloc);
    append_evidence(alloc, &mut list, derived, number, filling.pairs.items())?;
    Ok(list)
}

#[cycle(evidence)]
fn append_evidence(
    alloc: Global,
    out: &mut Listed<Clause>,
    derived: &Derived,
    number: usize,
    filling: &[Pair],
) -> Result<(), NoMemory>
    ensures { OnOk result (out.new ≡ out.old ++ spec.evidence derived.now.inputs.now derived.now.steps.now derived.now.clauses.now number (value_of filling.now)) }
{
    if number >= derived.steps.len() {
        return Ok(());
    }
    let step = &derived.steps[number];
    let earlier = first_ones(derived.clauses, number);
    match step {
        Step::Input(input) => append_instance(alloc, out, derived.inputs, *input, filling),
        Step::Resolve {
            left,
            left_subst,
            right,
            right_subst,
            ..
        } => {
            let Some(turned) = turned(alloc, step, earlier, filling)? else {
                return Ok(());
            };
            append_parent(alloc, out, derived, *left, left_subst, turned.items())?;
            append_parent(alloc, out, derived, *right, right_subst, turned.items())
        }
        Step::Factor { parent, subst, .. } => {
            let Some(turned) = turned(alloc, step, earlier, filling)? else {
                return Ok(());
            };
            append_parent(alloc, out, derived, *parent, subst, turned.items())
        }
        Step::Paramodulate {
            source,
            source_subst,
            target,
            target_subst,
            ..
        } => {
            let Some(made) = replacement_of(alloc, step, earlier)? else {
                return Ok(());
            };
            let turned = turn_back(alloc, made.conclusion.items(), filling)?;
            append_parent(alloc, out, derived, *source, source_subst, turned.items())?;
            append_parent(alloc, out, derived, *target, target_subst, turned.items())?;
            append_equalities(alloc, out, &made, turned.items())
        }
    }
}

/// Adds the evidence of a parent under its own substitution followed by what the conclusion before tidying is under.
#[cycle(evidence)]
fn append_parent(
    alloc: Global,
    out: &mut Listed<Clause>,
    derived: &Derived,
    parent: u32,
    subst: &Subst,
    turned: &[Pair],
) -> Result<(), NoMemory>
    ensures { OnOk result (out.new ≡ out.old ++ spec.evidence derived.now.inputs.now derived.now.steps.now derived.now.clauses.now parent (via (lookup subst.now.pairs) (value_of turned.now))) }
{
    let filling = follow(alloc, subst, turned)?;
    append_evidence(alloc, out, derived, parent as usize, filling.items())
}

/// What the step's conclusion before tidying is under, where its rule allows it.
fn turned(
    alloc: Global,
    step: &Step,
    earlier: &[Clause],
    filling: &[Pair],
) -> Result<Option<Listed<Pair>>, NoMemory>
    ensures { IfOk result (λ answer. MatchOption answer (rules.untidy step.now earlier.now ≡ None) (λ pairs. Turned step.now earlier.now (value_of filling.now) pairs)) }
{
    let Some(raw) = untidy(alloc, step, earlier)? else {
        return Ok(None);
    };
    Ok(Some(turn_back(alloc, raw.items(), filling)?))
}

fn first_ones(clauses: &[Clause], count: usize) -> &[Clause]
    ensures { result.now ≡ take count clauses.now }
{
    if count < clauses.len() {
        return &clauses[..count];
    }
    clauses
}

fn append_instance(
    alloc: Global,
    out: &mut Listed<Clause>,
    inputs: &[Clause],
    input: u32,
    filling: &[Pair],
) -> Result<(), NoMemory>
    ensures { OnOk result (out.new ≡ out.old ++ spec.list_from (rules.nth inputs.now input) (λ clause. bare clause (value_of filling.now) ∷ [])) }
{
    let Some(clause) = nth(inputs, input) else {
        return Ok(());
    };
    out.push(ground_instance(alloc, clause, filling)?)
}
