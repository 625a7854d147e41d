//! The proof of one clause of a search: the steps on which it rests.
ghost use Rattle.std.specs.Prelude.{◌≡◌, ◌<◌, ◌^◌, ◌+◌, ◌≤◌, ◌++◌, ◌∷◌, [], length, map, IfOk, OnOk, Some};
ghost use Rattle.sigma_base.specs.Lists.{Each};
ghost use Rattle.calculus.specs.Answers.{Among};
ghost use Rattle.calculus.specs.Rules.{nth};
ghost use Rattle.infer.specs.Conclusions.{clause_at};
ghost use Rattle.saturate.specs.Runs.{clauses};
ghost use Rattle.answers.specs.Proofs as spec;

use crate::proof::{Proof, ProofLine, Rule};
use calculus::Step;
use kif_tree::{Clause, Pair, Place, Subst};
use saturate::{Inputs, Reached};
use sigma_base::{Listed, NoMemory};
use std::alloc::Global;

/// The steps on which the one of that number rests, in their order, numbered anew, and a line for each.
pub(crate) fn proof_of(alloc: Global, reached: &Reached<'_>, number: u32) -> Result<Proof, NoMemory>
    requires there { number < length reached.now.steps }
    requires earlier { spec.ParentsComeBefore reached.now.steps }
    requires clauses { length reached.now.steps ≡ length (clauses reached.now) }
    ensures { IfOk result (λ proof. spec.IsProofOf reached.now.inputs reached.now.steps (clauses reached.now) number proof) }
{
    let numbers = rests(alloc, reached.steps.items(), number)?;
    let steps = steps_at(alloc, reached.steps.items(), numbers.items())?;
    let lines = lines_at(alloc, reached, steps.items(), numbers.items())?;
    Ok(Proof { steps, lines })
}

/// The numbers of all steps on which that one rests, in order.
fn rests(alloc: Global, steps: &[Step], number: u32) -> Result<Listed<u32>, NoMemory>
    requires there { number < length steps.now }
    requires earlier { spec.ParentsComeBefore steps.now }
    ensures { IfOk result (λ numbers. spec.AreRests steps.now number numbers) }
{
    let wanted = wanted_for(alloc, steps, number)?;
    let mut numbers = Listed::new(alloc);
    for at in 0..=number {
        if wanted[at as usize] {
            numbers.push(at)?;
        }
    }
    Ok(numbers)
}

/// For each step up to that one, whether it rests on it.
fn wanted_for(alloc: Global, steps: &[Step], number: u32) -> Result<Vec<bool>, NoMemory>
    requires there { number < length steps.now }
    requires earlier { spec.ParentsComeBefore steps.now }
    ensures { IfOk result (λ wanted. spec.TellsRests steps.now number wanted.items) }
{
    let mut wanted = vec![in alloc; false; number as usize + 1]?;
    wanted[number as usize] = true;
    for back in 0..=number {
        let at = (number - back) as usize;
        if wanted[at] {
            want_parents(wanted.as_mut_slice(), &steps[at]);
        }
    }
    Ok(wanted)
}

/// Marks the parents of the step.
fn want_parents(wanted: &mut [bool], step: &Step)
    ensures { wanted.new ≡ spec.all_marked wanted.old (spec.parents step.now) }
{
    match step {
        Step::Input(_) => {}
        Step::Resolve { left, right, .. } => {
            want(wanted, *left);
            want(wanted, *right);
        }
        Step::Factor { parent, .. } => want(wanted, *parent),
        Step::Paramodulate { source, target, .. } => {
            want(wanted, *source);
            want(wanted, *target);
        }
    }
}

fn want(wanted: &mut [bool], number: u32)
    ensures { wanted.new ≡ spec.marked wanted.old number }
{
    let at = number as usize;
    if at < wanted.len() {
        wanted[at] = true;
    }
}

/// The place of the number among those, which ascend.
fn place_among(numbers: &[u32], number: u32) -> u32
    requires ascending { spec.AreAscending numbers.now }
    requires few { length numbers.now ≤ 2 ^ 32 }
    ensures { Among number numbers.now → result ≡ spec.place_among numbers.now number }
{
    match numbers.binary_search(&number) {
        Ok(place) => place as u32,
        Err(_) => 0,
    }
}

fn steps_at(alloc: Global, steps: &[Step], numbers: &[u32]) -> Result<Listed<Step>, NoMemory>
    requires closed { spec.AreClosed steps.now numbers.now }
    ensures { IfOk result (λ list. list ≡ spec.steps_at steps.now numbers.now) }
{
    let mut list = Listed::new(alloc);
    for number in numbers {
        if let Some(step) = steps.get(*number as usize) {
            list.push(renumbered(alloc, numbers, step)?)?;
        }
    }
    Ok(list)
}

fn copy_subst(alloc: Global, subst: &Subst) -> Result<Subst, NoMemory>
    ensures { IfOk result (λ copy. copy ≡ subst.now) }
{
    let mut pairs = Listed::new(alloc);
    for pair in subst.pairs.items() {
        pairs.push(Pair {
            variable: pair.variable.copy(alloc)?,
            term: pair.term.copy(alloc)?,
        })?;
    }
    Ok(Subst { pairs })
}

/// The step, whose parents have the numbers of their places.
fn renumbered(alloc: Global, numbers: &[u32], step: &Step) -> Result<Step, NoMemory>
    requires ascending { spec.AreAscending numbers.now }
    requires few { length numbers.now ≤ 2 ^ 32 }
    requires parents { Each (λ parent. Among parent numbers.now) (spec.parents step.now) }
    ensures { IfOk result (λ other. other ≡ spec.renumbered numbers.now step.now) }
{
    Ok(match step {
        Step::Input(number) => Step::Input(*number),
        Step::Resolve {
            left,
            left_literal,
            left_subst,
            right,
            right_literal,
            right_subst,
        } => Step::Resolve {
            left: place_among(numbers, *left),
            left_literal: *left_literal,
            left_subst: copy_subst(alloc, left_subst)?,
            right: place_among(numbers, *right),
            right_literal: *right_literal,
            right_subst: copy_subst(alloc, right_subst)?,
        },
        Step::Factor {
            parent,
            kept_literal,
            dropped_literal,
            subst,
        } => Step::Factor {
            parent: place_among(numbers, *parent),
            kept_literal: *kept_literal,
            dropped_literal: *dropped_literal,
            subst: copy_subst(alloc, subst)?,
        },
        Step::Paramodulate {
            source,
            source_literal,
            flipped,
            source_subst,
            target,
            target_literal,
            path,
            target_subst,
        } => Step::Paramodulate {
            source: place_among(numbers, *source),
            source_literal: *source_literal,
            flipped: *flipped,
            source_subst: copy_subst(alloc, source_subst)?,
            target: place_among(numbers, *target),
            target_literal: *target_literal,
            path: Listed::of(path.items().to_vec(alloc)?),
            target_subst: copy_subst(alloc, target_subst)?,
        },
    })
}

/// A line for each of the steps, which stand there for those numbers.
fn lines_at(
    alloc: Global,
    reached: &Reached<'_>,
    steps: &[Step],
    numbers: &[u32],
) -> Result<Listed<ProofLine>, NoMemory>
    requires steps { steps.now ≡ spec.steps_at reached.now.steps numbers.now }
    requires there { Each (λ number. number < length reached.now.steps) numbers.now }
    requires clauses { length reached.now.steps ≡ length (clauses reached.now) }
    ensures { IfOk result (λ lines. lines ≡ spec.lines_at reached.now.inputs reached.now.steps (clauses reached.now) numbers.now) }
{
    let mut lines = Listed::new(alloc);
    for at in 0..steps.len() {
        if let Some(clause) = reached.clause(numbers[at]) {
            lines.push(line_of(alloc, &reached.inputs, &steps[at], clause)?)?;
        }
    }
    Ok(lines)
}

fn line_of(
    alloc: Global,
    inputs: &Inputs<'_>,
    step: &Step,
    clause: &Clause,
) -> Result<ProofLine, NoMemory>
    ensures { IfOk result (λ line. line ≡ spec.line_of inputs.now step.now clause.now) }
{
    Ok(ProofLine {
        clause: clause.copy(alloc)?,
        rule: rule_of(inputs, step),
        parents: parents(alloc, step)?,
        place: place_of(inputs, step),
    })
}

fn rule_of(inputs: &Inputs<'_>, step: &Step) -> Rule
    ensures { result ≡ spec.rule_of inputs.now step.now }
{
    match step {
        Step::Input(number) => input_rule(inputs, *number),
        Step::Resolve { .. } => Rule::Resolve,
        Step::Factor { .. } => Rule::Factor,
        Step::Paramodulate { .. } => Rule::Paramodulate,
    }
}

fn input_rule(inputs: &Inputs<'_>, number: u32) -> Rule
    ensures { result ≡ spec.input_rule (nth inputs.now number) }
{
    let Some(input) = inputs.get(number as usize) else {
        return Rule::Reflexivity;
    };
    if input.place.is_some() {
        Rule::Axiom
    } else if input.variant > 0 {
        Rule::Query
    } else {
        Rule::Reflexivity
    }
}

fn place_of(inputs: &Inputs<'_>, step: &Step) -> Option<Place>
    ensures { result ≡ spec.place_of inputs.now step.now }
{
    let Step::Input(number) = step else {
        return None;
    };
    let input = inputs.get(*number as usize)?;
    input.place
}

/// The numbers of the parents in the step.
fn parents(alloc: Global, step: &Step) -> Result<Listed<u32>, NoMemory>
    ensures { IfOk result (λ numbers. numbers ≡ spec.parents step.now) }
{
    let mut numbers = Listed::new(alloc);
    match step {
        Step::Input(_) => {}
        Step::Resolve { left, right, .. } => {
            numbers.push(*left)?;
            numbers.push(*right)?;
        }
        Step::Factor { parent, .. } => numbers.push(*parent)?,
        Step::Paramodulate { source, target, .. } => {
            numbers.push(*source)?;
            numbers.push(*target)?;
        }
    }
    Ok(numbers)
}
