//! The beginning of a search.
ghost use Rattle.std.specs.Prelude.{◌≡◌, ◌<◌, ◌^◌, length, map, IfOk};
ghost use Rattle.sigma_base.specs.Lists.{Each};
ghost use Rattle.infer.specs.Checks.{clauses_of};
ghost use Rattle.infer.specs.Plain.{IsPlain};
ghost use Rattle.calculus.specs.declared.step.Step.TheVariants as steps;
ghost use Rattle.saturate.specs.Runs as spec;
ghost use Rattle.saturate.specs.Fingerprints.{fingerprints as prints_of};
ghost use Rattle.saturate.specs.Marks.{tabled};
ghost use Rattle.saturate.specs.Indexes.{AreListed, listed as listed_in};
ghost use Rattle.saturate.specs.States.{IsConsistent};

use crate::fingerprint::Fingerprints;
use crate::index::{Index, list, rarest_key};
use crate::inputs::Inputs;
use crate::limits::Mode;
use crate::reached::{Reached, State, weight};
use crate::table::FingerprintTable;
use calculus::Step;
use sigma_base::{Listed, NoMemory};
use std::alloc::Global;
use std::collections::HashMap;

/// Where a search begins: the steps are the inputs. In support mode the clauses of the query wait and the others are processed, in full mode
/// all wait.
pub(crate) fn beginning<'a>(
    alloc: Global,
    inputs: Inputs<'a>,
    mode: Mode,
) -> Result<State<'a>, NoMemory>
    requires few { length inputs < 2 ^ 32 }
    requires plain { Each IsPlain (clauses_of inputs) }
    ensures is { IfOk result (λ state. state.reached ≡ spec.beginning inputs.entry mode) }
    ensures consistent { IfOk result (λ state. IsConsistent state) }
{
    let steps = input_steps(alloc, inputs.count() as u32)?;
    let weights = input_weights(alloc, &inputs)?;
    let fingerprints = input_fingerprints(alloc, &inputs)?;
    let listed = input_index(alloc, &inputs, fingerprints.all.items())?;
    let processed = first_processed(alloc, &inputs, mode)?;
    let waiting = first_waiting(alloc, &inputs, mode)?;
    Ok(State {
        reached: Reached {
            inputs,
            derived: Listed::new(alloc),
            steps,
            processed,
            waiting,
            aside: Listed::new(alloc),
            found: Listed::new(alloc),
        },
        weights,
        fingerprints,
        listed,
        kept: 0,
    })
}

fn input_steps(alloc: Global, count: u32) -> Result<Listed<Step>, NoMemory>
    ensures { IfOk result (λ list. list ≡ map steps.Input (spec.numbers_from 0 count)) }
{
    let mut list = Listed::new(alloc);
    for number in 0..count {
        list.push(Step::Input(number))?;
    }
    Ok(list)
}

fn input_weights(alloc: Global, inputs: &Inputs<'_>) -> Result<Listed<u64>, NoMemory>
    ensures { IfOk result (λ weights. weights ≡ map spec.weight (clauses_of inputs.now)) }
{
    let mut weights = Listed::new(alloc);
    for number in 0..inputs.count() {
        if let Some(input) = inputs.get(number) {
            weights.push(weight(&input.clause))?;
        }
    }
    Ok(weights)
}

fn input_fingerprints(alloc: Global, inputs: &Inputs<'_>) -> Result<FingerprintTable, NoMemory>
    ensures { IfOk result (λ table. table ≡ tabled (clauses_of inputs.now)) }
{
    let mut table = FingerprintTable::new(alloc);
    for number in 0..inputs.count() {
        if let Some(input) = inputs.get(number) {
            table.add(alloc, &input.clause)?;
        }
    }
    Ok(table)
}

/// All inputs, which have these fingerprints, each by the key of one of its literals.
fn input_index(
    alloc: Global,
    inputs: &Inputs<'_>,
    fingerprints: &[Fingerprints],
) -> Result<Index, NoMemory>
    requires few { length inputs.now < 2 ^ 32 }
    requires fingerprints { fingerprints.now ≡ map prints_of (clauses_of inputs.now) }
    ensures { IfOk result (λ index. AreListed inputs.now (listed_in index) (length inputs.now)) }
{
    let mut index = HashMap::new(alloc);
    for number in 0..inputs.count() {
        let key = rarest_key(&index, &fingerprints[number]);
        list(alloc, &mut index, key, number as u32)?;
    }
    Ok(index)
}

fn first_processed(alloc: Global, inputs: &Inputs<'_>, mode: Mode) -> Result<Listed<u32>, NoMemory>
    requires { length inputs.now < 2 ^ 32 }
    ensures { IfOk result (λ numbers. numbers ≡ spec.first_processed inputs.now mode) }
{
    match mode {
        Mode::Support => numbers_where(alloc, inputs, false),
        Mode::Full => Ok(Listed::new(alloc)),
    }
}

fn first_waiting(alloc: Global, inputs: &Inputs<'_>, mode: Mode) -> Result<Listed<u32>, NoMemory>
    requires { length inputs.now < 2 ^ 32 }
    ensures { IfOk result (λ numbers. numbers ≡ spec.first_waiting inputs.now mode) }
{
    match mode {
        Mode::Support => numbers_where(alloc, inputs, true),
        Mode::Full => all_numbers(alloc, inputs.count() as u32),
    }
}

/// The numbers of the clauses of the query, or of all others.
fn numbers_where(
    alloc: Global,
    inputs: &Inputs<'_>,
    of_query: bool,
) -> Result<Listed<u32>, NoMemory>
    requires { length inputs.now < 2 ^ 32 }
    ensures { IfOk result (λ numbers. numbers ≡ spec.numbers_where of_query inputs.now) }
{
    let mut numbers = Listed::new(alloc);
    for number in 0..inputs.count() as u32 {
        if inputs.is_of_query(number) == of_query {
            numbers.push(number)?;
        }
    }
    Ok(numbers)
}

fn all_numbers(alloc: Global, count: u32) -> Result<Listed<u32>, NoMemory>
    ensures { IfOk result (λ numbers. numbers ≡ spec.numbers_from 0 count) }
{
    let mut numbers = Listed::new(alloc);
    for number in 0..count {
        numbers.push(number)?;
    }
    Ok(numbers)
}
