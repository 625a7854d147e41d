//! Which variables belong together. Nothing but the time of the search depends on it.
use crate::fitting::Problem;
use kif_tree::{Form, forms_equal};
use sigma_base::NoMemory;
use std::alloc::Global;

fn label_of(variables: &[Form], labels: &[usize], form: &Form) -> Option<usize> {
    for (variable, label) in variables.iter().zip(labels) {
        if forms_equal(variable, form) {
            return Some(*label);
        }
    }
    None
}

fn relabel(labels: &mut [usize], old: usize, new: usize) {
    for label in labels.iter_mut() {
        if *label == old {
            *label = new;
        }
    }
}

/// The variables among the forms get one label.
fn join(variables: &[Form], labels: &mut [usize], forms: &[Form]) {
    let mut first = None;
    for form in forms {
        let Some(label) = label_of(variables, labels, form) else {
            continue;
        };
        match first {
            Some(new) => relabel(labels, label, new),
            None => first = Some(label),
        }
    }
}

fn join_two(variables: &[Form], labels: &mut [usize], one: &Form, other: &Form) {
    let one = label_of(variables, labels, one);
    let other = label_of(variables, labels, other);
    if let (Some(new), Some(old)) = (one, other) {
        relabel(labels, old, new);
    }
}

/// A number for each variable, one for those that share a list or a condition, directly or through others.
pub(crate) fn number_parts(alloc: Global, problem: &Problem) -> Result<Vec<usize>, NoMemory> {
    let variables = problem.variables.items();
    let mut labels: Vec<usize> = (0..variables.len()).collect(alloc)?;
    for list in problem.lists.items() {
        join(variables, labels.as_mut_slice(), list.forms);
    }
    for condition in problem.conditions.items() {
        join_two(
            variables,
            labels.as_mut_slice(),
            condition.low,
            condition.high,
        );
    }
    Ok(labels)
}
