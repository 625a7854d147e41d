//! The variables for which something is chosen.
ghost use Rattle.std.specs.Prelude.{◌≡◌, IfOk, filter};
ghost use Rattle.std.specs.List.{list_any};
ghost use Rattle.var_expand.specs.Choices as choices;
ghost use Rattle.var_expand.specs.Problems as problems;

use crate::lists::{Parts, gather_lists, is_row, is_variable};
use kif_tree::{Form, Forms, forms_equal, free_names};
use sigma_base::{Listed, NoMemory};
use std::alloc::Global;

fn begins_with(head: &Form, parts: &[Form]) -> bool
    ensures { result ≡ choices.begins_with head.now parts.now }
{
    match parts {
        [first, ..] => forms_equal(head, first),
        _ => false,
    }
}

fn heads_one(name: &Form, lists: &[Parts]) -> bool
    ensures { result ≡ list_any (choices.begins_with name.now) lists.now }
{
    for list in lists {
        if begins_with(name, list.forms) {
            return true;
        }
    }
    false
}

#[tactic(auto, unfolding(crate::specs::Problems::is_predicate))]
fn is_predicate(name: &Form, lists: &[Parts]) -> bool
    ensures { result ≡ problems.is_predicate lists.now name.now }
{
    is_variable(name) && heads_one(name, lists)
}

/// The variables among the names that head one of the lists.
pub fn predicate_variables(
    alloc: Global,
    names: &[Form],
    lists: &[Parts],
) -> Result<Forms, NoMemory>
    ensures { IfOk result (λ predicates. predicates ≡ filter (problems.is_predicate lists.now) names.now) }
{
    let mut predicates = Listed::new(alloc);
    for name in names {
        if is_predicate(name, lists) {
            predicates.push(name.copy(alloc)?)?;
        }
    }
    Ok(predicates)
}

/// The row variables among the names.
pub fn row_variables(alloc: Global, names: &[Form]) -> Result<Forms, NoMemory>
    ensures { IfOk result (λ rows. rows ≡ filter choices.is_row names.now) }
{
    let mut rows = Listed::new(alloc);
    for name in names {
        if is_row(name) {
            rows.push(name.copy(alloc)?)?;
        }
    }
    Ok(rows)
}

/// The predicate variables of the form, which are the variables that head a list, in order of their first free occurrence.
#[tactic(auto, using(crate::proofs::FinalLaws::predicates_of))]
pub fn predicate_variables_of(alloc: Global, form: &Form) -> Result<Forms, NoMemory>
    ensures { IfOk result (λ variables. variables ≡ choices.predicate_variables form.now) }
{
    let free = free_names(alloc, form)?;
    let mut lists = Listed::new(alloc);
    gather_lists(&mut lists, form)?;
    predicate_variables(alloc, free.items(), lists.items())
}

/// The row variables of the form, in order of their first free occurrence.
pub fn row_variables_of(alloc: Global, form: &Form) -> Result<Forms, NoMemory>
    ensures { IfOk result (λ variables. variables ≡ choices.row_variables form.now) }
{
    let free = free_names(alloc, form)?;
    row_variables(alloc, free.items())
}
