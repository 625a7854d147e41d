//! The lists of a form that a choice has to fit.
ghost use Rattle.std.specs.Prelude.{◌≡◌, ◌++◌, true, false, filter, IfOk, OnOk};
ghost use Rattle.std.specs.List.{list_any, flat_map};
ghost use Rattle.kif_tree.specs.Profile as profile;
ghost use Rattle.var_expand.specs.Choices as choices;
ghost use Rattle.var_expand.specs.Fitting as fitting;
ghost use Rattle.var_expand.specs.Gathered as spec;

use kif_tree::{Form, is_logical_word, operands, parts_of};
use sigma_base::{Listed, NoMemory};
use std::alloc::Global;
use std::marker::Model;

/// Some forms in a row, as the parts of a list.
#[derive(Debug, Drop)]
pub struct Parts<'a> {
    pub forms: &'a [Form],
}

impl<'a> Model for Parts<'a> {
    ghost use Rattle.std.specs.Prelude.{List};
    ghost use Rattle.std.specs.Coded.{codes};
    ghost use Rattle.kif_tree.specs.declared.form.Form.{Form};
    ghost use Rattle.kif_tree.specs.contracts.form.Form as form;

    ghost Value = { List Form };

    ghost coded = { Prim.hlevel (codes, form.the_row.coded) };

    ghost view = { λ parts. parts.forms.now };
}

pub fn is_variable(form: &Form) -> bool
    ensures { result ≡ choices.is_variable form.now }
{
    matches!(form, Form::Variable(_))
}

pub fn is_row(form: &Form) -> bool
    ensures { result ≡ choices.is_row form.now }
{
    matches!(form, Form::Row(_))
}

pub fn has_variable_head(parts: &[Form]) -> bool
    ensures { result ≡ fitting.has_variable_head parts.now }
{
    match parts {
        [head, ..] => is_variable(head),
        _ => false,
    }
}

fn has_row(forms: &[Form]) -> bool
    ensures { result ≡ list_any choices.is_row forms.now }
{
    for form in forms {
        if is_row(form) {
            return true;
        }
    }
    false
}

fn varies(parts: &[Form]) -> bool
    ensures { result ≡ fitting.varies parts.now }
{
    let [head, arguments @ ..] = parts else {
        return false;
    };
    is_variable(head) || has_row(arguments)
}

fn push_if_varies<'a>(lists: &mut Listed<Parts<'a>>, parts: &'a [Form]) -> Result<(), NoMemory>
    ensures { OnOk result (lists.new ≡ lists.old ++ spec.if_varies parts.now) }
{
    if varies(parts) {
        lists.push(Parts { forms: parts })?;
    }
    Ok(())
}

/// Adds the lists of the form that vary, in order.
pub fn gather_lists<'a>(lists: &mut Listed<Parts<'a>>, form: &'a Form) -> Result<(), NoMemory>
    ensures { OnOk result (lists.new ≡ lists.old ++ filter fitting.varies (profile.compounds form.now)) }
{
    let Form::List(parts) = form else {
        return Ok(());
    };
    let parts = parts.items();
    push_if_varies(lists, parts)?;
    for part in operands(parts) {
        gather_lists(lists, part)?;
    }
    Ok(())
}

/// The answer of a test is the one that is wanted.
pub fn is_as(wanted: bool, answer: bool) -> bool
    ensures { result ≡ spec.is_as wanted answer }
{
    if wanted { answer } else { !answer }
}

fn is_logical(parts: &[Form]) -> bool
    ensures { result ≡ profile.is_logical parts.now }
{
    match parts {
        [Form::Word(text), ..] => is_logical_word(text.bytes()),
        _ => false,
    }
}

/// Adds the list where a variable heads it.
fn push_if_applied<'a>(lists: &mut Listed<Parts<'a>>, form: &'a Form) -> Result<(), NoMemory>
    ensures { OnOk result (lists.new ≡ lists.old ++ spec.if_applied form.now) }
{
    let parts = parts_of(form);
    if has_variable_head(parts) {
        lists.push(Parts { forms: parts })?;
    }
    Ok(())
}

fn push_applied<'a>(lists: &mut Listed<Parts<'a>>, forms: &'a [Form]) -> Result<(), NoMemory>
    ensures { OnOk result (lists.new ≡ lists.old ++ flat_map spec.if_applied forms.now) }
{
    for form in forms {
        push_if_applied(lists, form)?;
    }
    Ok(())
}

fn push_applied_below<'a>(
    lists: &mut Listed<Parts<'a>>,
    logical: bool,
    parts: &'a [Form],
) -> Result<(), NoMemory>
    ensures { OnOk result (lists.new ≡ lists.old ++ spec.applied_below logical parts.now) }
{
    if is_as(logical, is_logical(parts)) {
        push_applied(lists, operands(parts))?;
    }
    Ok(())
}

/// Adds the lists headed by a variable that stand below logical words, or those below other heads.
fn gather_applied<'a>(
    lists: &mut Listed<Parts<'a>>,
    logical: bool,
    form: &'a Form,
) -> Result<(), NoMemory>
    ensures { OnOk result (lists.new ≡ lists.old ++ flat_map (spec.applied_below logical) (profile.compounds form.now)) }
{
    let Form::List(parts) = form else {
        return Ok(());
    };
    let parts = parts.items();
    push_applied_below(lists, logical, parts)?;
    for part in operands(parts) {
        gather_applied(lists, logical, part)?;
    }
    Ok(())
}

/// The lists headed by a variable in argument place.
pub fn gather_arguments<'a>(alloc: Global, form: &'a Form) -> Result<Listed<Parts<'a>>, NoMemory>
    ensures { IfOk result (λ lists. lists ≡ flat_map (spec.applied_below false) (profile.compounds form.now)) }
{
    let mut lists = Listed::new(alloc);
    gather_applied(&mut lists, false, form)?;
    Ok(lists)
}

/// The lists headed by a variable in sentence place.
pub fn gather_sentences<'a>(alloc: Global, form: &'a Form) -> Result<Listed<Parts<'a>>, NoMemory>
    ensures { IfOk result (λ lists. lists ≡ spec.if_applied form.now ++ flat_map (spec.applied_below true) (profile.compounds form.now)) }
{
    let mut lists = Listed::new(alloc);
    push_if_applied(&mut lists, form)?;
    gather_applied(&mut lists, true, form)?;
    Ok(lists)
}
