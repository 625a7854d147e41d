//! The profile of the language: the forms whose lists all stand where they may.
ghost use Rattle.std.specs.Prelude.{◌≡◌, not};
ghost use Rattle.std.specs.List.{list_all, list_any};
ghost use Rattle.kif_tree.specs.Shape as shape;
ghost use Rattle.kif_tree.specs.Names as names;
ghost use Rattle.kif_tree.specs.Profile as spec;

use crate::equal::forms_equal;
use crate::form::Form;
use crate::names::{bound, is_function_word, is_logical_word, operands};

/// Whether the form is in the profile, where it stands at the top of a text. It takes no memory. Each list headed by a
/// variable is compared with each name of the quantifiers around it: without memory no faster way is known.
#[tactic(auto, using(crate::proofs::ProfileLaws::by_lists))]
pub fn in_profile(form: &Form) -> bool
    ensures { result ≡ spec.is_in_profile form.now }
{
    may_be_sentence(form) && lists_fit(form)
}

fn lists_fit(form: &Form) -> bool
    ensures { result ≡ list_all spec.fits (spec.compounds form.now) }
{
    let Form::List(parts) = form else {
        return true;
    };
    if !fits(parts.items()) {
        return false;
    }
    for part in operands(parts.items()) {
        if !lists_fit(part) {
            return false;
        }
    }
    true
}

// ---- tests of one list

#[tactic(auto, unfolding(crate::specs::Profile::fits))]
fn fits(parts: &[Form]) -> bool
    ensures { result ≡ spec.fits parts.now }
{
    operands_fit(parts) && !lists_row(parts) && !applies_own(parts)
}

fn operands_fit(parts: &[Form]) -> bool
    ensures { result ≡ spec.operands_fit parts.now }
{
    if is_logical(parts) {
        return may_be_sentences(operands(parts));
    }
    may_be_arguments(operands(parts))
}

fn may_be_sentences(forms: &[Form]) -> bool
    ensures { result ≡ list_all spec.may_be_sentence forms.now }
{
    for form in forms {
        if !may_be_sentence(form) {
            return false;
        }
    }
    true
}

fn may_be_arguments(forms: &[Form]) -> bool
    ensures { result ≡ list_all spec.may_be_argument forms.now }
{
    for form in forms {
        if !may_be_argument(form) {
            return false;
        }
    }
    true
}

fn may_be_sentence(form: &Form) -> bool
    ensures { result ≡ spec.may_be_sentence form.now }
{
    match form {
        Form::List(parts) => !names_function(parts.items()),
        _ => false,
    }
}

fn may_be_argument(form: &Form) -> bool
    ensures { result ≡ spec.may_be_argument form.now }
{
    match form {
        Form::List(parts) => !is_formula(parts.items()),
        _ => true,
    }
}

fn is_formula(parts: &[Form]) -> bool
    ensures { result ≡ spec.begins (λ word. not (names.is_function_word word)) parts.now }
{
    match parts {
        [Form::Word(text), ..] => !is_function_word(text.bytes()),
        _ => false,
    }
}

fn names_function(parts: &[Form]) -> bool
    ensures { result ≡ spec.begins names.is_function_word parts.now }
{
    match parts {
        [Form::Word(text), ..] => is_function_word(text.bytes()),
        _ => false,
    }
}

fn is_logical(parts: &[Form]) -> bool
    ensures { result ≡ spec.is_logical parts.now }
{
    match parts {
        [Form::Word(text), ..] => is_logical_word(text.bytes()),
        _ => false,
    }
}

// ---- what a quantifier lists

fn lists_row(parts: &[Form]) -> bool
    ensures { result ≡ spec.lists_row parts.now }
{
    for name in bound(parts) {
        if matches!(name, Form::Row(_)) {
            return true;
        }
    }
    false
}

fn applies_own(parts: &[Form]) -> bool
    ensures { result ≡ spec.applies_own parts.now }
{
    let names = bound(parts);
    if names.is_empty() {
        return false;
    }
    for part in operands(parts) {
        if applies(names, part) {
            return true;
        }
    }
    false
}

// one of the names heads a list of the form
fn applies(names: &[Form], form: &Form) -> bool
    ensures { result ≡ list_any (spec.begins_with_one names.now) (spec.compounds form.now) }
{
    let Form::List(parts) = form else {
        return false;
    };
    if begins_with_one(names, parts.items()) {
        return true;
    }
    for part in operands(parts.items()) {
        if applies(names, part) {
            return true;
        }
    }
    false
}

fn begins_with_one(names: &[Form], parts: &[Form]) -> bool
    ensures { result ≡ spec.begins_with_one names.now parts.now }
{
    let [head, ..] = parts else {
        return false;
    };
    if !matches!(head, Form::Variable(_)) {
        return false;
    }
    for name in names {
        if forms_equal(head, name) {
            return true;
        }
    }
    false
}
