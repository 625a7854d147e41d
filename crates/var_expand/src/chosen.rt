//! What is chosen for variables, and what a form becomes by it.
ghost use Rattle.std.specs.Prelude.{◌≡◌, IfOk, length, option_map};
ghost use Rattle.taxonomy.specs.Told as told;
ghost use Rattle.var_expand.specs.Choices as choices;
ghost use Rattle.var_expand.specs.Chosen as spec;

use kif_tree::{Form, forms_equal};
use sigma_base::{Listed, NoMemory};
use std::alloc::Global;
use std::marker::Model;
use std::slice;

/// What one variable or row variable becomes.
#[derive(Debug, Drop)]
pub struct Chosen<'a> {
    pub variable: &'a Form,
    pub becomes: &'a [Form],
}

impl<'a> Model for Chosen<'a> {
    ghost use Rattle.var_expand.specs.Choices.{Setting, sets};
    ghost use Rattle.std.specs.Coded.{codes};
    ghost use Rattle.kif_tree.specs.contracts.form.Form as form;

    ghost Value = { Setting };

    ghost coded = { Prim.hlevel (codes, form.the_row.coded) };

    ghost view = { λ chosen. sets chosen.variable.now chosen.becomes.now };
}

/// What is set for the form, if anything is. It takes no memory.
pub fn set_to<'a>(mut choice: &[Chosen<'a>], form: &Form) -> Option<&'a [Form]>
    ensures { option_map (λ becomes. becomes.now) result ≡ spec.set_to choice.entry.now form.now }
{
    while let [first, rest @ ..] = choice {
        if forms_equal(first.variable, form) {
            return Some(first.becomes);
        }
        choice = rest;
    }
    None
}

/// What the form becomes at its place in a list. It takes no memory.
pub fn becomes_by<'a>(choice: &[Chosen<'a>], form: &'a Form) -> &'a [Form]
    ensures { result.now ≡ choices.becomes_by choice.now form.now }
{
    match set_to(choice, form) {
        Some(becomes) => becomes,
        None => slice::from_ref(form),
    }
}

/// How many forms the form becomes at its place in a list. It takes no memory.
pub fn length_by(choice: &[Chosen], form: &Form) -> usize
    ensures { result ≡ length (choices.becomes_by choice.now form.now) }
{
    match set_to(choice, form) {
        Some(becomes) => becomes.len(),
        None => 1,
    }
}

/// The text of a word. It takes no memory.
fn word_of(form: &Form) -> Option<&[u8]>
    ensures { option_map (λ word. word.now) result ≡ told.word_text form.now }
{
    match form {
        Form::Word(text) => Some(text.bytes()),
        _ => None,
    }
}

/// The word that the form becomes, if it does. It takes no memory.
pub fn word_by<'a>(choice: &[Chosen<'a>], form: &'a Form) -> Option<&'a [u8]>
    ensures { option_map (λ word. word.now) result ≡ spec.first_word (choices.becomes_by choice.now form.now) }
{
    match becomes_by(choice, form) {
        [first, ..] => word_of(first),
        _ => None,
    }
}

/// The same choice.
pub fn copied<'a>(alloc: Global, choice: &[Chosen<'a>]) -> Result<Listed<Chosen<'a>>, NoMemory>
    ensures { IfOk result (λ copy. copy ≡ choice.now) }
{
    let mut copy = Listed::of(Vec::with_capacity(alloc, choice.len())?);
    for chosen in choice {
        copy.push(Chosen {
            variable: chosen.variable,
            becomes: chosen.becomes,
        })?;
    }
    Ok(copy)
}
