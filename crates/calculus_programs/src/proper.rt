//! Proper clauses.
ghost use Rattle.std.specs.Prelude.{◌≡◌, ◌&&◌, ◌↔◌, IsTrue, IfOk, not};
ghost use Rattle.std.specs.List.{list_all, list_any};
ghost use Rattle.kif_tree.specs.Terms as terms;
ghost use Rattle.kif_tree.specs.Clauses as clauses;
ghost use Rattle.kif_tree.specs.Shape as forms;
ghost use Rattle.calculus.specs.Proper as spec;
ghost use Rattle.calculus_programs.specs.Shape as shape;

use crate::tidying::is_tidy;
use kif_tree::{Clause, Form, Literal, has_no_row, is_answer};
use sigma_base::NoMemory;
use std::alloc::Global;

/// Whether the clause is tidy, has a literal that isn't an answer literal, and has lists as its atoms, a word at the head
/// of each list and no row variable.
pub fn is_proper(alloc: Global, clause: &Clause) -> Result<bool, NoMemory>
    ensures { IfOk result (λ answer. IsTrue answer ↔ spec.IsProper clause.now) }
{
    let tidy = is_tidy(alloc, clause)?;
    let asserting = asserts(clause.literals.items());
    let fitting = all_fit(clause.literals.items());
    Ok(tidy && asserting && fitting)
}

fn asserts(literals: &[Literal]) -> bool
    ensures { result ≡ list_any (λ literal. not (clauses.is_answer literal.atom)) literals.now }
{
    for literal in literals {
        if !is_answer(&literal.atom) {
            return true;
        }
    }
    false
}

fn all_fit(literals: &[Literal]) -> bool
    ensures { result ≡ list_all (λ literal. shape.fits literal.atom) literals.now }
{
    for literal in literals {
        if !fits(&literal.atom) {
            return false;
        }
    }
    true
}

fn fits(atom: &Form) -> bool
    ensures { result ≡ shape.fits atom.now }
{
    is_list(atom) && has_word_heads(atom) && has_no_row(atom)
}

fn is_list(form: &Form) -> bool
    ensures { result ≡ forms.is_list form.now }
{
    match form {
        Form::List(_) => true,
        _ => false,
    }
}

#[tactic(auto, using(crate::proofs::ShapeLaws::word_laws))]
fn is_word(form: &Form) -> bool
    ensures { result ≡ shape.is_any_word form.now }
{
    match form {
        Form::Word(_) => true,
        _ => false,
    }
}

fn begins_with_word(parts: &[Form]) -> bool
    ensures { result ≡ shape.begins_with_any_word parts.now }
{
    match parts {
        [] => false,
        [head, ..] => is_word(head),
    }
}

/// Whether each list in the form has a word at its head. It takes no memory.
#[tactic(auto, using(crate::proofs::ShapeLaws::heads_laws))]
pub fn has_word_heads(form: &Form) -> bool
    ensures { result ≡ spec.has_word_heads form.now }
{
    match form {
        Form::List(parts) => {
            if !begins_with_word(parts.items()) {
                return false;
            }
            for part in parts.items() {
                if !has_word_heads(part) {
                    return false;
                }
            }
            true
        }
        _ => true,
    }
}
