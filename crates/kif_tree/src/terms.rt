//! What a form is made of.
ghost use Rattle.std.specs.Prelude.{◌≡◌, ◌++◌, ◌∷◌, [], min, sum, map, IfOk, OnOk};
ghost use Rattle.kif_tree.specs.Clauses as clauses;
ghost use Rattle.kif_tree.specs.Terms as spec;

use crate::clause::Literal;
use crate::form::Form;
use crate::text::Text;
use sigma_base::{Listed, NoMemory};
use std::alloc::Global;

/// No variable and no row variable occurs. It takes no memory.
pub fn is_ground(form: &Form) -> bool
    ensures { result ≡ spec.is_ground form.now }
{
    is_clean(form, false)
}

/// No row variable occurs. It takes no memory.
pub fn has_no_row(form: &Form) -> bool
    ensures { result ≡ spec.has_no_row form.now }
{
    is_clean(form, true)
}

/// No row variable occurs, and no variable where none may.
#[tactic(auto, using(crate::proofs::TermLaws::clean_laws))]
fn is_clean(form: &Form, variables: bool) -> bool
    ensures { result ≡ spec.clean variables form.now }
{
    match form {
        Form::Word(_) | Form::Numeral(_) | Form::Quoted(_) => true,
        Form::Variable(_) => variables,
        Form::Row(_) => false,
        Form::List(parts) => {
            for part in parts.items() {
                if !is_clean(part, variables) {
                    return false;
                }
            }
            true
        }
    }
}

/// The variable of that name occurs. It takes no memory.
#[tactic(auto, using(crate::proofs::TermLaws::occurs_laws))]
pub fn occurs(name: &Text, form: &Form) -> bool
    ensures { result ≡ spec.occurs name.now form.now }
{
    match form {
        Form::Variable(other) => name.equals(other),
        Form::List(parts) => {
            for part in parts.items() {
                if occurs(name, part) {
                    return true;
                }
            }
            false
        }
        _ => false,
    }
}

/// How deep lists nest in arguments, or the greatest `u64` where they nest deeper. It takes no memory.
#[tactic(auto, using(crate::proofs::TermLaws::depth_laws))]
pub fn depth(form: &Form) -> u64
    ensures { result ≡ min (spec.depth form.now) 18446744073709551615 }
{
    match form {
        Form::List(parts) => {
            let [_, arguments @ ..] = parts.items() else {
                return 1;
            };
            let mut deepest = 0;
            for argument in arguments {
                deepest = depth(argument).max(deepest);
            }
            deepest.saturating_add(1)
        }
        _ => 0,
    }
}

/// How many words, variables, numerals and strings occur, or the greatest `u64` where more do. It takes no memory.
#[tactic(auto, using(crate::proofs::TermLaws::symbols_laws))]
pub fn symbols(form: &Form) -> u64
    ensures { result ≡ min (spec.symbols form.now) 18446744073709551615 }
{
    match form {
        Form::List(parts) => {
            let mut count: u64 = 0;
            for part in parts.items() {
                count = count.saturating_add(symbols(part));
            }
            count
        }
        Form::Row(_) => 0,
        _ => 1,
    }
}

/// The variables of the form in order of first occurrence, each once.
pub fn variables_of(alloc: Global, form: &Form) -> Result<Listed<Text>, NoMemory>
    ensures { IfOk result (λ names. names ≡ spec.distinct (spec.variables form.now)) }
{
    let mut found = Listed::new(alloc);
    append_variables(alloc, &mut found, form)?;
    Ok(found)
}

/// The variables of the literals in order of first occurrence, each once.
pub fn variables_in(alloc: Global, literals: &[Literal]) -> Result<Listed<Text>, NoMemory>
    ensures { IfOk result (λ names. names ≡ spec.distinct (clauses.clause_variables literals.now)) }
{
    let mut found = Listed::new(alloc);
    for literal in literals {
        append_variables(alloc, &mut found, &literal.atom)?;
    }
    Ok(found)
}

/// Adds the variables of the form that aren't among those found so far, in order of first occurrence, each once.
#[tactic(auto, using(crate::proofs::TermLaws::variables_laws))]
fn append_variables(alloc: Global, found: &mut Listed<Text>, form: &Form) -> Result<(), NoMemory>
    ensures { OnOk result (found.new ≡ spec.joined_once found.old (spec.variables form.now)) }
{
    match form {
        Form::Variable(name) => append_name(alloc, found, name),
        Form::List(parts) => {
            for part in parts.items() {
                append_variables(alloc, found, part)?;
            }
            Ok(())
        }
        _ => Ok(()),
    }
}

fn append_name(alloc: Global, found: &mut Listed<Text>, name: &Text) -> Result<(), NoMemory>
    ensures { OnOk result (found.new ≡ spec.joined_once found.old (name.now ∷ [])) }
{
    for other in found.items() {
        if name.equals(other) {
            return Ok(());
        }
    }
    found.push(name.copy(alloc)?)
}
