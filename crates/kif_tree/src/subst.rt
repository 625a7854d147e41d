//! Substitutions.
ghost use Rattle.std.specs.Prelude.{◌≡◌, ◌++◌, ◌∷◌, [], map, IfOk, OnOk};
ghost use Rattle.kif_tree.specs.Subst as spec;
ghost use Rattle.kif_tree.specs.Clauses as clauses;

use crate::clause::{Clause, Literal};
use crate::form::{Form, Forms};
use crate::heads::is_answer;
use crate::text::Text;
use sigma_base::{Listed, NoMemory};
use std::alloc::Global;

/// A variable, without its prefix, and the form that replaces it.
#[derive(Debug, Drop)]
pub struct Pair {
    pub variable: Text,
    pub term: Form,
}

/// Replaces all its variables at once. Of several pairs with one variable the first counts.
#[derive(Debug, Drop)]
pub struct Subst {
    pub pairs: Listed<Pair>,
}

/// What becomes of a variable that no pair names: it stays, or it becomes the word `!any`.
#[derive(Clone, Copy, Debug, PartialEq, Eq)]
pub enum Unnamed {
    Stays,
    BecomesAny,
}

fn unnamed_value(alloc: Global, name: &Text, unnamed: Unnamed) -> Result<Form, NoMemory>
    ensures { IfOk result (λ form. form ≡ spec.filling_of unnamed [] name.now) }
{
    match unnamed {
        Unnamed::Stays => Ok(Form::Variable(name.copy(alloc)?)),
        Unnamed::BecomesAny => Ok(Form::Word(Text::of(alloc, b"!any")?)),
    }
}

#[tactic(auto, using(crate::proofs::SubstLaws::filling_laws))]
fn value(alloc: Global, mut pairs: &[Pair], name: &Text, unnamed: Unnamed) -> Result<Form, NoMemory>
    ensures { IfOk result (λ form. form ≡ spec.filling_of unnamed pairs.entry.now name.now) }
{
    while let [pair, rest @ ..] = pairs {
        if pair.variable.equals(name) {
            return pair.term.copy(alloc);
        }
        pairs = rest;
    }
    unnamed_value(alloc, name, unnamed)
}

/// The form with all its variables replaced at once.
#[cycle(fill)]
#[tactic(auto, using(crate::proofs::SubstLaws::bind_laws))]
pub fn fill(alloc: Global, form: &Form, pairs: &[Pair], unnamed: Unnamed) -> Result<Form, NoMemory>
    ensures { IfOk result (λ filled. filled ≡ spec.bind (spec.filling_of unnamed pairs.now) form.now) }
{
    match form {
        Form::Variable(name) => value(alloc, pairs, name, unnamed),
        Form::List(parts) => Ok(Form::List(fill_all(alloc, parts.items(), pairs, unnamed)?)),
        _ => form.copy(alloc),
    }
}

#[cycle(fill)]
fn fill_all(
    alloc: Global,
    forms: &[Form],
    pairs: &[Pair],
    unnamed: Unnamed,
) -> Result<Forms, NoMemory>
    ensures { IfOk result (λ filled. filled ≡ map (spec.bind (spec.filling_of unnamed pairs.now)) forms.now) }
{
    let mut filled = Listed::new(alloc);
    for form in forms {
        filled.push(fill(alloc, form, pairs, unnamed)?)?;
    }
    Ok(filled)
}

/// The form under the substitution.
pub fn substitute(alloc: Global, form: &Form, subst: &Subst) -> Result<Form, NoMemory>
    ensures { IfOk result (λ replaced. replaced ≡ spec.apply subst.now.pairs form.now) }
{
    fill(alloc, form, subst.pairs.items(), Unnamed::Stays)
}

/// The first substitution followed by the second.
pub fn followed_by(alloc: Global, first: &Subst, second: Subst) -> Result<Subst, NoMemory>
    ensures { IfOk result (λ both. both.pairs ≡ spec.compose first.now.pairs second.pairs) }
{
    let mut pairs = Listed::new(alloc);
    for pair in first.pairs.items() {
        pairs.push(Pair {
            variable: pair.variable.copy(alloc)?,
            term: substitute(alloc, &pair.term, &second)?,
        })?;
    }
    let Subst { pairs: more } = second;
    pairs.append(more)?;
    Ok(Subst { pairs })
}

/// The ground instance of the clause without its answer literals. A variable that no pair names becomes the word `!any`.
pub fn ground_instance(alloc: Global, clause: &Clause, pairs: &[Pair]) -> Result<Clause, NoMemory>
    ensures { IfOk result (λ instance. instance ≡ clauses.bare clause.now (spec.value_of pairs.now)) }
{
    let mut literals = Listed::new(alloc);
    for literal in clause.literals.items() {
        let atom = fill(alloc, &literal.atom, pairs, Unnamed::BecomesAny)?;
        push_unless_answer(&mut literals, literal.positive, atom)?;
    }
    Ok(Clause { literals })
}

fn push_unless_answer(
    literals: &mut Listed<Literal>,
    positive: bool,
    atom: Form,
) -> Result<(), NoMemory>
    ensures { OnOk result (literals.new ≡ literals.old ++ clauses.without_answers (record { positive = positive; atom = atom } ∷ [])) }
{
    if is_answer(&atom) {
        return Ok(());
    }
    literals.push(Literal { positive, atom })
}
