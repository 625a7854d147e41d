//! What a question gets.
ghost use Rattle.std.specs.Prelude.{◌≡◌, ◌<◌, length, IfOk};
ghost use Rattle.calculus.specs.Answers as atoms;
ghost use Rattle.saturate.specs.declared.ended.Ended.TheVariants as ends;
ghost use Rattle.saturate.specs.Ends.{IsSound};
ghost use Rattle.saturate.specs.Runs.{reached_in};
ghost use Rattle.answers.specs.Outcomes as spec;

use crate::extraction::proof_of;
use crate::proof::Proof;
use kif_tree::{Clause, Form, Pair, Text, parts_of};
use saturate::{Ended, Inputs, Reached, Search};
use sigma_base::{Listed, NoMemory};
use std::alloc::Global;

/// What each asked variable becomes, in the order of the query.
#[derive(Debug, Drop)]
pub struct Binding {
    pub values: Listed<Pair>,
}

/// One binding, or several of which at least one holds, and the proof.
#[derive(Debug, Drop)]
pub struct Answer {
    pub bindings: Listed<Binding>,
    pub proof: Proof,
}

/// What a question gets.
#[derive(Debug, Drop)]
pub struct Outcome<'a> {
    /// The clauses with which the search began. Those of the set are lent.
    pub inputs: Inputs<'a>,
    /// The free variables of the query, without their prefix.
    pub asked: Listed<Text>,
    /// In the order in which they were found.
    pub answers: Listed<Answer>,
    /// The proof that the axioms contradict each other, where the search ended with it.
    pub contradiction: Option<Proof>,
    pub ended: Ended,
    pub turns: u32,
}

/// The outcome of a search: an answer for each found clause, in order, and the proof of the last clause where it is a contradiction.
pub(crate) fn outcome_of<'a>(
    alloc: Global,
    asked: Listed<Text>,
    search: Search<'a>,
) -> Result<Outcome<'a>, NoMemory>
    requires sound { IsSound (reached_in search) }
    requires some { search.ended ≡ ends.Contradiction → 0 < length search.steps }
    ensures { IfOk result (λ outcome. spec.IsOutcomeOf asked search.entry.turns (reached_in search.entry) search.entry.ended outcome) }
{
    let Search {
        inputs,
        steps,
        derived,
        processed,
        waiting,
        aside,
        found,
        turns,
        ended,
    } = search;
    let reached = Reached {
        inputs,
        derived,
        steps,
        processed,
        waiting,
        aside,
        found,
    };
    let answers = answers_of(alloc, asked.items(), &reached)?;
    let contradiction = contradiction_of(alloc, &reached, ended)?;
    let Reached { inputs, .. } = reached;
    Ok(Outcome {
        inputs,
        asked,
        answers,
        contradiction,
        ended,
        turns,
    })
}

fn answers_of(
    alloc: Global,
    asked: &[Text],
    reached: &Reached<'_>,
) -> Result<Listed<Answer>, NoMemory>
    requires { IsSound reached.now }
    ensures { IfOk result (λ answers. spec.Correspond (spec.IsAnswerOf asked.now reached.now) reached.now.found answers) }
{
    let mut answers = Listed::new(alloc);
    for number in reached.found.items() {
        answers.push(answer_of(alloc, asked, reached, *number)?)?;
    }
    Ok(answers)
}

fn answer_of(
    alloc: Global,
    asked: &[Text],
    reached: &Reached<'_>,
    number: u32,
) -> Result<Answer, NoMemory>
    requires sound { IsSound reached.now }
    requires there { number < length reached.now.steps }
    ensures { IfOk result (λ answer. spec.IsAnswerOf asked.now reached.now number answer) }
{
    let bindings = match reached.clause(number) {
        Some(clause) => bindings_of(alloc, asked, clause)?,
        None => Listed::new(alloc),
    };
    let proof = proof_of(alloc, reached, number)?;
    Ok(Answer { bindings, proof })
}

/// The binding that each literal shows.
fn bindings_of(alloc: Global, asked: &[Text], clause: &Clause) -> Result<Listed<Binding>, NoMemory>
    ensures { IfOk result (λ bindings. bindings ≡ spec.bindings_of asked.now clause.now) }
{
    let mut bindings = Listed::new(alloc);
    for literal in clause.literals.items() {
        bindings.push(binding_of(alloc, asked, &literal.atom)?)?;
    }
    Ok(bindings)
}

fn binding_of(alloc: Global, asked: &[Text], atom: &Form) -> Result<Binding, NoMemory>
    ensures { IfOk result (λ binding. binding ≡ spec.binding_of asked.now atom.now) }
{
    Ok(Binding {
        values: bound(alloc, asked, arguments(atom))?,
    })
}

/// The arguments of a list.
fn arguments(atom: &Form) -> &[Form]
    ensures { result.now ≡ atoms.arguments atom.now }
{
    let [_, arguments @ ..] = parts_of(atom) else {
        return &[];
    };
    arguments
}

fn bound(alloc: Global, mut names: &[Text], mut forms: &[Form]) -> Result<Listed<Pair>, NoMemory>
    ensures { IfOk result (λ pairs. pairs ≡ spec.bound names.entry.now forms.entry.now) }
{
    let mut pairs = Listed::new(alloc);
    while let [name, more_names @ ..] = names {
        let [form, more_forms @ ..] = forms else {
            return Ok(pairs);
        };
        pairs.push(Pair {
            variable: name.copy(alloc)?,
            term: form.copy(alloc)?,
        })?;
        names = more_names;
        forms = more_forms;
    }
    Ok(pairs)
}

fn contradiction_of(
    alloc: Global,
    reached: &Reached<'_>,
    ended: Ended,
) -> Result<Option<Proof>, NoMemory>
    requires sound { IsSound reached.now }
    requires some { ended ≡ ends.Contradiction → 0 < length reached.now.steps }
    ensures { IfOk result (λ contradiction. spec.IsContradictionOf reached.now ended contradiction) }
{
    if ended != Ended::Contradiction {
        return Ok(None);
    }
    let Ok(last) = u32::try_from(reached.steps.items().len() - 1) else {
        return Err(NoMemory);
    };
    Ok(Some(proof_of(alloc, reached, last)?))
}
