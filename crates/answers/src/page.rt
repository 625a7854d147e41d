//! The page of an outcome.
ghost use Rattle.std.specs.Prelude.{◌≡◌, ◌++◌, IfOk, OnOk};
ghost use Rattle.std.specs.List.{flat_map};
ghost use Rattle.answers.specs.Pages as spec;

use crate::outcome::{Answer, Binding, Outcome};
use crate::proof::{Proof, ProofLine, Rule};
use kif_tree::{LoadName, Pair, Text, print_clause, print_form, print_place};
use saturate::Ended;
use sigma_base::NoMemory;
use std::alloc::Global;

/// The page of the outcome: its answers with their proofs, numbered from 1; the contradiction, if the search ended with one; and how it ended. A
/// cited place shows the first of the names that its load has, or none.
#[tactic(auto, unfolding(crate::specs::Pages::page))]
pub fn print_outcome(
    alloc: Global,
    outcome: &Outcome<'_>,
    names: &[LoadName],
) -> Result<Text, NoMemory>
    ensures { IfOk result (λ text. text ≡ spec.page names.now outcome.now) }
{
    let mut out = Text::new(alloc);
    append_answers(alloc, &mut out, names, outcome.answers.items())?;
    if let Some(proof) = &outcome.contradiction {
        out.append(b"contradiction\n")?;
        append_proof(alloc, &mut out, names, proof)?;
    }
    append_end(&mut out, outcome.ended, outcome.turns)?;
    Ok(out)
}

fn rule_word(rule: Rule) -> &'static [u8]
    ensures { result.now ≡ spec.rule_word rule }
{
    match rule {
        Rule::Axiom => b"",
        Rule::Reflexivity => b"equality",
        Rule::Query => b"query",
        Rule::Resolve => b"resolve",
        Rule::Factor => b"factor",
        Rule::Paramodulate => b"paramodulate",
    }
}

fn append_parents(out: &mut Text, parents: &[u32]) -> Result<(), NoMemory>
    ensures { OnOk result (out.new ≡ out.old ++ flat_map spec.parent_text parents.now) }
{
    for parent in parents {
        out.push(b' ')?;
        out.append_decimal(u64::from(*parent) + 1)?;
    }
    Ok(())
}

fn append_source(
    alloc: Global,
    out: &mut Text,
    names: &[LoadName],
    line: &ProofLine,
) -> Result<(), NoMemory>
    ensures { OnOk result (out.new ≡ out.old ++ spec.source_text names.now line.now) }
{
    match (line.rule, &line.place) {
        (Rule::Axiom, Some(place)) => out.append(print_place(alloc, names, place)?.bytes()),
        (Rule::Axiom, None) => Ok(()),
        (rule, _) => {
            out.append(rule_word(rule))?;
            append_parents(out, line.parents.items())
        }
    }
}

fn append_line(
    alloc: Global,
    out: &mut Text,
    names: &[LoadName],
    number: u64,
    line: &ProofLine,
) -> Result<(), NoMemory>
    ensures { OnOk result (out.new ≡ out.old ++ spec.line_text names.now number line.now) }
{
    out.append(b"  ")?;
    out.append_decimal(number)?;
    out.append(b". ")?;
    out.append(print_clause(alloc, &line.clause)?.bytes())?;
    out.append(b" [")?;
    append_source(alloc, out, names, line)?;
    out.append(b"]\n")
}

/// The lines of a proof, numbered from 1.
fn append_lines(
    alloc: Global,
    out: &mut Text,
    names: &[LoadName],
    mut lines: &[ProofLine],
) -> Result<(), NoMemory>
    ensures { OnOk result (out.new ≡ out.old ++ spec.lines_text names.now 0 lines.entry.now) }
{
    let mut number: u64 = 0;
    while let [line, rest @ ..] = lines {
        number += 1;
        append_line(alloc, out, names, number, line)?;
        lines = rest;
    }
    Ok(())
}

fn append_pair(alloc: Global, out: &mut Text, pair: &Pair) -> Result<(), NoMemory>
    ensures { OnOk result (out.new ≡ out.old ++ spec.pair_text pair.now) }
{
    out.append(b"  ?")?;
    out.append(pair.variable.bytes())?;
    out.append(b" = ")?;
    out.append(print_form(alloc, &pair.term)?.bytes())?;
    out.push(b'\n')
}

fn append_pairs(alloc: Global, out: &mut Text, values: &[Pair]) -> Result<(), NoMemory>
    ensures { OnOk result (out.new ≡ out.old ++ flat_map spec.pair_text values.now) }
{
    for pair in values {
        append_pair(alloc, out, pair)?;
    }
    Ok(())
}

/// What the asked variables become, a line each, or `yes` where none is asked.
fn append_values(alloc: Global, out: &mut Text, values: &[Pair]) -> Result<(), NoMemory>
    ensures { OnOk result (out.new ≡ out.old ++ spec.values_text values.now) }
{
    match values {
        [] => out.append(b"  yes\n"),
        _ => append_pairs(alloc, out, values),
    }
}

/// The bindings, parted by the line `or`.
fn append_bindings(alloc: Global, out: &mut Text, bindings: &[Binding]) -> Result<(), NoMemory>
    ensures { OnOk result (out.new ≡ out.old ++ spec.bindings_text bindings.now) }
{
    let [first, rest @ ..] = bindings else {
        return Ok(());
    };
    append_values(alloc, out, first.values.items())?;
    for binding in rest {
        append_alternative(alloc, out, binding)?;
    }
    Ok(())
}

fn append_alternative(alloc: Global, out: &mut Text, binding: &Binding) -> Result<(), NoMemory>
    ensures { OnOk result (out.new ≡ out.old ++ spec.or_binding_text binding.now) }
{
    out.append(b"or\n")?;
    append_values(alloc, out, binding.values.items())
}

fn append_proof(
    alloc: Global,
    out: &mut Text,
    names: &[LoadName],
    proof: &Proof,
) -> Result<(), NoMemory>
    ensures { OnOk result (out.new ≡ out.old ++ spec.proof_text names.now proof.now) }
{
    out.append(b"proof\n")?;
    append_lines(alloc, out, names, proof.lines.items())
}

#[tactic(auto, unfolding(crate::specs::Pages::answer_text))]
fn append_answer(
    alloc: Global,
    out: &mut Text,
    names: &[LoadName],
    number: u64,
    answer: &Answer,
) -> Result<(), NoMemory>
    ensures { OnOk result (out.new ≡ out.old ++ spec.answer_text names.now number answer.now) }
{
    out.append(b"answer ")?;
    out.append_decimal(number)?;
    out.push(b'\n')?;
    append_bindings(alloc, out, answer.bindings.items())?;
    append_proof(alloc, out, names, &answer.proof)
}

/// The answers, numbered from 1.
fn append_answers(
    alloc: Global,
    out: &mut Text,
    names: &[LoadName],
    mut answers: &[Answer],
) -> Result<(), NoMemory>
    ensures { OnOk result (out.new ≡ out.old ++ spec.answers_text names.now 0 answers.entry.now) }
{
    let mut number: u64 = 0;
    while let [answer, rest @ ..] = answers {
        number += 1;
        append_answer(alloc, out, names, number, answer)?;
        answers = rest;
    }
    Ok(())
}

fn ended_word(ended: Ended) -> &'static [u8]
    ensures { result.now ≡ spec.ended_word ended }
{
    match ended {
        Ended::Enough => b"enough",
        Ended::Saturated => b"saturated",
        Ended::Deep => b"deep",
        Ended::Spent => b"spent",
        Ended::Crowded => b"crowded",
        Ended::Contradiction => b"contradiction",
    }
}

/// The last line of a page.
#[tactic(auto, unfolding(crate::specs::Pages::end_text))]
fn append_end(out: &mut Text, ended: Ended, turns: u32) -> Result<(), NoMemory>
    ensures { OnOk result (out.new ≡ out.old ++ spec.end_text ended turns) }
{
    out.append(b"end ")?;
    out.append(ended_word(ended))?;
    out.append(b" turns ")?;
    out.append_decimal(u64::from(turns))?;
    out.push(b'\n')
}
