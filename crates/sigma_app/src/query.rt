//! The reply to a query over the forms of all files.
ghost use Rattle.std.specs.Prelude.{◌≡◌, ◌≤◌, length, Ok, IfOk};
ghost use Rattle.translate.specs.Inputs.{AreShaped};
ghost use Rattle.saturate.specs.Limits.{checked};
ghost use Rattle.sigma_app.specs.Tool as spec;

use crate::check::{Translation, translation_of};
use crate::files::{Part, load_names};
use crate::reply::{Reply, fault_at, fixed_reply};
use answers::{AskError, Outcome, ask, print_outcome};
use clause_form::QueryError;
use kif_reader::Spot;
use kif_tree::{LoadName, Located, Text};
use saturate::Limits;
use sigma_base::NoMemory;
use signatures::Signatures;
use std::alloc::Global;
use taxonomy::Taxonomy;
use translate::Translated;
use unify::ClauseSet;

/// The reply to a query over the forms of all files.
pub fn query_reply(
    alloc: Global,
    query: &[u8],
    limits: Limits,
    parts: &[Part],
    forms: &[Located],
) -> Result<Reply, NoMemory>
    requires length { length query.now ≤ 8388608 }
    requires within { checked limits ≡ Ok tt }
    requires shaped { AreShaped forms.now }
    ensures { IfOk result (λ reply. spec.OnQuery query.now limits parts.now forms.now reply.status reply.text) }
{
    let taxonomy = Taxonomy::of(alloc, forms)?;
    let signatures = Signatures::of(alloc, forms, &taxonomy)?;
    let translated = match translation_of(alloc, parts, forms, &taxonomy, &signatures)? {
        Translation::Made(translated) => translated,
        Translation::Stopped(reply) => return Ok(reply),
    };
    let Translated { inputs, .. } = translated;
    let set = ClauseSet::of(inputs)?;
    let names = load_names(alloc, parts)?;
    set_reply(alloc, query, limits, &set, names.items())
}

/// The reply to a query over the clauses of the forms.
fn set_reply(
    alloc: Global,
    query: &[u8],
    limits: Limits,
    set: &ClauseSet,
    names: &[LoadName],
) -> Result<Reply, NoMemory>
    requires length { length query.now ≤ 8388608 }
    requires within { checked limits ≡ Ok tt }
    ensures { IfOk result (λ reply. spec.OnSet query.now limits names.now set.now reply.status reply.text) }
{
    match ask(alloc, set, query, limits) {
        Ok(outcome) => outcome_reply(alloc, names, &outcome),
        Err(AskError::Query(error)) => refused_reply(alloc, error),
        Err(AskError::Limits(_)) => Err(NoMemory),
        Err(AskError::NoMemory) => Err(NoMemory),
    }
}

/// The page of the outcome, with status 0 where it shows an answer or a contradiction.
fn outcome_reply(
    alloc: Global,
    names: &[LoadName],
    outcome: &Outcome<'_>,
) -> Result<Reply, NoMemory>
    ensures { IfOk result (λ reply. spec.ShowsOutcome names.now outcome.now reply.status reply.text) }
{
    Ok(Reply {
        status: shown_status(outcome),
        text: print_outcome(alloc, outcome, names)?,
    })
}

fn shown_status(outcome: &Outcome<'_>) -> u8
    ensures { result ≡ spec.shown_status outcome.now }
{
    if outcome.contradiction.is_some() || !outcome.answers.items().is_empty() {
        0
    } else {
        1
    }
}

/// The code of the refusal; that of a text with a fault has the fault's code and place behind it.
fn refused_reply(alloc: Global, error: QueryError) -> Result<Reply, NoMemory>
    ensures { IfOk result (λ reply. spec.RefusesQuery error reply.status reply.text) }
{
    match error {
        QueryError::Syntax(fault) => match fault_at(fault) {
            Some((code, spot)) => fault_reply(alloc, code, spot),
            None => Err(NoMemory),
        },
        QueryError::NotOneForm => fixed_reply(alloc, 7, b"query 2\n"),
        QueryError::RowVariable => fixed_reply(alloc, 7, b"query 3\n"),
        QueryError::PredicateVariable => fixed_reply(alloc, 7, b"query 4\n"),
        QueryError::HigherOrder => fixed_reply(alloc, 7, b"query 5\n"),
        QueryError::TooManyClauses => fixed_reply(alloc, 7, b"query 6\n"),
        QueryError::NoMemory => Err(NoMemory),
    }
}

/// `query 1 syntax CODE LINE:COLUMN`.
fn fault_reply(alloc: Global, code: u64, spot: Spot) -> Result<Reply, NoMemory>
    ensures { IfOk result (λ reply. spec.Is 7 (spec.query_fault_text code spot) reply.status reply.text) }
{
    let mut text = Text::of(alloc, b"query 1 syntax ")?;
    text.append_decimal(code)?;
    text.push(b' ')?;
    text.append_decimal(u64::from(spot.line))?;
    text.push(b':')?;
    text.append_decimal(u64::from(spot.column))?;
    text.push(b'\n')?;
    Ok(Reply { status: 7, text })
}
