//! Questions.
ghost use Rattle.std.specs.Prelude.{◌≡◌, ◌<◌, ◌^◌, length, IfOk, IfErr};
ghost use Rattle.answers.specs.Questions as spec;

use crate::outcome::{Outcome, outcome_of};
use clause_form::{QueryError, negate_query};
use saturate::{Limits, LimitsError, search};
use sigma_base::NoMemory;
use std::alloc::Global;
use unify::ClauseSet;

/// Why a question has no outcome. Of several causes the first in this order is told.
#[derive(Debug, Drop)]
pub enum AskError {
    /// A limit is out of its range.
    Limits(LimitsError),
    /// The text is no query. It is never want of memory.
    Query(QueryError),
    NoMemory,
}

impl From<NoMemory> for AskError {
    ghost use Rattle.std.specs.Prelude.{◌≡◌};
    ghost use Rattle.answers.specs.declared.question.AskError.TheVariants as errors;

    ghost from_gives = { λ _ error. error ≡ errors.NoMemory };

    fn from(_: NoMemory) -> AskError {
        AskError::NoMemory
    }
}

/// What the text asks of the axioms: the answers to the query that a search within the limits finds, each with a proof, and in full mode also the
/// contradiction of the axioms, if it meets one.
pub fn ask<'a>(
    alloc: Global,
    set: &'a ClauseSet,
    query: &[u8],
    limits: Limits,
) -> Result<Outcome<'a>, AskError>
    requires { length query.now < 2 ^ 31 }
    ensures asked { IfOk result (λ outcome. spec.IsAsked set.now query.now limits outcome) }
    ensures proved { IfOk result (λ outcome. spec.IsProved set.now query.now outcome) }
    ensures end { IfOk result (λ outcome. spec.HasEnd set.now query.now limits outcome) }
    ensures refused { IfErr result (λ error. spec.IsRefused query.now limits error) }
{
    if let Err(error) = limits.check() {
        return Err(AskError::Limits(error));
    }
    let found = match negate_query(alloc, query) {
        Ok(found) => found,
        Err(QueryError::NoMemory) => return Err(AskError::NoMemory),
        Err(error) => return Err(AskError::Query(error)),
    };
    let search = search(alloc, set, &found, limits)?;
    let outcome = outcome_of(alloc, found.asked, search)?;
    Ok(outcome)
}
