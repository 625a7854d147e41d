//! The limits that the options of a query give, and the sizes that a drill may have.
ghost use Rattle.std.specs.Prelude.{◌≡◌, MatchBool, MatchOption};
ghost use Rattle.sigma_app.specs.Limits as spec;
ghost use Rattle.sigma_app.specs.Requests as requests;

use crate::requests::Ask;
use saturate::{Limits, Mode};

/// The limits of the options, with the defaults of those that aren't given: 2,000 turns, one answer, 200,000 kept clauses, support mode. `None` where
/// an option isn't of the values that it may have, which the parser refuses.
pub fn limits_of(ask: &Ask<'_>) -> Option<Limits>
    ensures { MatchOption result (spec.HasLimits (requests.asked_value ask.now) → ⊥) (spec.AreLimits (requests.asked_value ask.now)) }
{
    let limits = Limits {
        turns: number_of(ask.turns, 2_000)?,
        answers: number_of(ask.answers, 1)?,
        kept: number_of(ask.kept, 200_000)?,
        mode: mode_of(ask.mode)?,
    };
    match limits.check() {
        Ok(()) => Some(limits),
        Err(_) => None,
    }
}

/// Whether a drill may have this size: a number from 1 to 2,000. The parser refuses all others.
pub fn is_size(text: &str) -> bool
    ensures { MatchBool result (spec.HasSize text.now) (spec.HasSize text.now → ⊥) }
{
    match text.parse::<u32>() {
        Ok(size) => 1 <= size && size <= 2_000,
        Err(_) => false,
    }
}

fn number_of(text: Option<&str>, default: u32) -> Option<u32>
    ensures { MatchOption result (spec.HasNumber (requests.text_if text.entry) → ⊥) (spec.IsNumber default (requests.text_if text.entry)) }
{
    match text {
        Some(text) => text.parse().ok(),
        None => Some(default),
    }
}

fn mode_of(word: Option<&str>) -> Option<Mode>
    ensures { result ≡ spec.mode_of (requests.text_if word.entry) }
{
    match word {
        None => Some(Mode::Support),
        Some("support") => Some(Mode::Support),
        Some("full") => Some(Mode::Full),
        Some(_) => None,
    }
}
