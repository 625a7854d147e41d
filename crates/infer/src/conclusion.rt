//! What a rule concludes, and its parents.
ghost use Rattle.std.specs.Prelude.{◌≡◌, ◌++◌, ◌∷◌, [], OnOk, MatchOption};

use calculus::Step;
use kif_tree::Clause;
use sigma_base::{Listed, NoMemory};

/// A clause that a rule concludes, and the step that does so. In the step the given clause is number 0 and its partner number 1.
#[derive(Debug, Drop)]
pub struct Conclusion {
    pub clause: Clause,
    pub step: Step,
}

/// One literal of a clause, which has that number in steps.
#[derive(Clone, Copy)]
pub(crate) struct Parent<'a> {
    pub number: u32,
    pub clause: &'a Clause,
    pub literal: usize,
}

/// Adds what was made, if anything was.
pub(crate) fn push_made(
    found: &mut Listed<Conclusion>,
    made: Option<Conclusion>,
) -> Result<(), NoMemory>
    ensures { OnOk result (MatchOption made (found.new ≡ found.old) (λ conclusion. found.new ≡ found.old ++ conclusion ∷ [])) }
{
    if let Some(conclusion) = made {
        found.push(conclusion)?;
    }
    Ok(())
}
