//! The limits of a search.
ghost use Rattle.std.specs.Prelude.{◌≡◌};
ghost use Rattle.saturate.specs.Limits.{checked, is_within};

/// Which clauses wait first: in support mode those of the query alone, so that no two axioms meet, and in full mode all.
#[derive(Clone, Copy, Debug, PartialEq, Eq)]
pub enum Mode {
    Support,
    Full,
}

/// How far a search goes.
#[derive(Clone, Copy, Debug, PartialEq, Eq)]
pub struct Limits {
    /// How many turns may be taken, 1 to 100,000.
    pub turns: u32,
    /// With how many answers the search ends, 1 to 1,000.
    pub answers: u32,
    /// With how many derived clauses that are processed, wait or are aside the search ends, 1 to 200,000.
    pub kept: u32,
    pub mode: Mode,
}

/// Which limit is out of its range, the first in this order.
#[derive(Clone, Copy, Debug, PartialEq, Eq)]
pub enum LimitsError {
    TurnsOutOfRange,
    AnswersOutOfRange,
    KeptOutOfRange,
}

impl Limits {
    /// Whether each limit is in its range. It takes no memory.
    pub fn check(&self) -> Result<(), LimitsError>
        ensures { result ≡ checked self.now }
    {
        if !within(self.turns, 100_000) {
            return Err(LimitsError::TurnsOutOfRange);
        }
        if !within(self.answers, 1_000) {
            return Err(LimitsError::AnswersOutOfRange);
        }
        if !within(self.kept, 200_000) {
            return Err(LimitsError::KeptOutOfRange);
        }
        Ok(())
    }
}

fn within(number: u32, greatest: u32) -> bool
    ensures { result ≡ is_within greatest number }
{
    1 <= number && number <= greatest
}
