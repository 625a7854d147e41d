//! What a call of the outside answers where it didn't do its work, and the count that tells a fault.
ghost use Rattle.std.specs.Prelude.{◌≡◌};
ghost use Rattle.sig_io.specs.Causes.{Rose, next_number};

/// The outside failed.
#[derive(Clone, Copy, Debug, PartialEq, Eq)]
pub struct Failed;

/// Why nothing was written.
#[derive(Clone, Copy, Debug, PartialEq, Eq)]
pub enum WriteError {
    Failed,
    NoMemory,
}

/// Why a file was not fetched.
#[derive(Clone, Copy, Debug, PartialEq, Eq)]
pub enum FetchError {
    Failed,
    NoMemory,
}

/// The count of faults after one more. At its last value it stays.
pub fn after_fault(count: u64) -> u64
    ensures next { result ≡ next_number count }
    ensures rose { Rose count result }
{
    count.saturating_add(1)
}
