//! Files are fetched by their names.
ghost use Rattle.std.specs.Prelude.{◌≡◌, List, ℕ, Option};
ghost use Rattle.sig_io.specs.Told.{Fetches};
ghost use Rattle.sig_io.specs.Causes.{FetchCause};

use crate::faults::FetchError;

/// What a fetch found.
#[derive(Clone, Copy, Debug, PartialEq, Eq)]
pub enum Fetched {
    /// The whole file was appended.
    Whole,
    /// There is no file of that name.
    Absent,
    /// The file has more bytes than the limit.
    TooLong,
}

/// Gives files by their names.
pub trait Files {
    /// The files, each a name and its bytes, where it tells them.
    ghost told: { Self → Option (List (List ℕ × List ℕ)) };

    /// How many fetches failed: a `u64` that never falls, and stays at its last value.
    ghost faults: { Self → ℕ };

    /// Appends the file of that name if it has at most `limit` bytes. Any other answer leaves `into` as before.
    fn fetch(&mut self, name: &str, limit: usize, into: &mut Vec<u8>) -> Result<Fetched, FetchError>
        ensures same { told self.new ≡ told self.old }
        ensures fetched { Fetches (told self.old) name.now limit into.old.items into.new.items result }
        ensures cause { FetchCause (faults self.old) (faults self.new) result };
}
