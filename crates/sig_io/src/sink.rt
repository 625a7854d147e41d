//! A sink takes bytes.
ghost use Rattle.std.specs.Prelude.{◌≡◌, ◌<◌, ◌≤◌, List, ℕ, Option, length, IfOk, IsOk};
ghost use Rattle.sig_io.specs.Told.{WritesPart, WritesAll};
ghost use Rattle.sig_io.specs.Causes.{WriteCause};

use crate::faults::WriteError;

/// Takes bytes, a piece at a time, and may take a part of a piece.
pub trait Sink {
    /// The bytes that it holds, where it tells them.
    ghost told: { Self → Option (List ℕ) };

    /// How many writes failed: a `u64` that never falls, and stays at its last value.
    ghost faults: { Self → ℕ };

    /// Takes bytes from the front of the piece and answers how many. A refusal takes none.
    fn write(&mut self, piece: &[u8]) -> Result<usize, WriteError>
        ensures bound { IfOk result (λ n. n ≤ length piece.now) }
        ensures some { IfOk result (λ n. 0 < length piece.now → 0 < n) }
        ensures told { WritesPart (told self.old) (told self.new) piece.now result }
        ensures cause { WriteCause (faults self.old) (faults self.new) result };
}

/// Writes the whole piece. It answers the first refusal that `write` gives, and a prefix of the piece was taken then. An
/// empty piece takes no write.
pub fn write_all<S: Sink>(out: &mut S, piece: &[u8]) -> Result<(), WriteError>
    ensures told { WritesAll (S.told out.old) (S.told out.new) piece.now result }
    ensures cause { WriteCause (S.faults out.old) (S.faults out.new) result }
    ensures nothing { length piece.now ≡ 0 → IsOk result }
{
    let mut written = 0usize;
    while written < piece.len() {
        let count = out.write(&piece[written..])?;
        written += count;
    }
    Ok(())
}
