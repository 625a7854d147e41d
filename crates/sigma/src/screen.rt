//! Standard output, or any other writer.
ghost use Rattle.std.specs.Prelude.{◌≡◌};
ghost use Rattle.sig_io.specs.Causes.{Rose};

use sig_io::{Sink, WriteError, after_fault};
use std::io::{ErrorKind, Write};

/// A writer that counts its failures. It tells nothing of what was written before.
#[derive(Drop)]
pub struct Screen<W: Write> {
    inner: W,
    faults: u64,
}

impl<W: Write> Screen<W> {
    pub fn over(inner: W) -> Screen<W>
        ensures { result.faults ≡ 0 }
    {
        Screen { inner, faults: 0 }
    }

    fn fails(&mut self) -> WriteError
        ensures error { result ≡ WriteError.Failed }
        ensures count { Rose self.old.faults self.new.faults }
    {
        self.faults = after_fault(self.faults);
        WriteError::Failed
    }
}

impl<W: Write> Sink for Screen<W> {
    ghost use Rattle.std.specs.Prelude.{None};

    ghost told = { λ _. None };

    ghost faults = { λ s. s.faults };

    /// A write that was interrupted is tried again, and a write of nothing is a failure.
    fn write(&mut self, piece: &[u8]) -> Result<usize, WriteError> {
        if piece.is_empty() {
            return Ok(0);
        }
        for _ in 0..u64::MAX {
            match self.inner.write(piece) {
                Ok(0) => break,
                Ok(count) => return Ok(count),
                Err(error) if error.kind() == ErrorKind::Interrupted => {}
                Err(_) => break,
            }
        }
        Err(self.fails())
    }
}
