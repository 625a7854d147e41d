//! Files of the disk.
ghost use Rattle.std.specs.Prelude.{◌≡◌};
ghost use Rattle.sig_io.specs.Causes.{FetchCause};
ghost use Rattle.sig_io.specs.declared.files.Fetched.{Fetched};

use sig_io::{FetchError, Fetched, Files, after_fault};
use std::alloc::Global;
use std::io::{self, ErrorKind, Read};
use std::{fs, rt};

/// Files by their paths. It tells nothing of what the disk holds.
#[derive(Drop)]
pub struct FileShelf<'a, R: rt::Files> {
    rt: &'a R,
    alloc: Global,
    faults: u64,
}

impl<'a, R: rt::Files> FileShelf<'a, R> {
    pub fn new(rt: &'a R, alloc: Global) -> FileShelf<'a, R>
        ensures { result.faults ≡ 0 }
    {
        FileShelf {
            rt,
            alloc,
            faults: 0,
        }
    }

    /// Why a file was not opened or read: want of memory, or a fault that is counted.
    fn refused(&mut self, error: io::Error) -> FetchError
        ensures { FetchCause {T = Fetched} self.old.faults self.new.faults (Err result) }
    {
        if error.kind() == ErrorKind::OutOfMemory {
            return FetchError::NoMemory;
        }
        self.faults = after_fault(self.faults);
        FetchError::Failed
    }

    /// At most one byte more than the limit, which shows a file that is too long.
    fn read_body(&self, name: &str, limit: usize) -> io::Result<Vec<u8>> {
        let mut body = Vec::new(self.alloc);
        let most = (limit as u64).saturating_add(1);
        fs::open(self.rt, name)?.take(most).read_to_end(&mut body)?;
        Ok(body)
    }
}

/// There is no such file, also where a part of the path before its last is a file, or a part is too long for a name.
fn is_absence(error: &io::Error) -> bool {
    let kind = error.kind();
    kind == ErrorKind::NotFound
        || kind == ErrorKind::NotADirectory
        || kind == ErrorKind::InvalidFilename
}

impl<R: rt::Files> Files for FileShelf<'_, R> {
    ghost use Rattle.std.specs.Prelude.{None};

    ghost told = { λ _. None };

    ghost faults = { λ s. s.faults };

    fn fetch(
        &mut self,
        name: &str,
        limit: usize,
        into: &mut Vec<u8>,
    ) -> Result<Fetched, FetchError> {
        let body = match self.read_body(name, limit) {
            Ok(body) => body,
            Err(error) if is_absence(&error) => return Ok(Fetched::Absent),
            Err(error) => return Err(self.refused(error)),
        };
        if body.len() > limit {
            return Ok(Fetched::TooLong);
        }
        if into.extend_from_slice(body.as_slice()).is_err() {
            return Err(FetchError::NoMemory);
        }
        Ok(Fetched::Whole)
    }
}
