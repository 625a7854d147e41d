//! Files in memory, which tell what they hold and fail at listed calls.
ghost use Rattle.std.specs.Prelude.{◌≡◌, IfOk, IsOkAnd, All, Some};
ghost use Rattle.sig_io.specs.Named.{pairs_of, names_of, AreDistinct};
ghost use Rattle.sig_io.specs.Told.{body_of};
ghost use Rattle.sig_io.specs.Memory.{new_plan};

use crate::faults::FetchError;
use crate::files::{Fetched, Files};
use crate::named::{NamedFile, body};
use crate::plan::FaultPlan;
use sigma_base::NoMemory;
use std::marker::Model;

/// Files in memory.
#[derive(Debug, Drop)]
pub struct MemFiles {
    files: Vec<NamedFile>,
    plan: FaultPlan,
}

impl Model for MemFiles {
    ghost use Rattle.sig_io.specs.Memory.{FilesMemory};
    ghost use Rattle.sig_io.specs.Named.{pairs_of};

    ghost Value = { FilesMemory };

    ghost view = { λ s. record { files = pairs_of s.files.items; plan = s.plan } };
}

impl MemFiles {
    /// The files of the list, whose names differ (`have_own_names`). Its fetches fail whose numbers, from 1, are listed in
    /// `failing`.
    #[tactic(auto, using(crate::proofs::NamedLaws::own_body))]
    pub fn new(content: Vec<NamedFile>, failing: Vec<u64>) -> Result<MemFiles, NoMemory>
        requires { AreDistinct (names_of content.items) }
        ensures own { IfOk result (λ made. All (λ f. body_of made.files f.name ≡ Some f.body) content.items) }
        ensures made { IsOkAnd result (λ made. made ≡ record { files = pairs_of content.items; plan = new_plan failing.items }) }
    {
        Ok(MemFiles {
            files: content,
            plan: FaultPlan::new(failing),
        })
    }
}

impl Files for MemFiles {
    ghost use Rattle.std.specs.Prelude.{◌≡◌, [], Some};
    ghost use Rattle.sig_io.specs.Told.{Fetches};
    ghost use Rattle.sig_io.specs.Causes.{FetchCause, FetchFailsIf};
    ghost use Rattle.sig_io.specs.Memory.{is_next_listed, after_call};

    ghost told = { λ s. Some s.files };

    ghost faults = { λ s. s.plan.faults };

    fn fetch(&mut self, name: &str, limit: usize, into: &mut Vec<u8>) -> Result<Fetched, FetchError>
        ensures same { self.new.files ≡ self.old.files }
        ensures fetched { Fetches (Some self.old.files) name.now limit into.old.items into.new.items result }
        ensures cause { FetchCause self.old.plan.faults self.new.plan.faults result }

        // the form in memory: a failure exactly at the listed calls
        ensures fails { FetchFailsIf (is_next_listed self.old.plan) result }
        ensures counted { self.new.plan ≡ after_call self.old.plan }
        ensures quiet { self.old.plan.failing ≡ [] → self.new.plan.faults ≡ self.old.plan.faults }
    {
        if self.plan.next_fails() {
            return Err(FetchError::Failed);
        }
        let Some(body) = body(self.files.as_slice(), name) else {
            return Ok(Fetched::Absent);
        };
        if body.len() > limit {
            return Ok(Fetched::TooLong);
        }
        if into.extend_from_slice(body).is_err() {
            return Err(FetchError::NoMemory);
        }
        Ok(Fetched::Whole)
    }
}
