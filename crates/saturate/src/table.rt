//! The fingerprints of all clauses of a search.
ghost use Rattle.std.specs.Prelude.{◌≡◌, [], OnOk};
ghost use Rattle.saturate.specs.Marks as spec;

use crate::fingerprint::Fingerprints;
use crate::marks::Marks;
use kif_tree::Clause;
use sigma_base::{Listed, NoMemory};
use std::alloc::Global;

/// The fingerprints of clauses, in order of the clauses.
#[derive(Debug, Drop)]
pub(crate) struct FingerprintTable {
    pub(crate) all: Listed<Fingerprints>,
    /// The marks of each clause. They stand in a list of their own, since each turn goes over those of all partners.
    pub(crate) marks: Listed<Marks>,
}

impl FingerprintTable {
    pub(crate) fn new(alloc: Global) -> FingerprintTable
        ensures { result ≡ spec.tabled [] }
    {
        FingerprintTable {
            all: Listed::new(alloc),
            marks: Listed::new(alloc),
        }
    }

    /// One clause more. Where memory wants, nothing is said of what the table holds.
    pub(crate) fn add(&mut self, alloc: Global, clause: &Clause) -> Result<(), NoMemory>
        ensures { OnOk result (self.new ≡ spec.tabled_with self.old clause.now) }
    {
        let prints = Fingerprints::of(alloc, clause)?;
        self.marks.push(Marks::of(clause, &prints))?;
        self.all.push(prints)?;
        Ok(())
    }
}
