//! A sink in memory, which tells what it holds and fails at listed calls.
ghost use Rattle.std.specs.Prelude.{◌≡◌, IsOkAnd};
ghost use Rattle.sig_io.specs.Memory.{new_plan};

use crate::faults::WriteError;
use crate::plan::FaultPlan;
use crate::sink::Sink;
use kif_tree::Text;
use sigma_base::NoMemory;
use std::marker::Model;

/// Bytes in memory. It takes each piece whole.
#[derive(Debug, Drop)]
pub struct MemSink {
    content: Text,
    plan: FaultPlan,
}

impl Model for MemSink {
    ghost use Rattle.sig_io.specs.Memory.{SinkMemory};

    ghost Value = { SinkMemory };

    ghost view = { λ s. record { content = s.content; plan = s.plan } };
}

impl MemSink {
    /// A sink that holds the content. Its writes fail whose numbers, from 1, are listed in `failing`.
    pub fn new(content: Text, failing: Vec<u64>) -> Result<MemSink, NoMemory>
        ensures { IsOkAnd result (λ sink. sink ≡ record { content = content; plan = new_plan failing.items }) }
    {
        Ok(MemSink {
            content,
            plan: FaultPlan::new(failing),
        })
    }

    /// Lends all that it holds, the content that it was made of among it. It takes no memory.
    pub fn written(&self) -> &[u8]
        ensures { result.now ≡ self.now.content }
    {
        self.content.bytes()
    }
}

impl Sink for MemSink {
    ghost use Rattle.std.specs.Prelude.{◌≡◌, ◌<◌, ◌≤◌, [], length, Some, IfOk};
    ghost use Rattle.sig_io.specs.Told.{WritesPart};
    ghost use Rattle.sig_io.specs.Causes.{WriteCause, WriteFailsIf};
    ghost use Rattle.sig_io.specs.Memory.{is_next_listed, after_call};

    ghost told = { λ s. Some s.content };

    ghost faults = { λ s. s.plan.faults };

    fn write(&mut self, piece: &[u8]) -> Result<usize, WriteError>
        ensures bound { IfOk result (λ n. n ≤ length piece.now) }
        ensures some { IfOk result (λ n. 0 < length piece.now → 0 < n) }
        ensures told { WritesPart (Some self.old.content) (Some self.new.content) piece.now result }
        ensures cause { WriteCause self.old.plan.faults self.new.plan.faults result }

        // the form in memory: whole pieces, and a failure exactly at the listed calls
        ensures whole { IfOk result (λ n. n ≡ length piece.now) }
        ensures fails { WriteFailsIf (is_next_listed self.old.plan) result }
        ensures counted { self.new.plan ≡ after_call self.old.plan }
        ensures quiet { self.old.plan.failing ≡ [] → self.new.plan.faults ≡ self.old.plan.faults }
    {
        if self.plan.next_fails() {
            return Err(WriteError::Failed);
        }
        if self.content.append(piece).is_err() {
            return Err(WriteError::NoMemory);
        }
        Ok(piece.len())
    }
}
