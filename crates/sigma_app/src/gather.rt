//! The forms of the files of a command: the work that goes before what the command does with them.
ghost use Rattle.std.specs.Prelude.{◌≡◌, ◌≤◌, false, nat_le, length, IfOk, OnErr};
ghost use Rattle.sigma_app.specs.Files as files_spec;
ghost use Rattle.sigma_app.specs.Requests.{stand_twice, texts};
ghost use Rattle.sigma_app.specs.Tool as spec;
ghost use Rattle.sigma_app.specs.Run as run;

use crate::files::{Fetching, Part, fetch_files, live_size};
use crate::forms::{Reading, read_parts};
use crate::reply::{Reply, limit_reply};
use kif_tree::Located;
use sig_io::Files;
use sigma_base::{Listed, NoMemory};
use std::alloc::Global;

/// The greatest number of files.
const FILE_LIMIT: usize = 64;

/// The greatest number of bytes of all files together.
const LIVE_LIMIT: u64 = 67_108_864;

/// The parts that the files make, and the forms of all of them in their order.
#[derive(Debug, Drop)]
pub struct Gathered {
    pub parts: Listed<Part>,
    pub forms: Vec<Located>,
}

/// The forms of all files, or the reply that ended the work.
#[derive(Debug, Drop)]
pub enum Gathering {
    Found(Gathered),
    Stopped(Reply),
}

/// The forms of the parts, where their texts have no more bytes together than may be, and no fault.
fn forms_of(alloc: Global, parts: Listed<Part>) -> Result<Gathering, NoMemory>
    requires short { files_spec.AreShort parts }
    requires few { length parts ≤ 64 }
    ensures { IfOk result (λ gathering. spec.GathersParts parts gathering) }
{
    let size = live_size(parts.items());
    if size > LIVE_LIMIT {
        return Ok(Gathering::Stopped(limit_reply(alloc, b"limit live ", size)?));
    }
    Ok(match read_parts(alloc, parts.items())? {
        Reading::Forms(forms) => Gathering::Found(Gathered { parts, forms }),
        Reading::Stopped(reply) => Gathering::Stopped(reply),
    })
}

/// The forms of files that are few enough.
fn gather_few<F: Files>(alloc: Global, paths: &[&str], files: &mut F) -> Result<Gathering, NoMemory>
    requires few { length paths.now ≤ 64 }
    requires apart { stand_twice (texts paths.now) ≡ false }
    ensures told { F.told files.new ≡ F.told files.old }
    ensures gathers { IfOk result (λ gathering. run.Gathers (texts paths.now) (F.told files.old) (F.faults files.old) (F.faults files.new) gathering) }
    ensures cause { OnErr result (run.MayHaveRisen (F.faults files.old) (F.faults files.new)) }
{
    match fetch_files(alloc, paths, files)? {
        Fetching::Found(parts) => forms_of(alloc, parts),
        Fetching::Stopped(reply) => Ok(Gathering::Stopped(reply)),
    }
}

/// The forms of the files of these paths, each fetched in order. The number of the files, a file that isn't found whole, the bytes of all
/// of them and the first fault of their texts may end the work.
pub fn gather<F: Files>(alloc: Global, paths: &[&str], files: &mut F) -> Result<Gathering, NoMemory>
    requires apart { stand_twice (texts paths.now) ≡ false }
    ensures told { F.told files.new ≡ F.told files.old }
    ensures gathers { IfOk result (λ gathering. run.Gathers (texts paths.now) (F.told files.old) (F.faults files.old) (F.faults files.new) gathering) }
    ensures cause { OnErr result (run.MayHaveRisen (F.faults files.old) (F.faults files.new)) }
    ensures unfetched { nat_le (length paths.now) files_spec.file_limit ≡ false → F.faults files.new ≡ F.faults files.old }
{
    let count = paths.len();
    if count > FILE_LIMIT {
        return Ok(Gathering::Stopped(limit_reply(alloc, b"limit files ", count as u64)?));
    }
    gather_few(alloc, paths, files)
}
