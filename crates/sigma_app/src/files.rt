//! The files of a command, fetched in order.
ghost use Rattle.std.specs.Prelude.{◌≡◌, ◌≤◌, false, map, length, IfOk, OnErr};
ghost use Rattle.sigma_app.specs.Files as spec;
ghost use Rattle.sigma_app.specs.Requests.{stand_twice};
ghost use Rattle.sigma_app.specs.Tool as tool;
ghost use Rattle.sigma_app.specs.Run as run;

use crate::reply::{Reply, path_reply};
use kif_tree::{LoadName, Text};
use sig_io::{FetchError, Fetched, Files};
use sigma_base::{Listed, NoMemory};
use std::alloc::Global;

/// The greatest number of bytes of a file.
pub const BYTE_LIMIT: usize = 8_388_608;

/// The text of a file, with the path as its name and the file's position, from 1, as its number.
#[derive(Debug, Drop)]
pub struct Part {
    pub number: u32,
    pub name: Text,
    pub text: Text,
}

/// The parts of all files, or the reply that ended the work.
#[derive(Debug, Drop)]
pub enum Fetching {
    Found(Listed<Part>),
    Stopped(Reply),
}

/// What one fetch gave: the text of the file, or the reply that ends the work.
#[derive(Debug, Drop)]
enum Body {
    Text(Text),
    Stopped(Reply),
}

fn fetch_one<F: Files>(alloc: Global, path: &str, files: &mut F) -> Result<Body, NoMemory>
    ensures told { F.told files.new ≡ F.told files.old }
    ensures body { IfOk result (λ body. run.FetchesOne path.now (F.told files.old) (F.faults files.old) (F.faults files.new) body) }
    ensures cause { OnErr result (run.MayHaveRisen (F.faults files.old) (F.faults files.new)) }
{
    let mut body = Vec::new(alloc);
    match files.fetch(path, BYTE_LIMIT, &mut body) {
        Ok(Fetched::Whole) => Ok(Body::Text(Text::of_bytes(body))),
        Ok(Fetched::Absent) => Ok(Body::Stopped(path_reply(
            alloc,
            3,
            b"absent ",
            path.as_bytes(),
        )?)),
        Ok(Fetched::TooLong) => Ok(Body::Stopped(path_reply(
            alloc,
            6,
            b"limit file ",
            path.as_bytes(),
        )?)),
        Err(FetchError::Failed) => Ok(Body::Stopped(path_reply(
            alloc,
            4,
            b"file fault ",
            path.as_bytes(),
        )?)),
        Err(FetchError::NoMemory) => Err(NoMemory),
    }
}

/// The parts that the files make, in order. The first file that isn't found whole ends the work.
pub fn fetch_files<F: Files>(
    alloc: Global,
    paths: &[&str],
    files: &mut F,
) -> Result<Fetching, NoMemory>
    requires few { length paths.now ≤ 64 }
    requires apart { stand_twice (map (λ s. s.now) paths.now) ≡ false }
    ensures told { F.told files.new ≡ F.told files.old }
    ensures found { IfOk result (λ fetching. run.Fetches (map (λ s. s.now) paths.now) (F.told files.old) (F.faults files.old) (F.faults files.new) fetching) }
    ensures cause { OnErr result (run.MayHaveRisen (F.faults files.old) (F.faults files.new)) }
{
    let mut parts = Listed::new(alloc);
    let mut number = 0;
    for path in paths {
        number += 1;
        match fetch_one(alloc, path, files)? {
            Body::Text(text) => parts.push(Part {
                number,
                name: Text::of(alloc, path.as_bytes())?,
                text,
            })?,
            Body::Stopped(reply) => return Ok(Fetching::Stopped(reply)),
        }
    }
    Ok(Fetching::Found(parts))
}

/// How many bytes the texts have together.
pub fn live_size(parts: &[Part]) -> u64
    requires short { spec.AreShort parts.now }
    requires few { length parts.now ≤ 64 }
    ensures { result ≡ spec.live_size parts.now }
{
    let mut size = 0;
    for part in parts {
        size += part.text.bytes().len() as u64;
    }
    size
}

/// The paths as the names of the loads.
pub fn load_names(alloc: Global, parts: &[Part]) -> Result<Listed<LoadName>, NoMemory>
    ensures { IfOk result (λ names. names ≡ spec.load_names parts.now) }
{
    let mut names = Listed::new(alloc);
    for part in parts {
        names.push(LoadName {
            number: part.number,
            name: part.name.copy(alloc)?,
        })?;
    }
    Ok(names)
}
