//! The forms of the parts.
ghost use Rattle.std.specs.Prelude.{◌≤◌, length, IfOk};
ghost use Rattle.sigma_app.specs.Files as files;
ghost use Rattle.sigma_app.specs.Tool as spec;

use crate::files::Part;
use crate::reply::{Reply, fault_at, syntax_reply};
use kif_reader::read_forms;
use kif_tree::Located;
use sigma_base::NoMemory;
use std::alloc::Global;

/// The forms of all parts, or the reply to the first text that has a fault.
#[derive(Debug, Drop)]
pub enum Reading {
    Forms(Vec<Located>),
    Stopped(Reply),
}

/// The forms of one part.
fn read_part(alloc: Global, part: &Part) -> Result<Reading, NoMemory>
    requires { length part.now.text ≤ 8388608 }
    ensures { IfOk result (λ reading. spec.ReadsPart part.now reading) }
{
    let error = match read_forms(alloc, part.text.bytes(), part.number) {
        Ok(forms) => return Ok(Reading::Forms(forms)),
        Err(error) => error,
    };
    match fault_at(error) {
        Some((code, spot)) => Ok(Reading::Stopped(syntax_reply(
            alloc,
            part.name.bytes(),
            code,
            spot,
        )?)),
        None => Err(NoMemory),
    }
}

/// The forms of the parts in order. The first text with a fault ends the work.
pub fn read_parts(alloc: Global, parts: &[Part]) -> Result<Reading, NoMemory>
    requires { files.AreShort parts.now }
    ensures { IfOk result (λ reading. spec.ReadsParts parts.now reading) }
{
    let mut forms = Vec::new(alloc);
    for part in parts {
        match read_part(alloc, part)? {
            Reading::Forms(mut more) => forms.append(&mut more)?,
            Reading::Stopped(reply) => return Ok(Reading::Stopped(reply)),
        }
    }
    Ok(Reading::Forms(forms))
}
