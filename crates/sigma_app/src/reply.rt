//! A reply of the tool: a status and the text that is printed with it.
ghost use Rattle.std.specs.Prelude.{◌≡◌, ◌++◌, ◌∷◌, [], IfOk, Some, decimal};
ghost use Rattle.sigma_app.specs.Snapshots.{snapshot_text};
ghost use Rattle.sigma_app.specs.Tool as spec;

use crate::places::append_place;
use kif_reader::{ReadError, Spot};
use kif_tree::{LoadName, Place, Text};
use sigma_base::NoMemory;
use std::alloc::Global;

/// A status and the text that is printed with it.
#[derive(Debug, Drop)]
pub struct Reply {
    pub status: u8,
    pub text: Text,
}

/// The text as it is.
pub fn fixed_reply(alloc: Global, status: u8, text: &[u8]) -> Result<Reply, NoMemory>
    ensures { IfOk result (λ reply. spec.Is status text.now reply.status reply.text) }
{
    Ok(Reply {
        status,
        text: Text::of(alloc, text)?,
    })
}

/// The words, the path and the end of the line.
pub fn path_reply(alloc: Global, status: u8, words: &[u8], path: &[u8]) -> Result<Reply, NoMemory>
    ensures { IfOk result (λ reply. spec.Is status (words.now ++ (path.now ++ 10 ∷ [])) reply.status reply.text) }
{
    let mut text = Text::of(alloc, words)?;
    text.append(path)?;
    text.push(b'\n')?;
    Ok(Reply { status, text })
}

/// The words, the number and the end of the line: a limit is passed.
pub fn limit_reply(alloc: Global, words: &[u8], number: u64) -> Result<Reply, NoMemory>
    ensures { IfOk result (λ reply. spec.Is 6 (words.now ++ (decimal number ++ 10 ∷ [])) reply.status reply.text) }
{
    let mut text = Text::of(alloc, words)?;
    text.append_decimal(number)?;
    text.push(b'\n')?;
    Ok(Reply { status: 6, text })
}

/// With the form at the place there are more clauses than a snapshot may have.
pub fn snapshot_reply(alloc: Global, names: &[LoadName], place: &Place) -> Result<Reply, NoMemory>
    ensures { IfOk result (λ reply. spec.Is 6 (snapshot_text names.now place.now) reply.status reply.text) }
{
    let mut text = Text::of(alloc, b"limit snapshot ")?;
    append_place(&mut text, names, place)?;
    text.push(b'\n')?;
    Ok(Reply { status: 6, text })
}

/// The code and the place of a fault, which want of memory has not.
pub fn fault_at(error: ReadError) -> Option<(u64, Spot)>
    ensures { result ≡ spec.fault_in error }
{
    match error {
        ReadError::BadByte(spot) => Some((1, spot)),
        ReadError::OpenString(spot) => Some((2, spot)),
        ReadError::OpenList(spot) => Some((3, spot)),
        ReadError::StrayClose(spot) => Some((4, spot)),
        ReadError::BadEscape(spot) => Some((5, spot)),
        ReadError::BadWord(spot) => Some((6, spot)),
        ReadError::TooDeep(spot) => Some((7, spot)),
        ReadError::LogicShape(spot) => Some((8, spot)),
        ReadError::NoMemory => None,
    }
}

/// The code of a fault and its place in the file of that name.
pub fn syntax_reply(alloc: Global, name: &[u8], code: u64, spot: Spot) -> Result<Reply, NoMemory>
    ensures { IfOk result (λ reply. spec.Is 5 (spec.syntax_text name.now code spot) reply.status reply.text) }
{
    let mut text = Text::of(alloc, b"syntax ")?;
    text.append_decimal(code)?;
    text.push(b' ')?;
    text.append(name)?;
    text.push(b':')?;
    text.append_decimal(u64::from(spot.line))?;
    text.push(b':')?;
    text.append_decimal(u64::from(spot.column))?;
    text.push(b'\n')?;
    Ok(Reply { status: 5, text })
}
