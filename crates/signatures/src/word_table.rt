//! Tables with a value for some words.
ghost use Rattle.std.specs.Prelude.{◌≡◌, [], OnOk, unwrap_or};
ghost use Rattle.signatures.specs.WordTables as spec;

use sigma_base::{Listed, NoMemory};
use std::alloc::Global;
use std::collections::HashMap;

/// Words, each with its value.
pub type WordTable<V> = HashMap<Vec<u8>, V>;

/// Gives the word the value in the table.
pub fn set<V: Drop>(
    alloc: Global,
    table: &mut WordTable<V>,
    word: &[u8],
    value: V,
) -> Result<(), NoMemory>
    ensures { OnOk result (spec.IsSet table.old table.new word.now value) }
{
    let key = Vec::from_slice(alloc, word)?;
    table.insert(key, value)?;
    Ok(())
}

/// Takes the word's list out of the table.
fn take<T: Drop>(alloc: Global, table: &mut WordTable<Listed<T>>, word: &[u8]) -> Listed<T>
    ensures list { result ≡ unwrap_or (spec.find table.old word.now) [] }
    ensures others { spec.IsTaken table.old table.new word.now }
{
    match table.remove(word) {
        Some(items) => items,
        None => Listed::new(alloc),
    }
}

/// Adds the item last to the word's list.
pub fn push<T: Drop>(
    alloc: Global,
    table: &mut WordTable<Listed<T>>,
    word: &[u8],
    item: T,
) -> Result<(), NoMemory>
    ensures { OnOk result (spec.IsPushed table.old table.new word.now item) }
{
    let mut items = take(alloc, table, word);
    items.push(item)?;
    set(alloc, table, word, items)
}
