//! Types told of arguments and of values.
ghost use Rattle.std.specs.Prelude.{◌≡◌, ℕ, false, nat_eq, IfOk, OnOk};
ghost use Rattle.kif_tree.specs.Terms.{Bytes};
ghost use Rattle.signatures.specs.Forms.{found_argument};
ghost use Rattle.signatures.specs.TypeTables as spec;
ghost use Rattle.signatures.specs.Types as types;
ghost use Rattle.signatures.specs.WordTables.{find};

use crate::forms::{FoundArgument, argument_in, pair_in};
use crate::told::TypeTold;
use crate::word_table::{WordTable, push};
use kif_tree::{Located, Place, Text};
use sigma_base::{Listed, NoMemory};
use std::alloc::Global;
use std::collections::HashMap;

/// The types that are told of each word.
pub type Types = WordTable<Listed<TypeTold>>;

/// The types that are told of words' arguments, by the numbers of these.
pub type NumberedTypes = HashMap<u32, Types>;

/// A type that a form tells of a word.
#[derive(Clone, Copy, Debug)]
pub struct FoundType<'a> {
    pub word: &'a Text,
    pub subclass: bool,
    pub class: &'a Text,
    pub place: Place,
}

/// Whether a form of this head tells of subclasses, where it has one of the two heads.
fn tells_subclass(of_instances: &[u8], of_subclasses: &[u8], head: &[u8]) -> Option<bool>
    ensures { result ≡ types.tells_subclass of_instances.now of_subclasses.now head.now }
{
    if head == of_instances {
        return Some(false);
    }
    if head == of_subclasses {
        return Some(true);
    }
    None
}

/// The type that the form tells of an argument.
fn told_type(found: FoundArgument<'_>) -> Option<FoundType<'_>>
    ensures { (word : Bytes) → spec.found_for word result ≡ types.type_in word found.entry.number (found_argument found.entry) }
{
    let subclass = tells_subclass(b"domain", b"domainSubclass", found.head.bytes())?;
    Some(FoundType {
        word: found.word,
        subclass,
        class: found.class,
        place: found.place,
    })
}

/// The type that the form tells of a function's values.
fn range_in(located: &Located) -> Option<FoundType<'_>>
    ensures { (word : Bytes) → spec.found_for word result ≡ spec.range_at word located.now }
{
    let found = pair_in(located)?;
    let subclass = tells_subclass(b"range", b"rangeSubclass", found.head.bytes())?;
    Some(FoundType {
        word: found.first,
        subclass,
        class: found.second,
        place: found.place,
    })
}

/// Adds what is found last for its word.
fn add(alloc: Global, table: &mut Types, found: Option<FoundType<'_>>) -> Result<(), NoMemory>
    ensures { OnOk result (spec.AddsFound table.old table.new found.entry) }
{
    let Some(found) = found else {
        return Ok(());
    };
    let class = found.class.copy(alloc)?;
    let told = TypeTold {
        subclass: found.subclass,
        class,
        place: found.place,
    };
    push(alloc, table, found.word.bytes(), told)
}

/// Takes the table for the number out of the tables.
pub fn take_types(alloc: Global, tables: &mut NumberedTypes, number: u32) -> Types
    ensures table { (word : Bytes) → find result word ≡ spec.types_for tables.old number word }
    ensures others { (other : ℕ) (word : Bytes) → nat_eq other number ≡ false → spec.types_for tables.new other word ≡ spec.types_for tables.old other word }
{
    match tables.remove(&number) {
        Some(table) => table,
        None => HashMap::new(alloc),
    }
}

/// Adds the type that the form tells of an argument.
fn add_argument(
    alloc: Global,
    tables: &mut NumberedTypes,
    located: &Located,
) -> Result<(), NoMemory>
    ensures { OnOk result (spec.AddsArgument tables.old tables.new located.now) }
{
    let Some(found) = argument_in(located) else {
        return Ok(());
    };
    let mut table = take_types(alloc, tables, found.number);
    add(alloc, &mut table, told_type(found))?;
    tables.insert(found.number, table)?;
    Ok(())
}

/// The types of the words' arguments, by the arguments' numbers.
pub fn own_types(alloc: Global, forms: &[Located]) -> Result<NumberedTypes, NoMemory>
    ensures { IfOk result (spec.AreArguments forms.now) }
{
    let mut tables = HashMap::new(alloc);
    for located in forms {
        add_argument(alloc, &mut tables, located)?;
    }
    Ok(tables)
}

/// The types of functions' values.
pub fn ranges(alloc: Global, forms: &[Located]) -> Result<Types, NoMemory>
    ensures { IfOk result (λ table. spec.AreToldTypes spec.range_at forms.now table) }
{
    let mut table = HashMap::new(alloc);
    for located in forms {
        add(alloc, &mut table, range_in(located))?;
    }
    Ok(table)
}
