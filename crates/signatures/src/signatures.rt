//! The tables of a list of forms.
ghost use Rattle.std.specs.Prelude.{◌≡◌, IfOk, OnOk};
ghost use Rattle.taxonomy.specs.Told.{told_taxonomy};
ghost use Rattle.signatures.specs.ArgumentTables as arguments;
ghost use Rattle.signatures.specs.Lowers.{AreLowers};
ghost use Rattle.signatures.specs.Tables as spec;

use crate::arities::own_arities;
use crate::forms::argument_in;
use crate::inherited::{Inherited, inherit};
use crate::lowers::{Lowers, lowers_of};
use crate::names::{arity_in, heads, in_order, names_of};
use crate::told::{Arity, TypeTold};
use crate::types::{NumberedTypes, own_types, ranges, take_types};
use crate::word_table::WordTable;
use kif_tree::{Located, Text};
use sigma_base::{Listed, NoMemory};
use std::alloc::Global;
use std::collections::HashMap;
use taxonomy::Taxonomy;

/// The types of words' arguments, by the numbers of these.
type ArgumentTypes = HashMap<usize, Inherited<Listed<TypeTold>>>;

/// What forms tell of relations and functions.
#[derive(Debug, Drop)]
pub struct Signatures {
    arities: Inherited<Arity>,
    types: ArgumentTypes,
    ranges: WordTable<Listed<TypeTold>>,
    relations: Vec<Text>,
}

/// Adds the table for the number of the argument that the form tells of, where it isn't there yet.
fn add_number(
    alloc: Global,
    forms: &[Located],
    lowers: &Lowers,
    own: &mut NumberedTypes,
    tables: &mut ArgumentTypes,
    located: &Located,
) -> Result<(), NoMemory>
    requires { AreLowers forms.now lowers.now }
    ensures { OnOk result (arguments.AddsNumber forms.now own.old own.new tables.old tables.new located.now) }
{
    let Some(found) = argument_in(located) else {
        return Ok(());
    };
    let number = found.number as usize;
    if tables.contains_key(&number) {
        return Ok(());
    }
    let own_types = take_types(alloc, own, found.number);
    let types = inherit(alloc, forms, lowers, own_types)?;
    tables.insert(number, types)?;
    Ok(())
}

/// A table for each number of an argument of which the forms tell.
fn argument_types(
    alloc: Global,
    forms: &[Located],
    lowers: &Lowers,
) -> Result<ArgumentTypes, NoMemory>
    requires { AreLowers forms.now lowers.now }
    ensures { IfOk result (arguments.AreTables forms.now forms.now) }
{
    let mut own = own_types(alloc, forms)?;
    let mut tables = HashMap::new(alloc);
    for located in forms {
        add_number(alloc, forms, lowers, &mut own, &mut tables, located)?;
    }
    Ok(tables)
}

impl Signatures {
    /// What the forms tell, with the taxonomy that was made of them.
    pub fn of(alloc: Global, forms: &[Located], taxonomy: &Taxonomy) -> Result<Signatures, NoMemory>
        requires { taxonomy.now ≡ told_taxonomy forms.now }
        ensures { IfOk result (spec.AreSignatures forms.now) }
    {
        let lowers = lowers_of(alloc, forms)?;
        let own = own_arities(alloc, forms, taxonomy)?;
        let arities = inherit(alloc, forms, &lowers, own)?;
        let types = argument_types(alloc, forms, &lowers)?;
        let ranges = ranges(alloc, forms)?;
        let heads = heads(alloc, forms)?;
        let names = names_of(alloc, forms, &heads, &arities)?;
        let relations = in_order(alloc, names)?;
        Ok(Signatures {
            arities,
            types,
            ranges,
            relations,
        })
    }

    /// How many arguments the word takes. It takes no memory.
    pub fn arity(&self, relation: &[u8]) -> Arity
        ensures { result ≡ spec.arity_in self.now relation.now }
    {
        arity_in(&self.arities, relation)
    }

    /// The types of the argument, its own or inherited ones, in order of the forms that tell them. It takes no memory.
    pub fn domain_of(&self, relation: &[u8], argument: u32) -> &[TypeTold]
        ensures { result.now ≡ spec.types_in self.now relation.now argument }
    {
        self.domain_at(relation, argument as usize)
    }

    /// The same by a number of any size. It takes no memory.
    pub fn domain_at(&self, relation: &[u8], argument: usize) -> &[TypeTold]
        ensures { result.now ≡ spec.types_in self.now relation.now argument }
    {
        let Some(table) = self.types.get(&argument) else {
            return &[];
        };
        match table.value(relation) {
            Some(types) => types.items(),
            None => &[],
        }
    }

    /// The types of the function's values, in order of the forms that tell them. It takes no memory.
    pub fn range_of(&self, function: &[u8]) -> &[TypeTold]
        ensures { result.now ≡ spec.ranges_in self.now function.now }
    {
        match self.ranges.get(function) {
            Some(types) => types.items(),
            None => &[],
        }
    }

    /// The relation names by bytes. It takes no memory.
    pub fn relations(&self) -> &[Text]
        ensures { result.now ≡ spec.relations_in self.now }
    {
        self.relations.as_slice()
    }
}
