//! Told forms with the chains that they make.
ghost use Rattle.std.specs.Prelude.{◌≡◌, ◌↔◌, length, IfOk, OnOk, IsTrue, MatchOption};
ghost use Rattle.taxonomy.specs.Chains.{Chain, parents};
ghost use Rattle.taxonomy.specs.Disjoint.{AreDisjointBy, AreNotDisjoint};
ghost use Rattle.taxonomy.specs.Names.{AreNumbered};
ghost use Rattle.taxonomy.specs.Numbered.{LinksWithin};
ghost use Rattle.taxonomy.specs.Reorder.{AreMoved};
ghost use Rattle.taxonomy.specs.Told.{told_taxonomy};

use crate::names::Names;
use crate::numbered::{NumberedLink, numbered_groups, numbered_links};
use crate::order::lowest_first;
use crate::reorder::{moved_links, places_of};
use crate::tables::{Tables, edges_of, tables_of};
use crate::told::{ChainKind, Told};
use kif_tree::{Located, Place};
use sigma_base::NoMemory;
use std::alloc::Global;
use std::marker::Model;

/// The told links and disjoint words of forms, which contracts see as their lists.
#[derive(Debug, Drop)]
pub struct Taxonomy {
    tables: Tables,
}

impl Model for Taxonomy {
    ghost use Rattle.taxonomy.specs.Told.{ToldTaxonomy};
    ghost use Rattle.taxonomy.specs.Tables.{shown, AreTables};

    ghost Value = { ToldTaxonomy };

    ghost view = { λ taxonomy. shown taxonomy.tables };

    ghost invariant = { λ taxonomy. AreTables taxonomy.tables };
}

/// The numbers of the words, each behind those below it where no cycle forbids it. Those that are instances alone come before all others.
fn order_of(alloc: Global, count: usize, links: &[NumberedLink]) -> Result<Vec<usize>, NoMemory> {
    let mut edges = edges_of(alloc, links, ChainKind::Class)?;
    let relations = edges_of(alloc, links, ChainKind::Relation)?;
    edges.extend_from_slice(relations.as_slice())?;
    let instances = edges_of(alloc, links, ChainKind::Instance)?;
    lowest_first(alloc, count, edges.as_slice(), instances.as_slice())
}

/// Numbers the words anew, in that order.
fn reorder(alloc: Global, names: &mut Names, links: &mut Vec<NumberedLink>) -> Result<(), NoMemory>
    requires names { AreNumbered names.old.keys.entries names.old.places.items names.old.words.items }
    requires links { LinksWithin (length names.old.words.items) links.old.items }
    ensures numbered { OnOk result (AreNumbered names.new.keys.entries names.new.places.items names.new.words.items) }
    ensures moved { OnOk result (AreMoved names.old.words.items names.new.words.items links.old.items links.new.items) }
{
    let count = names.words.len();
    let order = order_of(alloc, count, links.as_slice())?;
    let Some(places) = places_of(alloc, count, order.as_slice())? else {
        return Ok(());
    };
    names.renumber(alloc, order.as_slice(), places.as_slice())?;
    *links = moved_links(alloc, links.as_slice(), places.as_slice())?;
    Ok(())
}

impl Taxonomy {
    /// What the forms tell. A form tells something where it is a list of words that begins with `instance`, `subclass`, `subrelation`
    /// or `disjoint` and two more, or with `partition` or `disjointDecomposition`, one more, and two or more that are disjoint.
    pub fn of(alloc: Global, forms: &[Located]) -> Result<Taxonomy, NoMemory>
        ensures { IfOk result (λ taxonomy. taxonomy ≡ told_taxonomy forms.now) }
    {
        let mut names = Names::new(alloc);
        let mut links = numbered_links(alloc, &mut names, forms)?;
        reorder(alloc, &mut names, &mut links)?;
        let groups = numbered_groups(alloc, &mut names, forms)?;
        let tables = tables_of(alloc, names, links, groups)?;
        Ok(Taxonomy { tables })
    }

    /// Whether a chain of that kind leads from the first word to the second. It takes no memory.
    pub fn is_above(&self, kind: ChainKind, low: &[u8], high: &[u8]) -> bool
        ensures { IsTrue result ↔ Chain self.now.links kind low.now high.now }
    {
        self.tables.is_above(kind, low, high)
    }

    /// The told `instance`, `subclass` and `subrelation` forms with the word first, in order of the forms. It takes no memory.
    pub fn parents(&self, word: &[u8]) -> &[Told]
        ensures { result.now ≡ parents self.now.links word.now }
    {
        self.tables.row(word)
    }

    /// The place of the first told form by which a word at or above the first one and another at or above the second one are
    /// disjoint. It takes no memory.
    pub fn are_disjoint(&self, first: &[u8], second: &[u8]) -> Option<Place>
        ensures { MatchOption result (AreNotDisjoint self.now first.now second.now) (λ place. AreDisjointBy self.now first.now second.now place) }
    {
        self.tables.are_disjoint(first, second)
    }
}
