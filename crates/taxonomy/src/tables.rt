//! What a taxonomy keeps: told links and disjoint words by numbers, what is told of each word, and the words below each word.
ghost use Rattle.std.specs.Prelude.{◌≡◌, ◌<◌, ◌≤◌, ◌++◌, ◌∷◌, [], length, get_or, slice_set, Contains, IfOk, OnOk, MatchOption};
ghost use Rattle.taxonomy.specs.Chains as chains;
ghost use Rattle.taxonomy.specs.Disjoint as disjoint;
ghost use Rattle.taxonomy.specs.Graph.{AreWithin};
ghost use Rattle.taxonomy.specs.Names.{AreNumbered};
ghost use Rattle.taxonomy.specs.Numbered as numbered;
ghost use Rattle.taxonomy.specs.Tables as spec;
ghost use Rattle.taxonomy.specs.declared.told.ChainKind.TheVariants as kinds;

use crate::closure::{Edge, closure, is_at_or_below};
use crate::names::Names;
use crate::numbered::{NumberedGroup, NumberedLink};
use crate::runs::Runs;
use crate::starts::starts_of;
use crate::told::{ChainKind, Told};
use kif_tree::{Place, Text};
use sigma_base::{Listed, NoMemory};
use std::alloc::Global;

/// Told forms and what is worked out from them.
#[derive(Debug, Drop)]
pub struct Tables {
    pub names: Names,
    pub links: Vec<NumberedLink>,
    pub groups: Vec<NumberedGroup>,
    /// For each word what the links tell of it.
    pub rows: Vec<Listed<Told>>,
    /// For each word the words from which chains of `subclass` lead to it.
    pub classes: Vec<Runs>,
    /// The same with `subrelation`.
    pub relations: Vec<Runs>,
    /// For each word a number of groups, none of which separates it from itself. Empty where there are no groups.
    pub starts: Vec<usize>,
}

/// Whether the kinds are the same.
pub fn is_same_kind(kind: ChainKind, other: ChainKind) -> bool
    ensures { spec.Tells result (kind ≡ other) }
{
    match kind {
        ChainKind::Class => match other {
            ChainKind::Class => true,
            _ => false,
        },
        ChainKind::Instance => match other {
            ChainKind::Instance => true,
            _ => false,
        },
        ChainKind::Relation => match other {
            ChainKind::Relation => true,
            _ => false,
        },
    }
}

/// The links of the kind, as edges.
pub fn edges_of(
    alloc: Global,
    links: &[NumberedLink],
    kind: ChainKind,
) -> Result<Vec<Edge>, NoMemory>
    ensures { IfOk result (λ edges. spec.AreEdges kind links.now edges.items) }
{
    let mut edges = Vec::new(alloc);
    for link in links {
        if !is_same_kind(link.kind, kind) {
            continue;
        }
        edges.push(Edge {
            low: link.low,
            high: link.high,
        })?;
    }
    Ok(edges)
}

/// As many empty rows as there are words.
fn empty_rows(alloc: Global, count: usize) -> Result<Vec<Listed<Told>>, NoMemory>
    ensures { IfOk result (λ rows. spec.AreEmptyRows count rows.items) }
{
    let mut rows = Vec::new(alloc);
    for _ in 0..count {
        rows.push(Listed::new(alloc))?;
    }
    Ok(rows)
}

/// Adds what the link tells of its first word.
fn add_told(
    alloc: Global,
    words: &[Text],
    rows: &mut Vec<Listed<Told>>,
    link: NumberedLink,
) -> Result<(), NoMemory>
    requires low { link.low < length rows.old.items }
    requires high { link.high < length words.now }
    ensures { OnOk result (rows.new.items ≡ slice_set rows.old.items link.low (get_or rows.old.items link.low [] ++ chains.as_told (numbered.named words.now link) ∷ [])) }
{
    let parent = words[link.high].copy(alloc)?;
    let row = &mut rows[link.low];
    if row.items().is_empty() {
        // most words have one
        *row = Listed::of(Vec::with_capacity(alloc, 1)?);
    }
    row.push(Told {
        kind: link.kind,
        parent,
        place: link.place,
    })
}

/// For each word what the links tell of it, in order.
pub fn rows_of(
    alloc: Global,
    words: &[Text],
    links: &[NumberedLink],
) -> Result<Vec<Listed<Told>>, NoMemory>
    requires within { numbered.LinksWithin (length words.now) links.now }
    requires distinct { spec.AreDistinct words.now }
    ensures { IfOk result (λ rows. spec.AreRows words.now links.now rows.items) }
{
    let mut rows = empty_rows(alloc, words.len())?;
    for link in links {
        add_told(alloc, words, &mut rows, *link)?;
    }
    Ok(rows)
}

/// For each word the words from which links of the kind lead to it.
fn sets_of(
    alloc: Global,
    count: usize,
    links: &[NumberedLink],
    kind: ChainKind,
) -> Result<Vec<Runs>, NoMemory>
    requires { numbered.LinksWithin count links.now }
    ensures { IfOk result (λ sets. spec.AreSets kind count links.now sets.items) }
{
    let mut edges = edges_of(alloc, links, kind)?;
    // what lies below a number has mostly come to it before it is passed on
    edges.sort()?;
    let sets = closure(alloc, count, edges.as_slice())?;
    Ok(sets)
}

/// The links that lead to words at or above others, as edges.
fn upward_edges(alloc: Global, count: usize, links: &[NumberedLink]) -> Result<Vec<Edge>, NoMemory>
    requires { numbered.LinksWithin count links.now }
    ensures within { IfOk result (λ edges. AreWithin count edges.items) }
    ensures classes { IfOk result (λ edges. spec.HasEdges kinds.Class links.now edges.items) }
    ensures instances { IfOk result (λ edges. spec.HasEdges kinds.Instance links.now edges.items) }
{
    let mut edges = edges_of(alloc, links, ChainKind::Class)?;
    let instances = edges_of(alloc, links, ChainKind::Instance)?;
    edges.extend_from_slice(instances.as_slice())?;
    edges.sort()?;
    Ok(edges)
}

/// For each word how many groups may be left out where it is asked whether the word is disjoint from itself.
fn self_starts(
    alloc: Global,
    count: usize,
    links: &[NumberedLink],
    groups: &[NumberedGroup],
) -> Result<Vec<usize>, NoMemory>
    requires links { numbered.LinksWithin count links.now }
    requires groups { numbered.GroupsWithin count groups.now }
    ensures { IfOk result (λ starts. 0 < length starts.items → spec.AreSelfStarts count links.now groups.now starts.items) }
{
    if groups.is_empty() {
        return Ok(Vec::new(alloc));
    }
    let edges = upward_edges(alloc, count, links)?;
    let sets = closure(alloc, count, edges.as_slice())?;
    let starts = starts_of(alloc, count, sets.as_slice(), groups)?;
    Ok(starts)
}

/// The tables of the links and groups.
pub fn tables_of(
    alloc: Global,
    names: Names,
    links: Vec<NumberedLink>,
    groups: Vec<NumberedGroup>,
) -> Result<Tables, NoMemory>
    requires names { AreNumbered names.keys.entries names.places.items names.words.items }
    requires links { numbered.LinksWithin (length names.words.items) links.items }
    requires groups { numbered.GroupsWithin (length names.words.items) groups.items }
    ensures tables { IfOk result (λ tables. spec.AreTables tables) }
    ensures shown { IfOk result (λ tables. spec.shown tables ≡ spec.shown_as names.words.items links.items groups.items) }
{
    let rows = rows_of(alloc, names.words.as_slice(), links.as_slice())?;
    let classes = sets_of(alloc, names.words.len(), links.as_slice(), ChainKind::Class)?;
    let relations = sets_of(
        alloc,
        names.words.len(),
        links.as_slice(),
        ChainKind::Relation,
    )?;
    let starts = self_starts(
        alloc,
        names.words.len(),
        links.as_slice(),
        groups.as_slice(),
    )?;
    Ok(Tables {
        names,
        links,
        groups,
        rows,
        classes,
        relations,
        starts,
    })
}

/// Whether the number is another one than that which is left out.
fn is_other(but: Option<usize>, number: usize) -> bool
    ensures { spec.Tells result (spec.IsOther but number) }
{
    match but {
        Some(but) => number != but,
        None => true,
    }
}

impl Tables {
    /// What the links tell of the word, in order.
    pub fn row(&self, word: &[u8]) -> &[Told]
        requires { spec.AreTables self.now }
        ensures { result.now ≡ chains.parents (spec.shown self.now).links word.now }
    {
        match self.names.number(word) {
            Some(number) => self.rows[number].items(),
            None => &[],
        }
    }

    /// For each word the words from which links of a kind that stand later in a chain lead to it.
    fn sets(&self, kind: ChainKind) -> &[Runs]
        requires { spec.AreTables self.now }
        ensures { spec.AreSets (chains.later_kind kind) (length self.now.names.words.items) self.now.links.items result.now }
    {
        match kind {
            ChainKind::Class => self.classes.as_slice(),
            ChainKind::Instance => self.classes.as_slice(),
            ChainKind::Relation => self.relations.as_slice(),
        }
    }

    /// Whether none or more links of a kind that stand later in a chain lead from the word to that of the number.
    fn reaches(&self, kind: ChainKind, word: &[u8], high: usize) -> bool
        requires tables { spec.AreTables self.now }
        requires high { high < length self.now.names.words.items }
        ensures { spec.Tells result (spec.Passes (spec.shown self.now).links (chains.later_kind kind) word.now (spec.word_at self.now high)) }
    {
        let Some(low) = self.names.number(word) else {
            return false;
        };
        is_at_or_below(self.sets(kind), low, high)
    }

    /// Whether a chain leads from the word of the first number to that of the second.
    fn leads(&self, kind: ChainKind, low: usize, high: usize) -> bool
        requires tables { spec.AreTables self.now }
        requires low { low < length self.now.names.words.items }
        requires high { high < length self.now.names.words.items }
        ensures { spec.Tells result (chains.Chain (spec.shown self.now).links kind (spec.word_at self.now low) (spec.word_at self.now high)) }
    {
        for told in self.rows[low].items() {
            if !is_same_kind(told.kind, kind) {
                continue;
            }
            if self.reaches(kind, told.parent.bytes(), high) {
                return true;
            }
        }
        false
    }

    /// Whether a chain leads from one word to the other.
    pub fn is_above(&self, kind: ChainKind, low: &[u8], high: &[u8]) -> bool
        requires { spec.AreTables self.now }
        ensures { spec.Tells result (chains.Chain (spec.shown self.now).links kind low.now high.now) }
    {
        let Some(low) = self.names.number(low) else {
            return false;
        };
        let Some(high) = self.names.number(high) else {
            return false;
        };
        self.leads(kind, low, high)
    }

    /// Whether the word of the second number is at or above that of the first.
    fn is_at_or_above(&self, low: usize, high: usize) -> bool
        requires tables { spec.AreTables self.now }
        requires low { low < length self.now.names.words.items }
        requires high { high < length self.now.names.words.items }
        ensures { spec.Tells result (chains.IsAtOrAbove (spec.shown self.now).links (spec.word_at self.now low) (spec.word_at self.now high)) }
    {
        if is_at_or_below(self.classes.as_slice(), low, high) {
            return true;
        }
        self.leads(ChainKind::Instance, low, high)
    }

    /// A word of the group at or above the word, both by their numbers, other than the one that is left out.
    fn above(&self, group: &[usize], word: usize, but: Option<usize>) -> Option<usize>
        requires tables { spec.AreTables self.now }
        requires group { numbered.AreBelow (length self.now.names.words.items) group.now }
        requires word { word < length self.now.names.words.items }
        ensures { MatchOption result (spec.NoneIsFound self.now group.now (spec.word_at self.now word) but) (λ number. spec.IsFound self.now group.now (spec.word_at self.now word) but number) }
    {
        for number in group {
            if !is_other(but, *number) {
                continue;
            }
            if self.is_at_or_above(word, *number) {
                return Some(*number);
            }
        }
        None
    }

    /// Whether two different words of the group are at or above the words of the two numbers.
    fn separates(&self, group: &NumberedGroup, first: usize, second: usize) -> bool
        requires tables { spec.AreTables self.now }
        requires group { numbered.AreBelow (length self.now.names.words.items) group.now.words }
        requires first { first < length self.now.names.words.items }
        requires second { second < length self.now.names.words.items }
        ensures { spec.Tells result (disjoint.Separates (spec.shown self.now).links (numbered.named_group self.now.names.words.items group.now) (spec.word_at self.now first) (spec.word_at self.now second)) }
    {
        let words = group.words.items();
        let Some(one) = self.above(words, first, None) else {
            return false;
        };
        let Some(_) = self.above(words, second, None) else {
            return false;
        };
        if let Some(_) = self.above(words, second, Some(one)) {
            return true;
        }
        if let Some(_) = self.above(words, first, Some(one)) {
            return true;
        }
        false
    }

    /// How many groups may be left out for the words of the two numbers.
    fn start(&self, first: usize, second: usize) -> usize
        requires tables { spec.AreTables self.now }
        requires first { first < length self.now.names.words.items }
        ensures { spec.NoneSeparates self.now result (spec.word_at self.now first) (spec.word_at self.now second) }
    {
        if first != second || first >= self.starts.len() {
            return 0;
        }
        self.starts[first]
    }

    /// The place of the first group that separates the words of the two numbers.
    fn first_group(&self, first: usize, second: usize) -> Option<Place>
        requires tables { spec.AreTables self.now }
        requires first { first < length self.now.names.words.items }
        requires second { second < length self.now.names.words.items }
        ensures { MatchOption result (disjoint.AreNotDisjoint (spec.shown self.now) (spec.word_at self.now first) (spec.word_at self.now second)) (λ place. disjoint.AreDisjointBy (spec.shown self.now) (spec.word_at self.now first) (spec.word_at self.now second) place) }
    {
        let mut at = self.start(first, second);
        while at < self.groups.len() {
            let group = &self.groups[at];
            if self.separates(group, first, second) {
                return Some(group.place);
            }
            at += 1;
        }
        None
    }

    /// The number of the second word, if it has one, where that of the first is known.
    fn other_number(&self, one: usize, first: &[u8], second: &[u8]) -> Option<usize>
        requires tables { spec.AreTables self.now }
        requires one { one < length self.now.names.words.items }
        requires first { spec.word_at self.now one ≡ first.now }
        ensures { MatchOption result (Contains self.now.names.words.items second.now → ⊥) (λ number. (number < length self.now.names.words.items) × (spec.word_at self.now number ≡ second.now)) }
    {
        if first == second {
            return Some(one);
        }
        self.names.number(second)
    }

    /// The place of the first group that separates the two words.
    pub fn are_disjoint(&self, first: &[u8], second: &[u8]) -> Option<Place>
        requires { spec.AreTables self.now }
        ensures { MatchOption result (disjoint.AreNotDisjoint (spec.shown self.now) first.now second.now) (λ place. disjoint.AreDisjointBy (spec.shown self.now) first.now second.now place) }
    {
        let Some(one) = self.names.number(first) else {
            return None;
        };
        let Some(other) = self.other_number(one, first, second) else {
            return None;
        };
        self.first_group(one, other)
    }
}
