//! Relation names.
ghost use Rattle.std.specs.Prelude.{◌≡◌, ◌||◌, IfOk, OnOk};
ghost use Rattle.kif_tree.specs.Shape as shape;
ghost use Rattle.kif_tree.specs.Terms.{Bytes};
ghost use Rattle.signatures.specs.Marks as spec;
ghost use Rattle.signatures.specs.Names as names;
ghost use Rattle.signatures.specs.Relations as relations;
ghost use Rattle.signatures.specs.Tables as tables;

use crate::arities::{built_in, is_shown_head};
use crate::inherited::Inherited;
use crate::told::Arity;
use crate::word_table::{WordTable, set};
use kif_tree::{Form, Located, Text, is_headed, is_logical_word};
use sigma_base::NoMemory;
use std::alloc::Global;
use std::collections::{BTreeMap, HashMap};

/// The word's arity by a table of arities.
pub fn arity_in(arities: &Inherited<Arity>, word: &[u8]) -> Arity
    ensures { result ≡ tables.arity_by arities.now word.now }
{
    if let Some(arity) = built_in(word) {
        return arity;
    }
    match arities.value(word) {
        Some(arity) => *arity,
        None => Arity::Unstated,
    }
}

/// A set of words.
pub type Marks = WordTable<()>;

/// A set of words in their order.
pub type OrderedMarks = BTreeMap<Vec<u8>, ()>;

/// Words that were looked at, and the names among them in their order.
#[derive(Debug, Drop)]
pub struct Found {
    seen: Marks,
    ordered: OrderedMarks,
}

fn mark(alloc: Global, marks: &mut Marks, word: &[u8]) -> Result<(), NoMemory>
    ensures { OnOk result (spec.Marked (spec.is_word word.now) marks.old marks.new) }
{
    if marks.contains_key(word) {
        return Ok(());
    }
    set(alloc, marks, word, ())?;
    Ok(())
}

fn mark_ordered(alloc: Global, marks: &mut OrderedMarks, word: &[u8]) -> Result<(), NoMemory>
    ensures { OnOk result ((other : Bytes) → spec.has_ordered marks.new other ≡ (spec.has_ordered marks.old other || spec.is_word word.now other)) }
{
    let key = Vec::from_slice(alloc, word)?;
    marks.insert(key, ())?;
    Ok(())
}

/// Marks the word at the head of a list with these parts.
fn mark_head(alloc: Global, marks: &mut Marks, parts: &[Form]) -> Result<(), NoMemory>
    ensures { OnOk result (spec.Marked (spec.begins parts.now) marks.old marks.new) }
{
    let [head, ..] = parts else {
        return Ok(());
    };
    let Form::Word(text) = head else {
        return Ok(());
    };
    mark(alloc, marks, text.bytes())
}

/// Marks the words that head lists in the form.
#[cycle(mark_heads)]
fn mark_heads(alloc: Global, marks: &mut Marks, form: &Form) -> Result<(), NoMemory>
    ensures { OnOk result (spec.Marked (spec.heads_in form.now) marks.old marks.new) }
{
    let Form::List(parts) = form else {
        return Ok(());
    };
    mark_head(alloc, marks, parts.items())?;
    for part in parts.items() {
        mark_heads(alloc, marks, part)?;
    }
    Ok(())
}

/// Whether the form is only shown: its head is `documentation`, `termFormat` or `format`. It takes no memory.
pub fn is_shown(form: &Form) -> bool
    ensures { result ≡ relations.is_shown form.now }
{
    is_headed(form, b"documentation")
        || is_headed(form, b"termFormat")
        || is_headed(form, b"format")
}

/// The words at the head of a list.
pub fn heads(alloc: Global, forms: &[Located]) -> Result<Marks, NoMemory>
    ensures { IfOk result (λ marks. spec.AreMarked (relations.heads_a_list forms.now) marks) }
{
    let mut marks = HashMap::new(alloc);
    for located in forms {
        mark_heads(alloc, &mut marks, &located.form)?;
    }
    Ok(marks)
}

fn is_stated(arity: Arity) -> bool
    ensures { result ≡ spec.is_stated arity }
{
    match arity {
        Arity::Unstated => false,
        _ => true,
    }
}

/// Whether a word of the snapshot is a relation name.
fn is_name(heads: &Marks, arities: &Inherited<Arity>, word: &[u8]) -> bool
    ensures { result ≡ names.is_name heads.now arities.now word.now }
{
    if is_logical_word(word) {
        return false;
    }
    if is_shown_head(word) {
        return false;
    }
    if heads.contains_key(word) {
        return true;
    }
    is_stated(arity_in(arities, word))
}

/// Marks the words that have something in the table.
fn mark_keys<V>(alloc: Global, marks: &mut Marks, table: &WordTable<V>) -> Result<(), NoMemory>
    ensures { OnOk result (names.MarksKeys table.now marks.old marks.new) }
{
    for key in table.keys() {
        mark(alloc, marks, key.as_slice())?;
    }
    Ok(())
}

/// The words that may be names: those that head lists or have an arity, but not all built-in ones.
fn candidates(alloc: Global, heads: &Marks, arities: &Inherited<Arity>) -> Result<Marks, NoMemory>
    ensures { IfOk result (names.AreCandidates heads.now arities.now) }
{
    let mut marks = HashMap::new(alloc);
    mark_keys(alloc, &mut marks, heads)?;
    mark_keys(alloc, &mut marks, &arities.own)?;
    mark_keys(alloc, &mut marks, &arities.nearest)?;
    Ok(marks)
}

/// Whether the word is a candidate or built in. No other word is a name.
fn may_be_name(candidates: &Marks, word: &[u8]) -> bool
    ensures { result ≡ names.may_be_name candidates.now word.now }
{
    candidates.contains_key(word) || built_in(word).is_some()
}

/// Adds the word, where it is a name. Each candidate is looked at once.
fn add_name(
    alloc: Global,
    found: &mut Found,
    candidates: &Marks,
    heads: &Marks,
    arities: &Inherited<Arity>,
    word: &[u8],
) -> Result<(), NoMemory>
    requires { names.AreCandidates heads.now arities.now candidates.now }
    ensures { OnOk result (names.AddsNames heads.now arities.now (spec.is_word word.now) found.old found.new) }
{
    if found.seen.contains_key(word) {
        return Ok(());
    }
    if !may_be_name(candidates, word) {
        return Ok(());
    }
    set(alloc, &mut found.seen, word, ())?;
    if !is_name(heads, arities, word) {
        return Ok(());
    }
    mark_ordered(alloc, &mut found.ordered, word)
}

/// Adds the names that occur in the form.
#[cycle(add_names)]
fn add_names(
    alloc: Global,
    found: &mut Found,
    candidates: &Marks,
    heads: &Marks,
    arities: &Inherited<Arity>,
    form: &Form,
) -> Result<(), NoMemory>
    requires { names.AreCandidates heads.now arities.now candidates.now }
    ensures { OnOk result (names.AddsNames heads.now arities.now (names.occurs_in form.now) found.old found.new) }
{
    match form {
        Form::Word(text) => {
            add_name(alloc, found, candidates, heads, arities, text.bytes())?;
            Ok(())
        }
        Form::List(parts) => {
            for part in parts.items() {
                add_names(alloc, found, candidates, heads, arities, part)?;
            }
            Ok(())
        }
        _ => Ok(()),
    }
}

/// The names that occur in forms that aren't only shown.
pub fn names_of(
    alloc: Global,
    forms: &[Located],
    heads: &Marks,
    arities: &Inherited<Arity>,
) -> Result<OrderedMarks, NoMemory>
    ensures { IfOk result (names.AreNames heads.now arities.now (relations.is_snapshot_word forms.now)) }
{
    let candidates = candidates(alloc, heads, arities)?;
    let mut found = Found {
        seen: HashMap::new(alloc),
        ordered: BTreeMap::new(alloc),
    };
    for located in forms {
        if is_shown(&located.form) {
            continue;
        }
        add_names(
            alloc,
            &mut found,
            &candidates,
            heads,
            arities,
            &located.form,
        )?;
    }
    let Found { ordered, .. } = found;
    Ok(ordered)
}

/// The words in their order.
pub fn in_order(alloc: Global, words: OrderedMarks) -> Result<Vec<Text>, NoMemory>
    ensures names { IfOk result (λ found. found.items ≡ spec.key_words words) }
    ensures ascending { IfOk result (λ _. relations.AreAscending (spec.key_words words)) }
{
    let mut words = words;
    let mut found = Vec::with_capacity(alloc, words.len())?;
    while let Some((word, _)) = words.pop_first() {
        found.push(Text::of_bytes(word))?;
    }
    Ok(found)
}
