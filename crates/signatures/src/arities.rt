//! How many arguments words take of their own.
ghost use Rattle.std.specs.Prelude.{◌≡◌, false, None, List, [], ◌∷◌, ◌++◌, IfOk, OnOk};
ghost use Rattle.std.specs.List.{filter_map};
ghost use Rattle.kif_tree.specs.Shape as shape;
ghost use Rattle.kif_tree.specs.Terms.{Bytes};
ghost use Rattle.kif_tree.specs.declared.place.Located.{Located};
ghost use Rattle.taxonomy.specs.Told.{links};
ghost use Rattle.signatures.specs.Arities as spec;
ghost use Rattle.signatures.specs.Below as words;
ghost use Rattle.signatures.specs.OwnArities as own;

use crate::below::{Below, arity_word, words_below};
use crate::forms::number_in;
use crate::told::Arity;
use crate::word_table::{WordTable, set};
use kif_tree::Located;
use sigma_base::NoMemory;
use std::alloc::Global;
use std::collections::HashMap;
use taxonomy::{ChainKind, Taxonomy};

fn is_of_two(word: &[u8]) -> bool
    ensures { result ≡ shape.is_among spec.words_of_two word.now }
{
    word == b"equal".as_slice()
        || word == b"instance".as_slice()
        || word == b"subclass".as_slice()
        || word == b"subrelation".as_slice()
        || word == b"disjoint".as_slice()
        || word == b"range".as_slice()
        || word == b"rangeSubclass".as_slice()
        || word == b"valence".as_slice()
}

fn is_of_three(word: &[u8]) -> bool
    ensures { result ≡ shape.is_among spec.words_of_three word.now }
{
    word == b"domain".as_slice() || word == b"domainSubclass".as_slice()
}

/// Whether forms with this head are only shown.
pub fn is_shown_head(word: &[u8]) -> bool
    ensures { result ≡ shape.is_among spec.shown_heads word.now }
{
    word == b"documentation".as_slice()
        || word == b"termFormat".as_slice()
        || word == b"format".as_slice()
}

fn is_of_any(word: &[u8]) -> bool
    ensures { result ≡ shape.is_among spec.words_of_any word.now }
{
    word == b"partition".as_slice()
        || word == b"disjointDecomposition".as_slice()
        || word == b"exhaustiveDecomposition".as_slice()
        || is_shown_head(word)
}

/// Whether the first byte is one of those that built-in words begin with.
fn begins_built_in(word: &[u8]) -> bool
    ensures { result ≡ false → spec.built_in word.now ≡ None }
{
    let [first, ..] = word else {
        return false;
    };
    match *first {
        b'd' | b'e' | b'f' | b'i' | b'p' | b'r' | b's' | b't' | b'v' => true,
        _ => false,
    }
}

/// The arity of a built-in word.
pub fn built_in(word: &[u8]) -> Option<Arity>
    ensures { result ≡ spec.built_in word.now }
{
    if !begins_built_in(word) {
        return None;
    }
    if is_of_two(word) {
        return Some(Arity::Exactly(2));
    }
    if is_of_three(word) {
        return Some(Arity::Exactly(3));
    }
    if is_of_any(word) {
        return Some(Arity::Any);
    }
    None
}

/// What was found before, or else the arity, where an instance chain leads from the word to the class.
fn or_by(
    taxonomy: &Taxonomy,
    word: &[u8],
    found: Option<Arity>,
    class: &[u8],
    arity: Arity,
) -> Option<Arity>
    ensures { (classes : List spec.ClassArity) → spec.IsByClass taxonomy.now.links word.now classes found → spec.IsByClass taxonomy.now.links word.now (classes ++ spec.gives class.now arity ∷ []) result }
{
    if let Some(arity) = found {
        return Some(arity);
    }
    if taxonomy.is_above(ChainKind::Instance, word, class) {
        return Some(arity);
    }
    None
}

/// By the first of the classes of functions to which an instance chain leads.
fn by_function(taxonomy: &Taxonomy, word: &[u8]) -> Option<Arity>
    ensures { spec.IsByClass taxonomy.now.links word.now spec.function_classes result }
{
    let found = or_by(taxonomy, word, None, b"UnaryFunction", Arity::Exactly(1));
    let found = or_by(taxonomy, word, found, b"BinaryFunction", Arity::Exactly(2));
    let found = or_by(taxonomy, word, found, b"TernaryFunction", Arity::Exactly(3));
    or_by(
        taxonomy,
        word,
        found,
        b"QuaternaryFunction",
        Arity::Exactly(4),
    )
}

/// What was found by classes of functions, or else by the first of the classes of relations with a number of arguments to which an instance chain leads.
fn or_by_relation(taxonomy: &Taxonomy, word: &[u8], found: Option<Arity>) -> Option<Arity>
    requires { spec.IsByClass taxonomy.now.links word.now spec.function_classes found }
    ensures { spec.IsByClass taxonomy.now.links word.now (spec.function_classes ++ spec.relation_classes) result }
{
    let found = or_by(taxonomy, word, found, b"BinaryPredicate", Arity::Exactly(2));
    let found = or_by(taxonomy, word, found, b"BinaryRelation", Arity::Exactly(2));
    let found = or_by(
        taxonomy,
        word,
        found,
        b"TernaryPredicate",
        Arity::Exactly(3),
    );
    let found = or_by(taxonomy, word, found, b"TernaryRelation", Arity::Exactly(3));
    let found = or_by(
        taxonomy,
        word,
        found,
        b"QuaternaryPredicate",
        Arity::Exactly(4),
    );
    let found = or_by(
        taxonomy,
        word,
        found,
        b"QuaternaryRelation",
        Arity::Exactly(4),
    );
    let found = or_by(
        taxonomy,
        word,
        found,
        b"QuintaryPredicate",
        Arity::Exactly(5),
    );
    or_by(
        taxonomy,
        word,
        found,
        b"QuintaryRelation",
        Arity::Exactly(5),
    )
}

/// The arity that the word has by the classes to which instance chains lead from it.
fn by_class(taxonomy: &Taxonomy, word: &[u8]) -> Option<Arity>
    ensures { spec.IsByClass taxonomy.now.links word.now spec.arity_classes result }
{
    let found = by_function(taxonomy, word);
    let found = or_by_relation(taxonomy, word, found);
    or_by(taxonomy, word, found, b"VariableArityRelation", Arity::Any)
}

/// Gives the word that the form tells a valence of its arity, where it has none yet.
fn add_valence(
    alloc: Global,
    table: &mut WordTable<Arity>,
    located: &Located,
) -> Result<(), NoMemory>
    ensures { OnOk result (own.AddsValence table.old table.new located.now) }
{
    let Some(found) = number_in(located) else {
        return Ok(());
    };
    if found.head.bytes() != b"valence".as_slice() {
        return Ok(());
    }
    if table.contains_key(found.word.bytes()) {
        return Ok(());
    }
    set(
        alloc,
        table,
        found.word.bytes(),
        Arity::Exactly(found.number),
    )
}

/// For each word its first told valence.
pub fn valences(alloc: Global, forms: &[Located]) -> Result<WordTable<Arity>, NoMemory>
    ensures { IfOk result (λ table. own.AreValences forms.now table) }
{
    let mut table = HashMap::new(alloc);
    for located in forms {
        add_valence(alloc, &mut table, located)?;
    }
    Ok(table)
}

/// The word's own arity.
fn own_arity(valences: &WordTable<Arity>, taxonomy: &Taxonomy, word: &[u8]) -> Option<Arity>
    ensures { (forms : List Located) → own.AreValences forms valences.now → taxonomy.now.links ≡ links forms → spec.IsOwnArity forms word.now result }
{
    if let Some(arity) = built_in(word) {
        return Some(arity);
    }
    if let Some(arity) = valences.get(word) {
        return Some(*arity);
    }
    by_class(taxonomy, word)
}

/// Gives the word its own arity, if it has one.
fn add_own(
    alloc: Global,
    valences: &WordTable<Arity>,
    taxonomy: &Taxonomy,
    table: &mut WordTable<Arity>,
    word: &[u8],
) -> Result<(), NoMemory>
    ensures { OnOk result ((forms : List Located) → own.AreValences forms valences.now → taxonomy.now.links ≡ links forms → own.IsOwnGone forms table.old table.new word.now) }
{
    if table.contains_key(word) {
        return Ok(());
    }
    let Some(arity) = own_arity(valences, taxonomy, word) else {
        return Ok(());
    };
    set(alloc, table, word, arity)?;
    Ok(())
}

/// Gives the words that links or valences may give one their own arities.
fn add_all(
    alloc: Global,
    forms: &[Located],
    below: &Below,
    is_link: bool,
    valences: &WordTable<Arity>,
    taxonomy: &Taxonomy,
    table: &mut WordTable<Arity>,
) -> Result<(), NoMemory>
    requires valences { own.AreValences forms.now valences.now }
    requires told { taxonomy.now.links ≡ links forms.now }
    ensures { OnOk result ((before : List Bytes) → own.AreOwn forms.now before table.old → own.AreOwn forms.now (before ++ filter_map (words.arity_word below.now is_link) forms.now) table.new) }
{
    for located in forms {
        let Some(word) = arity_word(below, located, is_link) else {
            continue;
        };
        add_own(alloc, valences, taxonomy, table, word.bytes())?;
    }
    Ok(())
}

/// The own arities of words. Each in the table is right; a word that isn't there has none, but for built-in words to which no relation chain leads.
pub fn own_arities(
    alloc: Global,
    forms: &[Located],
    taxonomy: &Taxonomy,
) -> Result<WordTable<Arity>, NoMemory>
    requires { taxonomy.now.links ≡ links forms.now }
    ensures { IfOk result (own.AreOwnArities forms.now) }
{
    let valences = valences(alloc, forms)?;
    let below = words_below(alloc, forms)?;
    let mut table = HashMap::new(alloc);
    add_all(alloc, forms, &below, true, &valences, taxonomy, &mut table)?;
    add_all(alloc, forms, &below, false, &valences, taxonomy, &mut table)?;
    Ok(table)
}
