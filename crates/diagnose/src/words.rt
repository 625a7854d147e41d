//! What is missing of words, or wrong with them.
ghost use Rattle.std.specs.Prelude.{◌≡◌, ◌∷◌, ◌++◌, List, [], true, false, None, Some, IfOk, OnOk, MatchOption};
ghost use Rattle.std.specs.Str.{bytes_eq};
ghost use Rattle.kif_tree.specs.Shape.{is_among};
ghost use Rattle.kif_tree.specs.Terms.{Bytes};
ghost use Rattle.kif_tree.specs.declared.place.Located.{Located};
ghost use Rattle.taxonomy.specs.Tables.{Tells};
ghost use Rattle.signatures.specs.Relations.{is_shown};
ghost use Rattle.signatures.specs.Tables.{AreSignatures};
ghost use Rattle.diagnose.specs.Diagnostics.{IsOfWord};
ghost use Rattle.diagnose.specs.Found.{Adds};
ghost use Rattle.diagnose.specs.WordFaults as spec;
ghost use Rattle.diagnose.specs.Words.{documents};
ghost use Rattle.diagnose.specs.WordTables.{AreWords, IsDocumented, IsUnstated, AreSeen};

use crate::diagnostic::Diagnostic;
use crate::hashed_words::HashedWords;
use kif_tree::{Form, Located, Place, Text, is_headed, is_logical_word};
use sigma_base::NoMemory;
use signatures::{Arity, Signatures, built_in};
use std::alloc::Global;
use taxonomy::Taxonomy;

/// What is looked up for words.
#[derive(Debug, Drop)]
pub struct WordTables<'a> {
    documented: HashedWords<'a>,
    unstated: HashedWords<'a>,
}

/// The second part of a list, where that is a word.
fn second_word(form: &Form) -> Option<&Text>
    ensures { MatchOption result (spec.second_word form.now ≡ None) (λ word. spec.second_word form.now ≡ Some word.now) }
{
    let Form::List(parts) = form else {
        return None;
    };
    let [_, second, ..] = parts.items() else {
        return None;
    };
    match second {
        Form::Word(text) => Some(text),
        _ => None,
    }
}

/// The word that the form documents.
fn documented_in(located: &Located) -> Option<&Text>
    ensures { MatchOption result ((word : Bytes) → documents word located.now ≡ false) (λ text. (word : Bytes) → documents word located.now ≡ bytes_eq word text.now) }
{
    if !is_headed(&located.form, b"documentation") {
        return None;
    }
    second_word(&located.form)
}

/// The words that forms document.
fn documented_words<'a>(alloc: Global, forms: &'a [Located]) -> Result<HashedWords<'a>, NoMemory>
    ensures { IfOk result (AreWords (IsDocumented forms.now)) }
{
    let mut words = HashedWords::new(alloc);
    for located in forms {
        let Some(word) = documented_in(located) else {
            continue;
        };
        words.add(word.bytes())?;
    }
    Ok(words)
}

fn is_unstated(arity: Arity) -> bool
    ensures { result ≡ spec.is_unstated arity }
{
    match arity {
        Arity::Unstated => true,
        _ => false,
    }
}

/// The relation names without a stated arity.
fn unstated_words<'a>(
    alloc: Global,
    signatures: &'a Signatures,
) -> Result<HashedWords<'a>, NoMemory>
    ensures { IfOk result (spec.AreUnstated signatures.now) }
{
    let mut words = HashedWords::new(alloc);
    for name in signatures.relations() {
        if !is_unstated(signatures.arity(name.bytes())) {
            continue;
        }
        words.add(name.bytes())?;
    }
    Ok(words)
}

/// What is looked up for the words of the forms.
pub fn word_tables<'a>(
    alloc: Global,
    forms: &'a [Located],
    signatures: &'a Signatures,
) -> Result<WordTables<'a>, NoMemory>
    ensures documented { IfOk result (λ tables. AreWords (IsDocumented forms.now) tables.documented) }
    ensures unstated { IfOk result (λ tables. AreSignatures forms.now signatures.now → AreWords (IsUnstated forms.now) tables.unstated) }
{
    let documented = documented_words(alloc, forms)?;
    let unstated = unstated_words(alloc, signatures)?;
    Ok(WordTables {
        documented,
        unstated,
    })
}

/// Whether the word is neither logical nor built-in.
fn is_plain(word: &[u8]) -> bool
    ensures { result ≡ spec.is_plain word.now }
{
    if is_logical_word(word) {
        return false;
    }
    built_in(word).is_none()
}

fn lacks_parent(taxonomy: &Taxonomy, word: &[u8]) -> bool
    ensures { result ≡ spec.lacks_parent taxonomy.now word.now }
{
    taxonomy.parents(word).is_empty() && word != b"Entity".as_slice() && is_plain(word)
}

fn lacks_documentation(tables: &WordTables<'_>, word: &[u8]) -> bool
    ensures { result ≡ spec.lacks_documentation tables.now word.now }
{
    !tables.documented.has(word) && is_plain(word)
}

/// Adds a diagnostic of the word, if it is wrong.
fn add_if(
    alloc: Global,
    is_wrong: bool,
    code: u8,
    place: Place,
    word: &[u8],
    found: &mut Vec<Diagnostic>,
) -> Result<(), NoMemory>
    ensures { OnOk result (Adds (λ d. (is_wrong ≡ true) × (d ≡ spec.of_word code place word.now)) found.old.items found.new.items) }
{
    if !is_wrong {
        return Ok(());
    }
    let term = Text::of(alloc, word)?;
    found.push(Diagnostic {
        code,
        place,
        term,
        other: None,
    })?;
    Ok(())
}

/// Adds what is missing of the word.
fn add_faults(
    alloc: Global,
    word: &[u8],
    place: Place,
    taxonomy: &Taxonomy,
    tables: &WordTables<'_>,
    found: &mut Vec<Diagnostic>,
) -> Result<(), NoMemory>
    ensures { OnOk result (Adds (spec.IsFault taxonomy.now tables.now place word.now) found.old.items found.new.items) }
{
    let no_parent = lacks_parent(taxonomy, word);
    add_if(alloc, no_parent, 1, place, word, found)?;
    let no_documentation = lacks_documentation(tables, word);
    add_if(alloc, no_documentation, 2, place, word, found)?;
    let no_arity = tables.unstated.has(word);
    add_if(alloc, no_arity, 11, place, word, found)
}

/// Adds what is missing of the word, if it wasn't seen before.
fn add_if_new<'a>(
    alloc: Global,
    word: &'a [u8],
    place: Place,
    taxonomy: &Taxonomy,
    tables: &WordTables<'_>,
    seen: &mut HashedWords<'a>,
    found: &mut Vec<Diagnostic>,
) -> Result<(), NoMemory>
    ensures seen { OnOk result (spec.Gains (spec.is_word word.now) seen.old seen.new) }
    ensures found { OnOk result (Adds (spec.IsNew (spec.IsFault taxonomy.now tables.now place) seen.old (spec.is_word word.now)) found.old.items found.new.items) }
{
    if !seen.add(word)? {
        return Ok(());
    }
    add_faults(alloc, word, place, taxonomy, tables, found)
}

/// Adds what is missing of the words of the form that weren't seen before.
#[cycle(add_new_words)]
fn add_new_words<'a>(
    alloc: Global,
    form: &'a Form,
    place: Place,
    taxonomy: &Taxonomy,
    tables: &WordTables<'_>,
    seen: &mut HashedWords<'a>,
    found: &mut Vec<Diagnostic>,
) -> Result<(), NoMemory>
    ensures seen { OnOk result (spec.Gains (spec.occurs_in form.now) seen.old seen.new) }
    ensures found { OnOk result (Adds (spec.IsNew (spec.IsFault taxonomy.now tables.now place) seen.old (spec.occurs_in form.now)) found.old.items found.new.items) }
{
    match form {
        Form::Word(text) => {
            add_if_new(alloc, text.bytes(), place, taxonomy, tables, seen, found)?;
            Ok(())
        }
        Form::List(parts) => {
            for part in parts.items() {
                add_new_words(alloc, part, place, taxonomy, tables, seen, found)?;
            }
            Ok(())
        }
        _ => Ok(()),
    }
}

/// Whether the form at the place is the first to tell a parent of the word.
fn is_first_told(taxonomy: &Taxonomy, word: &[u8], place: Place) -> bool
    ensures { Tells result (spec.IsFirstTold taxonomy.now.links word.now place) }
{
    let [told, ..] = taxonomy.parents(word) else {
        return false;
    };
    told.place == place
}

/// Adds the word of which the form is the first to tell a parent, if it has disjoint parents.
fn add_disjoint(
    alloc: Global,
    located: &Located,
    taxonomy: &Taxonomy,
    found: &mut Vec<Diagnostic>,
) -> Result<(), NoMemory>
    ensures { OnOk result (Adds (spec.IsDisjoint taxonomy.now located.now) found.old.items found.new.items) }
{
    let Some(word) = second_word(&located.form) else {
        return Ok(());
    };
    if !is_first_told(taxonomy, word.bytes(), located.place) {
        return Ok(());
    }
    if !is_plain(word.bytes()) {
        return Ok(());
    }
    let Some(by) = taxonomy.are_disjoint(word.bytes(), word.bytes()) else {
        return Ok(());
    };
    let term = word.copy(alloc)?;
    found.push(Diagnostic {
        code: 3,
        place: located.place,
        term,
        other: Some(by),
    })?;
    Ok(())
}

/// Adds what is wrong with words at the form: with those that no earlier form has, and with the word of which it is the first to tell a parent.
/// `seen` are the words of earlier forms, and gets those of this one.
pub fn add_word_faults<'a>(
    alloc: Global,
    located: &'a Located,
    taxonomy: &Taxonomy,
    tables: &WordTables<'_>,
    seen: &mut HashedWords<'a>,
    found: &mut Vec<Diagnostic>,
) -> Result<(), NoMemory>
    ensures seen { OnOk result ((before : List Located) → AreSeen before seen.old → is_shown located.now.form ≡ false → AreSeen (before ++ located.now ∷ []) seen.new) }
    ensures found { OnOk result ((before after : List Located) → spec.StandsAmong before located.now after taxonomy.now tables.now seen.old → Adds (λ d. (d.place ≡ located.now.place) × IsOfWord (before ++ located.now ∷ after) d) found.old.items found.new.items) }
{
    add_new_words(
        alloc,
        &located.form,
        located.place,
        taxonomy,
        tables,
        seen,
        found,
    )?;
    add_disjoint(alloc, located, taxonomy, found)
}
