//! What is wrong with the arguments of lists.
ghost use Rattle.std.specs.Prelude.{◌≡◌, ◌↔◌, ◌⊎◌, List, true, IfOk, IsTrue, MatchOption, OnOk, length};
ghost use Rattle.std.specs.List.{list_any};
ghost use Rattle.kif_tree.specs.Names.{lists};
ghost use Rattle.kif_tree.specs.Shape as shape;
ghost use Rattle.kif_tree.specs.Terms.{Bytes};
ghost use Rattle.kif_tree.specs.declared.place.Located.{Located};
ghost use Rattle.taxonomy.specs.Told.{links, told_taxonomy};
ghost use Rattle.signatures.specs.Tables.{AreSignatures};
ghost use Rattle.diagnose.specs.Arguments as spec;
ghost use Rattle.diagnose.specs.ClassWords as class_spec;
ghost use Rattle.diagnose.specs.Diagnostics.{IsOfArguments};
ghost use Rattle.diagnose.specs.Found.{Adds, OfSome};
ghost use Rattle.diagnose.specs.Given.{AreGiven};
ghost use Rattle.diagnose.specs.OfLists as of_lists;
ghost use Rattle.diagnose.specs.WordTables.{AreWords};

use crate::diagnostic::Diagnostic;
use crate::hashed_words::HashedWords;
use kif_tree::{Form, Located, Place, Text, is_logical_word};
use sigma_base::NoMemory;
use signatures::{Arity, Signatures, TypeTold};
use std::alloc::Global;
use taxonomy::{ChainKind, Taxonomy};

/// What was made of the forms.
#[derive(Clone, Copy, Debug)]
struct Given<'a> {
    taxonomy: &'a Taxonomy,
    signatures: &'a Signatures,
    class_words: &'a HashedWords<'a>,
}

/// Adds what is wrong with the arguments of the form's lists.
pub fn add_argument_faults(
    alloc: Global,
    located: &Located,
    taxonomy: &Taxonomy,
    signatures: &Signatures,
    class_words: &HashedWords<'_>,
    found: &mut Vec<Diagnostic>,
) -> Result<(), NoMemory>
    ensures { OnOk result ((forms : List Located) → taxonomy.now ≡ told_taxonomy forms → AreSignatures forms signatures.now
        → AreWords (spec.IsClassWord (links forms)) class_words.now
        → Adds (λ d. (d.place ≡ located.now.place) × IsOfArguments forms located.now.form d) found.old.items found.new.items) }
{
    let given = Given {
        taxonomy,
        signatures,
        class_words,
    };
    add_of_form(alloc, given, located.place, &located.form, found)
}

/// Adds the faults of the form's lists.
#[cycle(add_of_form)]
fn add_of_form(
    alloc: Global,
    given: Given<'_>,
    place: Place,
    form: &Form,
    found: &mut Vec<Diagnostic>,
) -> Result<(), NoMemory>
    ensures { OnOk result ((forms : List Located) → AreGiven forms given.entry
        → Adds (OfSome (of_lists.IsOfParts forms place) (lists form.now)) found.old.items found.new.items) }
{
    let Form::List(parts) = form else {
        return Ok(());
    };
    add_of_parts(alloc, given, place, parts.items(), found)?;
    for part in parts.items() {
        add_of_form(alloc, given, place, part, found)?;
    }
    Ok(())
}

/// Adds the faults of the list of these parts.
fn add_of_parts(
    alloc: Global,
    given: Given<'_>,
    place: Place,
    parts: &[Form],
    found: &mut Vec<Diagnostic>,
) -> Result<(), NoMemory>
    ensures { OnOk result ((forms : List Located) → AreGiven forms given.entry
        → Adds (of_lists.IsOfParts forms place parts.now) found.old.items found.new.items) }
{
    let [head, arguments @ ..] = parts else {
        return Ok(());
    };
    let Form::Word(text) = head else {
        return Ok(());
    };
    if is_logical_word(text.bytes()) {
        return Ok(());
    }
    add_of_count(alloc, given, place, text, arguments, found)?;
    add_of_types(alloc, given, place, text, arguments, found)
}

// ---- how many arguments

/// Adds the fault of the count of a list's arguments.
fn add_of_count(
    alloc: Global,
    given: Given<'_>,
    place: Place,
    head: &Text,
    arguments: &[Form],
    found: &mut Vec<Diagnostic>,
) -> Result<(), NoMemory>
    ensures { OnOk result ((forms : List Located) → AreGiven forms given.entry
        → Adds (of_lists.IsOfCount forms place head.now arguments.now) found.old.items found.new.items) }
{
    let arity = given.signatures.arity(head.bytes());
    if !is_wrong_count(arity, arguments) {
        return Ok(());
    }
    let term = head.copy(alloc)?;
    found.push(Diagnostic {
        code: 5,
        place,
        term,
        other: None,
    })?;
    Ok(())
}

fn is_wrong_count(arity: Arity, arguments: &[Form]) -> bool
    ensures { result ≡ of_lists.is_wrong_count arity arguments.now }
{
    match arity {
        Arity::Exactly(count) => arguments.len() != count as usize && !has_row(arguments),
        _ => false,
    }
}

fn has_row(arguments: &[Form]) -> bool
    ensures { result ≡ list_any spec.is_row arguments.now }
{
    for argument in arguments {
        if matches!(argument, Form::Row(_)) {
            return true;
        }
    }
    false
}

// ---- types of arguments

/// Adds the faults of the types of a list's arguments.
fn add_of_types(
    alloc: Global,
    given: Given<'_>,
    place: Place,
    head: &Text,
    arguments: &[Form],
    found: &mut Vec<Diagnostic>,
) -> Result<(), NoMemory>
    ensures { OnOk result ((forms : List Located) → AreGiven forms given.entry
        → Adds (of_lists.IsOfTypes forms place head.now arguments.now (length arguments.now)) found.old.items found.new.items) }
{
    // no types are told of numbers above 999,999,999
    let mut number: u32 = 0;
    for argument in arguments {
        number = number.saturating_add(1);
        add_of_argument(alloc, given, place, head, number, argument, found)?;
    }
    Ok(())
}

/// Adds the faults of the types of the argument with this number.
fn add_of_argument(
    alloc: Global,
    given: Given<'_>,
    place: Place,
    head: &Text,
    number: u32,
    argument: &Form,
    found: &mut Vec<Diagnostic>,
) -> Result<(), NoMemory>
    ensures { OnOk result ((forms : List Located) → AreGiven forms given.entry
        → Adds (of_lists.IsOfArgument forms place head.now number argument.now) found.old.items found.new.items) }
{
    for type_told in given.signatures.domain_of(head.bytes(), number) {
        add_of_type(alloc, given, place, argument, type_told, found)?;
    }
    Ok(())
}

/// Adds the fault of one type that is told of the argument.
fn add_of_type(
    alloc: Global,
    given: Given<'_>,
    place: Place,
    argument: &Form,
    type_told: &TypeTold,
    found: &mut Vec<Diagnostic>,
) -> Result<(), NoMemory>
    ensures { OnOk result ((forms : List Located) → AreGiven forms given.entry
        → Adds (of_lists.IsOfType forms place argument.now type_told.now) found.old.items found.new.items) }
{
    let Some(blamed) = misfit_in(given, type_told, argument) else {
        return Ok(());
    };
    let term = blamed.copy(alloc)?;
    found.push(Diagnostic {
        code: 4,
        place,
        term,
        other: Some(type_told.place),
    })?;
    Ok(())
}

/// The term that is to blame that the argument hasn't the type.
fn misfit_in<'a>(given: Given<'_>, type_told: &TypeTold, argument: &'a Form) -> Option<&'a Text>
    ensures { (forms : List Located) → AreGiven forms given.entry
        → MatchOption result ((term : Bytes) → of_lists.IsMisfit forms type_told.now argument.now term → ⊥)
        (λ term. of_lists.IsMisfit forms type_told.now argument.now term.now) }
{
    if type_told.class.bytes() == b"Entity".as_slice() {
        return None;
    }
    match argument {
        Form::Word(text) => {
            if is_unfit_word(given, type_told, text.bytes()) {
                return Some(text);
            }
            None
        }
        Form::List(parts) => unfit_function_in(given, type_told, parts.items()),
        _ => None,
    }
}

fn is_unfit_word(given: Given<'_>, type_told: &TypeTold, word: &[u8]) -> bool
    ensures { (forms : List Located) → AreGiven forms given.entry → IsTrue result ↔ of_lists.IsUnfitWord forms type_told.now word.now }
{
    if given.taxonomy.parents(word).is_empty() {
        return false;
    }
    !fits(given, type_told, word)
}

/// Whether the word has the type.
fn fits(given: Given<'_>, type_told: &TypeTold, word: &[u8]) -> bool
    ensures { (forms : List Located) → AreGiven forms given.entry → IsTrue result ↔ spec.Fits (links forms) type_told.now word.now }
{
    let class = type_told.class.bytes();
    if type_told.subclass {
        return is_subclass_of(given.taxonomy, word, class);
    }
    is_instance_of(given, word, class)
}

fn is_instance_of(given: Given<'_>, word: &[u8], class: &[u8]) -> bool
    ensures { (forms : List Located) → AreGiven forms given.entry → IsTrue result ↔ spec.IsInstanceOf (links forms) word.now class.now }
{
    if given.taxonomy.is_above(ChainKind::Instance, word, class) {
        return true;
    }
    if !given.class_words.has(word) {
        return false;
    }
    is_subclass_of(given.taxonomy, b"Class", class)
}

fn is_subclass_of(taxonomy: &Taxonomy, word: &[u8], class: &[u8]) -> bool
    ensures { IsTrue result ↔ spec.IsSubclassOf taxonomy.now.links word.now class.now }
{
    word == class || taxonomy.is_above(ChainKind::Class, word, class)
}

/// The function at the head of a list of these parts, if its values haven't the type.
fn unfit_function_in<'a>(
    given: Given<'_>,
    type_told: &TypeTold,
    parts: &'a [Form],
) -> Option<&'a Text>
    ensures { (forms : List Located) → AreGiven forms given.entry
        → MatchOption result ((term : Bytes) → of_lists.IsWrongParts forms type_told.now parts.now term → ⊥)
        (λ term. of_lists.IsWrongParts forms type_told.now parts.now term.now) }
{
    let [head, ..] = parts else {
        return None;
    };
    let Form::Word(text) = head else {
        return None;
    };
    if !text.bytes().ends_with(b"Fn") {
        return None;
    }
    if !is_unfit_function(given, type_told, text.bytes()) {
        return None;
    }
    Some(text)
}

fn is_unfit_function(given: Given<'_>, type_told: &TypeTold, function: &[u8]) -> bool
    ensures { (forms : List Located) → AreGiven forms given.entry → IsTrue result ↔ of_lists.IsUnfitFunction forms type_told.now function.now }
{
    if type_told.subclass {
        return false;
    }
    let [range, ..] = given.signatures.range_of(function) else {
        return false;
    };
    if range.subclass {
        return false;
    }
    !is_subclass_of(given.taxonomy, range.class.bytes(), type_told.class.bytes())
}

// ---- words of told `subclass` forms

/// The words of a told `subclass` form.
#[derive(Clone, Copy, Debug)]
struct ClassLink<'a> {
    low: &'a Text,
    high: &'a Text,
}

/// The words that stand in told `subclass` forms.
pub fn class_words<'a>(alloc: Global, forms: &'a [Located]) -> Result<HashedWords<'a>, NoMemory>
    ensures { IfOk result (AreWords (spec.IsClassWord (links forms.now))) }
{
    let mut words = HashedWords::new(alloc);
    for located in forms {
        add_class_words(&mut words, &located.form)?;
    }
    Ok(words)
}

/// Adds the form's words, if it tells a subclass.
fn add_class_words<'a>(words: &mut HashedWords<'a>, form: &'a Form) -> Result<(), NoMemory>
    ensures { OnOk result ((word : Bytes) → (shape.is_among words.new word ≡ true) ↔ ((shape.is_among words.old word ≡ true) ⊎ class_spec.IsOfSubclassForm form.now word)) }
{
    let Some(link) = class_link_in(form) else {
        return Ok(());
    };
    words.add(link.low.bytes())?;
    words.add(link.high.bytes())?;
    Ok(())
}

/// The words of the form, if it tells a subclass.
fn class_link_in(form: &Form) -> Option<ClassLink<'_>>
    ensures { MatchOption result ((low high : Bytes) → form.now ≡ class_spec.subclass_form low high → ⊥)
        (λ link. form.now ≡ class_spec.subclass_form link.low.now link.high.now) }
{
    let Form::List(parts) = form else {
        return None;
    };
    let [head, low, high] = parts.items() else {
        return None;
    };
    let Form::Word(head) = head else {
        return None;
    };
    if head.bytes() != b"subclass".as_slice() {
        return None;
    }
    match (low, high) {
        (Form::Word(low), Form::Word(high)) => Some(ClassLink { low, high }),
        _ => None,
    }
}
