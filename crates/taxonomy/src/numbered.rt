//! Told links and disjoint words with numbers in place of words.
ghost use Rattle.std.specs.Prelude.{◌≡◌, IfOk, OnOk};
ghost use Rattle.taxonomy.specs.Names.{AreNumbered, Extends};
ghost use Rattle.taxonomy.specs.Numbered.{AreLinks, AreGroups, AreWords, AddsLink, AddsGroup, AddsWord};

use crate::forms::{disjoint_in, link_in, word_of};
use crate::names::Names;
use crate::told::ChainKind;
use kif_tree::{Form, Located, Place};
use sigma_base::{Listed, NoMemory};
use std::alloc::Global;

/// A told link, by the numbers of its words.
#[derive(Clone, Copy, Debug)]
pub struct NumberedLink {
    pub kind: ChainKind,
    pub low: usize,
    pub high: usize,
    pub place: Place,
}

/// Words that a told form calls disjoint, by their numbers.
#[derive(Debug, Drop)]
pub struct NumberedGroup {
    pub words: Listed<usize>,
    pub place: Place,
}

/// Adds the link that the form tells, if it tells one.
fn add_link(
    alloc: Global,
    names: &mut Names,
    links: &mut Vec<NumberedLink>,
    form: &Located,
) -> Result<(), NoMemory>
    requires { AreNumbered names.old.keys.entries names.old.places.items names.old.words.items }
    ensures numbered { OnOk result (AreNumbered names.new.keys.entries names.new.places.items names.new.words.items) }
    ensures added { OnOk result (AddsLink form.now names.old.words.items names.new.words.items links.old.items links.new.items) }
{
    let Some(found) = link_in(form) else {
        return Ok(());
    };
    let low = names.add(alloc, found.low.bytes())?;
    let high = names.add(alloc, found.high.bytes())?;
    links.push(NumberedLink {
        kind: found.kind,
        low,
        high,
        place: found.place,
    })?;
    Ok(())
}

/// The links that the forms tell, in order.
pub fn numbered_links(
    alloc: Global,
    names: &mut Names,
    forms: &[Located],
) -> Result<Vec<NumberedLink>, NoMemory>
    requires { AreNumbered names.old.keys.entries names.old.places.items names.old.words.items }
    ensures numbered { OnOk result (AreNumbered names.new.keys.entries names.new.places.items names.new.words.items) }
    ensures extends { OnOk result (Extends names.old.words.items names.new.words.items) }
    ensures links { IfOk result (λ links. AreLinks forms.now names.new.words.items links.items) }
{
    let mut links = Vec::new(alloc);
    for form in forms {
        add_link(alloc, names, &mut links, form)?;
    }
    Ok(links)
}

/// Adds the number of the word, if the part is one.
fn add_word(
    alloc: Global,
    names: &mut Names,
    numbers: &mut Listed<usize>,
    part: &Form,
) -> Result<(), NoMemory>
    requires { AreNumbered names.old.keys.entries names.old.places.items names.old.words.items }
    ensures numbered { OnOk result (AreNumbered names.new.keys.entries names.new.places.items names.new.words.items) }
    ensures added { OnOk result (AddsWord part.now names.old.words.items names.new.words.items numbers.old numbers.new) }
{
    let Some(text) = word_of(part) else {
        return Ok(());
    };
    let number = names.add(alloc, text.bytes())?;
    numbers.push(number)?;
    Ok(())
}

/// The numbers of those parts that are words, in order.
fn numbered_words(
    alloc: Global,
    names: &mut Names,
    parts: &[Form],
) -> Result<Listed<usize>, NoMemory>
    requires { AreNumbered names.old.keys.entries names.old.places.items names.old.words.items }
    ensures numbered { OnOk result (AreNumbered names.new.keys.entries names.new.places.items names.new.words.items) }
    ensures extends { OnOk result (Extends names.old.words.items names.new.words.items) }
    ensures words { IfOk result (λ numbers. AreWords parts.now names.new.words.items numbers) }
{
    let mut numbers = Listed::new(alloc);
    for part in parts {
        add_word(alloc, names, &mut numbers, part)?;
    }
    Ok(numbers)
}

/// Adds the words that the form calls disjoint, if it does.
fn add_group(
    alloc: Global,
    names: &mut Names,
    groups: &mut Vec<NumberedGroup>,
    form: &Located,
) -> Result<(), NoMemory>
    requires { AreNumbered names.old.keys.entries names.old.places.items names.old.words.items }
    ensures numbered { OnOk result (AreNumbered names.new.keys.entries names.new.places.items names.new.words.items) }
    ensures added { OnOk result (AddsGroup form.now names.old.words.items names.new.words.items groups.old.items groups.new.items) }
{
    let Some(parts) = disjoint_in(form) else {
        return Ok(());
    };
    let words = numbered_words(alloc, names, parts)?;
    groups.push(NumberedGroup {
        words,
        place: form.place,
    })?;
    Ok(())
}

/// The words that each of the forms calls disjoint, in order.
pub fn numbered_groups(
    alloc: Global,
    names: &mut Names,
    forms: &[Located],
) -> Result<Vec<NumberedGroup>, NoMemory>
    requires { AreNumbered names.old.keys.entries names.old.places.items names.old.words.items }
    ensures numbered { OnOk result (AreNumbered names.new.keys.entries names.new.places.items names.new.words.items) }
    ensures extends { OnOk result (Extends names.old.words.items names.new.words.items) }
    ensures groups { IfOk result (λ groups. AreGroups forms.now names.new.words.items groups.items) }
{
    let mut groups = Vec::new(alloc);
    for form in forms {
        add_group(alloc, names, &mut groups, form)?;
    }
    Ok(groups)
}
