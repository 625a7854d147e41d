//! The nearest words by told `subrelation` forms that have a value. Words pass it on to the words below them, layer by layer.
ghost use Rattle.std.specs.Prelude.{◌≡◌, ℕ, List, [], ◌∷◌, suc, IfOk, OnOk};
ghost use Rattle.kif_tree.specs.Terms.{Bytes};
ghost use Rattle.taxonomy.specs.Told.{links};
ghost use Rattle.signatures.specs.Layers as spec;
ghost use Rattle.signatures.specs.Lowers.{AreLowers, lows_of};
ghost use Rattle.signatures.specs.WordTables.{Has, IsSet, find};

use crate::lowers::Lowers;
use crate::word_table::{WordTable, set};
use kif_tree::{Located, Text};
use sigma_base::{Listed, NoMemory};
use std::alloc::Global;
use std::collections::HashMap;

/// The nearest word that has a value, and how many links lead to it.
#[derive(Debug, Drop)]
pub struct Note {
    pub distance: u64,
    pub near: Text,
}

/// What a word needs that is passed a near word: its first note, a better one, or none.
#[derive(Clone, Copy, Debug)]
enum Need {
    First,
    Better,
    Nothing,
}

/// What the word needs for the near word at that distance.
fn need_for(notes: &WordTable<Note>, word: &[u8], distance: u64, near: &[u8]) -> Need
    ensures { result ≡ spec.need_of (find notes.now word.now) distance near.now }
{
    let Some(note) = notes.get(word) else {
        return Need::First;
    };
    if note.distance < distance {
        return Need::Nothing;
    }
    if near < note.near.bytes() {
        return Need::Better;
    }
    Need::Nothing
}

/// Notes the near word for the word.
fn set_note(
    alloc: Global,
    notes: &mut WordTable<Note>,
    word: &[u8],
    distance: u64,
    near: &[u8],
) -> Result<(), NoMemory>
    ensures { OnOk result (IsSet notes.old notes.new word.now (spec.as_note distance near.now)) }
{
    let near = Text::of(alloc, near)?;
    set(alloc, notes, word, Note { distance, near })
}

/// Passes the near word on to a word, which stands in the next layer, if it is noted there for the first time.
fn pass<V>(
    alloc: Global,
    own: &WordTable<V>,
    notes: &mut WordTable<Note>,
    next: &mut Listed<Text>,
    low: &Text,
    distance: u64,
    near: &[u8],
) -> Result<(), NoMemory>
    ensures { OnOk result (spec.Passes own.now notes.old notes.new next.old next.new distance near.now (low.now ∷ [])) }
{
    if own.contains_key(low.bytes()) {
        return Ok(());
    }
    match need_for(notes, low.bytes(), distance, near) {
        Need::Nothing => Ok(()),
        Need::Better => set_note(alloc, notes, low.bytes(), distance, near),
        Need::First => {
            next.push(low.copy(alloc)?)?;
            set_note(alloc, notes, low.bytes(), distance, near)
        }
    }
}

/// Passes the near word on to each of the words.
fn pass_on<V>(
    alloc: Global,
    own: &WordTable<V>,
    notes: &mut WordTable<Note>,
    next: &mut Listed<Text>,
    lows: &[Text],
    distance: u64,
    near: &[u8],
) -> Result<(), NoMemory>
    ensures { OnOk result (spec.Passes own.now notes.old notes.new next.old next.new distance near.now lows.now) }
{
    for low in lows {
        pass(alloc, own, notes, next, low, distance, near)?;
    }
    Ok(())
}

/// Passes the near word on to the words below the word.
fn pass_down<V>(
    alloc: Global,
    lowers: &Lowers,
    own: &WordTable<V>,
    notes: &mut WordTable<Note>,
    next: &mut Listed<Text>,
    word: &[u8],
    distance: u64,
    near: &[u8],
) -> Result<(), NoMemory>
    ensures { OnOk result (spec.Passes own.now notes.old notes.new next.old next.new distance near.now (lows_of lowers.now word.now)) }
{
    let Some(lows) = lowers.get(word) else {
        return Ok(());
    };
    pass_on(alloc, own, notes, next, lows.items(), distance, near)
}

/// The first layer: the words below those that have a value.
fn first_layer<V>(
    alloc: Global,
    lowers: &Lowers,
    own: &WordTable<V>,
    notes: &mut WordTable<Note>,
) -> Result<Listed<Text>, NoMemory>
    ensures { IfOk result (λ next. spec.BeginsLayers (lows_of lowers.now) own.now notes.old notes.new next) }
{
    let mut next = Listed::new(alloc);
    for key in own.keys() {
        let word = key.as_slice();
        pass_down(alloc, lowers, own, notes, &mut next, word, 1, word)?;
    }
    Ok(next)
}

/// Passes what is noted for the word on to the words below it.
fn pass_note<V>(
    alloc: Global,
    lowers: &Lowers,
    own: &WordTable<V>,
    notes: &mut WordTable<Note>,
    next: &mut Listed<Text>,
    word: &[u8],
    distance: u64,
) -> Result<(), NoMemory>
    ensures { OnOk result (spec.PassesNotes (lows_of lowers.now) own.now notes.old notes.new next.old next.new distance (word.now ∷ [])) }
{
    let Some(note) = notes.get(word) else {
        return Ok(());
    };
    let near = note.near.copy(alloc)?;
    pass_down(
        alloc,
        lowers,
        own,
        notes,
        next,
        word,
        distance,
        near.bytes(),
    )
}

/// The next layer: words below those of the layer that weren't noted before.
fn next_layer<V>(
    alloc: Global,
    lowers: &Lowers,
    own: &WordTable<V>,
    notes: &mut WordTable<Note>,
    layer: &[Text],
    distance: u64,
) -> Result<Listed<Text>, NoMemory>
    ensures { IfOk result (λ next. spec.PassesNotes (lows_of lowers.now) own.now notes.old notes.new [] next distance layer.now) }
{
    let mut next = Listed::new(alloc);
    for word in layer {
        pass_note(alloc, lowers, own, notes, &mut next, word.bytes(), distance)?;
    }
    Ok(next)
}

/// For each word that has no value and to which another one is near, the nearest of these.
pub fn nearest_words<V>(
    alloc: Global,
    forms: &[Located],
    lowers: &Lowers,
    own: &WordTable<V>,
) -> Result<WordTable<Note>, NoMemory>
    requires { AreLowers forms.now lowers.now }
    ensures { IfOk result (spec.AreNearest (links forms.now) own.now) }
{
    let mut notes = HashMap::new(alloc);
    let mut layer = first_layer(alloc, lowers, own, &mut notes)?;
    let mut distance: u64 = 1;
    while !layer.items().is_empty() {
        distance += 1;
        let next = next_layer(alloc, lowers, own, &mut notes, layer.items(), distance)?;
        layer = next;
    }
    Ok(notes)
}
