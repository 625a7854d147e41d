//! Values of words, which words without one take from the nearest word by `subrelation` that has one.
ghost use Rattle.std.specs.Prelude.{◌≡◌, IfOk};
ghost use Rattle.std.specs.Option.{option_map};
ghost use Rattle.taxonomy.specs.Told.{links};
ghost use Rattle.signatures.specs.Inherited as spec;
ghost use Rattle.signatures.specs.Lowers.{AreLowers};

use crate::lowers::Lowers;
use crate::nearest::{Note, nearest_words};
use crate::word_table::WordTable;
use kif_tree::Located;
use sigma_base::NoMemory;
use std::alloc::Global;

/// The words' own values, and for words without one the nearest word that has one.
#[derive(Debug, Drop)]
pub struct Inherited<V> {
    pub own: WordTable<V>,
    pub nearest: WordTable<Note>,
}

/// The words' own values, and those that they take from other words by the forms' `subrelation`, of which the lower words are given.
pub fn inherit<V: Drop>(
    alloc: Global,
    forms: &[Located],
    lowers: &Lowers,
    own: WordTable<V>,
) -> Result<Inherited<V>, NoMemory>
    requires { AreLowers forms.now lowers.now }
    ensures own { IfOk result (λ table. table.own ≡ own) }
    ensures inherits { IfOk result (λ table. spec.Inherits (links forms.now) table) }
{
    let nearest = nearest_words(alloc, forms, lowers, &own)?;
    Ok(Inherited { own, nearest })
}

impl<V> Inherited<V> {
    /// The word's value, its own or an inherited one. It takes no memory.
    pub fn value(&self, word: &[u8]) -> Option<&V>
        ensures { option_map (λ value. value.now) result ≡ spec.value_in self.now word.now }
    {
        if let Some(value) = self.own.get(word) {
            return Some(value);
        }
        let note = self.nearest.get(word)?;
        self.own.get(note.near.bytes())
    }
}
