//! Sets of words.
ghost use Rattle.std.specs.Prelude.{◌≡◌, ◌∷◌, ◌||◌, ◌&&◌, [], length, not, OnOk, MatchOption};
ghost use Rattle.std.specs.Str.{bytes_eq};
ghost use Rattle.kif_tree.specs.Shape.{is_among};
ghost use Rattle.kif_tree.specs.Terms.{Bytes};
ghost use Rattle.kif_tree.specs.WordSets as spec;

use crate::text::Text;
use sigma_base::NoMemory;
use std::alloc::Global;
use std::collections::BTreeSet;
use std::marker::Model;

/// A set of words, or of other texts, which contracts see as their list by bytes.
#[derive(Debug, Drop)]
pub struct WordSet {
    words: BTreeSet<Vec<u8>>,
}

impl Model for WordSet {
    ghost use Rattle.kif_tree.specs.Terms.{Bytes};
    ghost use Rattle.kif_tree.specs.WordSets.{texts};
    ghost use Rattle.std.specs.Prelude.{List};

    ghost Value = { List Bytes };

    ghost view = { λ set. texts set.words };
}

impl WordSet {
    /// No words. It takes no memory.
    pub fn new(alloc: Global) -> WordSet
        ensures { result ≡ [] }
    {
        WordSet {
            words: BTreeSet::new(alloc),
        }
    }

    /// Whether the set has the word. It takes no memory.
    pub fn has(&self, word: &[u8]) -> bool
        ensures { result ≡ is_among self.now word.now }
    {
        self.words.contains(word)
    }

    /// How many words there are. It takes no memory.
    pub fn len(&self) -> usize
        ensures { result ≡ length self.now }
    {
        self.words.len()
    }

    /// Adds the word, if the set hasn't got it.
    pub fn add(&mut self, alloc: Global, word: &[u8]) -> Result<(), NoMemory>
        ensures { OnOk result ((other : Bytes) → is_among self.new other ≡ (is_among self.old other || bytes_eq other word.now)) }
    {
        if self.has(word) {
            return Ok(());
        }
        self.insert(Vec::from_slice(alloc, word)?)
    }

    fn insert(&mut self, word: Vec<u8>) -> Result<(), NoMemory>
        ensures { OnOk result ((other : Bytes) → is_among self.new other ≡ (is_among self.old other || bytes_eq other word.items)) }
    {
        self.words.insert(word)?;
        Ok(())
    }

    /// Takes the word out, if the set has it. It takes no memory.
    pub fn remove(&mut self, word: &[u8])
        ensures { (other : Bytes) → is_among self.new other ≡ (is_among self.old other && not (bytes_eq other word.now)) }
    {
        self.words.remove(word);
    }

    /// Takes the first word by bytes out. It takes no memory.
    pub fn pop_first(&mut self) -> Option<Text>
        ensures { MatchOption result (self.old ≡ []) (λ word. self.old ≡ word ∷ self.new) }
    {
        match self.words.pop_first() {
            Some(word) => Some(Text::of_bytes(word)),
            None => None,
        }
    }

    /// Adds the words of the other set. The fewer of both are moved.
    pub fn join(&mut self, other: WordSet) -> Result<(), NoMemory>
        ensures { OnOk result ((word : Bytes) → is_among self.new word ≡ (is_among self.old word || is_among other word)) }
    {
        let WordSet { mut words } = other;
        if words.len() > self.words.len() {
            std::mem::swap(&mut words, &mut self.words);
        }
        while let Some(word) = words.pop_first() {
            self.insert(word)?;
        }
        Ok(())
    }
}
