//! Words and their numbers.
ghost use Rattle.std.specs.Prelude.{◌≡◌, ◌<◌, [], length, get_or, Contains, IfOk, OnOk, MatchOption};
ghost use Rattle.taxonomy.specs.Names.{AreNumbered, Adds, none};
ghost use Rattle.taxonomy.specs.Reorder.{ArePlaces, AreReordered};

use crate::reorder::{moved_numbers, moved_words};
use kif_tree::Text;
use sigma_base::NoMemory;
use std::alloc::Global;
use std::collections::HashMap;
use std::mem::replace;

/// Different words, numbered from 0.
#[derive(Debug, Drop)]
pub struct Names {
    /// For each word its key, in the order in which they came.
    pub keys: HashMap<Vec<u8>, usize>,
    /// For each key the number.
    pub places: Vec<usize>,
    pub words: Vec<Text>,
}

impl Names {
    /// No words. It takes no memory.
    pub fn new(alloc: Global) -> Names
        ensures numbered { AreNumbered result.keys.entries result.places.items result.words.items }
        ensures none { result.words.items ≡ none }
    {
        Names {
            keys: HashMap::new(alloc),
            places: Vec::new(alloc),
            words: Vec::new(alloc),
        }
    }

    /// The number of the word, if it has one. It takes no memory.
    pub fn number(&self, word: &[u8]) -> Option<usize>
        requires { AreNumbered self.now.keys.entries self.now.places.items self.now.words.items }
        ensures { MatchOption result (Contains self.now.words.items word.now → ⊥) (λ number. (number < length self.now.words.items) × (get_or self.now.words.items number [] ≡ word.now)) }
    {
        match self.keys.get(word) {
            Some(key) => Some(self.places[*key]),
            None => None,
        }
    }

    /// The number of the word, which gets the next one if it has none.
    pub fn add(&mut self, alloc: Global, word: &[u8]) -> Result<usize, NoMemory>
        requires { AreNumbered self.old.keys.entries self.old.places.items self.old.words.items }
        ensures numbered { IfOk result (λ _. AreNumbered self.new.keys.entries self.new.places.items self.new.words.items) }
        ensures added { IfOk result (λ number. Adds self.old.words.items self.new.words.items word.now number) }
    {
        if let Some(number) = self.number(word) {
            return Ok(number);
        }
        let number = self.words.len();
        let key = self.places.len();
        let bytes = Vec::from_slice(alloc, word)?;
        self.words.push(Text::of(alloc, word)?)?;
        self.places.push(number)?;
        self.keys.insert(bytes, key)?;
        Ok(number)
    }

    /// Numbers the words anew: each gets its place in the order.
    pub fn renumber(
        &mut self,
        alloc: Global,
        order: &[usize],
        places: &[usize],
    ) -> Result<(), NoMemory>
        requires numbered { AreNumbered self.old.keys.entries self.old.places.items self.old.words.items }
        requires places { ArePlaces (length self.old.words.items) order.now places.now }
        ensures numbered { OnOk result (AreNumbered self.new.keys.entries self.new.places.items self.new.words.items) }
        ensures reordered { OnOk result (AreReordered order.now self.old.words.items self.new.words.items) }
    {
        let words = replace(&mut self.words, Vec::new(alloc));
        self.words = moved_words(alloc, words, order)?;
        self.places = moved_numbers(alloc, self.places.as_slice(), places)?;
        Ok(())
    }
}
