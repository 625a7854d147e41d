//! The words of a command line.
ghost use Rattle.std.specs.Prelude.{◌≡◌, ◌++◌, ◌∷◌, ◌<◌, ◌-◌, ◌^◌, [], length, OnOk, OnErr, slice_get, map, string_bytes};
ghost use Rattle.std.specs.Option.{option_map};

use sigma_base::NoMemory;
use std::alloc::Global;
use std::marker::Model;

/// The words of a command line in order, which contracts see as the list of their bytes.
#[derive(Debug, Drop)]
pub struct Words {
    alloc: Global,
    items: Vec<String>,
}

impl Model for Words {
    ghost use Rattle.std.specs.Prelude.{List, ℕ, map, string_bytes, length, ◌<◌, ◌^◌};

    ghost Value = { List (List ℕ) };

    ghost view = { λ w. map string_bytes w.items.items };

    ghost invariant = { λ w. length w.items.items < 2 ^ 32 };
}

impl Words {
    /// No words. It takes no memory, and keeps the allocator.
    pub fn new(alloc: Global) -> Words
        ensures { result ≡ [] }
    {
        Words {
            alloc,
            items: Vec::new(alloc),
        }
    }

    /// How many words there are. It takes no memory.
    pub fn count(&self) -> u32
        ensures { result ≡ length self.now }
    {
        self.items.len() as u32
    }

    /// Lends the word at the place, counted from 0. It takes no memory.
    pub fn word(&self, place: u32) -> Option<&str>
        ensures { option_map (λ s. s.now) result ≡ slice_get self.now place }
    {
        match self.items.get(place as usize) {
            Some(word) => Some(word.as_str()),
            None => None,
        }
    }

    /// Lends the words in order. It takes no memory.
    pub fn items(&self) -> &[String]
        ensures { map string_bytes result.now ≡ self.now }
    {
        self.items.as_slice()
    }

    /// Adds the word last. A refusal leaves the words as before.
    pub fn push(&mut self, word: &str) -> Result<(), NoMemory>
        requires { length self.old < 2 ^ 32 - 1 }
        ensures ok { OnOk result (self.new ≡ self.old ++ word.now ∷ []) }
        ensures err { OnErr result (self.new ≡ self.old) }
    {
        let word = String::from_str(self.alloc, word)?;
        self.items.push(word)?;
        Ok(())
    }
}
