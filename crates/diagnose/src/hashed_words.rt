//! Words that are looked up often.
ghost use Rattle.std.specs.Prelude.{◌≡◌, ◌||◌, [], not, IfOk, OnOk};
ghost use Rattle.std.specs.Str.{bytes_eq};
ghost use Rattle.kif_tree.specs.Shape.{is_among};
ghost use Rattle.kif_tree.specs.Terms.{Bytes};

use sigma_base::NoMemory;
use std::alloc::Global;
use std::collections::HashSet;
use std::marker::Model;

/// A set of words of forms, without an order, which contracts see as a list.
#[derive(Debug, Drop)]
pub struct HashedWords<'a> {
    words: HashSet<&'a [u8]>,
}

impl<'a> Model for HashedWords<'a> {
    ghost use Rattle.kif_tree.specs.Terms.{Bytes};
    ghost use Rattle.diagnose.specs.HashedWords.{texts};
    ghost use Rattle.std.specs.Prelude.{List};

    ghost Value = { List Bytes };

    ghost view = { λ set. texts set.words };
}

impl<'a> HashedWords<'a> {
    /// No words. It takes no memory.
    pub fn new(alloc: Global) -> HashedWords<'a>
        ensures { result ≡ [] }
    {
        HashedWords {
            words: HashSet::new(alloc),
        }
    }

    /// Whether the set has the word. It takes no memory.
    pub fn has(&self, word: &[u8]) -> bool
        ensures { result ≡ is_among self.now word.now }
    {
        self.words.contains(word)
    }

    /// Adds the word, if the set hasn't got it, and gives whether it was added. It is lent, and not copied.
    pub fn add(&mut self, word: &'a [u8]) -> Result<bool, NoMemory>
        ensures added { IfOk result (λ added. added ≡ not (is_among self.old word.now)) }
        ensures has { OnOk result ((other : Bytes) → is_among self.new other ≡ (is_among self.old other || bytes_eq other word.now)) }
    {
        Ok(self.words.insert(word)?)
    }
}
