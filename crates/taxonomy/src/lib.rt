//! Chains of told `subclass`, `instance` and `subrelation` forms, what the forms tell of a word, and words that are disjoint.
#![tactic(auto)]

mod closure;
mod forms;
mod laws;
mod names;
mod numbered;
mod order;
mod reorder;
mod runs;
mod starts;
mod tables;
mod taxonomy;
#[cfg(test)]
mod tests;
mod told;

pub use laws::told_words_law;
pub use taxonomy::Taxonomy;
pub use told::{ChainKind, Told};
