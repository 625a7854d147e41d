//! What is wrong with forms, by the tables that are made of them.
#![tactic(auto)]

#[cfg(test)]
mod argument_tests;
mod arguments;
mod diagnostic;
mod hashed_words;
mod laws;
mod list;
#[cfg(test)]
mod list_tests;
mod merged;
#[cfg(test)]
mod merged_tests;
mod order;
#[cfg(test)]
mod variable_tests;
mod variables;
#[cfg(test)]
mod word_tests;
mod words;

pub use diagnostic::Diagnostic;
pub use laws::one_list_law;
pub use list::diagnose;
pub use merged::merge;
