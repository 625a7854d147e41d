//! What told forms say of relations and functions: how many arguments they take, of which types, and what the values of functions are.
#![tactic(auto)]

mod arities;
mod below;
mod forms;
mod inherited;
mod laws;
mod lowers;
mod names;
mod nearest;
mod signatures;
#[cfg(test)]
mod tests;
mod told;
mod types;
mod word_table;

pub use arities::built_in;
pub use laws::one_tables_law;
pub use names::is_shown;
pub use signatures::Signatures;
pub use told::{Arity, TypeTold};
