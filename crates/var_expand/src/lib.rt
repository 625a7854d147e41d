//! What a form with row variables or predicate variables stands for: a form for each choice that fits.
#![tactic(auto)]

mod chosen;
mod expanded;
mod expansion;
mod fitting;
mod gathered;
mod lists;
mod options;
mod part_numbers;
mod replacement;
mod search;
#[cfg(test)]
mod tests;
mod variables;

pub use expanded::Expanded;
pub use expansion::expand;
pub use variables::{predicate_variables_of, row_variables_of};
