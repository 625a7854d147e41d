//! Type guards: the variables of a form are of the types that are told of their places.
#![tactic(auto)]

mod guarding;
mod guards;
mod occurrences;
#[cfg(test)]
mod tests;

pub use guarding::guard;
