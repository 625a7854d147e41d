//! What follows from two clauses by resolution and paramodulation, and from one by factoring, in order, and the check of derivations.
#![tactic(auto)]

mod apart;
mod check;
mod conclusion;
mod factoring;
mod laws;
mod pairs;
mod paramodulation;
#[cfg(test)]
mod reading;
mod resolution;
#[cfg(test)]
mod tests;
#[cfg(test)]
mod tests_check;
#[cfg(test)]
mod tests_unify;

pub use calculus::Step;
pub use check::{CheckError, check_derivation};
pub use conclusion::Conclusion;
pub use factoring::factors;
pub use laws::{checking_law, one_list_law};
pub use pairs::conclusions;
