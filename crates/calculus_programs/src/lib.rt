//! A plain program for each definition of the calculus: tests compare other programs with these, and the checker of derivations runs them.
//! Clauses that are handed over are made tidy in place.
#![tactic(auto)]

mod equality;
mod evidence_list;
mod fillings;
mod instances;
mod opening;
mod proper;
mod quick;
mod refute;
mod replacing;
mod rules;
mod steps;
#[cfg(test)]
mod tests;
mod tidying;

pub use equality::is_equality_instance;
pub use evidence_list::{Derived, evidence};
pub use fillings::{follow, turn_back};
pub use instances::{congruence, equal, replacing_instance, symmetry};
pub use opening::{fill_frames, framed, open, plugged, sides};
pub use proper::{has_word_heads, is_proper};
pub use quick::made_tidy;
pub use refute::refutes;
pub use replacing::{Parent, replace};
pub use rules::{append_others, factor, resolve};
pub use steps::{clause_of, derive, nth, replacement_of, untidy};
pub use tidying::{append_filled, is_tidy, numbered, same_clauses, tidy};
