//! Questions over a set of axioms: an outcome with its answers, each with a proof, and its page.
//! `specs/Questions.antt` says what an outcome promises.
#![tactic(auto)]

mod extraction;
mod laws;
mod outcome;
mod page;
mod proof;
mod question;
#[cfg(test)]
mod tests;

pub use laws::{one_outcome_law, proof_law, refusal_law, unit_law};
pub use outcome::{Answer, Binding, Outcome};
pub use page::print_outcome;
pub use proof::{Proof, ProofLine, Rule};
pub use question::{AskError, ask};
