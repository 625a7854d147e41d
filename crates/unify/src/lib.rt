//! Most general unifiers, matching and subsumption of clauses, and the sets of clauses in which searches stand.
#![tactic(auto)]

mod bindings;
mod clause_set;
mod difference;
mod matching;
mod places;
mod subsumption;
mod unifier;

pub use clause_set::ClauseSet;
pub use difference::clash;
pub use matching::match_onto;
pub use subsumption::subsumes;
pub use unifier::unify;
