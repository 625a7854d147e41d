//! Derivations by resolution, factoring and paramodulation, and their ground evidence.
//! The definitions of `specs/` are what later crates cite, and the laws here hold of them. The one program here tells what a
//! truth assignment satisfies.
#![tactic(auto)]

mod laws;
mod places;
mod step;
mod truth;

pub use laws::{
    answers_law, closing_law, composition_law, contradiction_law, evidence_law, idempotence_law,
    instances_law, negation_law, pairs_law, query_law, recursion_law, refutation_law, renaming_law,
    resolution_law, satisfaction_law, uses_law, variables_law,
};
pub use places::{Frame, Opened, Replaced, Sides};
pub use step::Step;
pub use truth::{holds, is_true, satisfies, satisfies_all};
