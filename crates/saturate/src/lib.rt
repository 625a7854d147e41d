//! The search for proofs: saturation of a set of axioms and the clauses of a query by resolution, factoring and paramodulation.
//! `specs/Runs.antt` defines what a run of the search is, and `specs/Ends.antt` what its end means.
#![tactic(auto)]

mod arrival;
mod beginning;
mod choice;
mod covered;
mod ended;
mod fingerprint;
mod index;
mod inputs;
mod laws;
mod limits;
mod lookup;
mod marks;
mod reached;
mod saturation;
mod table;
mod turn;

pub use arrival::Arrival;
pub use covered::is_tautology;
pub use ended::{Ended, Search};
pub use inputs::Inputs;
pub use laws::{end_law, one_run_law, sound_law, subsumption_law, unit_law};
pub use limits::{Limits, LimitsError, Mode};
pub use reached::Reached;
pub use saturation::search;
