//! Proofs as they are shown.
use calculus::Step;
use kif_tree::{Clause, Place};
use sigma_base::Listed;

/// How a line of a proof comes about.
#[derive(Clone, Copy, Debug, PartialEq, Eq)]
pub enum Rule {
    Axiom,
    Reflexivity,
    Query,
    Resolve,
    Factor,
    Paramodulate,
}

/// A line of a proof. Parents are numbers of lines from 0, left and then right, source and then target. An axiom has the place of its form.
#[derive(Debug, Drop)]
pub struct ProofLine {
    pub clause: Clause,
    pub rule: Rule,
    pub parents: Listed<u32>,
    pub place: Option<Place>,
}

/// The steps on which the last one rests, in their order, and a line for each. Parents are numbers of these steps from 0, and `Step::Input` keeps
/// its number among the inputs of the search.
#[derive(Debug, Drop)]
pub struct Proof {
    pub steps: Listed<Step>,
    pub lines: Listed<ProofLine>,
}
