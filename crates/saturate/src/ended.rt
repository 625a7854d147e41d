//! What a search comes to, and how it ends.
use crate::inputs::Inputs;
use calculus::Step;
use kif_tree::Clause;
use sigma_base::Listed;

/// How a search ends.
#[derive(Clone, Copy, Debug, PartialEq, Eq)]
pub enum Ended {
    /// The wanted number of answers is found.
    Enough,
    /// Nothing waits and nothing is aside.
    Saturated,
    /// Nothing waits, and clauses are aside that nest too deep.
    Deep,
    /// Something waits, and all turns were taken.
    Spent,
    /// As many derived clauses are processed, wait or are aside as may be.
    Crowded,
    /// A clause without literals was derived.
    Contradiction,
}

/// What a search came to. The lists name clauses by the numbers of their steps.
#[derive(Debug, Drop)]
pub struct Search<'a> {
    /// The clauses that it began with: the set, lent; reflexivity where an equality occurs; and the query.
    pub inputs: Inputs<'a>,
    /// The inputs in order, and then as it came each clause that waited, was set aside, was found or has no literals.
    pub steps: Listed<Step>,
    /// The clauses of the steps after the inputs.
    pub derived: Listed<Clause>,
    /// In the order in which they were processed, those that were dropped when they were given left out.
    pub processed: Listed<u32>,
    pub waiting: Listed<u32>,
    /// Those that nest too deep.
    pub aside: Listed<u32>,
    /// Those that have answer literals alone, in the order in which they were found. Each is one answer.
    pub found: Listed<u32>,
    /// How many turns were begun.
    pub turns: u32,
    pub ended: Ended,
}
