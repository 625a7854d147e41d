//! Steps of derivations.
use kif_tree::Subst;
use sigma_base::Listed;

/// One step of a derivation. Clauses are named by the numbers of their steps, inputs by their numbers, literals by their
/// numbers from 0, and argument places in a path by their numbers from 1. Each parent has a substitution of its own.
#[derive(Debug, Drop)]
pub enum Step {
    Input(u32),
    Resolve {
        left: u32,
        left_literal: u64,
        left_subst: Subst,
        right: u32,
        right_literal: u64,
        right_subst: Subst,
    },
    Factor {
        parent: u32,
        kept_literal: u64,
        dropped_literal: u64,
        subst: Subst,
    },
    Paramodulate {
        source: u32,
        source_literal: u64,
        flipped: bool,
        source_subst: Subst,
        target: u32,
        target_literal: u64,
        path: Listed<u64>,
        target_subst: Subst,
    },
}
