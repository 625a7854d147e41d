//! Matrices: what a form says once its quantifiers are gone.
use kif_tree::Literal;
use sigma_base::Listed;

/// Literals under conjunctions and disjunctions.
#[derive(Debug, Drop)]
pub enum Matrix {
    Literal(Literal),
    Conjunction(Listed<Matrix>),
    Disjunction(Listed<Matrix>),
}
