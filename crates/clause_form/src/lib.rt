//! Clause form: the clauses that a form stands for, and those of a query's negation.
#![tactic(auto)]

mod connective;
mod conversion;
mod counting;
mod distribution;
mod laws;
mod matrix;
mod query;
mod reading;
mod scope;
#[cfg(test)]
mod tests;

pub use connective::{Connective, connective_of};
pub use conversion::{ClauseForm, MOST_CLAUSES, SkolemBase, clauses};
pub use counting::{Sizes, Totals, count_clauses};
pub use laws::{distribution_law, input_law, query_law, reading_law, sentence_law};
pub use matrix::Matrix;
pub use query::{QueryClauses, QueryError, negate_query};
pub use scope::{Counts, Scope};
