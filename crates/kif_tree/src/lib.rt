//! Forms of SUO-KIF, clauses and substitutions as plain data, with the functions on them that every crate above needs.
#![tactic(auto)]

mod clause;
mod equal;
mod form;
mod free;
mod heads;
mod laws;
mod name_set;
mod names;
mod place;
mod print;
mod profile;
mod shape;
mod subst;
mod terms;
#[cfg(test)]
mod tests;
#[cfg(test)]
mod tests_free;
#[cfg(test)]
mod tests_profile;
mod text;
mod word_set;

pub use clause::{Clause, InputClause, Literal};
pub use equal::{forms_equal, literals_equal};
pub use form::{Form, Forms, copy_all};
pub use free::free_names;
pub use heads::{is_answer, is_headed};
pub use laws::{agreement_law, composition_law, equality_law, ground_law};
pub use name_set::NameSet;
pub use names::{bound, is_function_word, is_logical_word, operands, parts_of};
pub use place::{LoadName, Located, Place};
pub use print::{print_clause, print_form, print_place};
pub use profile::in_profile;
pub use shape::{first_fault_in, has_word, is_quantifier, is_shaped, lists_names};
pub use subst::{Pair, Subst, Unnamed, fill, followed_by, ground_instance, substitute};
pub use terms::{depth, has_no_row, is_ground, occurs, symbols, variables_in, variables_of};
pub use text::Text;
pub use word_set::WordSet;
