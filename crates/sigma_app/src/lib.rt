//! The top calls: the command-line tool over any files and any sink.
#![tactic(auto)]

mod check;
mod check_page;
mod clauses_page;
mod commands;
mod files;
mod forms;
mod gather;
mod laws;
mod limits;
mod places;
mod query;
mod refusals;
mod reply;
mod requests;
mod tool;

pub use laws::{clause_set_law, one_outcome_law, words_law};
pub use tool::run_tool;

#[cfg(test)]
mod tests;
#[cfg(test)]
mod tests_ask;
#[cfg(test)]
mod tests_check;
#[cfg(test)]
mod tests_clauses;
#[cfg(test)]
mod tests_requests;
#[cfg(test)]
mod tests_search;
