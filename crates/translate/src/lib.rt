//! The translation of forms to clauses.
#![tactic(auto)]

mod laws;
mod piece;
#[cfg(test)]
mod tests;
mod translated;
mod translation;

pub use laws::{left_out_law, one_translation_law, plain_form_law};
pub use translated::{Guarded, TranslateError, Translated};
pub use translation::translate;
