//! Diagnostics of forms.
use kif_tree::{Place, Text};

/// What is wrong at a form. `code` says what, `place` where, and `term` is the word or the variable, with its prefix, that it is about.
/// `other` is the place of the told form that is to blame, where one is.
#[derive(Debug, Drop)]
pub struct Diagnostic {
    pub code: u8,
    pub place: Place,
    pub term: Text,
    pub other: Option<Place>,
}
