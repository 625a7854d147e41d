//! What the expansion of a form answers.
use kif_tree::Forms;

/// The variants of a form, numbered from 1 in this order, or why it has none.
#[derive(Debug, Drop)]
pub enum Expanded {
    /// The form after each choice that fits: one at least, and at most 20,000.
    Variants(Forms),
    /// Nothing fits, and the form has no predicate variable. Within the profile it has a row variable.
    NoLength,
    /// No relation names, with whatever lengths, fit. The form has a predicate variable.
    NoRelation,
    /// More than 20,000 choices fit.
    TooMany,
}
