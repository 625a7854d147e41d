//! Where forms stand.
use crate::form::Form;
use crate::text::Text;

/// Where a form stands. `constituent` is the number of the load, and `form` counts the top-level forms of the text from 1.
/// `line` and `column` are those of the form's first byte, each from 1. Places are ordered by these numbers in turn, which is how they are
/// looked up, and not how forms follow each other.
#[derive(Clone, Copy, Debug, PartialEq, Eq, PartialOrd, Ord)]
pub struct Place {
    pub constituent: u32,
    pub form: u32,
    pub line: u32,
    pub column: u32,
}

/// A top-level form with its place.
#[derive(Debug, Drop)]
pub struct Located {
    pub form: Form,
    pub place: Place,
}

/// The name of the constituent that a load holds. Of several entries with one number the first counts.
#[derive(Debug, Drop)]
pub struct LoadName {
    pub number: u32,
    pub name: Text,
}
