//! What a told form says of its first word.
use kif_tree::{Place, Text};

/// The kinds of chains of told forms: one or more `subclass`; one `instance`, then none or more `subclass`; one or more `subrelation`.
#[derive(Clone, Copy, Debug, PartialEq, Eq)]
pub enum ChainKind {
    Class,
    Instance,
    Relation,
}

/// A told `subclass`, `instance` or `subrelation` form, as its first word sees it.
#[derive(Debug, Drop)]
pub struct Told {
    pub kind: ChainKind,
    pub parent: Text,
    pub place: Place,
}
