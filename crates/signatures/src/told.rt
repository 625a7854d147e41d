//! What is told of a relation's or function's arguments and values.
use kif_tree::{Place, Text};

/// How many arguments a relation takes: a number of them, any number, or nothing says how many.
#[derive(Clone, Copy, Debug, PartialEq, Eq)]
pub enum Arity {
    Exactly(u32),
    Any,
    Unstated,
}

/// A told type of an argument or a value: an instance of the class, or a subclass of it. The place is that of the told form.
#[derive(Debug, Drop)]
pub struct TypeTold {
    pub subclass: bool,
    pub class: Text,
    pub place: Place,
}
