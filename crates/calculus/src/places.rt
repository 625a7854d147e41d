//! Places in forms, and what a paramodulation replaces there.
use kif_tree::{Form, Forms, Literal};
use sigma_base::Listed;

/// A list without one of its arguments: its head, the arguments before that one, and those after it.
#[derive(Debug, Drop)]
pub struct Frame {
    pub head: Form,
    pub before: Forms,
    pub following: Forms,
}

/// A form that stands inside lists, and those lists without it, the outermost first.
#[derive(Debug, Drop)]
pub struct Opened {
    pub frames: Listed<Frame>,
    pub inner: Form,
}

/// The two sides of an equality.
#[derive(Debug, Drop)]
pub struct Sides {
    pub left: Form,
    pub right: Form,
}

/// What a paramodulation makes: its conclusion before it is tidied, the sides of the equality that it used, and the lists
/// round the replaced place, all under the substitutions of the step.
#[derive(Debug, Drop)]
pub struct Replaced {
    pub conclusion: Listed<Literal>,
    pub left: Form,
    pub right: Form,
    pub frames: Listed<Frame>,
}
