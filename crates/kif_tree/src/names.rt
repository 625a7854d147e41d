//! The parts of a list, the names that it quantifies, and what its head means.
ghost use Rattle.std.specs.Prelude.{◌≡◌};
ghost use Rattle.kif_tree.specs.Shape as shape;
ghost use Rattle.kif_tree.specs.Names as spec;
ghost use Rattle.kif_tree.specs.Profile as profile;

use crate::form::Form;
use crate::shape::{binds, is_quantifier, is_quantifying, lists_names};

/// The parts of a list. Any other form has none. It takes no memory.
pub fn parts_of(form: &Form) -> &[Form]
    ensures { result.now ≡ spec.parts_in form.now }
{
    match form {
        Form::List(parts) => parts.items(),
        _ => &[],
    }
}

/// The parts of a list after its head, without the variable list of a quantifier. It takes no memory.
pub fn operands(parts: &[Form]) -> &[Form]
    ensures { result.now ≡ profile.operands parts.now }
{
    let [head, arguments @ ..] = parts else {
        return parts;
    };
    if is_quantifier(head) && binds(arguments) {
        return &arguments[1..];
    }
    arguments
}

/// The variables and row variables that a list of these parts quantifies. It takes no memory.
pub fn bound(parts: &[Form]) -> &[Form]
    ensures { result.now ≡ spec.bound parts.now }
{
    let [head, names, _] = parts else {
        return &parts[..0];
    };
    match names {
        Form::List(names) if is_quantifier(head) && lists_names(names.items()) => names.items(),
        _ => &parts[..0],
    }
}

/// Whether the word ends in `Fn`, as those do that name functions. It takes no memory.
pub fn is_function_word(word: &[u8]) -> bool
    ensures { result ≡ spec.is_function_word word.now }
{
    word.ends_with(b"Fn")
}

/// Whether the word is a connective or a quantifier. It takes no memory.
pub fn is_logical_word(word: &[u8]) -> bool
    ensures { result ≡ shape.is_among shape.logical_words word.now }
{
    word == b"not".as_slice()
        || word == b"and".as_slice()
        || word == b"or".as_slice()
        || word == b"=>".as_slice()
        || word == b"<=>".as_slice()
        || is_quantifying(word)
}
