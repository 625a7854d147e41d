//! Words at the head of a list.
ghost use Rattle.std.specs.Prelude.{◌≡◌};
ghost use Rattle.kif_tree.specs.Clauses as spec;

use crate::form::Form;

/// Whether the form is a list with this word at its head. It takes no memory.
pub fn is_headed(form: &Form, name: &[u8]) -> bool
    ensures { result ≡ spec.is_headed name.now form.now }
{
    let Form::List(parts) = form else {
        return false;
    };
    let [head, ..] = parts.items() else {
        return false;
    };
    let Form::Word(text) = head else {
        return false;
    };
    name == text.bytes()
}

/// Whether the form is the atom of an answer literal. It takes no memory.
pub fn is_answer(atom: &Form) -> bool
    ensures { result ≡ spec.is_answer atom.now }
{
    is_headed(atom, b"!answer")
}
