//! The logical words.
ghost use Rattle.std.specs.Prelude.{◌≡◌};
ghost use Rattle.clause_form.specs.Connectives as spec;

use kif_tree::Form;

/// What a logical word at the head of a list makes of the parts after it.
#[derive(Clone, Copy, Debug, PartialEq, Eq)]
pub enum Connective {
    Not,
    And,
    Or,
    Implies,
    Equivalent,
    ForAll,
    Exists,
}

/// The connective that the form names. It takes no memory.
pub fn connective_of(head: &Form) -> Option<Connective>
    ensures { result ≡ spec.connective_of head.now }
{
    match head {
        Form::Word(word) => connective_named(word.bytes()),
        _ => None,
    }
}

fn connective_named(word: &[u8]) -> Option<Connective>
    ensures { result ≡ spec.connective_named word.now }
{
    if word == b"not".as_slice() {
        return Some(Connective::Not);
    }
    if word == b"and".as_slice() {
        return Some(Connective::And);
    }
    if word == b"or".as_slice() {
        return Some(Connective::Or);
    }
    if word == b"=>".as_slice() {
        return Some(Connective::Implies);
    }
    if word == b"<=>".as_slice() {
        return Some(Connective::Equivalent);
    }
    quantifier_named(word)
}

fn quantifier_named(word: &[u8]) -> Option<Connective>
    ensures { result ≡ spec.quantifier_named word.now }
{
    if word == b"forall".as_slice() {
        return Some(Connective::ForAll);
    }
    if word == b"exists".as_slice() {
        return Some(Connective::Exists);
    }
    None
}
