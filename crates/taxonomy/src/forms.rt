//! Told forms as they stand in forms.
ghost use Rattle.std.specs.Prelude.{◌≡◌, None, Some, is_some, MatchOption};
ghost use Rattle.std.specs.Option.{option_map};
ghost use Rattle.taxonomy.specs.Told as spec;
ghost use Rattle.taxonomy.specs.Forms.{IsDisjointForm, found_link};

use crate::told::ChainKind;
use kif_tree::{Form, Located, Place, Text};

/// A told link, whose words stand in its form.
#[derive(Clone, Copy, Debug)]
pub struct FoundLink<'a> {
    pub kind: ChainKind,
    pub low: &'a Text,
    pub high: &'a Text,
    pub place: Place,
}

/// The text of a word.
pub fn word_of(form: &Form) -> Option<&Text>
    ensures { option_map (λ text. text.now) result ≡ spec.word_text form.now }
{
    match form {
        Form::Word(text) => Some(text),
        _ => None,
    }
}

/// The parts of a list. Any other form has none.
fn parts_of(form: &Form) -> &[Form]
    ensures { result.now ≡ spec.parts_of form.now }
{
    match form {
        Form::List(parts) => parts.items(),
        _ => &[],
    }
}

/// The kind of chain that begins with a form of this head.
fn kind_of(head: &[u8]) -> Option<ChainKind>
    ensures { result ≡ spec.kind_of head.now }
{
    if head == b"instance".as_slice() {
        return Some(ChainKind::Instance);
    }
    if head == b"subclass".as_slice() {
        return Some(ChainKind::Class);
    }
    if head == b"subrelation".as_slice() {
        return Some(ChainKind::Relation);
    }
    None
}

/// The link that the form tells, if it tells one.
pub fn link_in(located: &Located) -> Option<FoundLink<'_>>
    ensures { option_map found_link result ≡ spec.told_link located.now }
{
    let parts = parts_of(&located.form);
    if parts.len() != 3 {
        return None;
    }
    let head = word_of(&parts[0])?;
    let low = word_of(&parts[1])?;
    let high = word_of(&parts[2])?;
    let kind = kind_of(head.bytes())?;
    Some(FoundLink {
        kind,
        low,
        high,
        place: located.place,
    })
}

/// Whether all parts are words.
fn are_words(parts: &[Form]) -> bool
    ensures { result ≡ is_some (spec.word_texts parts.now) }
{
    for part in parts {
        let Some(_) = word_of(part) else {
            return false;
        };
    }
    true
}

/// The parts that the form calls disjoint, if it does: all of them are words.
pub fn disjoint_in(located: &Located) -> Option<&[Form]>
    ensures { MatchOption result (spec.told_disjoint located.now ≡ None) (λ parts. IsDisjointForm located.now parts.now) }
{
    let parts = parts_of(&located.form);
    if !are_words(parts) {
        return None;
    }
    if parts.len() < 3 {
        return None;
    }
    let head = word_of(&parts[0])?;
    let (_, arguments) = parts.split_at(1);
    if arguments.len() == 2 {
        if head.bytes() == b"disjoint".as_slice() {
            return Some(arguments);
        }
        return None;
    }
    if !parts_a_whole(head.bytes()) {
        return None;
    }
    let (_, listed) = arguments.split_at(1);
    Some(listed)
}

fn parts_a_whole(head: &[u8]) -> bool
    ensures { result ≡ spec.parts_a_whole head.now }
{
    head == b"partition".as_slice() || head == b"disjointDecomposition".as_slice()
}
