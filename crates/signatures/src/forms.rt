//! Told forms of a relation's arguments and values, as they stand in forms.
ghost use Rattle.std.specs.Prelude.{◌≡◌, ◌<◌, Some, None, true, length, MatchOption, if◌then◌else◌};
ghost use Rattle.std.specs.Option.{option_map};
ghost use Rattle.std.specs.Str.{all_ascii_digits};
ghost use Rattle.std.specs.Str.Parse.{digits_value};
ghost use Rattle.taxonomy.specs.Told as told;
ghost use Rattle.signatures.specs.Forms as spec;

use kif_tree::{Form, Located, Place, Text};
use taxonomy::ChainKind;

/// A told form of a head and two words.
#[derive(Clone, Copy, Debug)]
pub struct FoundPair<'a> {
    pub head: &'a Text,
    pub first: &'a Text,
    pub second: &'a Text,
    pub place: Place,
}

/// A told link, whose words stand in its form.
#[derive(Clone, Copy, Debug)]
pub struct FoundLink<'a> {
    pub kind: ChainKind,
    pub low: &'a Text,
    pub high: &'a Text,
    pub place: Place,
}

/// A told form of a head, a word and a number.
#[derive(Clone, Copy, Debug)]
pub struct FoundNumber<'a> {
    pub head: &'a Text,
    pub word: &'a Text,
    pub number: u32,
    pub place: Place,
}

/// A told form of a head, a word, a number from 1 and a word.
#[derive(Clone, Copy, Debug)]
pub struct FoundArgument<'a> {
    pub head: &'a Text,
    pub word: &'a Text,
    pub number: u32,
    pub class: &'a Text,
    pub place: Place,
}

/// The text of a word.
pub fn word_of(form: &Form) -> Option<&Text>
    ensures { option_map (λ text. text.now) result ≡ told.word_text form.now }
{
    match form {
        Form::Word(text) => Some(text),
        _ => None,
    }
}

/// The parts of a list. Any other form has none.
fn parts_of(form: &Form) -> &[Form]
    ensures { result.now ≡ told.parts_of form.now }
{
    match form {
        Form::List(parts) => parts.items(),
        _ => &[],
    }
}

/// Whether all bytes are digits.
fn are_digits(text: &[u8]) -> bool
    ensures { result ≡ all_ascii_digits text.now }
{
    for digit in text {
        if !digit.is_ascii_digit() {
            return false;
        }
    }
    true
}

/// The value of at most nine digits.
fn value_of(text: &[u8]) -> u32
    requires digits { all_ascii_digits text.now ≡ true }
    requires short { length text.now < 10 }
    ensures { result ≡ digits_value 10 text.now }
{
    let mut value: u32 = 0;
    for digit in text {
        value = value * 10 + u32::from(*digit - b'0');
    }
    value
}

/// The value of digits, where there are one to nine of them and nothing else.
fn short_value(text: &[u8]) -> Option<u32>
    ensures { result ≡ (if told.is_short_number text.now then Some (digits_value 10 text.now) else None) }
{
    if !are_digits(text) {
        return None;
    }
    if text.is_empty() {
        return None;
    }
    if text.len() > 9 {
        return None;
    }
    Some(value_of(text))
}

/// The value of a numeral of one to nine digits.
fn short_number(form: &Form) -> Option<u32>
    ensures { result ≡ told.short_number form.now }
{
    match form {
        Form::Numeral(text) => short_value(text.bytes()),
        _ => None,
    }
}

/// The kind of chain that begins with a form of this head.
fn kind_of(head: &[u8]) -> Option<ChainKind>
    ensures { result ≡ told.kind_of head.now }
{
    if head == b"instance".as_slice() {
        return Some(ChainKind::Instance);
    }
    if head == b"subclass".as_slice() {
        return Some(ChainKind::Class);
    }
    if head == b"subrelation".as_slice() {
        return Some(ChainKind::Relation);
    }
    None
}

/// The link that the form tells, if it tells one.
pub fn link_in(located: &Located) -> Option<FoundLink<'_>>
    ensures { option_map spec.found_link result ≡ told.told_link located.now }
{
    let parts = parts_of(&located.form);
    if parts.len() != 3 {
        return None;
    }
    let head = word_of(&parts[0])?;
    let low = word_of(&parts[1])?;
    let high = word_of(&parts[2])?;
    let kind = kind_of(head.bytes())?;
    Some(FoundLink {
        kind,
        low,
        high,
        place: located.place,
    })
}

fn pair_of<'a>(
    head: Option<&'a Text>,
    first: Option<&'a Text>,
    second: Option<&'a Text>,
    place: Place,
) -> Option<FoundPair<'a>>
    ensures { option_map spec.found_pair result ≡ told.pair_of_words place (spec.three_texts (spec.text_in head.entry) (spec.text_in first.entry) (spec.text_in second.entry)) }
{
    match (head, first, second) {
        (Some(head), Some(first), Some(second)) => Some(FoundPair {
            head,
            first,
            second,
            place,
        }),
        _ => None,
    }
}

/// What the form tells, if it is a head and two words.
pub fn pair_in(located: &Located) -> Option<FoundPair<'_>>
    ensures { option_map spec.found_pair result ≡ told.told_pair located.now }
{
    let parts = parts_of(&located.form);
    if parts.len() != 3 {
        return None;
    }
    let [head, first, second] = parts else {
        return None;
    };
    pair_of(
        word_of(head),
        word_of(first),
        word_of(second),
        located.place,
    )
}

fn number_of<'a>(
    head: Option<&'a Text>,
    word: Option<&'a Text>,
    number: Option<u32>,
    place: Place,
) -> Option<FoundNumber<'a>>
    ensures { option_map spec.found_number result ≡ told.number_of place (spec.two_texts (spec.text_in head.entry) (spec.text_in word.entry)) number }
{
    match (head, word, number) {
        (Some(head), Some(word), Some(number)) => Some(FoundNumber {
            head,
            word,
            number,
            place,
        }),
        _ => None,
    }
}

/// What the form tells, if it is a head, a word and a number.
pub fn number_in(located: &Located) -> Option<FoundNumber<'_>>
    ensures { option_map spec.found_number result ≡ told.told_number located.now }
{
    let parts = parts_of(&located.form);
    if parts.len() != 3 {
        return None;
    }
    let [head, word, number] = parts else {
        return None;
    };
    number_of(
        word_of(head),
        word_of(word),
        short_number(number),
        located.place,
    )
}

fn argument_of<'a>(found: Option<FoundPair<'a>>, number: Option<u32>) -> Option<FoundArgument<'a>>
    ensures { option_map spec.found_argument result ≡ spec.argument_by (option_map spec.found_pair found.entry) number }
{
    let found = found?;
    let number = number?;
    if number == 0 {
        return None;
    }
    Some(FoundArgument {
        head: found.head,
        word: found.first,
        number,
        class: found.second,
        place: found.place,
    })
}

/// What the form tells, if it is a head, a word, a number from 1 and a word.
pub fn argument_in(located: &Located) -> Option<FoundArgument<'_>>
    ensures { option_map spec.found_argument result ≡ told.told_argument located.now }
{
    let parts = parts_of(&located.form);
    if parts.len() != 4 {
        return None;
    }
    let [head, word, number, class] = parts else {
        return None;
    };
    argument_of(
        pair_of(word_of(head), word_of(word), word_of(class), located.place),
        short_number(number),
    )
}
