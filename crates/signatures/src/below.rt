//! Words whose instances may have an arity by a class.
ghost use Rattle.std.specs.Prelude.{◌≡◌, true, false, IfOk, MatchOption, None, Some};
ghost use Rattle.taxonomy.specs.Told.{told_number};
ghost use Rattle.kif_tree.specs.Shape as shape;
ghost use Rattle.sigma_base.specs.Lists.{Each};
ghost use Rattle.signatures.specs.Arities as arities;
ghost use Rattle.signatures.specs.Below as spec;

use crate::forms::{link_in, number_in};
use crate::word_table::{WordTable, set};
use kif_tree::{Located, Text};
use sigma_base::NoMemory;
use std::alloc::Global;
use std::collections::HashMap;
use taxonomy::ChainKind;

/// The classes below those that give their instances an arity, or no whole set of them where it took too many rounds.
#[derive(Debug, Drop)]
pub struct Below {
    words: WordTable<()>,
    is_whole: bool,
}

fn is_function_class(word: &[u8]) -> bool
    ensures { result ≡ shape.is_among (spec.class_names arities.function_classes) word.now }
{
    word == b"UnaryFunction".as_slice()
        || word == b"BinaryFunction".as_slice()
        || word == b"TernaryFunction".as_slice()
        || word == b"QuaternaryFunction".as_slice()
}

fn is_relation_class(word: &[u8]) -> bool
    ensures { result ≡ shape.is_among (spec.class_names arities.relation_classes) word.now }
{
    word == b"BinaryPredicate".as_slice()
        || word == b"BinaryRelation".as_slice()
        || word == b"TernaryPredicate".as_slice()
        || word == b"TernaryRelation".as_slice()
        || word == b"QuaternaryPredicate".as_slice()
        || word == b"QuaternaryRelation".as_slice()
        || word == b"QuintaryPredicate".as_slice()
        || word == b"QuintaryRelation".as_slice()
}

fn is_variable_class(word: &[u8]) -> bool
    ensures { result ≡ shape.is_among (spec.class_names arities.variable_classes) word.now }
{
    word == b"VariableArityRelation".as_slice()
}

/// Whether the class gives its instances an arity.
fn is_arity_class(word: &[u8]) -> bool
    ensures { result ≡ spec.is_arity_class word.now }
{
    is_function_class(word) || is_relation_class(word) || is_variable_class(word)
}

fn is_at(words: &WordTable<()>, word: &[u8]) -> bool
    ensures { result ≡ spec.is_at words.now word.now }
{
    is_arity_class(word) || words.contains_key(word)
}

/// Marks the subclass that the form tells of a marked class. Whether there was anything to mark.
fn add_below(alloc: Global, words: &mut WordTable<()>, located: &Located) -> Result<bool, NoMemory>
    ensures same { IfOk result (λ changed. changed ≡ false → words.new ≡ words.old) }
    ensures closed { IfOk result (λ changed. changed ≡ false → spec.IsClosedAt words.new located.now) }
{
    let Some(found) = link_in(located) else {
        return Ok(false);
    };
    let ChainKind::Class = found.kind else {
        return Ok(false);
    };
    if !is_at(words, found.high.bytes()) {
        return Ok(false);
    }
    if is_at(words, found.low.bytes()) {
        return Ok(false);
    }
    set(alloc, words, found.low.bytes(), ())?;
    Ok(true)
}

/// Marks the subclasses that the forms tell of marked classes, in one round. Whether there was anything to mark.
fn add_round(alloc: Global, words: &mut WordTable<()>, forms: &[Located]) -> Result<bool, NoMemory>
    ensures { IfOk result (λ changed. changed ≡ false → Each (spec.IsClosedAt words.new) forms.now) }
{
    let mut changed = false;
    for located in forms {
        if add_below(alloc, words, located)? {
            changed = true;
        }
    }
    Ok(changed)
}

/// The words whose instances may have an arity by a class, by the told subclasses.
pub fn words_below(alloc: Global, forms: &[Located]) -> Result<Below, NoMemory>
    ensures { IfOk result (spec.IsOpen forms.now) }
{
    let mut words = HashMap::new(alloc);
    for _ in 0..16 {
        if !add_round(alloc, &mut words, forms)? {
            return Ok(Below {
                words,
                is_whole: true,
            });
        }
    }
    Ok(Below {
        words,
        is_whole: false,
    })
}

fn may_lead(below: &Below, word: &[u8]) -> bool
    ensures { result ≡ spec.may_lead below.now word.now }
{
    !below.is_whole || is_at(&below.words, word)
}

/// The word that may have an own arity for the sake of the form's link, if it has one.
fn linked_word<'a>(below: &Below, located: &'a Located) -> Option<&'a Text>
    ensures { MatchOption result (spec.arity_word below.now true located.now ≡ None) (λ word. spec.arity_word below.now true located.now ≡ Some word.now) }
{
    let found = link_in(located)?;
    match found.kind {
        ChainKind::Relation => Some(found.high),
        ChainKind::Instance => {
            if may_lead(below, found.high.bytes()) {
                return Some(found.low);
            }
            None
        }
        ChainKind::Class => None,
    }
}

/// The word of which the form tells a valence.
fn valued_word(located: &Located) -> Option<&Text>
    ensures { MatchOption result (spec.word_by_valence (told_number located.now) ≡ None) (λ word. spec.word_by_valence (told_number located.now) ≡ Some word.now) }
{
    let found = number_in(located)?;
    if found.head.bytes() == b"valence".as_slice() {
        return Some(found.word);
    }
    None
}

/// The word that may have an own arity for the sake of the form: of its link, or of its valence.
pub fn arity_word<'a>(below: &Below, located: &'a Located, is_link: bool) -> Option<&'a Text>
    ensures { MatchOption result (spec.arity_word below.now is_link located.now ≡ None) (λ word. spec.arity_word below.now is_link located.now ≡ Some word.now) }
{
    if is_link {
        return linked_word(below, located);
    }
    valued_word(located)
}
