//! Whether a choice fits, and whether a choice of some of the variables may become one that fits.
ghost use Rattle.std.specs.Prelude.{◌≡◌, ◌+◌, ◌<◌, ◌&&◌, length, MatchOption};
ghost use Rattle.std.specs.List.{list_all, list_any};
ghost use Rattle.signatures.specs.declared.told.Arity.TheVariants as arity;
ghost use Rattle.taxonomy.specs.ChainDecision as decision;
ghost use Rattle.var_expand.specs.Choices.{after};
ghost use Rattle.var_expand.specs.Search as spec;

use crate::chosen::{Chosen, length_by, set_to, word_by};
use crate::gathered::Condition;
use crate::lists::{Parts, is_as, is_row};
use kif_tree::{Form, Forms, is_function_word};
use sigma_base::Listed;
use signatures::{Arity, Signatures};
use taxonomy::{ChainKind, Taxonomy, Told};

/// What a form asks of a choice: the variables that it sets, the lists that vary, those headed by variables in argument place
/// and in sentence place, and the conditions.
#[derive(Debug, Drop)]
pub struct Problem<'f, 's, 't> {
    pub variables: Forms,
    pub lists: Listed<Parts<'f>>,
    pub arguments: Listed<Parts<'f>>,
    pub sentences: Listed<Parts<'f>>,
    pub conditions: Listed<Condition<'f>>,
    pub signatures: &'s Signatures,
    pub taxonomy: &'t Taxonomy,
}

/// What is left of the count after what the forms become, unless they become more.
fn left_over(count: usize, choice: &[Chosen], forms: &[Form]) -> Option<usize>
    ensures { MatchOption result (count < length (after choice.now forms.now)) (λ left. left + length (after choice.now forms.now) ≡ count) }
{
    let mut left = count;
    for form in forms {
        let length = length_by(choice, form);
        if left < length {
            return None;
        }
        left -= length;
    }
    Some(left)
}

/// A row variable for which nothing is set yet stands among the forms.
fn has_room(choice: &[Chosen], forms: &[Form]) -> bool
    ensures { result ≡ spec.has_room choice.now forms.now }
{
    for form in forms {
        if is_row(form) && set_to(choice, form).is_none() {
            return true;
        }
    }
    false
}

fn takes(count: u32, choice: &[Chosen], partly: bool, arguments: &[Form]) -> bool
    ensures { result ≡ spec.takes_by (arity.Exactly count) (length (after choice.now arguments.now)) (partly && spec.has_room choice.now arguments.now) }
{
    match left_over(count as usize, choice, arguments) {
        None => false,
        Some(0) => true,
        Some(_) => partly && has_room(choice, arguments),
    }
}

fn count_fits(signatures: &Signatures, choice: &[Chosen], partly: bool, parts: &[Form]) -> bool
    ensures { result ≡ spec.count_passes signatures.now partly choice.now parts.now }
{
    let [head, arguments @ ..] = parts else {
        return true;
    };
    let Some(word) = word_by(choice, head) else {
        return true;
    };
    match signatures.arity(word) {
        Arity::Exactly(count) => takes(count, choice, partly, arguments),
        Arity::Any | Arity::Unstated => true,
    }
}

fn name_fits(choice: &[Chosen], partly: bool, function: bool, parts: &[Form]) -> bool
    ensures { result ≡ spec.name_passes partly function choice.now parts.now }
{
    let [head, ..] = parts else {
        return partly || !function;
    };
    match word_by(choice, head) {
        Some(word) => is_as(function, is_function_word(word)),
        None => partly || !function,
    }
}

fn is_kind(kind: ChainKind, other: ChainKind) -> bool
    ensures { result ≡ decision.is_kind kind other }
{
    match (kind, other) {
        (ChainKind::Class, ChainKind::Class)
        | (ChainKind::Instance, ChainKind::Instance)
        | (ChainKind::Relation, ChainKind::Relation) => true,
        _ => false,
    }
}

fn has_kind(kind: ChainKind, told: &[Told]) -> bool
    ensures { result ≡ list_any (spec.is_of_kind kind) told.now }
{
    for one in told {
        if is_kind(kind, one.kind) {
            return true;
        }
    }
    false
}

/// Whether a told link of that kind begins with the word.
#[tactic(auto, using(crate::proofs::ConditionLaws::parents_begin))]
fn begins_chain(taxonomy: &Taxonomy, kind: ChainKind, word: &[u8]) -> bool
    ensures { result ≡ spec.begins_chain taxonomy.now.links kind word.now }
{
    has_kind(kind, taxonomy.parents(word))
}

fn condition_fits(
    taxonomy: &Taxonomy,
    choice: &[Chosen],
    partly: bool,
    condition: &Condition,
) -> bool
    ensures { result ≡ spec.condition_passes taxonomy.now.links partly choice.now condition.now }
{
    match (
        word_by(choice, condition.low),
        word_by(choice, condition.high),
    ) {
        (Some(low), Some(high)) => taxonomy.is_above(condition.kind, low, high),
        (Some(low), None) => partly && begins_chain(taxonomy, condition.kind, low),
        _ => partly,
    }
}

fn counts_fit(signatures: &Signatures, choice: &[Chosen], partly: bool, lists: &[Parts]) -> bool
    ensures { result ≡ list_all (spec.count_passes signatures.now partly choice.now) lists.now }
{
    for list in lists {
        if !count_fits(signatures, choice, partly, list.forms) {
            return false;
        }
    }
    true
}

fn names_fit(choice: &[Chosen], partly: bool, function: bool, lists: &[Parts]) -> bool
    ensures { result ≡ list_all (spec.name_passes partly function choice.now) lists.now }
{
    for list in lists {
        if !name_fits(choice, partly, function, list.forms) {
            return false;
        }
    }
    true
}

fn conditions_fit(
    taxonomy: &Taxonomy,
    choice: &[Chosen],
    partly: bool,
    conditions: &[Condition],
) -> bool
    ensures { result ≡ list_all (spec.condition_passes taxonomy.now.links partly choice.now) conditions.now }
{
    for condition in conditions {
        if !condition_fits(taxonomy, choice, partly, condition) {
            return false;
        }
    }
    true
}

/// Whether the choice fits, or, where `partly` says that it is one of some variables, may fit once more is set. It takes no memory.
#[tactic(auto, unfolding(crate::specs::Search::passes))]
pub fn passes(problem: &Problem, choice: &[Chosen], partly: bool) -> bool
    ensures { result ≡ spec.passes problem.now partly choice.now }
{
    names_fit(choice, partly, true, problem.arguments.items())
        && names_fit(choice, partly, false, problem.sentences.items())
        && conditions_fit(problem.taxonomy, choice, partly, problem.conditions.items())
        && counts_fit(problem.signatures, choice, partly, problem.lists.items())
}
