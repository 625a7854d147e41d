//! How lists are shaped: which heads they have, and which arguments the logical words take.
ghost use Rattle.std.specs.Prelude.{◌≡◌, map, option_map};
ghost use Rattle.kif_tree.specs.Shape as spec;

use crate::form::Form;
use crate::place::Located;

/// At the top of a text the form has no fault of shape, and the word `!answer` doesn't occur in it. It takes no memory.
pub fn is_shaped(form: &Form) -> bool
    ensures { result ≡ spec.is_shaped form.now }
{
    walk_top(form, 0).is_ok() && !has_word(form, b"!answer")
}

/// The first fault of shape of the forms of a text, as the number of the token at which the faulty form or list begins,
/// or the greatest `usize` where that is greater. The tokens that spell the forms are counted from 0, over all of them.
/// It takes no memory.
pub fn first_fault_in(forms: &[Located]) -> Option<usize>
    ensures { result ≡ option_map spec.capped (spec.first_forms_fault (map (λ located. located.form) forms.now)) }
{
    walk_forms(forms).err()
}

/// The word occurs. It takes no memory.
#[tactic(auto, using(crate::proofs::ShapeLaws::has_word_laws))]
pub fn has_word(form: &Form, name: &[u8]) -> bool
    ensures { result ≡ spec.has_word name.now form.now }
{
    match form {
        Form::Word(text) => name == text.bytes(),
        Form::List(parts) => {
            for part in parts.items() {
                if has_word(part, name) {
                    return true;
                }
            }
            false
        }
        _ => false,
    }
}

// ---- walks over tokens: each ends with the number of the next token, or with that of the first fault as its error

fn walk_forms(forms: &[Located]) -> Result<usize, usize>
    ensures { result ≡ spec.walked 0 (map (λ located. spec.as_top located.form) forms.now) }
{
    let mut next = 0;
    for located in forms {
        next = walk_top(&located.form, next)?;
    }
    Ok(next)
}

fn walk_top(form: &Form, start: usize) -> Result<usize, usize>
    ensures { result ≡ spec.walked_part start (spec.as_top form.now) }
{
    match form {
        Form::List(_) => walk(form, start),
        _ => Err(start),
    }
}

#[cycle(walk)]
fn walk(form: &Form, start: usize) -> Result<usize, usize>
    ensures { result ≡ spec.walked_part start (spec.as_part form.now) }
{
    let next = start.saturating_add(1);
    let Form::List(parts) = form else {
        return Ok(next);
    };
    if is_misshapen(parts.items()) {
        return Err(start);
    }
    let next = walk_tested(parts.items(), next)?;
    Ok(next.saturating_add(1))
}

// the variable list of a quantifier is not tested as a list of its own
#[cycle(walk)]
fn walk_tested(parts: &[Form], start: usize) -> Result<usize, usize>
    ensures { result ≡ spec.walked start (spec.tested (map spec.as_part parts.now)) }
{
    let [head, names, rest @ ..] = parts else {
        return walk_all(parts, start);
    };
    if is_quantifier(head) {
        let next = walk_names(names, start.saturating_add(1))?;
        return walk_all(rest, next);
    }
    walk_all(parts, start)
}

#[cycle(walk)]
fn walk_all(parts: &[Form], start: usize) -> Result<usize, usize>
    ensures { result ≡ spec.walked start (map spec.as_part parts.now) }
{
    let mut next = start;
    for part in parts {
        next = walk(part, next)?;
    }
    Ok(next)
}

fn walk_names(names: &Form, start: usize) -> Result<usize, usize>
    ensures { result ≡ spec.walked_part start (spec.as_names names.now) }
{
    if is_empty_list(names) {
        return Err(start);
    }
    Ok(start.saturating_add(token_count(names)))
}

/// How many tokens spell the form, or the greatest `usize` where more do.
#[tactic(auto, using(crate::proofs::ShapeLaws::token_count_laws))]
fn token_count(form: &Form) -> usize
    ensures { result ≡ spec.capped (spec.token_count form.now) }
{
    match form {
        Form::List(parts) => {
            let mut count: usize = 2;
            for part in parts.items() {
                count = count.saturating_add(token_count(part));
            }
            count
        }
        _ => 1,
    }
}

// ---- tests of one list

fn is_misshapen(parts: &[Form]) -> bool
    ensures { result ≡ spec.is_misshapen parts.now }
{
    let [head, arguments @ ..] = parts else {
        return true;
    };
    match head {
        Form::Word(text) => !takes(text.bytes(), arguments),
        Form::Variable(_) => false,
        _ => true,
    }
}

fn takes(word: &[u8], arguments: &[Form]) -> bool
    ensures { result ≡ spec.takes word.now arguments.now }
{
    match word {
        b"not" => arguments.len() == 1,
        b"and" | b"or" => !arguments.is_empty(),
        b"=>" | b"<=>" => arguments.len() == 2,
        _ => !is_quantifying(word) || binds(arguments),
    }
}

pub(crate) fn is_quantifying(word: &[u8]) -> bool
    ensures { result ≡ spec.is_among spec.quantifiers word.now }
{
    word == b"forall".as_slice() || word == b"exists".as_slice()
}

/// Whether the form is the word `forall` or `exists`. It takes no memory.
pub fn is_quantifier(head: &Form) -> bool
    ensures { result ≡ spec.is_quantifier head.now }
{
    match head {
        Form::Word(text) => is_quantifying(text.bytes()),
        _ => false,
    }
}

pub(crate) fn binds(arguments: &[Form]) -> bool
    ensures { result ≡ spec.binds arguments.now }
{
    let [names, _] = arguments else {
        return false;
    };
    match names {
        Form::List(parts) => lists_names(parts.items()),
        _ => false,
    }
}

/// Whether all parts are variables or row variables. It takes no memory.
pub fn lists_names(parts: &[Form]) -> bool
    ensures { result ≡ spec.lists_names parts.now }
{
    for part in parts {
        if !matches!(part, Form::Variable(_) | Form::Row(_)) {
            return false;
        }
    }
    true
}

fn is_empty_list(form: &Form) -> bool
    ensures { result ≡ spec.is_empty_list form.now }
{
    match form {
        Form::List(parts) => parts.items().is_empty(),
        _ => false,
    }
}
