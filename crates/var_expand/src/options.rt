//! What each variable may become.
ghost use Rattle.std.specs.Prelude.{◌≡◌, ◌∷◌, [], IfOk, map, filter, true};
ghost use Rattle.std.specs.List.{list_any};
ghost use Rattle.kif_tree.specs.declared.form.Form.TheVariants as form;
ghost use Rattle.var_expand.specs.Choices as choices;
ghost use Rattle.var_expand.specs.Search as spec;

use crate::chosen::Chosen;
use crate::fitting::{Problem, passes};
use crate::lists::{Parts, is_variable};
use kif_tree::{Form, Forms, Text};
use sigma_base::{Listed, NoMemory};
use std::alloc::Global;
use std::marker::Model;
use std::slice;

/// A variable, and what it may become so that its own lists and conditions allow it. The number is that of its part: variables
/// of different parts have no list and no condition in common.
#[derive(Debug, Drop)]
pub struct Offer<'a> {
    pub variable: &'a Form,
    pub allowed: Listed<Parts<'a>>,
    pub part: usize,
}

impl<'a> Model for Offer<'a> {
    ghost use Rattle.std.specs.Coded.{codes};
    ghost use Rattle.kif_tree.specs.contracts.form.Form as form;
    ghost use Rattle.var_expand.specs.Offered.{Offered};

    ghost Value = { Offered };

    ghost coded = { Prim.hlevel (codes, form.the_row.coded) };

    ghost view = { λ offer. record { variable = offer.variable.now; allowed = offer.allowed } };
}

/// The relation names as words, for variables of which one stands for a relation. For others there are none.
pub fn words(alloc: Global, variables: &[Form], relations: &[Text]) -> Result<Forms, NoMemory>
    ensures { IfOk result (λ words. list_any choices.is_variable variables.now ≡ true → words ≡ map form.Word relations.now) }
{
    if !has_variable(variables) {
        return Ok(Listed::new(alloc));
    }
    words_of(alloc, relations)
}

fn has_variable(forms: &[Form]) -> bool
    ensures { result ≡ list_any choices.is_variable forms.now }
{
    for form in forms {
        if is_variable(form) {
            return true;
        }
    }
    false
}

fn words_of(alloc: Global, relations: &[Text]) -> Result<Forms, NoMemory>
    ensures { IfOk result (λ words. words ≡ map form.Word relations.now) }
{
    let mut words = Listed::new(alloc);
    for relation in relations {
        words.push(Form::Word(relation.copy(alloc)?))?;
    }
    Ok(words)
}

/// Each form alone.
pub fn singles<'a>(alloc: Global, forms: &'a [Form]) -> Result<Listed<Parts<'a>>, NoMemory>
    ensures { IfOk result (λ singles. singles ≡ map (λ form. form ∷ []) forms.now) }
{
    let mut singles = Listed::new(alloc);
    for form in forms {
        singles.push(Parts {
            forms: slice::from_ref(form),
        })?;
    }
    Ok(singles)
}

/// The beginnings of the forms that aren't empty, shortest first.
fn beginnings<'a>(alloc: Global, forms: &'a [Form]) -> Result<Listed<Parts<'a>>, NoMemory>
    ensures { IfOk result (λ beginnings. beginnings ≡ choices.beginnings forms.now) }
{
    let mut beginnings = Listed::new(alloc);
    for at in 0..forms.len() {
        beginnings.push(Parts {
            forms: &forms[..at + 1],
        })?;
    }
    Ok(beginnings)
}

fn row_part(alloc: Global, row: &Text, number: &[u8]) -> Result<Form, NoMemory>
    ensures { IfOk result (λ part. part ≡ choices.row_part row.now number.now) }
{
    let mut name = row.copy(alloc)?;
    name.append(b"!")?;
    name.append(number)?;
    Ok(Form::Variable(name))
}

/// The five variables of a row variable. Any other form has none.
fn row_parts(alloc: Global, variable: &Form) -> Result<Forms, NoMemory>
    ensures { IfOk result (λ parts. parts ≡ spec.row_parts variable.now) }
{
    let mut parts = Listed::new(alloc);
    let Form::Row(row) = variable else {
        return Ok(parts);
    };
    parts.push(row_part(alloc, row, b"1")?)?;
    parts.push(row_part(alloc, row, b"2")?)?;
    parts.push(row_part(alloc, row, b"3")?)?;
    parts.push(row_part(alloc, row, b"4")?)?;
    parts.push(row_part(alloc, row, b"5")?)?;
    Ok(parts)
}

/// The variables of each of these that is a row variable.
pub fn rows(alloc: Global, variables: &[Form]) -> Result<Listed<Forms>, NoMemory>
    ensures { IfOk result (λ rows. rows ≡ map spec.row_parts variables.now) }
{
    let mut rows = Listed::new(alloc);
    for variable in variables {
        rows.push(row_parts(alloc, variable)?)?;
    }
    Ok(rows)
}

fn keeps(problem: &Problem, variable: &Form, becomes: &[Form]) -> bool
    ensures { result ≡ spec.keeps problem.now variable.now becomes.now }
{
    let alone = [Chosen { variable, becomes }];
    passes(problem, &alone, true)
}

/// Those of the options that the variable's own lists and conditions allow.
fn allowed<'a>(
    alloc: Global,
    problem: &Problem,
    variable: &Form,
    options: &[Parts<'a>],
) -> Result<Listed<Parts<'a>>, NoMemory>
    ensures { IfOk result (λ allowed. allowed ≡ filter (spec.keeps problem.now variable.now) options.now) }
{
    let mut allowed = Listed::new(alloc);
    for option in options {
        if keeps(problem, variable, option.forms) {
            allowed.push(Parts {
                forms: option.forms,
            })?;
        }
    }
    Ok(allowed)
}

fn offer_for<'a>(
    alloc: Global,
    problem: &Problem,
    names: &[Parts<'a>],
    variable: &'a Form,
    row: &'a [Form],
    part: usize,
) -> Result<Offer<'a>, NoMemory>
    requires names { choices.is_variable variable.now ≡ true → names.now ≡ choices.relation_options (spec.relations_of problem.now) }
    requires row { row.now ≡ spec.row_parts variable.now }
    ensures { IfOk result (λ offer. offer ≡ spec.offered problem.now variable.now) }
{
    let allowed = match variable {
        Form::Variable(_) => allowed(alloc, problem, variable, names)?,
        _ => {
            let options = beginnings(alloc, row)?;
            allowed(alloc, problem, variable, options.items())?
        }
    };
    Ok(Offer {
        variable,
        allowed,
        part,
    })
}

fn part_at(parts: &[usize], at: usize) -> usize {
    parts.get(at).copied().unwrap_or(0)
}

/// An offer for each variable, in order.
pub fn offers<'a>(
    alloc: Global,
    problem: &Problem,
    variables: &'a [Form],
    names: &[Parts<'a>],
    rows: &'a [Forms],
    parts: &[usize],
) -> Result<Listed<Offer<'a>>, NoMemory>
    requires names { list_any choices.is_variable variables.now ≡ true → names.now ≡ choices.relation_options (spec.relations_of problem.now) }
    requires rows { rows.now ≡ map spec.row_parts variables.now }
    ensures { IfOk result (λ offers. offers ≡ map (spec.offered problem.now) variables.now) }
{
    let mut offers = Listed::new(alloc);
    for (at, variable) in variables.iter().enumerate() {
        let part = part_at(parts, at);
        let row = rows[at].items();
        offers.push(offer_for(alloc, problem, names, variable, row, part)?)?;
    }
    Ok(offers)
}
