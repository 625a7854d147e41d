//! The variants of a form.
ghost use Rattle.std.specs.Prelude.{◌≡◌, [], ◌∷◌, map, filter, take, true, IfOk, OnOk};
ghost use Rattle.std.specs.List.{list_any};
ghost use Rattle.kif_tree.specs.Profile as profile;
ghost use Rattle.kif_tree.specs.declared.form.Form.TheVariants as forms;
ghost use Rattle.var_expand.specs.Choices.{is_variable};
ghost use Rattle.var_expand.specs.Fitting as fits;
ghost use Rattle.var_expand.specs.Problems as problems;
ghost use Rattle.var_expand.specs.Replacement as replacement;
ghost use Rattle.var_expand.specs.Search as search;
ghost use Rattle.var_expand.specs.declared.expanded.Expanded.TheVariants as answers;
ghost use Rattle.var_expand.specs.Expansion as spec;

use crate::chosen::Chosen;
use crate::expanded::Expanded;
use crate::fitting::Problem;
use crate::gathered::gather_conditions;
use crate::lists::{Parts, gather_arguments, gather_lists, gather_sentences};
use crate::options::{Offer, offers, rows, singles, words};
use crate::part_numbers::number_parts;
use crate::replacement::replaced;
use crate::search::{MOST, Offers, grow, parts_complete};
use crate::variables::{predicate_variables, row_variables};
use kif_tree::{Form, Forms, copy_all, free_names, has_no_row};
use sigma_base::{Listed, NoMemory};
use signatures::Signatures;
use std::alloc::Global;
use taxonomy::Taxonomy;

/// The choices that fit, in order, but no more than 20,001.
fn fitting<'a>(
    alloc: Global,
    problem: &Problem,
    predicates: usize,
    variables: &'a [Form],
    words: &'a [Form],
    rows: &'a [Forms],
) -> Result<Listed<Listed<Chosen<'a>>>, NoMemory>
    requires variables { variables.now ≡ problem.now.variables }
    requires words { list_any is_variable variables.now ≡ true → words.now ≡ map forms.Word (search.relations_of problem.now) }
    requires rows { rows.now ≡ map search.row_parts variables.now }
    requires distinct { search.AreDistinct variables.now }
    ensures { IfOk result (λ found. found ≡ take 20001 (problems.passing problem.now)) }
{
    let parts = number_parts(alloc, problem)?;
    let parts = parts.as_slice();
    let names = singles(alloc, words)?;
    let offers = offers(alloc, problem, variables, names.items(), rows, parts)?;
    let mut found = Listed::new(alloc);
    find(
        alloc,
        problem,
        predicates,
        offers.items(),
        parts,
        &mut found,
    )?;
    Ok(found)
}

/// Adds the choices that fit and are offered, but no more than 20,001.
fn find<'a>(
    alloc: Global,
    problem: &Problem,
    predicates: usize,
    offers: &[Offer<'a>],
    parts: &[usize],
    found: &mut Listed<Listed<Chosen<'a>>>,
) -> Result<(), NoMemory>
    requires offers { offers.now ≡ map (search.offered problem.now) problem.now.variables }
    requires distinct { search.AreDistinct problem.now.variables }
    ensures { OnOk result (found.new ≡ search.filled found.old (problems.passing problem.now)) }
{
    let middle = predicates.min(offers.len());
    let names = &offers[..middle];
    let rows = &offers[middle..];
    if !parts_complete(alloc, problem, names, rows, parts)? {
        return Ok(());
    }
    let mut choice = Vec::new(alloc);
    grow(
        alloc,
        problem,
        &Offers { names, rows },
        &mut choice,
        offers,
        found,
    )?;
    Ok(())
}

fn variants(alloc: Global, form: &Form, fitting: &[Listed<Chosen>]) -> Result<Forms, NoMemory>
    ensures { IfOk result (λ variants. variants ≡ map (replacement.replaced form.now) fitting.now) }
{
    let mut variants = Listed::new(alloc);
    for choice in fitting {
        variants.push(replaced(alloc, form, choice.items())?)?;
    }
    Ok(variants)
}

fn outcome(
    alloc: Global,
    form: &Form,
    predicates: &[Form],
    fitting: &[Listed<Chosen>],
) -> Result<Expanded, NoMemory>
    ensures { IfOk result (λ expanded. expanded ≡ problems.answer form.now predicates.now fitting.now) }
{
    if fitting.len() > MOST {
        return Ok(Expanded::TooMany);
    }
    if !fitting.is_empty() {
        return Ok(Expanded::Variants(variants(alloc, form, fitting)?));
    }
    if predicates.is_empty() {
        return Ok(Expanded::NoLength);
    }
    Ok(Expanded::NoRelation)
}

fn only_variant(alloc: Global, form: &Form) -> Result<Expanded, NoMemory>
    ensures { IfOk result (λ expanded. expanded ≡ answers.Variants (form.now ∷ [])) }
{
    let mut variants = Listed::new(alloc);
    variants.push(form.copy(alloc)?)?;
    Ok(Expanded::Variants(variants))
}

/// The form after each choice that fits, in order of the choices, or why there are no variants.
///
/// A choice gives each predicate variable, which is a variable that heads a list, a relation name of the signatures, and each row
/// variable a length from 1 to 5. It fits where the lists that vary have as many arguments as their heads take, names of functions
/// stand in argument place and no others, and the conditions of an implication have their chains. A name replaces its variable where
/// that is free, and `@ROW` of length 2 becomes `?ROW!1 ?ROW!2`. A form without such variables is its own one variant.
///
/// It is meant for shaped forms within the profile and tables that were made of one list of forms, and answers for any.
pub fn expand(
    alloc: Global,
    form: &Form,
    signatures: &Signatures,
    taxonomy: &Taxonomy,
) -> Result<Expanded, NoMemory>
    ensures { IfOk result (spec.IsExpansion taxonomy.now.links signatures.now form.now) }
{
    let mut lists = Listed::new(alloc);
    gather_lists(&mut lists, form)?;
    if lists.items().is_empty() && has_no_row(form) {
        return only_variant(alloc, form);
    }
    expand_by(alloc, form, lists, signatures, taxonomy)
}

/// The outcome by the choices that fit.
fn solve(
    alloc: Global,
    form: &Form,
    predicates: &[Form],
    problem: &Problem,
) -> Result<Expanded, NoMemory>
    requires { search.AreDistinct problem.now.variables }
    ensures { IfOk result (λ expanded. expanded ≡ problems.answer form.now predicates.now (take 20001 (problems.passing problem.now))) }
{
    let variables = copy_all(alloc, problem.variables.items())?;
    let words = words(alloc, variables.items(), problem.signatures.relations())?;
    let rows = rows(alloc, variables.items())?;
    let found = fitting(
        alloc,
        problem,
        predicates.len(),
        variables.items(),
        words.items(),
        rows.items(),
    )?;
    outcome(alloc, form, predicates, found.items())
}

/// What the form asks of a choice, where these are its predicate variables and row variables.
fn problem_of<'f, 's, 't>(
    alloc: Global,
    form: &'f Form,
    varying: Listed<Parts<'f>>,
    predicates: &[Form],
    rows: Forms,
    signatures: &'s Signatures,
    taxonomy: &'t Taxonomy,
) -> Result<Problem<'f, 's, 't>, NoMemory>
    ensures { IfOk result (problems.IsProblem form.now varying.entry predicates.now rows signatures.now taxonomy.now.links) }
{
    let arguments = gather_arguments(alloc, form)?;
    let sentences = gather_sentences(alloc, form)?;
    let conditions = gather_conditions(alloc, predicates, form)?;
    let mut variables = copy_all(alloc, predicates)?;
    variables.append(rows)?;
    Ok(Problem {
        variables,
        lists: varying,
        arguments,
        sentences,
        conditions,
        signatures,
        taxonomy,
    })
}

fn expand_by<'f>(
    alloc: Global,
    form: &'f Form,
    varying: Listed<Parts<'f>>,
    signatures: &Signatures,
    taxonomy: &Taxonomy,
) -> Result<Expanded, NoMemory>
    requires { varying ≡ filter fits.varies (profile.compounds form.now) }
    ensures { IfOk result (spec.IsExpansion taxonomy.now.links signatures.now form.now) }
{
    let free = free_names(alloc, form)?;
    let predicates = predicate_variables(alloc, free.items(), varying.items())?;
    let rows = row_variables(alloc, free.items())?;
    let problem = problem_of(
        alloc,
        form,
        varying,
        predicates.items(),
        rows,
        signatures,
        taxonomy,
    )?;
    solve(alloc, form, predicates.items(), &problem)
}
