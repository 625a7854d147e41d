//! What quantified variables become.
ghost use Rattle.std.specs.Prelude.{◌≡◌, ◌++◌, ◌+◌, ◌<◌, IfOk, OnOk};
ghost use Rattle.kif_tree.specs.Terms as terms;
ghost use Rattle.kif_tree.specs.declared.form.Form.TheVariants as forms;
ghost use Rattle.calculus.specs.Tidy.{new_name};
ghost use Rattle.clause_form.specs.Readings as spec;

use kif_tree::{Form, Forms, Pair, Text, copy_all, variables_of};
use sigma_base::{Listed, NoMemory};
use std::alloc::Global;

/// How many new variables and Skolem terms a reading has made.
#[derive(Clone, Copy, Debug, PartialEq, Eq)]
pub struct Counts {
    pub variables: u64,
    pub skolems: u64,
}

/// What quantified variables become at a place in a form, the innermost first, and the universal variables around the place, the
/// outermost first.
#[derive(Debug, Drop)]
pub struct Scope {
    pub pairs: Listed<Pair>,
    pub universals: Forms,
}

/// The scope inside a quantifier that lists these names: each becomes a new universal variable, or a Skolem term.
pub(crate) fn enter(
    alloc: Global,
    prefix: &[u8],
    universally: bool,
    names: &Form,
    scope: &Scope,
    counts: &mut Counts,
) -> Result<Scope, NoMemory>
    ensures scope { IfOk result (λ inner. inner ≡ (spec.entered prefix.now universally (terms.distinct (terms.variables names.now)) scope.now counts.old).scope) }
    ensures counts { OnOk result (counts.new ≡ (spec.entered prefix.now universally (terms.distinct (terms.variables names.now)) scope.now counts.old).counts) }
{
    let names = variables_of(alloc, names)?;
    if universally {
        return enter_universal(alloc, names.items(), scope, counts);
    }
    enter_existential(alloc, prefix, names.items(), scope, counts)
}

/// The scope in which the names are new universal variables.
pub(crate) fn enter_universal(
    alloc: Global,
    names: &[Text],
    scope: &Scope,
    counts: &mut Counts,
) -> Result<Scope, NoMemory>
    ensures scope { IfOk result (λ inner. inner ≡ (spec.universal names.now scope.now counts.old).scope) }
    ensures counts { OnOk result (counts.new ≡ (spec.universal names.now scope.now counts.old).counts) }
{
    let mut pairs = Listed::new(alloc);
    let mut universals = copy_all(alloc, scope.universals.items())?;
    for name in names {
        counts.variables = next(counts.variables)?;
        let variable = new_variable(alloc, counts.variables)?;
        universals.push(variable.copy(alloc)?)?;
        pairs.push(Pair {
            variable: name.copy(alloc)?,
            term: variable,
        })?;
    }
    append_pairs(alloc, &mut pairs, scope.pairs.items())?;
    Ok(Scope { pairs, universals })
}

/// The scope in which the names are new Skolem terms.
fn enter_existential(
    alloc: Global,
    prefix: &[u8],
    names: &[Text],
    scope: &Scope,
    counts: &mut Counts,
) -> Result<Scope, NoMemory>
    ensures scope { IfOk result (λ inner. inner ≡ (spec.existential prefix.now names.now scope.now counts.old).scope) }
    ensures counts { OnOk result (counts.new ≡ (spec.existential prefix.now names.now scope.now counts.old).counts) }
{
    let mut pairs = Listed::new(alloc);
    for name in names {
        counts.skolems = next(counts.skolems)?;
        pairs.push(Pair {
            variable: name.copy(alloc)?,
            term: skolem_term(alloc, prefix, counts.skolems, scope.universals.items())?,
        })?;
    }
    append_pairs(alloc, &mut pairs, scope.pairs.items())?;
    let universals = copy_all(alloc, scope.universals.items())?;
    Ok(Scope { pairs, universals })
}

/// The next number. No memory holds as many names as there are numbers.
fn next(number: u64) -> Result<u64, NoMemory>
    ensures { IfOk result (λ next. next ≡ number + 1) }
{
    number.checked_add(1).ok_or(NoMemory)
}

fn append_pairs(alloc: Global, out: &mut Listed<Pair>, pairs: &[Pair]) -> Result<(), NoMemory>
    ensures { OnOk result (out.new ≡ out.old ++ pairs.now) }
{
    for pair in pairs {
        out.push(Pair {
            variable: pair.variable.copy(alloc)?,
            term: pair.term.copy(alloc)?,
        })?;
    }
    Ok(())
}

/// The variable `?Xn`.
fn new_variable(alloc: Global, number: u64) -> Result<Form, NoMemory>
    requires { 0 < number }
    ensures { IfOk result (λ variable. variable ≡ forms.Variable (new_name number)) }
{
    let mut name = Text::of(alloc, b"X")?;
    name.append_decimal(number)?;
    Ok(Form::Variable(name))
}

/// The Skolem term of the number, under these universal variables.
fn skolem_term(
    alloc: Global,
    prefix: &[u8],
    number: u64,
    universals: &[Form],
) -> Result<Form, NoMemory>
    ensures { IfOk result (λ term. term ≡ spec.skolem_term (spec.skolem_symbol prefix.now number) universals.now) }
{
    let mut symbol = Text::of(alloc, prefix)?;
    symbol.push(b'.')?;
    symbol.append_decimal(number)?;
    if universals.is_empty() {
        return Ok(Form::Word(symbol));
    }
    let mut parts = Listed::new(alloc);
    parts.push(Form::Word(symbol))?;
    parts.append(copy_all(alloc, universals)?)?;
    Ok(Form::List(parts))
}
