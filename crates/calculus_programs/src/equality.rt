//! The test of whether a clause is a ground instance of equality.
ghost use Rattle.std.specs.Prelude.{◌≡◌, ◌↔◌, ◌||◌, true, IsTrue, IfOk};
ghost use Rattle.calculus.specs.Closed.{ground_clause};
ghost use Rattle.calculus.specs.Equality.{IsEqualityInstance};
ghost use Rattle.calculus_programs.specs.Shapes as spec;

use crate::opening::sides;
use calculus::Sides;
use kif_tree::{Clause, Form, Literal, forms_equal, is_ground};
use sigma_base::NoMemory;
use std::alloc::Global;

/// Whether the clause is ground and says that a form equals itself, that equality is symmetric or transitive, that equal
/// arguments make equal lists, or that equal arguments make atoms of one truth.
pub fn is_equality_instance(alloc: Global, clause: &Clause) -> Result<bool, NoMemory>
    ensures { IfOk result (λ answer. IsTrue answer ↔ IsEqualityInstance clause.now) }
{
    if !has_ground_atoms(clause.literals.items()) {
        return Ok(false);
    }
    has_shape(alloc, clause.literals.items())
}

fn has_ground_atoms(literals: &[Literal]) -> bool
    ensures { result ≡ ground_clause literals.now }
{
    let [literal, rest @ ..] = literals else {
        return true;
    };
    is_ground(&literal.atom) && has_ground_atoms(rest)
}

fn has_shape(alloc: Global, literals: &[Literal]) -> Result<bool, NoMemory>
    ensures { IfOk result (λ answer. answer ≡ spec.shape_test literals.now) }
{
    match literals {
        [only] => is_reflexive(alloc, only),
        [first, second] => is_pair(alloc, first, second),
        [first, second, third] => is_triple(alloc, first, second, third),
        _ => Ok(false),
    }
}

fn signed_sides(alloc: Global, positive: bool, literal: &Literal) -> Result<Option<Sides>, NoMemory>
    ensures { IfOk result (λ answer. answer ≡ spec.signed_sides positive literal.now) }
{
    if literal.positive != positive {
        return Ok(None);
    }
    sides(alloc, &literal.atom)
}

fn is_reflexive(alloc: Global, literal: &Literal) -> Result<bool, NoMemory>
    ensures { IfOk result (λ answer. answer ≡ spec.reflexive_test literal.now) }
{
    let Some(equality) = signed_sides(alloc, true, literal)? else {
        return Ok(false);
    };
    Ok(forms_equal(&equality.left, &equality.right))
}

fn is_pair(alloc: Global, first: &Literal, second: &Literal) -> Result<bool, NoMemory>
    ensures { IfOk result (λ answer. answer ≡ spec.pair_test first.now second.now) }
{
    let Some(premise) = signed_sides(alloc, false, first)? else {
        return Ok(false);
    };
    follows(alloc, &premise, second)
}

fn follows(alloc: Global, premise: &Sides, literal: &Literal) -> Result<bool, NoMemory>
    ensures { IfOk result (λ answer. answer ≡ spec.told (spec.signed_sides true literal.now) (λ d. spec.symmetric_test premise.now d || spec.swapped premise.now.left premise.now.right d.left d.right)) }
{
    let Some(conclusion) = signed_sides(alloc, true, literal)? else {
        return Ok(false);
    };
    Ok(
        symmetric(premise, &conclusion)
            || swapped(
                &premise.left,
                &premise.right,
                &conclusion.left,
                &conclusion.right,
            ),
    )
}

fn symmetric(premise: &Sides, conclusion: &Sides) -> bool
    ensures { result ≡ spec.symmetric_test premise.now conclusion.now }
{
    forms_equal(&conclusion.left, &premise.right) && forms_equal(&conclusion.right, &premise.left)
}

fn is_triple(
    alloc: Global,
    first: &Literal,
    second: &Literal,
    third: &Literal,
) -> Result<bool, NoMemory>
    ensures { IfOk result (λ answer. answer ≡ spec.triple_test first.now second.now third.now) }
{
    let Some(premise) = signed_sides(alloc, false, first)? else {
        return Ok(false);
    };
    let chained = chains(alloc, &premise, second, third)?;
    Ok(chained || replaces(&premise, second, third))
}

fn replaces(premise: &Sides, second: &Literal, third: &Literal) -> bool
    ensures { result ≡ spec.replacing_test premise.now second.now third.now }
{
    !second.positive
        && third.positive
        && swapped(&premise.left, &premise.right, &second.atom, &third.atom)
}

fn chains(
    alloc: Global,
    premise: &Sides,
    second: &Literal,
    third: &Literal,
) -> Result<bool, NoMemory>
    ensures { IfOk result (λ answer. answer ≡ spec.chain_test premise.now second.now third.now) }
{
    let Some(middle) = signed_sides(alloc, false, second)? else {
        return Ok(false);
    };
    ends(alloc, premise, &middle, third)
}

fn ends(alloc: Global, premise: &Sides, middle: &Sides, third: &Literal) -> Result<bool, NoMemory>
    ensures { IfOk result (λ answer. answer ≡ spec.told (spec.signed_sides true third.now) (spec.transitive_test premise.now middle.now)) }
{
    let Some(last) = signed_sides(alloc, true, third)? else {
        return Ok(false);
    };
    Ok(
        forms_equal(&middle.left, &premise.right)
            && forms_equal(&last.left, &premise.left)
            && forms_equal(&last.right, &middle.right),
    )
}

/// Whether the two are lists with one head whose arguments are the same but for one place, where the first has a and the
/// second b.
fn swapped(a: &Form, b: &Form, first: &Form, second: &Form) -> bool
    ensures { result ≡ spec.swapped a.now b.now first.now second.now }
{
    parts_swap(a, b, parts_of(first), parts_of(second))
}

#[tactic(auto, using(crate::proofs::ShapesLaws::parts_laws))]
fn parts_of(form: &Form) -> &[Form]
    ensures { result.now ≡ spec.parts_of form.now }
{
    match form {
        Form::List(parts) => parts.items(),
        _ => &[],
    }
}

fn parts_swap(a: &Form, b: &Form, first: &[Form], second: &[Form]) -> bool
    ensures { result ≡ spec.parts_swap a.now b.now first.now second.now }
{
    let [head, first @ ..] = first else {
        return false;
    };
    let [other, second @ ..] = second else {
        return false;
    };
    forms_equal(head, other) && swaps(a, b, first, second)
}

fn swaps(a: &Form, b: &Form, first: &[Form], second: &[Form]) -> bool
    ensures { result ≡ spec.swaps a.now b.now first.now second.now }
{
    let [x, first @ ..] = first else {
        return false;
    };
    let [y, second @ ..] = second else {
        return false;
    };
    if forms_equal(x, a) && forms_equal(y, b) && all_same(first, second) {
        return true;
    }
    forms_equal(x, y) && swaps(a, b, first, second)
}

fn all_same(first: &[Form], second: &[Form]) -> bool
    ensures { result ≡ spec.all_same first.now second.now }
{
    let [x, first @ ..] = first else {
        return second.is_empty();
    };
    let [y, second @ ..] = second else {
        return false;
    };
    forms_equal(x, y) && all_same(first, second)
}
