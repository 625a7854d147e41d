//! The clauses of a matrix. Its literals are moved into them, and copied only where a clause is needed more than once.
ghost use Rattle.std.specs.Prelude.{◌≡◌, ◌++◌, ◌∷◌, [], map, IfOk, OnOk, IsTrue};
ghost use Rattle.kif_tree.specs.Clauses.{Literals};
ghost use Rattle.clause_form.specs.Matrices as spec;

use crate::matrix::Matrix;
use kif_tree::{Clause, Literal};
use sigma_base::{Listed, NoMemory};
use std::alloc::Global;
use std::mem::replace;

/// The clauses of the matrix, in order.
#[cycle(distribute)]
#[tactic(auto, using(crate::specs::MatrixLaws::distribution_laws))]
pub(crate) fn distribute(alloc: Global, matrix: Matrix) -> Result<Listed<Clause>, NoMemory>
    ensures { IfOk result (λ clauses. clauses ≡ spec.distribution matrix) }
{
    match matrix {
        Matrix::Literal(literal) => unit_clause(alloc, literal),
        Matrix::Conjunction(parts) => distribute_each(alloc, parts),
        Matrix::Disjunction(parts) => distribute_over(alloc, parts),
    }
}

fn unit_clause(alloc: Global, literal: Literal) -> Result<Listed<Clause>, NoMemory>
    ensures { IfOk result (λ clauses. clauses ≡ (literal ∷ []) ∷ []) }
{
    let mut literals = Listed::new(alloc);
    literals.push(literal)?;
    let mut clauses = Listed::new(alloc);
    clauses.push(Clause { literals })?;
    Ok(clauses)
}

#[cycle(distribute)]
fn distribute_each(alloc: Global, parts: Listed<Matrix>) -> Result<Listed<Clause>, NoMemory>
    ensures { IfOk result (λ clauses. clauses ≡ spec.joined (map spec.distribution parts)) }
{
    let mut clauses = Listed::new(alloc);
    for part in parts.into_items() {
        clauses.append(distribute(alloc, part)?)?;
    }
    Ok(clauses)
}

#[cycle(distribute)]
fn distribute_over(alloc: Global, parts: Listed<Matrix>) -> Result<Listed<Clause>, NoMemory>
    ensures { IfOk result (λ clauses. clauses ≡ spec.products (map spec.distribution parts)) }
{
    let mut clauses = empty_clause(alloc)?;
    for part in parts.into_items() {
        clauses = multiply_by(alloc, clauses, part)?;
    }
    Ok(clauses)
}

/// The products of the clauses with those of one more part. A literal, which is common, makes no list of its own.
#[cycle(distribute)]
#[tactic(auto, using(crate::specs::MatrixLaws::distribution_laws, crate::proofs::ProductLaws::factor_laws))]
fn multiply_by(
    alloc: Global,
    clauses: Listed<Clause>,
    part: Matrix,
) -> Result<Listed<Clause>, NoMemory>
    ensures { IfOk result (λ products. products ≡ spec.products (clauses ∷ spec.distribution part ∷ [])) }
{
    match part {
        Matrix::Literal(literal) => with_literal(alloc, clauses, literal),
        Matrix::Conjunction(parts) => multiply(alloc, clauses, distribute_each(alloc, parts)?),
        Matrix::Disjunction(parts) => multiply(alloc, clauses, distribute_over(alloc, parts)?),
    }
}

fn empty_clause(alloc: Global) -> Result<Listed<Clause>, NoMemory>
    ensures { IfOk result (λ clauses. clauses ≡ [] ∷ []) }
{
    let mut clauses = Listed::new(alloc);
    clauses.push(Clause {
        literals: Listed::new(alloc),
    })?;
    Ok(clauses)
}

/// The clauses, each with the literal last. One clause alone takes the literal itself.
fn with_literal(
    alloc: Global,
    clauses: Listed<Clause>,
    literal: Literal,
) -> Result<Listed<Clause>, NoMemory>
    ensures { IfOk result (λ extended. extended ≡ map (λ (clause : Literals). clause ++ literal ∷ []) clauses) }
{
    let mut items = clauses.into_items();
    if let [clause] = items.as_mut_slice() {
        clause.literals.push(literal)?;
        return Ok(Listed::of(items));
    }
    extended_each(alloc, Listed::of(items), [literal].as_slice())
}

/// For each clause and then each of the others, their literals in order.
#[tactic(auto, using(crate::proofs::ProductLaws::factor_laws))]
fn multiply(
    alloc: Global,
    clauses: Listed<Clause>,
    others: Listed<Clause>,
) -> Result<Listed<Clause>, NoMemory>
    ensures { IfOk result (λ products. products ≡ spec.products (clauses ∷ others ∷ [])) }
{
    if is_empty_clause(clauses.items()) {
        return Ok(others);
    }
    let mut factors = others.into_items();
    if let [factor] = factors.as_mut_slice() {
        let literals = replace(&mut factor.literals, Listed::new(alloc));
        return with_literals(alloc, clauses, literals);
    }
    multiply_each(alloc, clauses, factors.as_slice())
}

fn is_empty_clause(clauses: &[Clause]) -> bool
    ensures { IsTrue result → clauses.now ≡ [] ∷ [] }
{
    matches!(clauses, [clause] if clause.literals.items().is_empty())
}

/// The clauses, each with the literals last. One clause alone takes the literals themselves.
fn with_literals(
    alloc: Global,
    clauses: Listed<Clause>,
    others: Listed<Literal>,
) -> Result<Listed<Clause>, NoMemory>
    ensures { IfOk result (λ extended. extended ≡ map (λ (clause : Literals). clause ++ others) clauses) }
{
    let mut items = clauses.into_items();
    if let [clause] = items.as_mut_slice() {
        clause.literals.append(others)?;
        return Ok(Listed::of(items));
    }
    extended_each(alloc, Listed::of(items), others.items())
}

/// The clauses, each with copies of the literals last.
fn extended_each(
    alloc: Global,
    clauses: Listed<Clause>,
    others: &[Literal],
) -> Result<Listed<Clause>, NoMemory>
    ensures { IfOk result (λ extended. extended ≡ map (λ (clause : Literals). clause ++ others.now) clauses) }
{
    let mut extended = Listed::new(alloc);
    for clause in clauses.into_items() {
        extended.push(with_copies(alloc, clause, others)?)?;
    }
    Ok(extended)
}

fn with_copies(alloc: Global, clause: Clause, others: &[Literal]) -> Result<Clause, NoMemory>
    ensures { IfOk result (λ both. both ≡ clause ++ others.now) }
{
    let Clause { mut literals } = clause;
    for literal in others {
        literals.push(literal.copy(alloc)?)?;
    }
    Ok(Clause { literals })
}

fn multiply_each(
    alloc: Global,
    clauses: Listed<Clause>,
    others: &[Clause],
) -> Result<Listed<Clause>, NoMemory>
    ensures { IfOk result (λ products. products ≡ spec.products (clauses ∷ others.now ∷ [])) }
{
    let mut products = Listed::new(alloc);
    for clause in clauses.into_items() {
        append_products(alloc, &mut products, &clause, others)?;
    }
    Ok(products)
}

/// Adds the products of the clause with the others.
fn append_products(
    alloc: Global,
    products: &mut Listed<Clause>,
    clause: &Clause,
    others: &[Clause],
) -> Result<(), NoMemory>
    ensures { OnOk result (products.new ≡ products.old ++ map (λ (other : Literals). clause.now ++ other) others.now) }
{
    for other in others {
        products.push(with_copies(alloc, clause.copy(alloc)?, other.literals.items())?)?;
    }
    Ok(())
}
