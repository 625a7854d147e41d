//! Tidy clauses, made of clauses that are handed over: most have no repeats, and many no variables.
ghost use Rattle.std.specs.Prelude.{◌≡◌, false, IfOk};
ghost use Rattle.std.specs.List.{list_any};
ghost use Rattle.kif_tree.specs.Clauses.{same_literal};
ghost use Rattle.calculus.specs.Tidy as spec;

use crate::tidying::{append_filled, numbered, tidy};
use kif_tree::{Clause, Literal, Unnamed, literals_equal, variables_in};
use sigma_base::{Listed, NoMemory};
use std::alloc::Global;

/// The clause made tidy.
pub fn made_tidy(alloc: Global, clause: Clause) -> Result<Clause, NoMemory>
    ensures { IfOk result (λ made. made ≡ spec.tidy clause) }
{
    if has_repeats(clause.literals.items()) {
        return tidy(alloc, &clause);
    }
    renamed(alloc, clause)
}

/// The clause with its variables X1, X2 and so on, in order of first occurrence.
fn renamed(alloc: Global, clause: Clause) -> Result<Clause, NoMemory>
    ensures { IfOk result (λ made. made ≡ spec.renamed clause) }
{
    let names = variables_in(alloc, clause.literals.items())?;
    if names.items().is_empty() {
        return Ok(clause);
    }
    let pairs = numbered(alloc, names.items())?;
    let mut literals = Listed::new(alloc);
    append_filled(
        alloc,
        &mut literals,
        clause.literals.items(),
        pairs.items(),
        Unnamed::Stays,
    )?;
    Ok(Clause { literals })
}

/// Whether some literal may equal an earlier one: where not, no literal stands twice. It takes no memory.
fn has_repeats(literals: &[Literal]) -> bool
    ensures { result ≡ false → spec.without_repeats literals.now ≡ literals.now }
{
    for at in 0..literals.len() {
        if stands_in(&literals[at], &literals[..at]) {
            return true;
        }
    }
    false
}

fn stands_in(literal: &Literal, others: &[Literal]) -> bool
    ensures { result ≡ list_any (λ other. same_literal other literal.now) others.now }
{
    for other in others {
        if literals_equal(other, literal) {
            return true;
        }
    }
    false
}
