//! Tidy clauses, and clauses under a substitution.
ghost use Rattle.std.specs.Prelude.{◌≡◌, ◌∷◌, [], ◌++◌, ◌↔◌, ◌<◌, if◌then◌else◌, IsTrue, IfOk, OnOk};
ghost use Rattle.std.specs.List.{list_any};
ghost use Rattle.kif_tree.specs.Terms.{distinct};
ghost use Rattle.kif_tree.specs.Subst.{filling_of};
ghost use Rattle.kif_tree.specs.Clauses.{bind_clause, clause_variables, same_literal};
ghost use Rattle.calculus.specs.Tidy as spec;

use kif_tree::{Clause, Form, Literal, Pair, Text, Unnamed, fill, literals_equal, variables_in};
use sigma_base::{Listed, NoMemory};
use std::alloc::Global;

/// The clause without each literal that equals an earlier one, its variables renamed X1, X2 and so on.
pub fn tidy(alloc: Global, clause: &Clause) -> Result<Clause, NoMemory>
    ensures { IfOk result (λ answer. answer ≡ spec.tidy clause.now) }
{
    let kept = without_repeats(alloc, clause.literals.items())?;
    let names = variables_in(alloc, kept.items())?;
    let pairs = numbered(alloc, names.items())?;
    let mut literals = Listed::new(alloc);
    append_filled(
        alloc,
        &mut literals,
        kept.items(),
        pairs.items(),
        Unnamed::Stays,
    )?;
    Ok(Clause { literals })
}

/// Whether making the clause tidy leaves it as it is.
pub fn is_tidy(alloc: Global, clause: &Clause) -> Result<bool, NoMemory>
    ensures { IfOk result (λ answer. IsTrue answer ↔ spec.IsTidy clause.now) }
{
    let tidied = tidy(alloc, clause)?;
    Ok(same_clauses(tidied.literals.items(), clause.literals.items()))
}

/// Whether the literals are equal, one by one and in number. It takes no memory.
pub fn same_clauses(first: &[Literal], second: &[Literal]) -> bool
    ensures { IsTrue result ↔ (first.now ≡ second.now) }
{
    if first.len() != second.len() {
        return false;
    }
    for at in 0..first.len() {
        if !literals_equal(&first[at], &second[at]) {
            return false;
        }
    }
    true
}

/// The literals without each that equals an earlier one.
pub fn without_repeats(alloc: Global, literals: &[Literal]) -> Result<Listed<Literal>, NoMemory>
    ensures { IfOk result (λ kept. kept ≡ spec.without_repeats literals.now) }
{
    let mut kept = Listed::new(alloc);
    for literal in literals {
        push_once(alloc, &mut kept, literal)?;
    }
    Ok(kept)
}

fn push_once(alloc: Global, kept: &mut Listed<Literal>, literal: &Literal) -> Result<(), NoMemory>
    ensures { OnOk result (kept.new ≡ (if list_any (λ other. same_literal other literal.now) kept.old then kept.old else kept.old ++ literal.now ∷ [])) }
{
    for other in kept.items() {
        if literals_equal(other, literal) {
            return Ok(());
        }
    }
    kept.push(Literal {
        positive: literal.positive,
        atom: literal.atom.copy(alloc)?,
    })
}

/// The names become X1, X2 and so on.
pub fn numbered(alloc: Global, names: &[Text]) -> Result<Listed<Pair>, NoMemory>
    ensures { IfOk result (λ pairs. pairs ≡ spec.numbered 1 names.now) }
{
    let mut pairs = Listed::new(alloc);
    for at in 0..names.len() {
        let variable = names[at].copy(alloc)?;
        let term = Form::Variable(new_name(alloc, at as u64 + 1)?);
        pairs.push(Pair { variable, term })?;
    }
    Ok(pairs)
}

fn new_name(alloc: Global, number: u64) -> Result<Text, NoMemory>
    requires { 0 < number }
    ensures { IfOk result (λ name. name ≡ spec.new_name number) }
{
    let mut name = Text::of(alloc, b"X")?;
    name.append_decimal(number)?;
    Ok(name)
}

/// Adds the literals under the substitution at the end. Where memory wants, nothing is said of what was added.
pub fn append_filled(
    alloc: Global,
    out: &mut Listed<Literal>,
    literals: &[Literal],
    pairs: &[Pair],
    unnamed: Unnamed,
) -> Result<(), NoMemory>
    ensures { OnOk result (out.new ≡ out.old ++ bind_clause (filling_of unnamed pairs.now) literals.now) }
{
    for literal in literals {
        let atom = fill(alloc, &literal.atom, pairs, unnamed)?;
        out.push(Literal {
            positive: literal.positive,
            atom,
        })?;
    }
    Ok(())
}
