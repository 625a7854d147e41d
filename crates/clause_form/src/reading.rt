//! The reading of a form with a sign. It goes from left to right, and counts the new variables and the Skolem terms that it makes.
ghost use Rattle.std.specs.Prelude.{◌≡◌, map, Some, IfOk, OnOk};
ghost use Rattle.clause_form.specs.Reads as reads;
ghost use Rattle.clause_form.specs.Readings as spec;

use crate::connective::{Connective, connective_of};
use crate::matrix::Matrix;
use crate::scope::{Counts, Scope, enter};
use kif_tree::{Form, Literal, Unnamed, fill};
use sigma_base::{Listed, NoMemory};
use std::alloc::Global;

/// The matrix of the form, read with the sign in the scope, where Skolem symbols begin with the prefix.
#[cycle(read)]
pub(crate) fn read(
    alloc: Global,
    prefix: &[u8],
    form: &Form,
    sign: bool,
    scope: &Scope,
    counts: &mut Counts,
) -> Result<Matrix, NoMemory>
    ensures matrix { IfOk result (λ found. found ≡ (spec.reading prefix.now form.now sign scope.now counts.old).matrix) }
    ensures counts { OnOk result (counts.new ≡ (spec.reading prefix.now form.now sign scope.now counts.old).counts) }
{
    let Form::List(parts) = form else {
        return literal(alloc, form, sign, scope);
    };
    let [head, rest @ ..] = parts.items() else {
        return literal(alloc, form, sign, scope);
    };
    match connective_of(head) {
        Some(connective) => {
            read_connected(alloc, prefix, connective, rest, form, sign, scope, counts)
        }
        None => literal(alloc, form, sign, scope),
    }
}

/// The literal of the atom.
fn literal(alloc: Global, atom: &Form, sign: bool, scope: &Scope) -> Result<Matrix, NoMemory>
    ensures { IfOk result (λ found. found ≡ reads.literal_matrix atom.now sign scope.now) }
{
    Ok(Matrix::Literal(Literal {
        positive: sign,
        atom: fill(alloc, atom, scope.pairs.items(), Unnamed::Stays)?,
    }))
}

/// Reads the parts after a connective. A form whose parts aren't those that the connective takes is a literal.
#[cycle(read)]
fn read_connected(
    alloc: Global,
    prefix: &[u8],
    connective: Connective,
    parts: &[Form],
    form: &Form,
    sign: bool,
    scope: &Scope,
    counts: &mut Counts,
) -> Result<Matrix, NoMemory>
    ensures matrix { IfOk result (λ found. found ≡ (spec.connected prefix.now (Some connective) (map (reads.beside prefix.now) parts.now) (spec.literal form.now) sign scope.now counts.old).matrix) }
    ensures counts { OnOk result (counts.new ≡ (spec.connected prefix.now (Some connective) (map (reads.beside prefix.now) parts.now) (spec.literal form.now) sign scope.now counts.old).counts) }
{
    match connective {
        Connective::Not => match parts {
            [part] => read(alloc, prefix, part, !sign, scope, counts),
            _ => literal(alloc, form, sign, scope),
        },
        Connective::And => read_group(alloc, prefix, sign, parts, sign, scope, counts),
        Connective::Or => read_group(alloc, prefix, !sign, parts, sign, scope, counts),
        Connective::Implies => match parts {
            [first, second] => {
                read_two(
                    alloc, prefix, !sign, first, !sign, second, sign, scope, counts,
                )
            }
            _ => literal(alloc, form, sign, scope),
        },
        Connective::Equivalent => match parts {
            [first, second] => read_equivalence(alloc, prefix, first, second, sign, scope, counts),
            _ => literal(alloc, form, sign, scope),
        },
        Connective::ForAll => match parts {
            [names, body] => read_quantified(alloc, prefix, true, names, body, sign, scope, counts),
            _ => literal(alloc, form, sign, scope),
        },
        Connective::Exists => match parts {
            [names, body] => {
                read_quantified(alloc, prefix, false, names, body, sign, scope, counts)
            }
            _ => literal(alloc, form, sign, scope),
        },
    }
}

/// A conjunction or a disjunction of these.
fn grouped(conjoins: bool, parts: Listed<Matrix>) -> Matrix
    ensures { result ≡ reads.group conjoins parts }
{
    if conjoins {
        return Matrix::Conjunction(parts);
    }
    Matrix::Disjunction(parts)
}

#[cycle(read)]
fn read_group(
    alloc: Global,
    prefix: &[u8],
    conjoins: bool,
    parts: &[Form],
    sign: bool,
    scope: &Scope,
    counts: &mut Counts,
) -> Result<Matrix, NoMemory>
    ensures matrix { IfOk result (λ found. found ≡ (spec.grouped conjoins (spec.each (map (reads.beside prefix.now) parts.now) sign scope.now counts.old)).matrix) }
    ensures counts { OnOk result (counts.new ≡ (spec.each (map (reads.beside prefix.now) parts.now) sign scope.now counts.old).counts) }
{
    let mut matrices = Listed::new(alloc);
    for part in parts {
        matrices.push(read(alloc, prefix, part, sign, scope, counts)?)?;
    }
    Ok(grouped(conjoins, matrices))
}

#[cycle(read)]
fn read_two(
    alloc: Global,
    prefix: &[u8],
    conjoins: bool,
    first: &Form,
    first_sign: bool,
    second: &Form,
    second_sign: bool,
    scope: &Scope,
    counts: &mut Counts,
) -> Result<Matrix, NoMemory>
    ensures matrix { IfOk result (λ found. found ≡ (spec.two conjoins (reads.beside prefix.now first.now) first_sign (reads.beside prefix.now second.now) second_sign scope.now counts.old).matrix) }
    ensures counts { OnOk result (counts.new ≡ (spec.two conjoins (reads.beside prefix.now first.now) first_sign (reads.beside prefix.now second.now) second_sign scope.now counts.old).counts) }
{
    let mut matrices = Listed::new(alloc);
    matrices.push(read(alloc, prefix, first, first_sign, scope, counts)?)?;
    matrices.push(read(alloc, prefix, second, second_sign, scope, counts)?)?;
    Ok(grouped(conjoins, matrices))
}

#[cycle(read)]
fn read_equivalence(
    alloc: Global,
    prefix: &[u8],
    first: &Form,
    second: &Form,
    sign: bool,
    scope: &Scope,
    counts: &mut Counts,
) -> Result<Matrix, NoMemory>
    ensures matrix { IfOk result (λ found. found ≡ (spec.equivalence (reads.beside prefix.now first.now) (reads.beside prefix.now second.now) sign scope.now counts.old).matrix) }
    ensures counts { OnOk result (counts.new ≡ (spec.equivalence (reads.beside prefix.now first.now) (reads.beside prefix.now second.now) sign scope.now counts.old).counts) }
{
    let mut matrices = Listed::new(alloc);
    matrices.push(read_two(
        alloc, prefix, false, first, !sign, second, true, scope, counts,
    )?)?;
    matrices.push(if sign {
        read_two(
            alloc, prefix, false, second, false, first, true, scope, counts,
        )?
    } else {
        read_two(
            alloc, prefix, false, first, false, second, false, scope, counts,
        )?
    })?;
    Ok(Matrix::Conjunction(matrices))
}

#[cycle(read)]
fn read_quantified(
    alloc: Global,
    prefix: &[u8],
    for_all: bool,
    names: &Form,
    body: &Form,
    sign: bool,
    scope: &Scope,
    counts: &mut Counts,
) -> Result<Matrix, NoMemory>
    ensures matrix { IfOk result (λ found. found ≡ (spec.quantified prefix.now for_all (reads.beside prefix.now names.now) (reads.beside prefix.now body.now) sign scope.now counts.old).matrix) }
    ensures counts { OnOk result (counts.new ≡ (spec.quantified prefix.now for_all (reads.beside prefix.now names.now) (reads.beside prefix.now body.now) sign scope.now counts.old).counts) }
{
    let inner = enter(alloc, prefix, for_all == sign, names, scope, counts)?;
    read(alloc, prefix, body, sign, &inner, counts)
}
