//! What one form gives.
ghost use Rattle.std.specs.Prelude.{◌≡◌, ◌⊎◌, ◌<◌, ◌≤◌, ◌++◌, false, not, length, nat_lt, IfOk, OnOk, MatchResult};
ghost use Rattle.std.specs.List.{list_any, flat_map};
ghost use Rattle.translate.specs.Pieces as spec;
ghost use Rattle.translate.specs.declared.translated.TranslateError.TheVariants as errors;

use crate::translated::{Guarded, TranslateError, Translated};
use clause_form::{ClauseForm, MOST_CLAUSES, SkolemBase, clauses, count_clauses};
use diagnose::Diagnostic;
use kif_tree::{Form, Forms, InputClause, Located, Place, Text, in_profile, parts_of, print_form};
use sigma_base::{Listed, NoMemory};
use signatures::{Signatures, is_shown};
use std::alloc::Global;
use taxonomy::Taxonomy;
use type_guard::guard;
use var_expand::{Expanded, expand, predicate_variables_of, row_variables_of};

/// What the form gives, or that it has more clauses than there is room for, which is told before any is built.
pub(crate) fn piece_of(
    alloc: Global,
    located: &Located,
    taxonomy: &Taxonomy,
    signatures: &Signatures,
    room: usize,
) -> Result<Translated, TranslateError>
    ensures { MatchResult result
        (λ piece. spec.IsPiece taxonomy.now.links signatures.now located.now piece × (length piece.inputs ≤ room))
        (λ error. (error ≡ errors.NoMemory) ⊎ spec.IsPieceAbove taxonomy.now.links signatures.now located.now room error) }
{
    if is_shown(&located.form) {
        return Ok(Translated::nothing(alloc));
    }
    if !in_profile(&located.form) {
        return Ok(left_out(alloc, located, 8, parts_of(&located.form))?);
    }
    match expand(alloc, &located.form, signatures, taxonomy)? {
        Expanded::Variants(variants) => of_variants(alloc, located, signatures, variants, room),
        Expanded::NoLength => {
            let rows = row_variables_of(alloc, &located.form)?;
            Ok(left_out(alloc, located, 9, rows.items())?)
        }
        Expanded::NoRelation => {
            let predicates = predicate_variables_of(alloc, &located.form)?;
            Ok(left_out(alloc, located, 12, predicates.items())?)
        }
        Expanded::TooMany => Ok(left_out(alloc, located, 10, parts_of(&located.form))?),
    }
}

/// A form that gives nothing but a diagnostic about the first of these forms.
fn left_out(
    alloc: Global,
    located: &Located,
    code: u8,
    forms: &[Form],
) -> Result<Translated, NoMemory>
    ensures { IfOk result (λ piece. piece ≡ spec.left_out located.now code (spec.first_text forms.now)) }
{
    let mut piece = Translated::nothing(alloc);
    piece.left_out.push(Diagnostic {
        code,
        place: located.place,
        term: first_text(alloc, forms)?,
        other: None,
    })?;
    Ok(piece)
}

fn first_text(alloc: Global, forms: &[Form]) -> Result<Text, NoMemory>
    ensures { IfOk result (λ text. text ≡ spec.first_text forms.now) }
{
    match forms {
        [first, ..] => print_form(alloc, first),
        [] => Ok(Text::new(alloc)),
    }
}

/// What the variants give, none of whose clauses is built before all are counted.
fn of_variants(
    alloc: Global,
    located: &Located,
    signatures: &Signatures,
    variants: Forms,
    room: usize,
) -> Result<Translated, TranslateError>
    ensures { MatchResult result
        (λ piece. (piece ≡ spec.of_variants located.now (spec.guarded_variants signatures.now located.now.place variants)) × (length piece.inputs ≤ room))
        (λ error. (error ≡ errors.NoMemory) ⊎ ((error ≡ errors.SnapshotFull located.now.place) × (room < length (spec.of_variants located.now (spec.guarded_variants signatures.now located.now.place variants)).inputs))) }
{
    let guarded = guarded_variants(alloc, signatures, located.place, variants.items())?;
    if some_has_too_many(guarded.items()) {
        return Ok(left_out(alloc, located, 13, parts_of(&located.form))?);
    }
    if !have_room(guarded.items(), room) {
        return Err(TranslateError::SnapshotFull(located.place));
    }
    Ok(given_by(alloc, guarded)?)
}

/// What variants give none of which has too many clauses.
fn given_by(alloc: Global, guarded: Listed<Guarded>) -> Result<Translated, NoMemory>
    ensures { IfOk result (λ piece. piece ≡ spec.given_by guarded) }
{
    let mut inputs = Listed::new(alloc);
    for variant in guarded.items() {
        append_inputs(alloc, &mut inputs, variant)?;
    }
    Ok(Translated {
        inputs,
        guarded,
        left_out: Listed::new(alloc),
    })
}

fn guarded_variants(
    alloc: Global,
    signatures: &Signatures,
    place: Place,
    variants: &[Form],
) -> Result<Listed<Guarded>, NoMemory>
    ensures { IfOk result (λ guarded. guarded ≡ spec.guarded_variants signatures.now place variants.now) }
{
    let mut guarded = Listed::new(alloc);
    let mut number: u32 = 0;
    for variant in variants {
        number = number.checked_add(1).ok_or(NoMemory)?;
        let form = guard(alloc, variant, signatures)?;
        guarded.push(Guarded {
            form,
            place,
            variant: number,
        })?;
    }
    Ok(guarded)
}

fn some_has_too_many(variants: &[Guarded]) -> bool
    ensures { result ≡ list_any (λ variant. spec.is_too_many (spec.form_of variant)) variants.now }
{
    for variant in variants {
        if count_clauses(&variant.form) > MOST_CLAUSES {
            return true;
        }
    }
    false
}

/// Whether there is room for the clauses of all variants, none of which has too many.
fn have_room(variants: &[Guarded], room: usize) -> bool
    ensures { list_any (λ variant. spec.is_too_many (spec.form_of variant)) variants.now ≡ false → result ≡ not (nat_lt room (length (flat_map spec.inputs_of variants.now))) }
{
    let mut left = room;
    for variant in variants {
        let count = count_clauses(&variant.form) as usize;
        if count > left {
            return false;
        }
        left -= count;
    }
    true
}

/// Adds the clauses of the variant.
fn append_inputs(
    alloc: Global,
    inputs: &mut Listed<InputClause>,
    variant: &Guarded,
) -> Result<(), NoMemory>
    ensures { OnOk result (inputs.new ≡ inputs.old ++ spec.inputs_of variant.now) }
{
    let base = SkolemBase {
        load: variant.place.constituent,
        form: variant.place.form,
        variant: variant.variant,
    };
    let ClauseForm::Clauses(list) = clauses(alloc, &variant.form, base)? else {
        return Ok(());
    };
    for clause in list.into_items() {
        inputs.push(InputClause {
            clause,
            place: Some(variant.place),
            variant: variant.variant,
        })?;
    }
    Ok(())
}
