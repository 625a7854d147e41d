//! The translation of all forms.
ghost use Rattle.std.specs.Prelude.{◌≡◌, ◌⊎◌, MatchResult, IfOk};
ghost use Rattle.translate.specs.Inputs as inputs;
ghost use Rattle.translate.specs.Translation as spec;
ghost use Rattle.translate.specs.declared.translated.TranslateError.TheVariants as errors;

use crate::piece::piece_of;
use crate::translated::{TranslateError, Translated};
use kif_tree::Located;
use signatures::Signatures;
use std::alloc::Global;
use taxonomy::Taxonomy;

/// How many clauses a snapshot may have.
const MOST_CLAUSES: usize = 400_000;

/// The clauses of the forms, by these tables.
///
/// Forms headed `documentation`, `termFormat` or `format` are passed over. Of each other form in the profile, the variants are closed and
/// guarded, and the inputs are their clauses in order. A form outside the profile, without variants or with too many of them gives a
/// diagnostic alone, and so does one of which some variant has more than 4,096 clauses.
///
/// It is meant for shaped forms and the tables that were made of them, and answers for any.
pub fn translate(
    alloc: Global,
    forms: &[Located],
    taxonomy: &Taxonomy,
    signatures: &Signatures,
) -> Result<Translated, TranslateError>
    ensures translates { MatchResult result
        (λ translated. spec.IsWhole taxonomy.now.links signatures.now forms.now translated)
        (λ error. (error ≡ errors.NoMemory) ⊎ spec.IsFull taxonomy.now.links signatures.now forms.now error) }
    ensures proper { IfOk result (inputs.AreInputs forms.now signatures.now) }
    ensures sentences { IfOk result (inputs.AreSentences forms.now signatures.now) }
{
    let mut translated = Translated::nothing(alloc);
    for located in forms {
        let room = MOST_CLAUSES - translated.inputs.items().len();
        let piece = piece_of(alloc, located, taxonomy, signatures, room)?;
        translated.append(piece)?;
    }
    Ok(translated)
}
