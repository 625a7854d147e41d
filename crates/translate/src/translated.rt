//! What a translation gives.
ghost use Rattle.std.specs.Prelude.{◌≡◌, OnOk};
ghost use Rattle.translate.specs.Pieces.{nothing as none_translated};
ghost use Rattle.translate.specs.Translation as spec;

use diagnose::Diagnostic;
use kif_tree::{Form, InputClause, Place};
use sigma_base::{Listed, NoMemory};
use std::alloc::Global;

/// A variant of the form at the place, its free variables quantified and its quantifiers guarded. Variants are numbered from 1.
#[derive(Debug, Drop)]
pub struct Guarded {
    pub form: Form,
    pub place: Place,
    pub variant: u32,
}

/// The clauses of forms, each with the place and the variant that it comes from, the guarded variants of the forms that give clauses, and
/// the diagnostics of those that are left out: codes 8, 9, 10, 12 and 13. All are in order of the forms.
#[derive(Debug, Drop)]
pub struct Translated {
    pub inputs: Listed<InputClause>,
    pub guarded: Listed<Guarded>,
    pub left_out: Listed<Diagnostic>,
}

/// Why there is no translation.
#[derive(Debug, Drop)]
pub enum TranslateError {
    /// The first form with which there are more than 400,000 clauses.
    SnapshotFull(Place),
    NoMemory,
}

impl From<NoMemory> for TranslateError {
    ghost use Rattle.translate.specs.declared.translated.TranslateError.TheVariants as errors;

    ghost from_gives = { λ _ error. error ≡ errors.NoMemory };

    fn from(_: NoMemory) -> TranslateError {
        TranslateError::NoMemory
    }
}

impl Translated {
    /// The translation of no forms.
    pub(crate) fn nothing(alloc: Global) -> Translated
        ensures { result ≡ none_translated }
    {
        Translated {
            inputs: Listed::new(alloc),
            guarded: Listed::new(alloc),
            left_out: Listed::new(alloc),
        }
    }

    /// Adds what further forms give. After a refusal a part of it may have been added.
    pub(crate) fn append(&mut self, more: Translated) -> Result<(), NoMemory>
        ensures { OnOk result (self.new ≡ spec.joined self.old more) }
    {
        let Translated {
            inputs,
            guarded,
            left_out,
        } = more;
        self.inputs.append(inputs)?;
        self.guarded.append(guarded)?;
        self.left_out.append(left_out)
    }
}
