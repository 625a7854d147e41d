//! The replies to a check and to a command for clauses, from the forms of all files.
ghost use Rattle.std.specs.Prelude.{◌≡◌, IfOk};
ghost use Rattle.kif_tree.specs.Places.{PlacesDiffer};
ghost use Rattle.taxonomy.specs.Told.{told_taxonomy};
ghost use Rattle.signatures.specs.Tables.{AreSignatures};
ghost use Rattle.sigma_app.specs.Snapshots as snapshots;
ghost use Rattle.sigma_app.specs.Tool as spec;

use crate::check_page::check_page;
use crate::clauses_page::clauses_page;
use crate::files::{Part, load_names};
use crate::reply::{Reply, snapshot_reply};
use diagnose::{Diagnostic, diagnose, merge};
use kif_tree::Located;
use sigma_base::NoMemory;
use signatures::Signatures;
use std::alloc::Global;
use taxonomy::Taxonomy;
use translate::{TranslateError, Translated, translate};

/// The translation of forms, or the reply that they have too many clauses.
#[derive(Debug, Drop)]
pub enum Translation {
    Made(Translated),
    Stopped(Reply),
}

/// The translation, where it stays within the limit of a snapshot.
pub fn translation_of(
    alloc: Global,
    parts: &[Part],
    forms: &[Located],
    taxonomy: &Taxonomy,
    signatures: &Signatures,
) -> Result<Translation, NoMemory>
    requires taxonomy { taxonomy.now ≡ told_taxonomy forms.now }
    requires signatures { AreSignatures forms.now signatures.now }
    ensures { IfOk result (λ translation. spec.Translates parts.now forms.now translation) }
{
    match translate(alloc, forms, taxonomy, signatures) {
        Ok(translated) => Ok(Translation::Made(translated)),
        Err(TranslateError::SnapshotFull(place)) => {
            let names = load_names(alloc, parts)?;
            Ok(Translation::Stopped(snapshot_reply(alloc, names.items(), &place)?))
        }
        Err(TranslateError::NoMemory) => Err(NoMemory),
    }
}

/// All diagnostics of the forms, those of forms that are left out of the translation among them.
fn all_diagnostics(
    alloc: Global,
    forms: &[Located],
    taxonomy: &Taxonomy,
    signatures: &Signatures,
    translated: &Translated,
) -> Result<Vec<Diagnostic>, NoMemory>
    requires places { PlacesDiffer forms.now }
    requires taxonomy { taxonomy.now ≡ told_taxonomy forms.now }
    requires signatures { AreSignatures forms.now signatures.now }
    requires translated { snapshots.HaveTranslation forms.now translated.now }
    ensures { IfOk result (λ list. snapshots.AreAllDiagnostics forms.now translated.now list.items) }
{
    let list = diagnose(alloc, forms, taxonomy, signatures)?;
    merge(alloc, forms, list.as_slice(), translated.left_out.items())
}

/// The page of all diagnostics of the forms of all files.
pub fn diagnostics_reply(
    alloc: Global,
    parts: &[Part],
    forms: &[Located],
) -> Result<Reply, NoMemory>
    requires { PlacesDiffer forms.now }
    ensures { IfOk result (λ reply. spec.OnChecked parts.now forms.now reply.status reply.text) }
{
    let taxonomy = Taxonomy::of(alloc, forms)?;
    let signatures = Signatures::of(alloc, forms, &taxonomy)?;
    let translated = match translation_of(alloc, parts, forms, &taxonomy, &signatures)? {
        Translation::Made(translated) => translated,
        Translation::Stopped(reply) => return Ok(reply),
    };
    let list = all_diagnostics(alloc, forms, &taxonomy, &signatures, &translated)?;
    let names = load_names(alloc, parts)?;
    Ok(Reply {
        status: 0,
        text: check_page(alloc, names.items(), list.as_slice())?,
    })
}

/// The page of the clauses of the forms of all files.
pub fn clauses_reply(alloc: Global, parts: &[Part], forms: &[Located]) -> Result<Reply, NoMemory>
    requires { PlacesDiffer forms.now }
    ensures { IfOk result (λ reply. spec.OnClauses parts.now forms.now reply.status reply.text) }
{
    let taxonomy = Taxonomy::of(alloc, forms)?;
    let signatures = Signatures::of(alloc, forms, &taxonomy)?;
    let translated = match translation_of(alloc, parts, forms, &taxonomy, &signatures)? {
        Translation::Made(translated) => translated,
        Translation::Stopped(reply) => return Ok(reply),
    };
    let names = load_names(alloc, parts)?;
    Ok(Reply {
        status: 0,
        text: clauses_page(alloc, names.items(), translated.inputs.items())?,
    })
}
