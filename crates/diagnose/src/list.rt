//! All diagnostics of forms.
ghost use Rattle.std.specs.Prelude.{◌≡◌, ◌∷◌, ◌++◌, ◌↔◌, [], false, List, Contains, IfOk, OnOk};
ghost use Rattle.kif_tree.specs.Places.{PlacesDiffer};
ghost use Rattle.kif_tree.specs.declared.place.Located.{Located};
ghost use Rattle.taxonomy.specs.Told.{told_taxonomy};
ghost use Rattle.signatures.specs.Relations as relations;
ghost use Rattle.signatures.specs.Tables.{AreSignatures};
ghost use Rattle.diagnose.specs.Diagnostics as spec;
ghost use Rattle.diagnose.specs.SoFar as so_far;
ghost use Rattle.diagnose.specs.WordTables.{AreSeen};
ghost use Rattle.diagnose.specs.declared.diagnostic.Diagnostic.{Diagnostic};

use crate::arguments::{add_argument_faults, class_words};
use crate::diagnostic::Diagnostic;
use crate::hashed_words::HashedWords;
use crate::order::{Positions, append_ordered, positions};
use crate::variables::add_variable_faults;
use crate::words::{WordTables, add_word_faults, word_tables};
use kif_tree::{Form, Located, is_headed};
use sigma_base::NoMemory;
use signatures::Signatures;
use std::alloc::Global;
use taxonomy::Taxonomy;

/// What is looked up at each form.
#[derive(Debug, Drop)]
pub struct Tables<'a> {
    pub words: WordTables<'a>,
    pub class_words: HashedWords<'a>,
    pub positions: Positions,
}

/// Whether the form is only shown.
fn is_shown(form: &Form) -> bool
    ensures { result ≡ relations.is_shown form.now }
{
    is_headed(form, b"documentation")
        || is_headed(form, b"termFormat")
        || is_headed(form, b"format")
}

fn tables_of<'a>(
    alloc: Global,
    forms: &'a [Located],
    taxonomy: &Taxonomy,
    signatures: &'a Signatures,
) -> Result<Tables<'a>, NoMemory>
    requires places { PlacesDiffer forms.now }
    requires taxonomy { taxonomy.now ≡ told_taxonomy forms.now }
    requires signatures { AreSignatures forms.now signatures.now }
    ensures { IfOk result (so_far.AreTables forms.now taxonomy.now signatures.now) }
{
    let words = word_tables(alloc, forms, signatures)?;
    let class_words = class_words(alloc, forms)?;
    let positions = positions(alloc, forms)?;
    Ok(Tables {
        words,
        class_words,
        positions,
    })
}

/// What is wrong at a form that isn't only shown. `seen` are the words of earlier forms, and gets those of this one.
fn found_at<'a>(
    alloc: Global,
    located: &'a Located,
    taxonomy: &Taxonomy,
    signatures: &Signatures,
    tables: &Tables<'_>,
    seen: &mut HashedWords<'a>,
) -> Result<Vec<Diagnostic>, NoMemory>
    ensures words { OnOk result ((before : List Located) → AreSeen before seen.old → relations.is_shown located.now.form ≡ false → AreSeen (before ++ located.now ∷ []) seen.new) }
    ensures found { IfOk result (λ found. (before after : List Located) → PlacesDiffer (before ++ located.now ∷ after) → relations.is_shown located.now.form ≡ false → so_far.AreTables (before ++ located.now ∷ after) taxonomy.now signatures.now tables.now → AreSeen before seen.old → (d : Diagnostic) → Contains found.items d ↔ so_far.IsAt (before ++ located.now ∷ after) located.now d) }
{
    let mut found = Vec::new(alloc);
    add_word_faults(alloc, located, taxonomy, &tables.words, seen, &mut found)?;
    add_argument_faults(
        alloc,
        located,
        taxonomy,
        signatures,
        &tables.class_words,
        &mut found,
    )?;
    add_variable_faults(alloc, located, &mut found)?;
    Ok(found)
}

/// Adds the diagnostics of one form.
fn add_form<'a>(
    alloc: Global,
    forms: &[Located],
    located: &'a Located,
    taxonomy: &Taxonomy,
    signatures: &Signatures,
    tables: &Tables<'_>,
    seen: &mut HashedWords<'a>,
    list: &mut Vec<Diagnostic>,
) -> Result<(), NoMemory>
    ensures { OnOk result ((before after : List Located) → forms.now ≡ before ++ located.now ∷ after → PlacesDiffer forms.now → so_far.AreTables forms.now taxonomy.now signatures.now tables.now → so_far.AreSoFar forms.now before seen.old list.old.items → so_far.AreSoFar forms.now (before ++ located.now ∷ []) seen.new list.new.items) }
{
    if is_shown(&located.form) {
        return Ok(());
    }
    let found = found_at(alloc, located, taxonomy, signatures, tables, seen)?;
    append_ordered(alloc, forms, &tables.positions, located.place, found, list)?;
    Ok(())
}

/// All diagnostics of the forms, by the tables that were made of them: codes 1 to 7 and 11, in the order of the forms, then of the codes,
/// the terms by bytes, and the other places by their forms.
pub fn diagnose(
    alloc: Global,
    forms: &[Located],
    taxonomy: &Taxonomy,
    signatures: &Signatures,
) -> Result<Vec<Diagnostic>, NoMemory>
    requires places { PlacesDiffer forms.now }
    requires taxonomy { taxonomy.now ≡ told_taxonomy forms.now }
    requires signatures { AreSignatures forms.now signatures.now }
    ensures { IfOk result (λ list. spec.AreDiagnostics forms.now list.items) }
{
    let tables = tables_of(alloc, forms, taxonomy, signatures)?;
    let mut seen = HashedWords::new(alloc);
    let mut list = Vec::new(alloc);
    for located in forms {
        add_form(
            alloc, forms, located, taxonomy, signatures, &tables, &mut seen, &mut list,
        )?;
    }
    Ok(list)
}
