//! All diagnostics of few forms whose loads have numbers in one order or another, against values worked by hand.
ghost use Rattle.std.specs.Bool.{OnTrue};
ghost use Rattle.std.specs.Prelude.{◌≢◌};
ghost use Rattle.sigma_base.specs.Lists.{Each};
ghost use Rattle.kif_tree.specs.Places.{PlacesDiffer};
ghost use Rattle.kif_tree.specs.declared.place.Located.{Located};

use crate::word_tests::list;
use crate::{Diagnostic, diagnose};
use kif_tree::{Located, Place, Text};
use sigma_base::{Listed, NoMemory};
use signatures::Signatures;
use std::alloc::Global;
use std::test::Fail;
use taxonomy::Taxonomy;

/// The forms, with semicolons between them, each as the only one of the load with the next of the numbers.
fn forms(alloc: Global, text: &[u8], loads: &[u32]) -> Result<Listed<Located>, NoMemory> {
    let mut forms = Listed::new(alloc);
    let mut left = loads;
    for spelled in text.split(|byte| *byte == b';') {
        let [constituent, rest @ ..] = left else {
            return Ok(forms);
        };
        let place = Place {
            constituent: *constituent,
            form: 1,
            line: 1,
            column: 1,
        };
        let form = list(alloc, spelled)?;
        forms.push(Located { form, place })?;
        left = rest;
    }
    Ok(forms)
}

/// Whether no form stands at the place.
fn is_free(place: Place, forms: &[Located]) -> bool
    ensures { OnTrue result (Each (λ (other : Located). place ≢ other.place) forms.now) }
{
    let [first, rest @ ..] = forms else {
        return true;
    };
    place != first.place && is_free(place, rest)
}

pub(crate) fn places_differ(forms: &[Located]) -> bool
    ensures { OnTrue result (PlacesDiffer forms.now) }
{
    let [first, rest @ ..] = forms else {
        return true;
    };
    is_free(first.place, rest) && places_differ(rest)
}

/// Adds the load, the code, the term and the load of the other place, with a blank behind them.
pub(crate) fn spell(text: &mut Text, diagnostic: &Diagnostic) -> Result<(), NoMemory> {
    text.append_decimal(u64::from(diagnostic.place.constituent))?;
    text.push(b':')?;
    text.append_decimal(u64::from(diagnostic.code))?;
    text.push(b':')?;
    text.append(diagnostic.term.bytes())?;
    if let Some(place) = diagnostic.other {
        text.push(b'/')?;
        text.append_decimal(u64::from(place.constituent))?;
    }
    text.push(b' ')
}

/// The diagnostics of the forms, where they stand at different places.
fn diagnosed(alloc: Global, text: &[u8], loads: &[u32]) -> Result<Text, NoMemory> {
    let forms = forms(alloc, text, loads)?;
    if !places_differ(forms.items()) {
        return Text::of(alloc, b"one place twice");
    }
    let taxonomy = Taxonomy::of(alloc, forms.items())?;
    let signatures = Signatures::of(alloc, forms.items(), &taxonomy)?;
    let found = diagnose(alloc, forms.items(), &taxonomy, &signatures)?;
    let mut text = Text::new(alloc);
    for diagnostic in found.as_slice() {
        spell(&mut text, diagnostic)?;
    }
    Ok(text)
}

#[test]
fn other_places_follow_the_forms_whatever_the_numbers_of_loads(
    rt: HostRuntime,
) -> Result<(), Fail> {
    let text = b"domain p 1 B;domain p 1 A;instance a C;p a";
    let table: [([u32; 4], &[u8]); 4] = [
        (
            [1, 2, 3, 4],
            b"1:1:B 1:1:p 1:2:B 1:2:p 1:11:p 2:1:A 2:2:A 3:1:C 3:2:C 3:2:a 4:4:a/1 4:4:a/2 ",
        ),
        (
            [9, 8, 7, 6],
            b"9:1:B 9:1:p 9:2:B 9:2:p 9:11:p 8:1:A 8:2:A 7:1:C 7:2:C 7:2:a 6:4:a/9 6:4:a/8 ",
        ),
        ([5, 2, 9, 2], b"one place twice"),
        (
            [5, 2, 9, 4],
            b"5:1:B 5:1:p 5:2:B 5:2:p 5:11:p 2:1:A 2:2:A 9:1:C 9:2:C 9:2:a 4:4:a/5 4:4:a/2 ",
        ),
    ];
    for (loads, want) in &table {
        let found = diagnosed(rt.alloc(), text, loads)?;
        assert!(rt; found.bytes() == *want);
    }
    Ok(())
}
