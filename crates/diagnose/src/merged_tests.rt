//! Two lists of few diagnostics in one, against lists worked by hand.
ghost use Rattle.std.specs.Bool.{OnTrue};
ghost use Rattle.sigma_base.specs.Lists.{Each};
ghost use Rattle.diagnose.specs.Diagnostics.{StandsBefore, OtherBefore, ComesBefore, AreAscending};
ghost use Rattle.diagnose.specs.Merged.{ArePlaced};
ghost use Rattle.diagnose.specs.Order.{IsFormPlace};
ghost use Rattle.diagnose.specs.SoFar.{HasPlace};

use crate::list_tests::{places_differ, spell};
use crate::{Diagnostic, merge};
use kif_tree::{Form, Located, Place, Text};
use sigma_base::{Listed, NoMemory};
use std::alloc::Global;
use std::cmp::Ordering;
use std::test::Fail;

// ---- fixtures: each form is the only one of its load, whose number stands for its place

fn place(load: u8) -> Place {
    Place {
        constituent: u32::from(load),
        form: 1,
        line: 1,
        column: 1,
    }
}

fn forms(alloc: Global, loads: &[u8]) -> Result<Listed<Located>, NoMemory> {
    let mut forms = Listed::new(alloc);
    for load in loads {
        forms.push(Located {
            form: Form::Word(Text::of(alloc, b"p")?),
            place: place(*load),
        })?;
    }
    Ok(forms)
}

fn number(digits: &[u8]) -> u8 {
    let mut number: u8 = 0;
    for digit in digits {
        number = number
            .saturating_mul(10)
            .saturating_add(digit.saturating_sub(b'0'));
    }
    number
}

/// The load, the code and the term, with colons between them, and the load of the other place behind a slash, if there is one.
fn diagnostic(alloc: Global, spelled: &[u8]) -> Result<Diagnostic, NoMemory> {
    let mut pieces = spelled.split(|byte| *byte == b':' || *byte == b'/');
    let load = pieces.next().unwrap_or_default();
    let code = pieces.next().unwrap_or_default();
    let term = pieces.next().unwrap_or_default();
    let other = pieces.next();
    Ok(Diagnostic {
        code: number(code),
        place: place(number(load)),
        term: Text::of(alloc, term)?,
        other: other.map(|load| place(number(load))),
    })
}

/// Diagnostics with a blank behind each.
fn diagnostics(alloc: Global, text: &[u8]) -> Result<Listed<Diagnostic>, NoMemory> {
    let mut list = Listed::new(alloc);
    for spelled in text.split(|byte| *byte == b' ') {
        if spelled.is_empty() {
            continue;
        }
        list.push(diagnostic(alloc, spelled)?)?;
    }
    Ok(list)
}

// ---- the conditions

/// Whether a form stands at the place.
fn has_place(forms: &[Located], place: Place) -> bool
    ensures { OnTrue result (HasPlace forms.now place) }
{
    let [first, rest @ ..] = forms else {
        return false;
    };
    first.place == place || has_place(rest, place)
}

fn stands_before(forms: &[Located], first: Place, second: Place) -> bool
    ensures { OnTrue result (StandsBefore forms.now first second) }
{
    let [one, rest @ ..] = forms else {
        return false;
    };
    if one.place == first {
        return has_place(rest, second);
    }
    stands_before(rest, first, second)
}

fn other_before(forms: &[Located], first: Option<Place>, second: Option<Place>) -> bool
    ensures { OnTrue result (OtherBefore forms.now first second) }
{
    let Some(after) = second else {
        return false;
    };
    match first {
        None => true,
        Some(before) => stands_before(forms, before, after),
    }
}

fn comes_before(forms: &[Located], first: &Diagnostic, second: &Diagnostic) -> bool
    ensures { OnTrue result (ComesBefore forms.now first.now second.now) }
{
    if first.place != second.place {
        return stands_before(forms, first.place, second.place);
    }
    if first.code != second.code {
        return first.code < second.code;
    }
    match first.term.cmp(&second.term) {
        Ordering::Less => true,
        Ordering::Equal => other_before(forms, first.other, second.other),
        Ordering::Greater => false,
    }
}

fn comes_before_all(forms: &[Located], one: &Diagnostic, list: &[Diagnostic]) -> bool
    ensures { OnTrue result (Each (ComesBefore forms.now one.now) list.now) }
{
    let [first, rest @ ..] = list else {
        return true;
    };
    comes_before(forms, one, first) && comes_before_all(forms, one, rest)
}

fn are_ascending(forms: &[Located], list: &[Diagnostic]) -> bool
    ensures { OnTrue result (AreAscending forms.now list.now) }
{
    let [first, rest @ ..] = list else {
        return true;
    };
    comes_before_all(forms, first, rest) && are_ascending(forms, rest)
}

fn is_form_place(forms: &[Located], place: Option<Place>) -> bool
    ensures { OnTrue result (IsFormPlace forms.now place) }
{
    match place {
        None => true,
        Some(place) => has_place(forms, place),
    }
}

fn are_placed(forms: &[Located], list: &[Diagnostic]) -> bool
    ensures { OnTrue result (ArePlaced forms.now list.now) }
{
    let [first, rest @ ..] = list else {
        return true;
    };
    has_place(forms, first.place) && is_form_place(forms, first.other) && are_placed(forms, rest)
}

// ---- the lists

/// Both lists in one, or the condition that isn't met.
fn merged(alloc: Global, loads: &[u8], first: &[u8], second: &[u8]) -> Result<Text, NoMemory> {
    let forms = forms(alloc, loads)?;
    let first = diagnostics(alloc, first)?;
    let second = diagnostics(alloc, second)?;
    if !places_differ(forms.items()) {
        return Text::of(alloc, b"one place twice");
    }
    if !are_placed(forms.items(), first.items()) || !are_placed(forms.items(), second.items()) {
        return Text::of(alloc, b"no form's place");
    }
    if !are_ascending(forms.items(), first.items())
        || !are_ascending(forms.items(), second.items())
    {
        return Text::of(alloc, b"not in order");
    }
    let list = merge(alloc, forms.items(), first.items(), second.items())?;
    let mut text = Text::new(alloc);
    for diagnostic in list.as_slice() {
        spell(&mut text, diagnostic)?;
    }
    Ok(text)
}

#[test]
fn both_lists_come_in_one(rt: HostRuntime) -> Result<(), Fail> {
    let table: [(&[u8], &[u8], &[u8]); 9] = [
        (b"", b"", b""),
        (b"", b"5:8:p 2:10:q/9 ", b"5:8:p 2:10:q/9 "),
        (b"5:1:a 5:1:b 9:4:p/5 ", b"", b"5:1:a 5:1:b 9:4:p/5 "),
        (b"9:1:a ", b"5:13:p ", b"5:13:p 9:1:a "),
        (
            b"5:1:a 9:1:c 9:2:a ",
            b"2:8:b 9:1:b 9:1:d ",
            b"5:1:a 2:8:b 9:1:b 9:1:c 9:1:d 9:2:a ",
        ),
        (
            b"2:1:a 2:2:a 2:3:a/9 2:4:a/5 2:5:p 2:6:?X 2:7:?Y 2:11:p ",
            b"2:8:p 2:9:q 2:10:@R 2:12:p 2:13:p ",
            b"2:1:a 2:2:a 2:3:a/9 2:4:a/5 2:5:p 2:6:?X 2:7:?Y 2:8:p 2:9:q 2:10:@R 2:11:p 2:12:p 2:13:p ",
        ),
        (
            b"5:2:a 5:8:p/2 9:1:a ",
            b"5:8:p/2 5:9:p 9:1:a ",
            b"5:2:a 5:8:p/2 5:9:p 9:1:a ",
        ),
        (
            b"9:8:p 9:8:p/2 ",
            b"9:8:p/5 9:8:p/9 9:8:q ",
            b"9:8:p 9:8:p/5 9:8:p/2 9:8:p/9 9:8:q ",
        ),
        (
            b"5:8:ab 5:8:b ",
            b"5:8:a/9 5:8:aa 5:8:ab/2 ",
            b"5:8:a/9 5:8:aa 5:8:ab 5:8:ab/2 5:8:b ",
        ),
    ];
    for (first, second, want) in &table {
        let list = merged(rt.alloc(), &[5, 2, 9], first, second)?;
        assert!(rt; list.bytes() == *want);
        let turned = merged(rt.alloc(), &[5, 2, 9], second, first)?;
        assert!(rt; turned.bytes() == *want);
    }
    Ok(())
}

#[test]
fn the_order_is_that_of_the_forms(rt: HostRuntime) -> Result<(), Fail> {
    let table: [(&[u8], &[u8], &[u8], &[u8]); 6] = [
        (&[2, 5, 9], b"2:8:p/9 ", b"5:1:a ", b"2:8:p/9 5:1:a "),
        (&[9, 5, 2], b"2:8:p/9 ", b"5:1:a ", b"5:1:a 2:8:p/9 "),
        (&[2, 5, 9], b"2:8:p/9 ", b"2:8:p/5 ", b"2:8:p/5 2:8:p/9 "),
        (&[9, 5, 2], b"2:8:p/9 ", b"2:8:p/5 ", b"2:8:p/9 2:8:p/5 "),
        (&[7], b"7:1:b ", b"7:1:a ", b"7:1:a 7:1:b "),
        (&[], b"", b"", b""),
    ];
    for (loads, first, second, want) in &table {
        let list = merged(rt.alloc(), loads, first, second)?;
        assert!(rt; list.bytes() == *want);
    }
    Ok(())
}

#[test]
fn lists_meet_the_conditions(rt: HostRuntime) -> Result<(), Fail> {
    let table: [(&[u8], &[u8], &[u8]); 9] = [
        (&[5, 2], b"5:1:a 2:1:b ", b"5:1:a 2:1:b "),
        (&[2, 5], b"5:1:a 2:1:b ", b"not in order"),
        (&[5], b"5:2:a 5:1:a ", b"not in order"),
        (&[5], b"5:1:b 5:1:a ", b"not in order"),
        (&[5], b"5:1:a/5 5:1:a ", b"not in order"),
        (&[5], b"5:1:a 5:1:a ", b"not in order"),
        (&[5], b"2:1:a ", b"no form's place"),
        (&[5], b"5:1:a/2 ", b"no form's place"),
        (&[5, 2, 5], b"", b"one place twice"),
    ];
    for (loads, list, want) in &table {
        let found = merged(rt.alloc(), loads, list, b"")?;
        assert!(rt; found.bytes() == *want);
    }
    Ok(())
}
