//! The variants of few forms, against values worked by hand.
use crate::*;
use kif_tree::{Form, Forms, Located, Place, Text, print_form};
use sigma_base::{Listed, NoMemory};
use signatures::Signatures;
use std::alloc::Global;
use std::mem::replace;
use std::test::Fail;
use taxonomy::Taxonomy;

// ---- forms from their spelling: a digit begins a numeral

fn leaf_of(alloc: Global, text: &[u8]) -> Result<Form, NoMemory> {
    match text {
        [b'?', name @ ..] => Ok(Form::Variable(Text::of(alloc, name)?)),
        [b'@', name @ ..] => Ok(Form::Row(Text::of(alloc, name)?)),
        [b'0'..=b'9', ..] => Ok(Form::Numeral(Text::of(alloc, text)?)),
        _ => Ok(Form::Word(Text::of(alloc, text)?)),
    }
}

fn end_word(alloc: Global, parts: &mut Forms, word: &mut Text) -> Result<(), NoMemory> {
    let word = replace(word, Text::new(alloc));
    if word.bytes().is_empty() {
        return Ok(());
    }
    parts.push(leaf_of(alloc, word.bytes())?)
}

fn read(alloc: Global, spelled: &[u8]) -> Result<Forms, NoMemory> {
    let mut outer: Vec<Forms> = Vec::new(alloc);
    let mut parts = Listed::new(alloc);
    let mut word = Text::new(alloc);
    for byte in spelled {
        match *byte {
            b'(' => outer.push(replace(&mut parts, Listed::new(alloc)))?,
            b')' => {
                end_word(alloc, &mut parts, &mut word)?;
                let around = outer.pop().unwrap_or(Listed::new(alloc));
                let list = Form::List(replace(&mut parts, around));
                parts.push(list)?;
            }
            b' ' => end_word(alloc, &mut parts, &mut word)?,
            other => word.push(other)?,
        }
    }
    end_word(alloc, &mut parts, &mut word)?;
    Ok(parts)
}

fn located(alloc: Global, forms: &[Form]) -> Result<Listed<Located>, NoMemory> {
    let mut placed = Listed::new(alloc);
    for form in forms {
        placed.push(Located {
            form: form.copy(alloc)?,
            place: Place {
                constituent: 1,
                form: 1,
                line: 1,
                column: 1,
            },
        })?;
    }
    Ok(placed)
}

// ---- the last of the forms, expanded by all of them

fn expand_last(alloc: Global, spelled: &[u8]) -> Result<Option<Expanded>, NoMemory> {
    let forms = read(alloc, spelled)?;
    let placed = located(alloc, forms.items())?;
    let taxonomy = Taxonomy::of(alloc, placed.items())?;
    let signatures = Signatures::of(alloc, placed.items(), &taxonomy)?;
    match forms.items() {
        [.., last] => Ok(Some(expand(alloc, last, &signatures, &taxonomy)?)),
        _ => Ok(None),
    }
}

fn joined(alloc: Global, variants: &[Form]) -> Result<Text, NoMemory> {
    let mut text = Text::new(alloc);
    for variant in variants {
        text.append(print_form(alloc, variant)?.bytes())?;
    }
    Ok(text)
}

// the variants one behind the other, or the name of the answer
fn shown(alloc: Global, expanded: Option<Expanded>) -> Result<Text, NoMemory> {
    match expanded {
        None => Text::of(alloc, b"None"),
        Some(Expanded::Variants(variants)) => joined(alloc, variants.items()),
        Some(Expanded::NoLength) => Text::of(alloc, b"NoLength"),
        Some(Expanded::NoRelation) => Text::of(alloc, b"NoRelation"),
        Some(Expanded::TooMany) => Text::of(alloc, b"TooMany"),
    }
}

// how many variants there are, if any
fn count(expanded: &Option<Expanded>) -> Option<usize> {
    match expanded {
        Some(Expanded::Variants(variants)) => Some(variants.items().len()),
        _ => None,
    }
}

// the forms `before NUMBER after` with numbers from 1, and behind them the last one
fn numbered(
    alloc: Global,
    before: &[u8],
    most: u64,
    after: &[u8],
    last: &[u8],
) -> Result<Text, NoMemory> {
    let mut text = Text::new(alloc);
    for number in 0..most {
        text.append(before)?;
        text.append_decimal(number.saturating_add(1))?;
        text.append(after)?;
    }
    text.append(last)?;
    Ok(text)
}

#[test]
fn the_choices_that_fit_stand_in_order(rt: HostRuntime) -> Result<(), Fail> {
    let table: [(&[u8], &[u8]); 18] = [
        (
            b"(instance parent BinaryPredicate) (instance ancestor BinaryPredicate) (instance between TernaryPredicate) (subrelation parent ancestor) (subrelation parent between) (=> (and (subrelation ?R1 ?R2) (?R1 @ROW)) (?R2 @ROW))",
            b"(=> (and (subrelation parent ancestor) (parent ?ROW!1 ?ROW!2)) (ancestor ?ROW!1 ?ROW!2))",
        ),
        (
            b"(valence p 2) (valence q 3) (=> (p @ROW) (q @ROW))",
            b"NoLength",
        ),
        (
            b"(valence p 2) (valence q 2) (=> (p @ROW) (q @ROW))",
            b"(=> (p ?ROW!1 ?ROW!2) (q ?ROW!1 ?ROW!2))",
        ),
        (b"(valence p 4) (p @A @A)", b"(p ?A!1 ?A!2 ?A!1 ?A!2)"),
        (b"(valence p 3) (p @A @A)", b"NoLength"),
        (
            b"(valence p 3) (p @A @B)",
            b"(p ?A!1 ?B!1 ?B!2)(p ?A!1 ?A!2 ?B!1)",
        ),
        (
            b"(valence p 1) (?R @ROW)",
            b"(p ?ROW!1)(valence ?ROW!1 ?ROW!2)",
        ),
        (b"(valence fFn 1) (?R a)", b"NoRelation"),
        (b"(valence fFn 1) (valence p 1) (?P (?F a))", b"(p (fFn a))"),
        (
            b"(valence fFn 1) (p a) (and (?F a) (p (?F a)))",
            b"NoRelation",
        ),
        (b"(=> (instance ?R Foo) (?R a))", b"NoRelation"),
        (
            b"(p b) (instance p C) (subclass C Foo) (=> (instance ?R Foo) (?R a))",
            b"(=> (instance p Foo) (p a))",
        ),
        (
            b"(subrelation p q) (subrelation q s) (p a) (q a) (s a) (=> (subrelation ?R s) (?R a))",
            b"(=> (subrelation p s) (p a))(=> (subrelation q s) (q a))",
        ),
        (
            b"(p a) (q a b) (=> (q ?R b) (?R a))",
            b"(=> (q p b) (p a))(=> (q q b) (q a))",
        ),
        (
            b"(p a) (q a) (=> (p ?S ?R) (=> (?R ?R) (?S a)))",
            b"(=> (p p p) (=> (p p) (p a)))(=> (p p q) (=> (q q) (p a)))(=> (p q p) (=> (p p) (q a)))(=> (p q q) (=> (q q) (q a)))",
        ),
        (
            b"(p a) (and (?R a) (exists (?R) (p ?R)))",
            b"(and (p a) (exists (?R) (p ?R)))",
        ),
        (b"(p ?X 1 (fFn a))", b"(p ?X 1 (fFn a))"),
        (b"(forall (@ROW) (p @ROW))", b"(forall (@ROW) (p @ROW))"),
    ];
    for (spelled, want) in &table {
        let expanded = expand_last(rt.alloc(), spelled)?;
        let text = shown(rt.alloc(), expanded)?;
        assert_eq!(rt; text.bytes(), *want);
    }
    Ok(())
}

#[test]
fn as_many_as_20000_are_variants(rt: HostRuntime) -> Result<(), Fail> {
    let table: [(u64, &[u8], Option<usize>); 4] = [
        (141, b"(=> (?R ?X) (?S ?X))", Some(19_881)),
        (142, b"(=> (?R ?X) (?S ?X))", None),
        (32, b"(?R @A @B @C @D)", Some(20_000)),
        (33, b"(?R @A @B @C @D)", None),
    ];
    for (most, last, want) in &table {
        let spelled = numbered(rt.alloc(), b"(p", *most, b" a) ", last)?;
        let expanded = expand_last(rt.alloc(), spelled.bytes())?;
        assert_eq!(rt; count(&expanded), *want);
        assert_eq!(rt; matches!(expanded, Some(Expanded::TooMany)), want.is_none());
    }
    Ok(())
}

// the last list takes three arguments, which no name does; and a part of the variables fits nowhere, beside many choices for others
#[test]
fn what_never_fits_decides_at_once(rt: HostRuntime) -> Result<(), Fail> {
    let table: [(u64, &[u8], &[u8], &[u8]); 2] = [
        (
            400,
            b"(valence p",
            b" 1) ",
            b"(and (?A x) (?B x) (?C x) (?D x) (?E x) (?F x y z))",
        ),
        (
            150,
            b"(p",
            b" a) ",
            b"(valence r 1) (valence s 1) (subrelation r s) (=> (and (?A x) (?B x) (subrelation ?R ?S) (?R @ROW)) (?S @ROW @ROW))",
        ),
    ];
    for (most, before, after, last) in &table {
        let spelled = numbered(rt.alloc(), before, *most, after, last)?;
        let expanded = expand_last(rt.alloc(), spelled.bytes())?;
        let text = shown(rt.alloc(), expanded)?;
        assert_eq!(rt; text.bytes(), b"NoRelation".as_slice());
    }
    Ok(())
}
