//! Translations, against values worked by hand.
use crate::{TranslateError, Translated, translate};
use kif_reader::read_forms;
use kif_tree::{LoadName, Located, Text, print_clause, print_place};
use signatures::Signatures;
use std::alloc::Global;
use std::test::Fail;
use taxonomy::Taxonomy;

fn translated(alloc: Global, forms: &[Located]) -> Result<Translated, TranslateError> {
    let taxonomy = Taxonomy::of(alloc, forms)?;
    let signatures = Signatures::of(alloc, forms, &taxonomy)?;
    translate(alloc, forms, &taxonomy, &signatures)
}

fn names(alloc: Global) -> Result<Vec<LoadName>, Fail> {
    let mut names = Vec::new(alloc);
    names.push(LoadName {
        number: 1,
        name: Text::of(alloc, b"x")?,
    })?;
    Ok(names)
}

/// The forms of a text that isn't longer than a reader may take.
fn forms_of(alloc: Global, text: &[u8]) -> Result<Vec<Located>, Fail> {
    if text.len() >= 1 << 31 {
        return Ok(Vec::new(alloc));
    }
    Ok(read_forms(alloc, text, 1)?)
}

/// Each clause with its place and variant, and then each diagnostic.
fn shown(alloc: Global, text: &str) -> Result<Text, Fail> {
    let forms = forms_of(alloc, text.as_bytes())?;
    let translated = translated(alloc, forms.as_slice())?;
    let names = names(alloc)?;
    let mut out = Text::new(alloc);
    for input in translated.inputs.items() {
        out.append(print_clause(alloc, &input.clause)?.bytes())?;
        out.append(b" [")?;
        if let Some(place) = &input.place {
            out.append(print_place(alloc, names.as_slice(), place)?.bytes())?;
        }
        out.append(b" v")?;
        out.append_decimal(u64::from(input.variant))?;
        out.append(b"]\n")?;
    }
    for diagnostic in translated.left_out.items() {
        out.append_decimal(u64::from(diagnostic.code))?;
        out.push(b' ')?;
        out.append(print_place(alloc, names.as_slice(), &diagnostic.place)?.bytes())?;
        out.push(b' ')?;
        out.append(diagnostic.term.bytes())?;
        out.push(b'\n')?;
    }
    Ok(out)
}

#[test]
fn forms_give_clauses_or_a_diagnostic(rt: HostRuntime) -> Result<(), Fail> {
    let table = [
        ("", ""),
        ("(p a)", "(p a) [x:1:1 v1]\n"),
        (
            "(instance parent BinaryPredicate)\n(instance ancestor BinaryPredicate)\n(instance between TernaryPredicate)\n(subrelation parent ancestor)\n(subrelation parent between)\n(=> (and (subrelation ?R1 ?R2) (?R1 @ROW)) (?R2 @ROW))",
            "(instance parent BinaryPredicate) [x:1:1 v1]\n(instance ancestor BinaryPredicate) [x:2:1 v1]\n(instance between TernaryPredicate) [x:3:1 v1]\n(subrelation parent ancestor) [x:4:1 v1]\n(subrelation parent between) [x:5:1 v1]\n(or (not (subrelation parent ancestor)) (not (parent ?X1 ?X2)) (ancestor ?X1 ?X2)) [x:6:1 v1]\n",
        ),
        (
            "(valence p 2)\n(valence q 3)\n(=> (p @ROW) (q @ROW))",
            "(valence p 2) [x:1:1 v1]\n(valence q 3) [x:2:1 v1]\n9 x:3:1 @ROW\n",
        ),
        (
            "(believes John (instance Mars Planet))\n(p a)",
            "(p a) [x:2:1 v1]\n8 x:1:1 believes\n",
        ),
        (
            "(domain parent 1 Human)\n(domain parent 2 Human)\n(=> (parent ?X ?Y) (loves ?X ?Y))\n(exists (?Y) (parent ?Y ?X))",
            "(domain parent 1 Human) [x:1:1 v1]\n(domain parent 2 Human) [x:2:1 v1]\n(or (not (instance ?X1 Human)) (not (instance ?X2 Human)) (not (parent ?X1 ?X2)) (loves ?X1 ?X2)) [x:3:1 v1]\n(or (not (instance ?X1 Human)) (instance (!1.4.1.1 ?X1) Human)) [x:4:1 v1]\n(or (not (instance ?X1 Human)) (parent (!1.4.1.1 ?X1) ?X1)) [x:4:1 v1]\n",
        ),
        ("(=> (instance ?R Foo) (?R a))", "12 x:1:1 ?R\n"),
        (
            "(documentation p EnglishLanguage \"P.\")\n(format EnglishLanguage p \"x\")\n(termFormat EnglishLanguage p \"x\")\n(?R (q a))",
            "8 x:4:1 ?R\n",
        ),
        // a form is numbered in its text, and its variants from 1
        (
            "(valence f 1)\n(valence g 1)\n(exists (?Y) (?R ?Y))",
            "(valence f 1) [x:1:1 v1]\n(valence g 1) [x:2:1 v1]\n(f !1.3.1.1) [x:3:1 v1]\n(g !1.3.2.1) [x:3:1 v2]\n",
        ),
    ];
    for (text, want) in &table {
        let found = shown(rt.alloc(), text)?;
        assert_eq!(rt; found.bytes(), want.as_bytes());
    }
    Ok(())
}

/// Facts `(p1 a)` to `(pN a)`, one in each line.
fn facts(alloc: Global, count: u64) -> Result<Text, Fail> {
    let mut text = Text::new(alloc);
    for number in 1..=count {
        text.append(b"(p")?;
        text.append_decimal(number)?;
        text.append(b" a)\n")?;
    }
    Ok(text)
}

/// `(or (and (a1) (b1)) .. (and (ak) (bk)))`, which has as many clauses as two to the k.
fn append_pairs(text: &mut Text, count: u64) -> Result<(), Fail> {
    text.append(b"(or")?;
    for number in 1..=count {
        text.append(b" (and (a")?;
        text.append_decimal(number)?;
        text.append(b") (b")?;
        text.append_decimal(number)?;
        text.append(b"))")?;
    }
    text.append(b")\n")?;
    Ok(())
}

/// How many clauses and guarded variants there are, and the codes.
fn counts(alloc: Global, text: &Text) -> Result<(usize, usize, Vec<u8>), Fail> {
    let forms = forms_of(alloc, text.bytes())?;
    let translated = translated(alloc, forms.as_slice())?;
    let mut codes = Vec::new(alloc);
    for diagnostic in translated.left_out.items() {
        codes.push(diagnostic.code)?;
    }
    Ok((
        translated.inputs.items().len(),
        translated.guarded.items().len(),
        codes,
    ))
}

#[test]
fn a_form_with_too_many_clauses_gives_none(rt: HostRuntime) -> Result<(), Fail> {
    let mut text = Text::new(rt.alloc());
    append_pairs(&mut text, 12)?;
    let (inputs, guarded, codes) = counts(rt.alloc(), &text)?;
    assert_eq!(rt; (inputs, guarded), (4096, 1));
    assert_eq!(rt; codes.as_slice(), [].as_slice());
    let mut text = facts(rt.alloc(), 1)?;
    append_pairs(&mut text, 13)?;
    let (inputs, guarded, codes) = counts(rt.alloc(), &text)?;
    assert_eq!(rt; (inputs, guarded), (1, 1));
    assert_eq!(rt; codes.as_slice(), [13].as_slice());
    Ok(())
}

#[test]
fn choices_above_the_limit_are_left_out(rt: HostRuntime) -> Result<(), Fail> {
    let mut text = facts(rt.alloc(), 141)?;
    text.append(b"(=> (?R ?X) (?S ?X))")?;
    let (inputs, guarded, codes) = counts(rt.alloc(), &text)?;
    assert_eq!(rt; (inputs, guarded), (141 + 19881, 141 + 19881));
    assert_eq!(rt; codes.as_slice(), [].as_slice());
    let mut text = facts(rt.alloc(), 142)?;
    text.append(b"(=> (?R ?X) (?S ?X))")?;
    let (inputs, guarded, codes) = counts(rt.alloc(), &text)?;
    assert_eq!(rt; (inputs, guarded), (142, 142));
    assert_eq!(rt; codes.as_slice(), [10].as_slice());
    Ok(())
}

#[test]
fn the_form_that_fills_a_snapshot_is_told(rt: HostRuntime) -> Result<(), Fail> {
    let mut text = facts(rt.alloc(), 141)?;
    for _ in 0..21 {
        text.append(b"(=> (?R ?X) (?S ?X))\n")?;
    }
    let forms = forms_of(rt.alloc(), text.bytes())?;
    match translated(rt.alloc(), forms.as_slice()) {
        Err(TranslateError::SnapshotFull(place)) => {
            assert_eq!(rt; (place.form, place.line, place.column), (162, 162, 1));
        }
        _ => assert_eq!(rt; 0, 1),
    }
    Ok(())
}
