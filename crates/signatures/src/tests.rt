//! Each public call on few forms, against values worked by hand.
use crate::*;
use kif_tree::{Form, Located, Place, Text};
use sigma_base::{Listed, NoMemory};
use std::alloc::Global;
use std::test::Fail;
use taxonomy::Taxonomy;

// ---- fixtures: parts with blanks between them, forms with semicolons; a digit begins a numeral, and `(p` spells a list of the word `p` alone

fn one_word(alloc: Global, text: &[u8]) -> Result<Form, NoMemory> {
    let mut parts = Listed::new(alloc);
    parts.push(Form::Word(Text::of(alloc, text)?))?;
    Ok(Form::List(parts))
}

fn part(alloc: Global, text: &[u8]) -> Result<Form, NoMemory> {
    match text {
        [b'(', head @ ..] => one_word(alloc, head),
        [b'0'..=b'9', ..] => Ok(Form::Numeral(Text::of(alloc, text)?)),
        _ => Ok(Form::Word(Text::of(alloc, text)?)),
    }
}

fn list(alloc: Global, text: &[u8]) -> Result<Form, NoMemory> {
    let mut parts = Listed::new(alloc);
    for spelled in text.split(|byte| *byte == b' ') {
        parts.push(part(alloc, spelled)?)?;
    }
    Ok(Form::List(parts))
}

/// The place of a form by its number.
fn place(form: u32) -> Place {
    Place {
        constituent: 3,
        form,
        line: form,
        column: 1,
    }
}

fn forms(alloc: Global, text: &[u8]) -> Result<Listed<Located>, NoMemory> {
    let mut forms = Listed::new(alloc);
    let mut number: u32 = 0;
    for spelled in text.split(|byte| *byte == b';') {
        number = number.saturating_add(1);
        forms.push(Located {
            form: list(alloc, spelled)?,
            place: place(number),
        })?;
    }
    Ok(forms)
}

fn signatures(alloc: Global, text: &[u8]) -> Result<Signatures, NoMemory> {
    let forms = forms(alloc, text)?;
    let taxonomy = Taxonomy::of(alloc, forms.items())?;
    Signatures::of(alloc, forms.items(), &taxonomy)
}

/// The classes, each with a blank behind it, and with a `<` before it where a subclass of it is meant.
fn spelled(alloc: Global, types: &[TypeTold]) -> Result<Text, NoMemory> {
    let mut text = Text::new(alloc);
    for told in types {
        if told.subclass {
            text.push(b'<')?;
        }
        text.append(told.class.bytes())?;
        text.push(b' ')?;
    }
    Ok(text)
}

fn joined(alloc: Global, words: &[Text]) -> Result<Text, NoMemory> {
    let mut text = Text::new(alloc);
    for word in words {
        text.append(word.bytes())?;
        text.push(b' ')?;
    }
    Ok(text)
}

#[test]
fn the_first_rule_gives_the_arity(rt: HostRuntime) -> Result<(), Fail> {
    let table: [(&[u8], &[u8], Arity); 21] = [
        (b"p a", b"equal", Arity::Exactly(2)),
        (b"p a", b"domain", Arity::Exactly(3)),
        (b"p a", b"partition", Arity::Any),
        (b"p a", b"p", Arity::Unstated),
        (b"valence r 2;valence r 3", b"r", Arity::Exactly(2)),
        (b"valence r 0", b"r", Arity::Exactly(0)),
        (b"valence r 01", b"r", Arity::Exactly(1)),
        (b"valence r 1.0", b"r", Arity::Unstated),
        (b"valence equal 3", b"equal", Arity::Exactly(2)),
        (
            b"instance f TernaryPredicate;instance f BinaryFunction",
            b"f",
            Arity::Exactly(2),
        ),
        (
            b"instance r TernaryPredicate;instance r BinaryRelation",
            b"r",
            Arity::Exactly(2),
        ),
        (
            b"instance r C;subclass C QuintaryRelation",
            b"r",
            Arity::Exactly(5),
        ),
        (b"instance r VariableArityRelation", b"r", Arity::Any),
        (
            b"subrelation r s;valence s 2;instance r TernaryRelation",
            b"r",
            Arity::Exactly(3),
        ),
        (
            b"subrelation r s;subrelation s t;valence t 4",
            b"r",
            Arity::Exactly(4),
        ),
        (
            b"subrelation r b;subrelation r a;valence a 1;valence b 2",
            b"r",
            Arity::Exactly(1),
        ),
        (
            b"subrelation r z;subrelation r a;subrelation a b;valence z 1;valence b 2",
            b"r",
            Arity::Exactly(1),
        ),
        (
            b"subrelation r s;subrelation s r;valence s 2",
            b"r",
            Arity::Exactly(2),
        ),
        (b"subrelation r s;subrelation s r", b"r", Arity::Unstated),
        (b"subrelation r domain", b"r", Arity::Exactly(3)),
        (b"subrelation s r;valence s 2", b"r", Arity::Unstated),
    ];
    for (text, word, want) in &table {
        let told = signatures(rt.alloc(), text)?;
        assert!(rt; told.arity(word) == *want);
    }
    Ok(())
}

#[test]
fn types_come_from_the_nearest_word(rt: HostRuntime) -> Result<(), Fail> {
    let table: [(&[u8], u32, &[u8]); 10] = [
        (
            b"domain r 1 C;domain r 2 E;domainSubclass r 1 D",
            1,
            b"C <D ",
        ),
        (b"subrelation r s;domain s 1 C", 1, b"C "),
        (
            b"subrelation r s;subrelation s t;domain s 1 C;domain t 1 D",
            1,
            b"C ",
        ),
        (b"subrelation r s;domain s 1 C;domain r 1 B", 1, b"B "),
        (
            b"subrelation r b;subrelation r a;domain b 1 B;domain a 1 A",
            1,
            b"A ",
        ),
        (b"subrelation r s;domain r 1 B;domain s 2 C", 2, b"C "),
        (b"domain r 0 C", 0, b""),
        (b"domain r 01 C", 1, b"C "),
        (b"domain r 1.0 C", 1, b""),
        (b"domain s 1 C", 1, b""),
    ];
    for (text, number, want) in &table {
        let told = signatures(rt.alloc(), text)?;
        let types = spelled(rt.alloc(), told.domain_of(b"r", *number))?;
        assert_eq!(rt; types.bytes(), *want);
    }
    Ok(())
}

#[test]
fn ranges_are_not_inherited(rt: HostRuntime) -> Result<(), Fail> {
    let table: [(&[u8], &[u8]); 3] = [
        (b"range fFn C;range gFn E;rangeSubclass fFn D", b"C <D "),
        (b"subrelation fFn gFn;range gFn C", b""),
        (b"range fFn C D", b""),
    ];
    for (text, want) in &table {
        let told = signatures(rt.alloc(), text)?;
        let types = spelled(rt.alloc(), told.range_of(b"fFn"))?;
        assert_eq!(rt; types.bytes(), *want);
    }
    Ok(())
}

#[test]
fn relation_names_are_words_of_the_snapshot(rt: HostRuntime) -> Result<(), Fail> {
    let table: [(&[u8], &[u8]); 6] = [
        (b"p a;q b", b"p q "),
        (b"b a;a b", b"a b "),
        (b"documentation p EnglishLanguage (q;r q", b"q r "),
        (b"valence s 2;p s", b"p s valence "),
        (b"not (p;and (q", b"p q "),
        (b"p documentation", b"p "),
    ];
    for (text, want) in &table {
        let told = signatures(rt.alloc(), text)?;
        let names = joined(rt.alloc(), told.relations())?;
        assert_eq!(rt; names.bytes(), *want);
    }
    Ok(())
}
