//! What is wrong with words of few forms, against values worked by hand.
use crate::Diagnostic;
use crate::hashed_words::HashedWords;
use crate::words::{add_word_faults, word_tables};
use kif_tree::{Form, Located, Place, Text, is_headed};
use sigma_base::{Listed, NoMemory};
use signatures::Signatures;
use std::alloc::Global;
use std::test::Fail;
use taxonomy::Taxonomy;

// ---- fixtures: parts with blanks between them, forms with semicolons; a digit begins a numeral, and `(p` spells a list of the word `p` alone

fn one_word(alloc: Global, text: &[u8]) -> Result<Form, NoMemory> {
    let mut parts = Listed::new(alloc);
    parts.push(Form::Word(Text::of(alloc, text)?))?;
    Ok(Form::List(parts))
}

fn part(alloc: Global, text: &[u8]) -> Result<Form, NoMemory> {
    match text {
        [b'(', head @ ..] => one_word(alloc, head),
        [b'0'..=b'9', ..] => Ok(Form::Numeral(Text::of(alloc, text)?)),
        _ => Ok(Form::Word(Text::of(alloc, text)?)),
    }
}

pub(crate) fn list(alloc: Global, text: &[u8]) -> Result<Form, NoMemory> {
    let mut parts = Listed::new(alloc);
    for spelled in text.split(|byte| *byte == b' ') {
        parts.push(part(alloc, spelled)?)?;
    }
    Ok(Form::List(parts))
}

/// The place of a form by its number.
fn place(form: u32) -> Place {
    Place {
        constituent: 3,
        form,
        line: form,
        column: 1,
    }
}

fn forms(alloc: Global, text: &[u8]) -> Result<Listed<Located>, NoMemory> {
    let mut forms = Listed::new(alloc);
    let mut number: u32 = 0;
    for spelled in text.split(|byte| *byte == b';') {
        number = number.saturating_add(1);
        forms.push(Located {
            form: list(alloc, spelled)?,
            place: place(number),
        })?;
    }
    Ok(forms)
}

fn is_shown(form: &Form) -> bool {
    is_headed(form, b"documentation")
        || is_headed(form, b"termFormat")
        || is_headed(form, b"format")
}

/// What is wrong with the words of the forms, in the order in which it is found.
fn faults(alloc: Global, text: &[u8]) -> Result<Vec<Diagnostic>, NoMemory> {
    let forms = forms(alloc, text)?;
    let taxonomy = Taxonomy::of(alloc, forms.items())?;
    let signatures = Signatures::of(alloc, forms.items(), &taxonomy)?;
    let tables = word_tables(alloc, forms.items(), &signatures)?;
    let mut seen = HashedWords::new(alloc);
    let mut found = Vec::new(alloc);
    for located in forms.items() {
        if is_shown(&located.form) {
            continue;
        }
        add_word_faults(alloc, located, &taxonomy, &tables, &mut seen, &mut found)?;
    }
    Ok(found)
}

/// Adds the word, its form's number behind a `@`, the other form's number behind a `<`, and a blank.
fn spell(text: &mut Text, fault: &Diagnostic) -> Result<(), NoMemory> {
    text.append(fault.term.bytes())?;
    text.push(b'@')?;
    text.append_decimal(u64::from(fault.place.form))?;
    if let Some(other) = &fault.other {
        text.push(b'<')?;
        text.append_decimal(u64::from(other.form))?;
    }
    text.push(b' ')
}

/// The faults of the code.
fn spelled(alloc: Global, text: &[u8], code: u8) -> Result<Text, NoMemory> {
    let found = faults(alloc, text)?;
    let mut text = Text::new(alloc);
    for fault in found.as_slice() {
        if fault.code != code {
            continue;
        }
        spell(&mut text, fault)?;
    }
    Ok(text)
}

#[test]
fn plain_words_have_parents(rt: HostRuntime) -> Result<(), Fail> {
    let table: [(&[u8], &[u8]); 8] = [
        (b"p a", b"p@1 a@1 "),
        (b"p a;q a p", b"p@1 a@1 q@2 "),
        (b"and (p (q", b"p@1 q@1 "),
        (b"subrelation p q", b"q@1 "),
        (b"instance a Entity", b""),
        (b"documentation a b c;p a", b"p@2 a@2 "),
        (b"p domain", b"p@1 "),
        (b"subclass 1 b;p b", b"b@1 p@2 "),
    ];
    for (text, want) in &table {
        let found = spelled(rt.alloc(), text, 1)?;
        assert_eq!(rt; found.bytes(), *want);
    }
    Ok(())
}

#[test]
fn plain_words_are_documented(rt: HostRuntime) -> Result<(), Fail> {
    let table: [(&[u8], &[u8]); 5] = [
        (b"p a;documentation a", b"p@1 "),
        (b"p a;documentation p x y z;format a b", b"a@1 "),
        (b"documentation (p x;p x", b"p@2 x@2 "),
        (b"p Entity;not (p", b"p@1 Entity@1 "),
        (b"subclass a a;documentation a a", b""),
    ];
    for (text, want) in &table {
        let found = spelled(rt.alloc(), text, 2)?;
        assert_eq!(rt; found.bytes(), *want);
    }
    Ok(())
}

#[test]
fn parents_are_not_disjoint(rt: HostRuntime) -> Result<(), Fail> {
    let table: [(&[u8], &[u8]); 8] = [
        (b"subclass a b;subclass a c;disjoint b c", b"a@1<3 "),
        (
            b"instance a b;subclass b d;subclass b c;disjoint d c",
            b"a@1<4 b@2<4 ",
        ),
        (b"subclass a b;subclass a c;partition w b c", b"a@1<3 "),
        (b"disjoint a b;subclass a b", b"a@2<1 "),
        (
            b"subclass a b;subclass a c;disjoint c b;disjoint b c",
            b"a@1<3 ",
        ),
        (b"p a;disjoint b c", b""),
        (b"subclass equal b;subclass equal c;disjoint b c", b""),
        (
            b"p a;subclass a b;subclass a c;subclass a d;disjoint b c",
            b"a@2<5 ",
        ),
    ];
    for (text, want) in &table {
        let found = spelled(rt.alloc(), text, 3)?;
        assert_eq!(rt; found.bytes(), *want);
    }
    Ok(())
}

#[test]
fn relations_have_an_arity(rt: HostRuntime) -> Result<(), Fail> {
    let table: [(&[u8], &[u8]); 7] = [
        (b"p a", b"p@1 "),
        (b"p a;valence p 1", b""),
        (b"instance p BinaryRelation;q p", b"q@2 "),
        (b"p a;subrelation p q;valence q 3", b""),
        (b"documentation (q;p q", b"p@2 q@2 "),
        (b"and (p", b"p@1 "),
        (b"format a;p format", b"p@2 "),
    ];
    for (text, want) in &table {
        let found = spelled(rt.alloc(), text, 11)?;
        assert_eq!(rt; found.bytes(), *want);
    }
    Ok(())
}
