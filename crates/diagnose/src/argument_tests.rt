//! Faults of arguments in few forms, against values worked by hand.
use crate::arguments::{add_argument_faults, class_words};
use crate::diagnostic::Diagnostic;
use kif_tree::{Form, Located, Place, Text};
use sigma_base::{Listed, NoMemory};
use signatures::Signatures;
use std::alloc::Global;
use std::test::Fail;
use taxonomy::Taxonomy;

// ---- fixtures: parts with blanks between them, forms with semicolons; `?X` spells a variable, `@R` a row variable, a digit begins a
// numeral, and `(f:a:b` spells a list

fn leaf(alloc: Global, text: &[u8]) -> Result<Form, NoMemory> {
    match text {
        [b'?', name @ ..] => Ok(Form::Variable(Text::of(alloc, name)?)),
        [b'@', name @ ..] => Ok(Form::Row(Text::of(alloc, name)?)),
        [b'0'..=b'9', ..] => Ok(Form::Numeral(Text::of(alloc, text)?)),
        _ => Ok(Form::Word(Text::of(alloc, text)?)),
    }
}

fn inner_list(alloc: Global, text: &[u8]) -> Result<Form, NoMemory> {
    let mut parts = Listed::new(alloc);
    for spelled in text.split(|byte| *byte == b':') {
        parts.push(leaf(alloc, spelled)?)?;
    }
    Ok(Form::List(parts))
}

fn part(alloc: Global, text: &[u8]) -> Result<Form, NoMemory> {
    match text {
        [b'(', spelled @ ..] => inner_list(alloc, spelled),
        _ => leaf(alloc, text),
    }
}

fn list(alloc: Global, text: &[u8]) -> Result<Form, NoMemory> {
    let mut parts = Listed::new(alloc);
    for spelled in text.split(|byte| *byte == b' ') {
        parts.push(part(alloc, spelled)?)?;
    }
    Ok(Form::List(parts))
}

/// The place of a form by its number.
fn place(form: u32) -> Place {
    Place {
        constituent: 3,
        form,
        line: form,
        column: 1,
    }
}

fn forms(alloc: Global, text: &[u8]) -> Result<Listed<Located>, NoMemory> {
    let mut forms = Listed::new(alloc);
    let mut number: u32 = 0;
    for spelled in text.split(|byte| *byte == b';') {
        number = number.saturating_add(1);
        forms.push(Located {
            form: list(alloc, spelled)?,
            place: place(number),
        })?;
    }
    Ok(forms)
}

/// The diagnostics, each as its form, its code, its term and the form that is to blame, with a blank behind it.
fn spelled(alloc: Global, found: &[Diagnostic]) -> Result<Text, NoMemory> {
    let mut text = Text::new(alloc);
    for diagnostic in found {
        text.append_decimal(u64::from(diagnostic.place.form))?;
        text.push(b':')?;
        text.append_decimal(u64::from(diagnostic.code))?;
        text.push(b':')?;
        text.append(diagnostic.term.bytes())?;
        if let Some(place) = diagnostic.other {
            text.push(b'/')?;
            text.append_decimal(u64::from(place.form))?;
        }
        text.push(b' ')?;
    }
    Ok(text)
}

fn faults(alloc: Global, text: &[u8]) -> Result<Text, NoMemory> {
    let forms = forms(alloc, text)?;
    let taxonomy = Taxonomy::of(alloc, forms.items())?;
    let signatures = Signatures::of(alloc, forms.items(), &taxonomy)?;
    let classes = class_words(alloc, forms.items())?;
    let mut found = Vec::new(alloc);
    for located in forms.items() {
        add_argument_faults(alloc, located, &taxonomy, &signatures, &classes, &mut found)?;
    }
    spelled(alloc, found.as_slice())
}

#[test]
fn lists_take_as_many_arguments_as_their_head(rt: HostRuntime) -> Result<(), Fail> {
    let table: [(&[u8], &[u8]); 12] = [
        (b"p a", b""),
        (b"valence p 2;p a b", b""),
        (b"valence p 2;p a", b"2:5:p "),
        (b"valence p 2;p a b c", b"2:5:p "),
        (b"valence p 2;p", b"2:5:p "),
        (b"valence p 2;p @R", b""),
        (b"valence p 2;p (q:@R", b"2:5:p "),
        (b"valence p 2;?X a (p:a", b"2:5:p "),
        (b"valence p 1;not (p:a:b", b"2:5:p "),
        (b"valence not 3;not p", b""),
        (b"instance p VariableArityRelation;p a", b""),
        (b"valence p 2;subrelation q p;q a;q a", b"3:5:q 4:5:q "),
    ];
    for (text, want) in &table {
        let found = faults(rt.alloc(), text)?;
        assert!(rt; found.bytes() == *want);
    }
    Ok(())
}

#[test]
fn words_have_the_types_of_their_places(rt: HostRuntime) -> Result<(), Fail> {
    let table: [(&[u8], &[u8]); 17] = [
        (b"domain p 1 C;p a", b""),
        (b"domain p 1 C;instance a D;p a", b"3:4:a/1 "),
        (b"domain p 2 C;instance a D;p a", b""),
        (b"domain p 1 C;instance a D;subclass D C;p a", b""),
        (b"domain p 1 C;subclass a C;p a", b"3:4:a/1 "),
        (b"domain p 1 Entity;instance a D;p a", b""),
        (b"domain p 1 C;instance a D;and (p:a", b"3:4:a/1 "),
        (b"domainSubclass p 1 C;subclass D E;p D", b"3:4:D/1 "),
        (b"domainSubclass p 1 C;subclass C E;p C", b""),
        (b"domainSubclass p 1 C;subclass D C;p D", b""),
        (b"domainSubclass p 1 C;instance D C;p D", b"3:4:D/1 "),
        (b"domain p 1 Class;subclass D E;p D", b""),
        (b"domain p 1 Class;subclass D E;instance E X;p E", b""),
        (b"domain p 1 Class;instance E X;p E", b"3:4:E/1 "),
        (b"domain p 1 S;subclass Class S;subclass D E;p D", b""),
        (
            b"domain q 1 C;subrelation p q;instance a D;p a",
            b"4:4:a/1 ",
        ),
        (
            b"valence p 1;domain p 2 C;domainSubclass p 2 E;instance a D;p a a",
            b"5:5:p 5:4:a/2 5:4:a/3 ",
        ),
    ];
    for (text, want) in &table {
        let found = faults(rt.alloc(), text)?;
        assert!(rt; found.bytes() == *want);
    }
    Ok(())
}

#[test]
fn values_of_functions_have_the_types_of_their_places(rt: HostRuntime) -> Result<(), Fail> {
    let table: [(&[u8], &[u8]); 8] = [
        (b"domain p 1 C;p (AFn:x", b""),
        (b"domain p 1 C;range AFn D;p (AFn:x", b"3:4:AFn/1 "),
        (b"domain p 1 C;range AFn D;subclass D C;p (AFn:x", b""),
        (b"domain p 1 C;range AFn C;range AFn D;p (AFn:x", b""),
        (b"domain p 1 C;rangeSubclass AFn D;p (AFn:x", b""),
        (b"domainSubclass p 1 C;range AFn D;p (AFn:x", b""),
        (b"domain p 1 Entity;range AFn D;p (AFn:x", b""),
        (b"domain p 1 C;range f D;p (f:x", b""),
    ];
    for (text, want) in &table {
        let found = faults(rt.alloc(), text)?;
        assert!(rt; found.bytes() == *want);
    }
    Ok(())
}
