//! Diagnostics of few forms, against values worked by hand.
use crate::diagnostic::Diagnostic;
use crate::variables::add_variable_faults;
use kif_tree::{Form, Forms, Located, Place, Text, WordSet};
use sigma_base::{Listed, NoMemory};
use std::alloc::Global;
use std::mem::replace;
use std::test::Fail;

// ---- fixtures: each byte spells a token

fn word(alloc: Global, text: &[u8]) -> Result<Form, NoMemory> {
    Ok(Form::Word(Text::of(alloc, text)?))
}

// X to Z are variables, R is a row variable
fn token(alloc: Global, byte: u8) -> Result<Form, NoMemory> {
    match byte {
        b'>' => word(alloc, b"=>"),
        b'=' => word(alloc, b"<=>"),
        b'~' => word(alloc, b"not"),
        b'&' => word(alloc, b"and"),
        b'A' => word(alloc, b"forall"),
        b'E' => word(alloc, b"exists"),
        b'X'..=b'Z' => Ok(Form::Variable(Text::of(alloc, &[byte])?)),
        b'R' => Ok(Form::Row(Text::of(alloc, &[byte])?)),
        _ => word(alloc, &[byte]),
    }
}

fn spelled_by(alloc: Global, tokens: &[u8]) -> Result<Forms, NoMemory> {
    let mut outer: Vec<Forms> = Vec::new(alloc);
    let mut parts = Listed::new(alloc);
    for byte in tokens {
        match *byte {
            b'(' => outer.push(replace(&mut parts, Listed::new(alloc)))?,
            b')' => {
                let around = outer.pop().unwrap_or(Listed::new(alloc));
                let list = Form::List(replace(&mut parts, around));
                parts.push(list)?;
            }
            other => parts.push(token(alloc, other)?)?,
        }
    }
    Ok(parts)
}

fn place() -> Place {
    Place {
        constituent: 3,
        form: 5,
        line: 7,
        column: 2,
    }
}

// ---- variables

// the code and the term; a `!` before them where the diagnostic names another place
fn spelled(alloc: Global, found: &Diagnostic) -> Result<Text, NoMemory> {
    let mut text = Text::new(alloc);
    if found.place != place() || found.other.is_some() {
        text.push(b'!')?;
    }
    text.append_decimal(u64::from(found.code))?;
    text.append(found.term.bytes())?;
    Ok(text)
}

/// What is wrong with the forms' variables, each once and by bytes, with a blank behind it.
fn variable_faults(alloc: Global, tokens: &str) -> Result<Text, NoMemory> {
    let mut found = Vec::new(alloc);
    for form in spelled_by(alloc, tokens.as_bytes())?.into_items() {
        let located = Located {
            form,
            place: place(),
        };
        add_variable_faults(alloc, &located, &mut found)?;
    }
    let mut faults = WordSet::new(alloc);
    for diagnostic in found.as_slice() {
        faults.add(alloc, spelled(alloc, diagnostic)?.bytes())?;
    }
    joined(alloc, faults)
}

fn joined(alloc: Global, faults: WordSet) -> Result<Text, NoMemory> {
    let mut left = faults;
    let mut text = Text::new(alloc);
    for _ in 0..left.len() {
        if let Some(fault) = left.pop_first() {
            text.append(fault.bytes())?;
            text.push(b' ')?;
        }
    }
    Ok(text)
}

#[test]
fn finds_the_faults_of_variables(rt: HostRuntime) -> Result<(), Fail> {
    let table: [(&str, &str); 23] = [
        ("X", ""),
        ("(pX)", ""),
        ("(>(pX)(qX))", ""),
        ("(>(pX)(qXY))", "6?Y "),
        ("(>(pXY)(qX))", ""),
        ("(>(pX)Y)", "6?Y "),
        ("(=(pXY)(qXZ))", "6?Y 6?Z "),
        ("(>(p)(qR))", ""),
        ("(>(p)(E(Y)(qY)))", ""),
        ("(>(p)(&(E(Y)(qY))(rY)))", "6?Y "),
        ("(>(A(X)(pX))(qX))", "6?X "),
        ("(~(>(p)(qX)))", ""),
        ("(>(qX))", ""),
        ("(>(p)(q)(rX))", ""),
        ("(A(XY)(pX))", "7?Y "),
        ("(A(XX)(p))", "7?X "),
        ("(E(XR)(pX))", ""),
        ("(p(A(X)(E(X)(qX))))", "7?X "),
        ("(>(A(Z)(p))(qX))", "6?X 7?Z "),
        ("(=(E(Y)(pX))(A(Z)(qY)))", "6?X 6?Y 7?Y 7?Z "),
        ("(AX(p))", ""),
        ("(A(Xp)(q))", ""),
        ("(p(X)(q))(A()(pX))", ""),
    ];
    for (tokens, want) in &table {
        let faults = variable_faults(rt.alloc(), tokens)?;
        assert_eq!(rt; faults.bytes(), want.as_bytes(), "{tokens}");
    }
    Ok(())
}
