//! Forms with their guards, against values worked by hand.
use crate::guard;
use kif_tree::{Form, Forms, Located, Place, Text, print_form};
use sigma_base::{Listed, NoMemory};
use signatures::Signatures;
use std::alloc::Global;
use std::mem::replace;
use std::test::Fail;
use taxonomy::Taxonomy;

// ---- forms from their spelling: `?X` spells a variable, `@R` a row variable, a digit begins a numeral

fn leaf(alloc: Global, spelled: &[u8]) -> Result<Form, NoMemory> {
    match spelled {
        [b'?', name @ ..] => Ok(Form::Variable(Text::of(alloc, name)?)),
        [b'@', name @ ..] => Ok(Form::Row(Text::of(alloc, name)?)),
        [b'0'..=b'9', ..] => Ok(Form::Numeral(Text::of(alloc, spelled)?)),
        _ => Ok(Form::Word(Text::of(alloc, spelled)?)),
    }
}

fn end_word(alloc: Global, parts: &mut Forms, word: &mut Text) -> Result<(), NoMemory> {
    let word = replace(word, Text::new(alloc));
    if word.bytes().is_empty() {
        return Ok(());
    }
    parts.push(leaf(alloc, word.bytes())?)
}

fn read(alloc: Global, spelled: &str) -> Result<Forms, NoMemory> {
    let mut outer: Vec<Forms> = Vec::new(alloc);
    let mut parts = Listed::new(alloc);
    let mut word = Text::new(alloc);
    for byte in spelled.as_bytes() {
        match *byte {
            b'(' => outer.push(replace(&mut parts, Listed::new(alloc)))?,
            b')' => {
                end_word(alloc, &mut parts, &mut word)?;
                let around = outer.pop().unwrap_or(Listed::new(alloc));
                let list = Form::List(replace(&mut parts, around));
                parts.push(list)?;
            }
            b' ' => end_word(alloc, &mut parts, &mut word)?,
            other => word.push(other)?,
        }
    }
    end_word(alloc, &mut parts, &mut word)?;
    Ok(parts)
}

fn located(alloc: Global, spelled: &str) -> Result<Listed<Located>, NoMemory> {
    let mut forms = Listed::new(alloc);
    for form in read(alloc, spelled)?.items() {
        forms.push(Located {
            form: form.copy(alloc)?,
            place: Place {
                constituent: 0,
                form: 1,
                line: 1,
                column: 1,
            },
        })?;
    }
    Ok(forms)
}

fn told(alloc: Global, facts: &str) -> Result<Signatures, NoMemory> {
    let forms = located(alloc, facts)?;
    let taxonomy = Taxonomy::of(alloc, forms.items())?;
    Signatures::of(alloc, forms.items(), &taxonomy)
}

// the guarded form as it is printed
fn guarded(alloc: Global, facts: &str, spelled: &str) -> Result<Text, NoMemory> {
    let signatures = told(alloc, facts)?;
    match read(alloc, spelled)?.items() {
        [form] => print_form(alloc, &guard(alloc, form, &signatures)?),
        _ => Ok(Text::new(alloc)),
    }
}

const PARENTS: &str = "(domain parent 1 Human) (domain parent 2 Human)";

#[test]
fn guards_stand_by_the_quantifier_and_the_place(rt: HostRuntime) -> Result<(), Fail> {
    let table = [
        (
            "(exists (?Y) (parent ?Y ?X))",
            "(forall (?X) (=> (instance ?X Human) (exists (?Y) (and (instance ?Y Human) (parent ?Y ?X)))))",
        ),
        ("(parent A B)", "(parent A B)"),
        ("(other ?X)", "(forall (?X) (other ?X))"),
        ("(parent @R A)", "(parent @R A)"),
        (
            "(=> (exists (?Y) (parent A ?Y)) (p))",
            "(=> (exists (?Y) (and (instance ?Y Human) (parent A ?Y))) (p))",
        ),
        (
            "(=> (forall (?Y) (parent A ?Y)) (p))",
            "(=> (forall (?Y) (=> (instance ?Y Human) (parent A ?Y))) (p))",
        ),
        (
            "(parent ?Y ?X)",
            "(forall (?Y ?X) (=> (and (instance ?Y Human) (instance ?X Human)) (parent ?Y ?X)))",
        ),
        (
            "(parent ?X ?X)",
            "(forall (?X) (=> (instance ?X Human) (parent ?X ?X)))",
        ),
        (
            "(exists (?X ?X) (parent ?X A))",
            "(exists (?X ?X) (and (instance ?X Human) (parent ?X A)))",
        ),
        ("(forall (?Z) (parent A B))", "(forall (?Z) (parent A B))"),
        ("(forall () (parent A B))", "(forall () (parent A B))"),
        (
            "(?X (parent ?X A))",
            "(forall (?X) (=> (instance ?X Human) (?X (parent ?X A))))",
        ),
    ];
    for (spelled, want) in &table {
        let found = guarded(rt.alloc(), PARENTS, spelled)?;
        assert_eq!(rt; found.bytes(), want.as_bytes());
    }
    Ok(())
}

#[test]
fn a_quantifier_inside_hides_occurrences(rt: HostRuntime) -> Result<(), Fail> {
    let table = [
        (
            "(and (p ?X) (exists (?X) (parent ?X A)))",
            "(forall (?X) (and (p ?X) (exists (?X) (and (instance ?X Human) (parent ?X A)))))",
        ),
        (
            "(forall (?X ?Y) (or (exists (?X) (parent ?X ?Y)) (parent ?X A)))",
            "(forall (?X ?Y) (=> (and (instance ?Y Human) (instance ?X Human)) (or (exists (?X) (and (instance ?X Human) (parent ?X ?Y))) (parent ?X A))))",
        ),
    ];
    for (spelled, want) in &table {
        let found = guarded(rt.alloc(), PARENTS, spelled)?;
        assert_eq!(rt; found.bytes(), want.as_bytes());
    }
    Ok(())
}

#[test]
fn each_type_of_the_place_gives_a_guard(rt: HostRuntime) -> Result<(), Fail> {
    let table = [
        ("(domain p 1 Entity)", "(p ?X)", "(forall (?X) (p ?X))"),
        (
            "(domainSubclass p 1 C) (domain p 1 D)",
            "(p ?X)",
            "(forall (?X) (=> (and (subclass ?X C) (instance ?X D)) (p ?X)))",
        ),
        (
            "(domain p 1 C) (subrelation q p)",
            "(q ?X)",
            "(forall (?X) (=> (instance ?X C) (q ?X)))",
        ),
        (
            "(domain p 1 C) (domain fFn 1 D) (domain fFn 2 C)",
            "(p (fFn ?X ?Y) ?X)",
            "(forall (?X ?Y) (=> (and (instance ?X D) (instance ?Y C)) (p (fFn ?X ?Y) ?X)))",
        ),
        (
            "(domain instance 1 D) (domain p 1 C)",
            "(exists (?X) (exists (?Y) (p ?X ?Y)))",
            "(exists (?X) (and (instance ?X C) (exists (?Y) (p ?X ?Y))))",
        ),
        (
            "(domain p 1 C) (domain p 2 C) (domain q 1 D) (domain q 1 C)",
            "(and (p ?X ?X) (q ?X))",
            "(forall (?X) (=> (and (instance ?X C) (instance ?X D)) (and (p ?X ?X) (q ?X))))",
        ),
    ];
    for (facts, spelled, want) in &table {
        let found = guarded(rt.alloc(), facts, spelled)?;
        assert_eq!(rt; found.bytes(), want.as_bytes());
    }
    Ok(())
}
