//! Which forms are in the profile.
use crate::tests::leaf_of;
use crate::*;
use sigma_base::{Listed, NoMemory};
use std::alloc::Global;
use std::mem::replace;
use std::test::Fail;

// ---- forms from their spelling, as the other tests spell words

fn end_word(alloc: Global, parts: &mut Forms, word: &mut Text) -> Result<(), NoMemory> {
    let word = replace(word, Text::new(alloc));
    if word.bytes().is_empty() {
        return Ok(());
    }
    parts.push(leaf_of(alloc, word.bytes())?)
}

pub(crate) fn read(alloc: Global, spelled: &str) -> Result<Forms, NoMemory> {
    let mut outer: Vec<Forms> = Vec::new(alloc);
    let mut parts = Listed::new(alloc);
    let mut word = Text::new(alloc);
    for byte in spelled.as_bytes() {
        match *byte {
            b'(' => outer.push(replace(&mut parts, Listed::new(alloc)))?,
            b')' => {
                end_word(alloc, &mut parts, &mut word)?;
                let around = outer.pop().unwrap_or(Listed::new(alloc));
                let list = Form::List(replace(&mut parts, around));
                parts.push(list)?;
            }
            b' ' => end_word(alloc, &mut parts, &mut word)?,
            other => word.push(other)?,
        }
    }
    end_word(alloc, &mut parts, &mut word)?;
    Ok(parts)
}

// of the one form that is spelled
fn is_in(alloc: Global, spelled: &str) -> Result<Option<bool>, NoMemory> {
    match read(alloc, spelled)?.items() {
        [form] => Ok(Some(in_profile(form))),
        _ => Ok(None),
    }
}

// ---- tables

#[test]
fn takes_lists_at_their_places(rt: HostRuntime) -> Result<(), Fail> {
    let table = [
        ("(p a)", true),
        ("(p)", true),
        ("(?R a)", true),
        ("(p (?R a))", true),
        ("(p (fFn a))", true),
        ("(p (fFn (gFn ?X)) (?R \"s\" 1 @ROW))", true),
        ("(not (p a))", true),
        ("(and (p) (or (q) (?R)))", true),
        ("(=> (p ?X) (q @ROW))", true),
        ("(<=> (p ?X) (exists (?Y) (q ?X ?Y)))", true),
        ("(forall (?R) (p ?R))", true),
        ("(forall (?X ?Y) (p (fFn ?X) ?Y))", true),
    ];
    for (spelled, want) in &table {
        assert_eq!(rt; is_in(rt.alloc(), spelled)?, Some(*want));
    }
    Ok(())
}

#[test]
fn refuses_formulas_as_arguments(rt: HostRuntime) -> Result<(), Fail> {
    let table = [
        ("(p (q a))", false),
        ("(p (and a b))", false),
        ("(p (not (q)))", false),
        ("(?R (q a))", false),
        ("(p (fFn (q a)))", false),
        ("(not (p (q a)))", false),
        ("(p (?R (q a)))", false),
        ("(p (forall (?X) (q ?X)))", false),
        ("(p (FnX a))", false),
        ("(p (ffn a))", false),
        ("(p (Fn a))", true),
    ];
    for (spelled, want) in &table {
        assert_eq!(rt; is_in(rt.alloc(), spelled)?, Some(*want));
    }
    Ok(())
}

#[test]
fn refuses_what_is_no_list_as_a_sentence(rt: HostRuntime) -> Result<(), Fail> {
    let table = [
        ("a", false),
        ("?X", false),
        ("@R", false),
        ("1", false),
        ("\"s", false),
        ("(not a)", false),
        ("(and (p) \"s)", false),
        ("(or 1 (p))", false),
        ("(=> ?X (p))", false),
        ("(forall (?X) ?X)", false),
        ("(<=> (p) (exists (?X) aFn))", false),
    ];
    for (spelled, want) in &table {
        assert_eq!(rt; is_in(rt.alloc(), spelled)?, Some(*want));
    }
    Ok(())
}

#[test]
fn refuses_terms_as_sentences(rt: HostRuntime) -> Result<(), Fail> {
    let table = [
        ("(fFn a)", false),
        ("(not (fFn a))", false),
        ("(=> (p) (and (q) (fFn)))", false),
        ("(forall (?X) (fFn ?X))", false),
        ("(Fn)", false),
        ("(fFnX a)", true),
    ];
    for (spelled, want) in &table {
        assert_eq!(rt; is_in(rt.alloc(), spelled)?, Some(*want));
    }
    Ok(())
}

#[test]
fn refuses_quantified_row_variables(rt: HostRuntime) -> Result<(), Fail> {
    let table = [
        ("(forall (@R) (p a))", false),
        ("(exists (?X @R) (p ?X @R))", false),
        ("(not (forall (@R ?X) (p ?X)))", false),
        ("(forall (?R) (p @R))", true),
    ];
    for (spelled, want) in &table {
        assert_eq!(rt; is_in(rt.alloc(), spelled)?, Some(*want));
    }
    Ok(())
}

#[test]
fn refuses_quantified_variables_at_heads(rt: HostRuntime) -> Result<(), Fail> {
    let table = [
        ("(forall (?R) (?R a))", false),
        ("(exists (?X ?R) (not (?R ?X)))", false),
        ("(forall (?R) (exists (?X) (p (?R ?X))))", false),
        ("(forall (?R) (exists (?R) (?R a)))", false),
        (
            "(forall (?R) (exists (?X) (and (p) (q (fFn (?R ?X))))))",
            false,
        ),
        ("(forall (?R) (forall (?X) (exists (?R) (p ?R))))", true),
        ("(and (?R a) (forall (?R) (p ?R)))", true),
        ("(forall (?X) (?R ?X))", true),
        ("(forall (?R) (p R (fFn ?R)))", true),
        ("(forall (?R ?X) (exists (?R ?X) (p ?R)))", true),
    ];
    for (spelled, want) in &table {
        assert_eq!(rt; is_in(rt.alloc(), spelled)?, Some(*want));
    }
    Ok(())
}

// the arguments of such a quantifier stand in sentence place, and a head is no part
#[test]
fn a_misshapen_quantifier_has_no_variable_list(rt: HostRuntime) -> Result<(), Fail> {
    let table = [
        ("()", true),
        ("(forall (@R) (p) (?R))", true),
        ("(forall (@R))", true),
        ("(exists (p) (q))", true),
        ("(forall ?X (p))", false),
        ("(exists (fFn) (p))", false),
        ("((p (q)) (fFn a))", true),
    ];
    for (spelled, want) in &table {
        assert_eq!(rt; is_in(rt.alloc(), spelled)?, Some(*want));
    }
    Ok(())
}
