//! Unification, matching and subsumption, against values worked by hand.
use crate::reading::{after_head, clause, forms_of};
use kif_tree::{Form, Pair, Text, forms_equal, print_form, substitute};
use sigma_base::{Listed, NoMemory};
use std::alloc::Global;
use std::test::Fail;
use unify::{ClauseSet, match_onto, subsumes, unify};

fn unified(alloc: Global, first: &Form, second: &Form) -> Result<Text, NoMemory> {
    let Some(subst) = unify(alloc, first, second)? else {
        return Text::of(alloc, b"none");
    };
    let left = substitute(alloc, first, &subst)?;
    let right = substitute(alloc, second, &subst)?;
    if !forms_equal(&left, &right) {
        return Text::of(alloc, b"not equal");
    }
    print_form(alloc, &left)
}

fn matched(alloc: Global, pattern: &Form, target: &Form) -> Result<Text, NoMemory> {
    let Some(subst) = match_onto(alloc, pattern, target)? else {
        return Text::of(alloc, b"none");
    };
    let mut text = Text::new(alloc);
    for pair in subst.pairs.items() {
        append_pair(alloc, &mut text, pair)?;
    }
    Ok(text)
}

fn append_pair(alloc: Global, text: &mut Text, pair: &Pair) -> Result<(), NoMemory> {
    text.append(pair.variable.bytes())?;
    text.push(b' ')?;
    text.append(print_form(alloc, &pair.term)?.bytes())?;
    text.push(b';')
}

/// The outcome for the two parts of the text's one list after its head.
fn outcome(alloc: Global, text: &str, matching: bool) -> Result<Text, Fail> {
    let forms = forms_of(alloc, text)?;
    let [form] = forms.items() else {
        return Ok(Text::of(alloc, b"not one form")?);
    };
    let [first, second] = after_head(form) else {
        return Ok(Text::of(alloc, b"not two parts")?);
    };
    if matching {
        return Ok(matched(alloc, first, second)?);
    }
    Ok(unified(alloc, first, second)?)
}

fn is_subsumed(alloc: Global, general: &str, special: &str) -> Result<bool, Fail> {
    let general = clause(alloc, general)?;
    let special = clause(alloc, special)?;
    Ok(subsumes(alloc, &general, &special)?)
}

#[test]
fn unifiers_make_forms_equal(rt: HostRuntime) -> Result<(), Fail> {
    let table = [
        (
            "(u (p ?X (fFn ?Y)) (p (fFn ?Z) ?X))",
            "(p (fFn ?Z) (fFn ?Z))",
        ),
        ("(u ?X (fFn ?X))", "none"),
        ("(u (fFn ?X) ?X)", "none"),
        ("(u ?X a)", "a"),
        ("(u a ?X)", "a"),
        ("(u a a)", "a"),
        ("(u a b)", "none"),
        ("(u ?X ?X)", "?X"),
        ("(u ?X ?Y)", "?Y"),
        ("(u (f ?X b) (f a ?Y))", "(f a b)"),
        ("(u (f ?X ?X) (f a b))", "none"),
        ("(u (f ?X ?X) (f ?Y a))", "(f a a)"),
        ("(u (f a) (g a))", "none"),
        ("(u (f a) (f a a))", "none"),
        ("(u (f ?X (g ?X)) (f ?Y ?Z))", "(f ?Y (g ?Y))"),
        ("(u (f ?X ?Y) (f (g ?Y) (g ?X)))", "none"),
        ("(u (?X a) (p ?Y))", "(p a)"),
        ("(u (f @R) (f a))", "none"),
        ("(u (f 1) (f \"1\"))", "none"),
        ("(u (f ?X \"s\") (f 1 ?Y))", "(f 1 \"s\")"),
    ];
    for (text, want) in table {
        assert_eq!(rt; outcome(rt.alloc(), text, false)?.bytes(), want.as_bytes());
    }
    Ok(())
}

#[test]
fn patterns_match_targets(rt: HostRuntime) -> Result<(), Fail> {
    let table = [
        ("(m (p ?X) (p a))", "X a;"),
        ("(m (p a) (p ?X))", "none"),
        ("(m ?X a)", "X a;"),
        ("(m (f ?X ?X) (f a a))", "X a;"),
        ("(m (f ?X ?X) (f a b))", "none"),
        ("(m (f ?X ?Y) (f ?Y ?X))", "X ?Y;Y ?X;"),
        ("(m (f ?X) (f (g ?X)))", "X (g ?X);"),
        ("(m (f ?X a) (f ?Y ?Y))", "none"),
        ("(m (f a) (g a))", "none"),
        ("(m (f ?X) (f a b))", "none"),
        ("(m ?X ?X)", "X ?X;"),
        ("(m (?X ?Y ?X) (p a p))", "X p;Y a;"),
        ("(m (f a) (f a))", ""),
        ("(m (f @R) (f @R))", ""),
        ("(m (f @R) (f a))", "none"),
    ];
    for (text, want) in table {
        assert_eq!(rt; outcome(rt.alloc(), text, true)?.bytes(), want.as_bytes());
    }
    Ok(())
}

#[test]
fn different_literals_become_different_ones(rt: HostRuntime) -> Result<(), Fail> {
    let table = [
        ("(or (p ?X) (p ?Y))", "(p a)", false),
        ("(p ?X)", "(or (p a) (q b))", true),
        ("(p ?X)", "(p a)", true),
        ("(p a)", "(p ?X)", false),
        ("(p ?X)", "(p ?Y)", true),
        ("(or (p ?X) (p ?Y))", "(or (p a) (p b))", true),
        ("(or (p ?X) (q ?X))", "(or (q b) (p a) (p b))", true),
        ("(or (p ?X) (q ?X))", "(or (p a) (q b))", false),
        ("(not (p ?X))", "(p a)", false),
        ("(p ?X)", "(not (p a))", false),
        ("", "(p a)", true),
        ("", "", true),
        ("(p a)", "", false),
        ("(or (r ?X ?Y) (r ?Y ?Z))", "(or (r b c) (r a b))", true),
        ("(or (r ?X ?Y) (r ?Y ?Z))", "(or (r a b) (r c d))", false),
        ("(p ?X ?X)", "(p a b)", false),
        ("(p ?X ?X)", "(p (fFn b) (fFn b))", true),
        ("(p ?X)", "(p a b)", false),
        ("(or (p ?X) (answer ?X))", "(or (p a) (answer a))", true),
        ("(or (p ?X) (answer ?X))", "(or (p a) (answer b))", false),
        ("(or (p a) (p a))", "(or (p a) (q a))", false),
    ];
    for (general, special, want) in table {
        assert_eq!(rt; is_subsumed(rt.alloc(), general, special)?, want);
    }
    Ok(())
}

/// A chain of fourteen literals from `?X1` to `?X14`, as a transitive rule makes it.
const CHAIN: &str =
    "(or (r ?X1 ?X14) (not (r ?X1 ?X2)) (not (r ?X2 ?X3)) (not (r ?X3 ?X4)) (not (r ?X4 ?X5)) (not (r ?X5 ?X6)) (not (r ?X6 ?X7)) (not (r ?X7 ?X8)) (not (r ?X8 ?X9)) (not (r ?X9 ?X10)) (not (r ?X10 ?X11)) (not (r ?X11 ?X12)) (not (r ?X12 ?X13)) (not (r ?X13 ?X14)))";

/// The same chain, every second link first.
const TURNED: &str =
    "(or (not (r ?X2 ?X3)) (not (r ?X4 ?X5)) (not (r ?X6 ?X7)) (not (r ?X8 ?X9)) (not (r ?X10 ?X11)) (not (r ?X12 ?X13)) (not (r ?X1 ?X2)) (not (r ?X3 ?X4)) (not (r ?X5 ?X6)) (not (r ?X7 ?X8)) (not (r ?X9 ?X10)) (not (r ?X11 ?X12)) (not (r ?X13 ?X14)) (r ?X1 ?X14))";

/// A chain that breaks off before its last link.
const BROKEN: &str =
    "(or (r ?X1 ?X14) (not (r ?X1 ?X2)) (not (r ?X2 ?X3)) (not (r ?X3 ?X4)) (not (r ?X4 ?X5)) (not (r ?X5 ?X6)) (not (r ?X6 ?X7)) (not (r ?X7 ?X8)) (not (r ?X8 ?X9)) (not (r ?X9 ?X10)) (not (r ?X10 ?X11)) (not (r ?X11 ?X12)) (not (r ?X12 ?X13)) (not (r ?X15 ?X14)))";

/// Fourteen literals that all look alike, one of which turns back.
const ALIKE: &str =
    "(or (r ?X1 ?X2) (r ?X2 ?X3) (r ?X3 ?X4) (r ?X4 ?X5) (r ?X5 ?X6) (r ?X6 ?X7) (r ?X7 ?X8) (r ?X8 ?X9) (r ?X9 ?X10) (r ?X10 ?X11) (r ?X11 ?X12) (r ?X12 ?X13) (r ?X13 ?X14) (r ?X15 ?X15))";

/// Fourteen literals in a ring, none of which turns back.
const RING: &str =
    "(or (r ?X1 ?X2) (r ?X2 ?X3) (r ?X3 ?X4) (r ?X4 ?X5) (r ?X5 ?X6) (r ?X6 ?X7) (r ?X7 ?X8) (r ?X8 ?X9) (r ?X9 ?X10) (r ?X10 ?X11) (r ?X11 ?X12) (r ?X12 ?X13) (r ?X13 ?X14) (r ?X14 ?X1))";

#[test]
fn fourteen_literals_find_their_places(rt: HostRuntime) -> Result<(), Fail> {
    let table = [
        (CHAIN, CHAIN, true),
        (CHAIN, TURNED, true),
        (TURNED, CHAIN, true),
        (CHAIN, BROKEN, false),
        (TURNED, BROKEN, false),
        (BROKEN, TURNED, true),
        (ALIKE, RING, false),
        (RING, ALIKE, false),
    ];
    for (general, special, want) in table {
        assert_eq!(rt; is_subsumed(rt.alloc(), general, special)?, want);
    }
    Ok(())
}

#[test]
fn a_set_may_be_empty(rt: HostRuntime) -> Result<(), Fail> {
    let set = ClauseSet::of(Listed::new(rt.alloc()))?;
    assert_eq!(rt; set.inputs().len(), 0);
    Ok(())
}
