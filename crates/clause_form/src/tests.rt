//! Clauses of forms and of queries, against values worked by hand.
use crate::{ClauseForm, QueryError, SkolemBase, clauses, count_clauses, negate_query};
use kif_reader::{ReadError, Spot, read_forms};
use kif_tree::{Clause, Located, Text, print_clause};
use std::alloc::Global;
use std::test::Fail;

fn lines(alloc: Global, list: &[Clause]) -> Result<Text, Fail> {
    let mut out = Text::new(alloc);
    for clause in list {
        out.append(print_clause(alloc, clause)?.bytes())?;
        out.push(b'\n')?;
    }
    Ok(out)
}

/// The forms of a text that isn't longer than a reader may take.
fn forms_of(alloc: Global, text: &[u8], load: u32) -> Result<Vec<Located>, Fail> {
    if text.len() >= 1 << 31 {
        return Ok(Vec::new(alloc));
    }
    Ok(read_forms(alloc, text, load)?)
}

/// The clauses of the text's one form, each in a line, where it is form 3 of load 2 and variant 4.
fn shown(alloc: Global, text: &str) -> Result<Text, Fail> {
    let forms = forms_of(alloc, text.as_bytes(), 2)?;
    let base = SkolemBase {
        load: 2,
        form: 3,
        variant: 4,
    };
    let [located] = forms.as_slice() else {
        return Ok(Text::new(alloc));
    };
    match clauses(alloc, &located.form, base)? {
        ClauseForm::Clauses(list) => lines(alloc, list.items()),
        ClauseForm::TooMany => Ok(Text::of(alloc, b"too many")?),
    }
}

#[test]
fn connectives_are_read_with_a_sign(rt: HostRuntime) -> Result<(), Fail> {
    let table = [
        ("(p a)", "(p a)\n"),
        ("(not (p a))", "(not (p a))\n"),
        ("(not (not (p a)))", "(p a)\n"),
        ("(and (p a) (q a))", "(p a)\n(q a)\n"),
        ("(not (and (p a) (q a)))", "(or (not (p a)) (not (q a)))\n"),
        ("(or (p a) (q a) (r a))", "(or (p a) (q a) (r a))\n"),
        ("(not (or (p a) (q a)))", "(not (p a))\n(not (q a))\n"),
        ("(=> (p a) (q a))", "(or (not (p a)) (q a))\n"),
        ("(not (=> (p a) (q a)))", "(p a)\n(not (q a))\n"),
        (
            "(<=> (p a) (q a))",
            "(or (not (p a)) (q a))\n(or (not (q a)) (p a))\n",
        ),
        (
            "(not (<=> (p a) (q a)))",
            "(or (p a) (q a))\n(or (not (p a)) (not (q a)))\n",
        ),
        (
            "(or (and (a1) (b1)) (and (a2) (b2)))",
            "(or (a1) (a2))\n(or (a1) (b2))\n(or (b1) (a2))\n(or (b1) (b2))\n",
        ),
        (
            "(=> (or (p a) (q a)) (and (r a) (s a)))",
            "(or (not (p a)) (r a))\n(or (not (p a)) (s a))\n(or (not (q a)) (r a))\n(or (not (q a)) (s a))\n",
        ),
        ("(or (p a) (not (q b)) (p a))", "(or (p a) (not (q b)))\n"),
        ("(and (p a) (p a))", "(p a)\n(p a)\n"),
    ];
    for (text, want) in &table {
        let found = shown(rt.alloc(), text)?;
        assert_eq!(rt; found.bytes(), want.as_bytes());
    }
    Ok(())
}

#[test]
fn quantifiers_bind_variables_or_give_skolem_terms(rt: HostRuntime) -> Result<(), Fail> {
    let table = [
        ("(forall (?Y ?X) (p ?X ?Y))", "(p ?X1 ?X2)\n"),
        ("(exists (?X) (p ?X))", "(p !2.3.4.1)\n"),
        ("(exists (?X ?Y ?X) (p ?Y ?X))", "(p !2.3.4.2 !2.3.4.1)\n"),
        ("(not (forall (?X) (p ?X)))", "(not (p !2.3.4.1))\n"),
        ("(not (exists (?X) (p ?X)))", "(not (p ?X1))\n"),
        (
            "(forall (?X ?Y) (exists (?Z) (p ?Z ?Y)))",
            "(p (!2.3.4.1 ?X1 ?X2) ?X2)\n",
        ),
        (
            "(forall (?X) (exists (?Y) (forall (?Z) (exists (?W) (p ?W ?Y)))))",
            "(p (!2.3.4.2 ?X1 ?X2) (!2.3.4.1 ?X1))\n",
        ),
        (
            "(forall (?X) (forall (?X) (exists (?Y) (p ?X ?Y))))",
            "(p ?X1 (!2.3.4.1 ?X2 ?X1))\n",
        ),
        (
            "(or (forall (?X) (p ?X)) (forall (?X) (q ?X)))",
            "(or (p ?X1) (q ?X2))\n",
        ),
        (
            "(and (exists (?X) (p ?X)) (exists (?X) (q ?X)))",
            "(p !2.3.4.1)\n(q !2.3.4.2)\n",
        ),
        (
            "(<=> (p a) (exists (?X) (q ?X)))",
            "(or (not (p a)) (q !2.3.4.1))\n(or (not (q ?X1)) (p a))\n",
        ),
        (
            "(<=> (exists (?X) (p ?X)) (exists (?X) (q ?X)))",
            "(or (not (p ?X1)) (q !2.3.4.1))\n(or (not (q ?X1)) (p !2.3.4.2))\n",
        ),
        (
            "(not (<=> (exists (?X) (p ?X)) (exists (?X) (q ?X))))",
            "(or (p !2.3.4.1) (q !2.3.4.2))\n(or (not (p ?X1)) (not (q ?X2)))\n",
        ),
        (
            "(forall (?X) (=> (forall (?Y) (p ?X ?Y)) (q ?X)))",
            "(or (not (p ?X1 (!2.3.4.1 ?X1))) (q ?X1))\n",
        ),
        (
            "(<=> (exists (?X) (p ?X)) (<=> (q a) (exists (?Y) (r ?Y))))",
            "(or (not (p ?X1)) (not (q a)) (r !2.3.4.1))\n(or (not (p ?X1)) (not (r ?X2)) (q a))\n(or (q a) (r !2.3.4.2) (p !2.3.4.3))\n(or (not (q a)) (not (r ?X1)) (p !2.3.4.3))\n",
        ),
        (
            "(forall (?X ?Z) (exists (?X) (p ?X)))",
            "(p (!2.3.4.1 ?X1 ?X2))\n",
        ),
        (
            "(forall (?X ?Y) (or (p ?Y ?X) (p ?Y ?X) (q ?X)))",
            "(or (p ?X1 ?X2) (q ?X2))\n",
        ),
    ];
    for (text, want) in &table {
        let found = shown(rt.alloc(), text)?;
        assert_eq!(rt; found.bytes(), want.as_bytes());
    }
    Ok(())
}

/// `(or (and (a1) (b1)) .. (and (ak) (bk)))`, which has as many clauses as two to the k.
fn pairs(alloc: Global, count: u64) -> Result<Text, Fail> {
    let mut text = Text::of(alloc, b"(or")?;
    for number in 1..=count {
        text.append(b" (and (a")?;
        text.append_decimal(number)?;
        text.append(b") (b")?;
        text.append_decimal(number)?;
        text.append(b"))")?;
    }
    text.append(b")")?;
    Ok(text)
}

/// `(<=> (a1) (<=> (a2) .. (<=> (ak) (an)) ..))` with k times `<=>`.
fn equivalences(alloc: Global, count: u64) -> Result<Text, Fail> {
    let mut text = Text::new(alloc);
    for number in 1..=count {
        text.append(b"(<=> (a")?;
        text.append_decimal(number)?;
        text.append(b") ")?;
    }
    text.append(b"(an)")?;
    for _ in 0..count {
        text.push(b')')?;
    }
    Ok(text)
}

fn counted(alloc: Global, text: &Text) -> Result<u32, Fail> {
    let forms = forms_of(alloc, text.bytes(), 1)?;
    match forms.as_slice() {
        [located] => Ok(count_clauses(&located.form)),
        _ => Ok(0),
    }
}

#[test]
fn clauses_are_counted_up_to_the_limit(rt: HostRuntime) -> Result<(), Fail> {
    let table = [(1, 2), (11, 2048), (12, 4096), (13, 4097), (199, 4097)];
    for (count, want) in &table {
        assert_eq!(rt; counted(rt.alloc(), &pairs(rt.alloc(), *count)?)?, *want);
    }
    let table = [(1, 2), (11, 2048), (12, 4096), (13, 4097), (199, 4097)];
    for (count, want) in &table {
        assert_eq!(rt;
            counted(rt.alloc(), &equivalences(rt.alloc(), *count)?)?,
            *want
        );
    }
    Ok(())
}

#[test]
fn sizes_differ_by_sign(rt: HostRuntime) -> Result<(), Fail> {
    let table = [
        ("(<=> (and (a) (b)) (and (c) (d)))", 4),
        ("(not (<=> (and (a) (b)) (and (c) (d))))", 5),
        ("(and (a) (b) (c))", 3),
        ("(not (and (a) (b) (c)))", 1),
        ("(or (and (a) (b)) (and (c) (d)))", 4),
        ("(not (or (and (a) (b)) (and (c) (d))))", 2),
        ("(=> (or (a) (b)) (and (c) (d) (e)))", 6),
        ("(not (=> (or (a) (b)) (and (c) (d) (e))))", 2),
        ("(exists (?X) (and (p ?X) (q ?X)))", 2),
    ];
    for (text, want) in &table {
        let text = Text::of(rt.alloc(), text.as_bytes())?;
        assert_eq!(rt; counted(rt.alloc(), &text)?, *want);
        assert_eq!(rt; how_many(rt.alloc(), &text)?, Some(*want as usize));
    }
    Ok(())
}

fn how_many(alloc: Global, text: &Text) -> Result<Option<usize>, Fail> {
    let forms = forms_of(alloc, text.bytes(), 1)?;
    let base = SkolemBase {
        load: 1,
        form: 1,
        variant: 1,
    };
    let [located] = forms.as_slice() else {
        return Ok(Some(0));
    };
    match clauses(alloc, &located.form, base)? {
        ClauseForm::Clauses(list) => Ok(Some(list.items().len())),
        ClauseForm::TooMany => Ok(None),
    }
}

#[test]
fn more_clauses_than_the_limit_are_too_many(rt: HostRuntime) -> Result<(), Fail> {
    let table = [(12, Some(4096)), (13, None), (199, None)];
    for (count, want) in &table {
        assert_eq!(rt; how_many(rt.alloc(), &pairs(rt.alloc(), *count)?)?, *want);
        assert_eq!(rt;
            how_many(rt.alloc(), &equivalences(rt.alloc(), *count)?)?,
            *want
        );
    }
    Ok(())
}

#[test]
fn queries_are_negated_and_show_their_variables(rt: HostRuntime) -> Result<(), Fail> {
    let table = [
        ("(p a)", "(or (not (p a)) (!answer))\n", ""),
        ("(p ?X)", "(or (not (p ?X1)) (!answer ?X1))\n", "X "),
        (
            "(and (p ?Y) (q ?X ?Y))",
            "(or (not (p ?X1)) (not (q ?X2 ?X1)) (!answer ?X1 ?X2))\n",
            "Y X ",
        ),
        (
            "(and (forall (?X ?Y) (r ?X ?Y)) (q ?Y) (p ?X))",
            "(or (not (r (!query.1 ?X1 ?X2) (!query.2 ?X1 ?X2))) (not (q ?X1)) (not (p ?X2)) (!answer ?X1 ?X2))\n",
            "Y X ",
        ),
        (
            "(or (p ?X) (q ?X))",
            "(or (not (p ?X1)) (!answer ?X1))\n(or (not (q ?X1)) (!answer ?X1))\n",
            "X ",
        ),
        (
            "(exists (?Y) (p ?X ?Y))",
            "(or (not (p ?X1 ?X2)) (!answer ?X1))\n",
            "X ",
        ),
        ("(not (p ?X))", "(or (p ?X1) (!answer ?X1))\n", "X "),
        (
            "(and (p ?X) (exists (?X) (q ?X)))",
            "(or (not (p ?X1)) (not (q ?X2)) (!answer ?X1))\n",
            "X ",
        ),
        (
            "(=> (p ?Y) (q ?X))",
            "(or (p ?X1) (!answer ?X1 ?X2))\n(or (not (q ?X1)) (!answer ?X2 ?X1))\n",
            "Y X ",
        ),
    ];
    for (text, want, names) in &table {
        let query = negate_query(rt.alloc(), text.as_bytes())?;
        let found = lines(rt.alloc(), query.clauses.items())?;
        assert_eq!(rt; found.bytes(), want.as_bytes());
        let mut asked = Text::new(rt.alloc());
        for name in query.asked.items() {
            asked.append(name.bytes())?;
            asked.push(b' ')?;
        }
        assert_eq!(rt; asked.bytes(), names.as_bytes());
    }
    Ok(())
}

/// The number of the refusal in its order; 0 for a query.
fn code(alloc: Global, text: &[u8]) -> u32 {
    if text.len() >= 1 << 31 {
        return 8;
    }
    match negate_query(alloc, text) {
        Ok(_) => 0,
        Err(QueryError::Syntax(_)) => 1,
        Err(QueryError::NotOneForm) => 2,
        Err(QueryError::RowVariable) => 3,
        Err(QueryError::PredicateVariable) => 4,
        Err(QueryError::HigherOrder) => 5,
        Err(QueryError::TooManyClauses) => 6,
        Err(QueryError::NoMemory) => 7,
    }
}

#[test]
fn the_first_refusal_of_a_query_is_told(rt: HostRuntime) -> Result<(), Fail> {
    let table = [
        ("(p a)", 0),
        ("", 2),
        ("; nothing", 2),
        ("(p a) (p b)", 2),
        ("(p @R) (p b)", 2),
        ("(p @R)", 3),
        ("(?R @R (q a))", 3),
        ("(forall (@R) (p a))", 3),
        ("(exists (?X @R) (?X a))", 3),
        ("(?R a)", 4),
        ("(p (?F a))", 4),
        ("(exists (?R) (?R a))", 4),
        ("(and (?R a) (p (q a)))", 4),
        ("(p (q a))", 5),
        ("(and (p a) (qFn a))", 5),
        ("(p (not (q a)))", 5),
    ];
    for (text, want) in &table {
        assert_eq!(rt; code(rt.alloc(), text.as_bytes()), *want);
    }
    Ok(())
}

#[test]
fn a_text_with_a_fault_is_no_query(rt: HostRuntime) -> Result<(), Fail> {
    match negate_query(rt.alloc(), b"(p") {
        Err(QueryError::Syntax(ReadError::OpenList(Spot { line, column }))) => {
            assert_eq!(rt; line, 1);
            assert_eq!(rt; column, 1);
        }
        _ => assert_eq!(rt; 0, 1),
    }
    assert_eq!(rt; code(rt.alloc(), b"p"), 1);
    assert_eq!(rt; code(rt.alloc(), b"(@R a)"), 1);
    Ok(())
}

#[test]
fn the_negation_of_a_query_is_counted(rt: HostRuntime) -> Result<(), Fail> {
    let table = [(12, 0), (13, 6)];
    for (count, want) in &table {
        let text = equivalences(rt.alloc(), *count)?;
        assert_eq!(rt; code(rt.alloc(), text.bytes()), *want);
    }
    // each pair is one clause of the negation
    let text = pairs(rt.alloc(), 199)?;
    assert_eq!(rt; code(rt.alloc(), text.bytes()), 0);
    Ok(())
}
