//! Each public call once, against values worked by hand.
use crate::*;
use sigma_base::{Listed, NoMemory};
use std::alloc::Global;
use std::cmp::Ordering;
use std::mem::replace;
use std::test::Fail;

// ---- fixtures: `?X` spells a variable, `@R` a row variable, `"s` a string, a digit begins a numeral

fn leaf(alloc: Global, spelled: &str) -> Result<Form, NoMemory> {
    leaf_of(alloc, spelled.as_bytes())
}

pub(crate) fn leaf_of(alloc: Global, spelled: &[u8]) -> Result<Form, NoMemory> {
    match spelled {
        [b'?', name @ ..] => Ok(Form::Variable(Text::of(alloc, name)?)),
        [b'@', name @ ..] => Ok(Form::Row(Text::of(alloc, name)?)),
        [b'"', text @ ..] => Ok(Form::Quoted(Text::of(alloc, text)?)),
        [b'0'..=b'9', ..] => Ok(Form::Numeral(Text::of(alloc, spelled)?)),
        _ => Ok(Form::Word(Text::of(alloc, spelled)?)),
    }
}

fn leaves(alloc: Global, spelled: &[&str]) -> Result<Forms, NoMemory> {
    let mut parts = Listed::new(alloc);
    for part in spelled {
        parts.push(leaf(alloc, part)?)?;
    }
    Ok(parts)
}

fn flat(alloc: Global, spelled: &[&str]) -> Result<Form, NoMemory> {
    Ok(Form::List(leaves(alloc, spelled)?))
}

// the outer leaves, and then the inner ones as a list
fn nested(alloc: Global, outer: &[&str], inner: &[&str]) -> Result<Form, NoMemory> {
    let mut parts = leaves(alloc, outer)?;
    parts.push(flat(alloc, inner)?)?;
    Ok(Form::List(parts))
}

// (p "a\"b\\c" @ROW 12 (f ?X) ())
fn of_all_kinds(alloc: Global) -> Result<Form, NoMemory> {
    let mut parts = leaves(alloc, &["p", "\"a\"b\\c", "@ROW", "12"])?;
    parts.push(flat(alloc, &["f", "?X"])?)?;
    parts.push(flat(alloc, &[])?)?;
    Ok(Form::List(parts))
}

fn literal(alloc: Global, positive: bool, spelled: &[&str]) -> Result<Literal, NoMemory> {
    Ok(Literal {
        positive,
        atom: flat(alloc, spelled)?,
    })
}

fn subst(alloc: Global, spelled: &[(&str, &str)]) -> Result<Subst, NoMemory> {
    let mut pairs = Listed::new(alloc);
    for (variable, term) in spelled {
        pairs.push(Pair {
            variable: Text::of(alloc, variable.as_bytes())?,
            term: leaf(alloc, term)?,
        })?;
    }
    Ok(Subst { pairs })
}

fn clause(alloc: Global, spelled: &[(bool, &[&str])]) -> Result<Clause, NoMemory> {
    let mut literals = Listed::new(alloc);
    for (positive, atom) in spelled {
        literals.push(literal(alloc, *positive, atom)?)?;
    }
    Ok(Clause { literals })
}

fn printed(alloc: Global, form: Form) -> Result<Text, NoMemory> {
    print_form(alloc, &form)
}

// ---- texts

fn grown(alloc: Global) -> Result<Text, NoMemory> {
    let mut text = Text::new(alloc);
    text.append(b"a:")?;
    text.append_decimal(0)?;
    text.push(b' ')?;
    text.append_decimal(18446744073709551615)?;
    Ok(text)
}

#[test]
fn text_grows_at_its_end(rt: HostRuntime) -> Result<(), Fail> {
    let text = grown(rt.alloc())?.copy(rt.alloc())?;
    assert_eq!(rt; text.bytes(), b"a:0 18446744073709551615".as_slice());
    let made = Text::of_bytes([97, 255].to_vec(rt.alloc())?);
    assert_eq!(rt; made.bytes(), [97, 255].as_slice());
    Ok(())
}

fn compared(alloc: Global, first: &[u8], second: &[u8]) -> Result<(Ordering, bool), NoMemory> {
    let first = Text::of(alloc, first)?;
    let second = Text::of(alloc, second)?;
    Ok((first.cmp(&second), first.equals(&second)))
}

#[test]
fn texts_are_ordered_by_their_bytes(rt: HostRuntime) -> Result<(), Fail> {
    let table: [(&[u8], &[u8], Ordering); 5] = [
        (b"a", b"a", Ordering::Equal),
        (b"a", b"a0", Ordering::Less),
        (b"Z", b"a", Ordering::Less),
        (b"a9", b"a10", Ordering::Greater),
        (b"\xc3\xa9", b"z", Ordering::Greater),
    ];
    for (first, second, want) in &table {
        let found = compared(rt.alloc(), first, second)?;
        assert_eq!(rt; found, (*want, *want == Ordering::Equal));
    }
    Ok(())
}

// ---- printed texts

fn copied(alloc: Global, form: Form) -> Result<Form, NoMemory> {
    form.copy(alloc)
}

#[test]
fn prints_a_form_of_all_kinds(rt: HostRuntime) -> Result<(), Fail> {
    let copy = copied(rt.alloc(), of_all_kinds(rt.alloc())?)?;
    let text = printed(rt.alloc(), copy)?;
    assert_eq!(rt;
        text.bytes(),
        b"(p \"a\\\"b\\\\c\" @ROW 12 (f ?X) ())".as_slice()
    );
    Ok(())
}

fn printed_clause(alloc: Global, spelled: &[(bool, &[&str])]) -> Result<Text, NoMemory> {
    let clause = clause(alloc, spelled)?;
    let copy = clause.copy(alloc)?;
    print_clause(alloc, &copy)
}

#[test]
fn prints_clauses(rt: HostRuntime) -> Result<(), Fail> {
    let table: [(&[(bool, &[&str])], &str); 4] = [
        (&[], "false"),
        (&[(true, &["p", "a"])], "(p a)"),
        (&[(false, &["p", "a"])], "(not (p a))"),
        (
            &[(true, &["p", "?X1"]), (false, &["q"])],
            "(or (p ?X1) (not (q)))",
        ),
    ];
    for (literals, want) in &table {
        let text = printed_clause(rt.alloc(), literals)?;
        assert_eq!(rt; text.bytes(), want.as_bytes());
    }
    Ok(())
}

fn names(alloc: Global) -> Result<Listed<LoadName>, NoMemory> {
    let mut names = Listed::new(alloc);
    for (number, name) in [(1, "one"), (2, "geo"), (2, "other")] {
        names.push(LoadName {
            number,
            name: Text::of(alloc, name.as_bytes())?,
        })?;
    }
    Ok(names)
}

fn printed_place(alloc: Global, constituent: u32) -> Result<Text, NoMemory> {
    let place = Place {
        constituent,
        form: 5,
        line: 3,
        column: 17,
    };
    print_place(alloc, names(alloc)?.items(), &place)
}

#[test]
fn prints_places(rt: HostRuntime) -> Result<(), Fail> {
    for (constituent, want) in [(1, "one:3:17"), (2, "geo:3:17"), (7, ":3:17")] {
        let text = printed_place(rt.alloc(), constituent)?;
        assert_eq!(rt; text.bytes(), want.as_bytes());
    }
    Ok(())
}

// ---- what a form is made of

// ground, without a row variable, with ?X in it
fn holds(alloc: Global, outer: &[&str], inner: &[&str]) -> Result<(bool, bool, bool), NoMemory> {
    let form = nested(alloc, outer, inner)?;
    let name = Text::of(alloc, b"X")?;
    Ok((is_ground(&form), has_no_row(&form), occurs(&name, &form)))
}

#[test]
fn tells_what_occurs(rt: HostRuntime) -> Result<(), Fail> {
    let table: [(&[&str], &[&str], (bool, bool, bool)); 5] = [
        (&["p", "X", "\"X", "12"], &["f", "a"], (true, true, false)),
        (&["p", "a"], &["f", "?X"], (false, true, true)),
        (&["p", "?Y"], &["f", "?x"], (false, true, false)),
        (&["p", "@X"], &["f", "a"], (false, false, false)),
        (&["p", "?X"], &["f", "@R"], (false, false, true)),
    ];
    for (outer, inner, want) in &table {
        assert_eq!(rt; holds(rt.alloc(), outer, inner)?, *want);
    }
    Ok(())
}

fn levels_and_symbols(alloc: Global, spelled: &[&str]) -> Result<(u64, u64), NoMemory> {
    let form = flat(alloc, spelled)?;
    Ok((depth(&form), symbols(&form)))
}

// nested in an argument, and at the head alone
fn levels_within(alloc: Global) -> Result<(u64, u64), NoMemory> {
    let form = nested(alloc, &["p", "?X"], &["f", "?X", "12"])?;
    let mut parts = leaves(alloc, &[])?;
    parts.push(flat(alloc, &["f", "a"])?)?;
    Ok((depth(&form), depth(&Form::List(parts))))
}

#[test]
fn counts_levels_and_symbols(rt: HostRuntime) -> Result<(), Fail> {
    let table: [(&[&str], (u64, u64)); 4] = [
        (&[], (1, 0)),
        (&["p", "@R", "a"], (1, 2)),
        (&["p"], (1, 1)),
        (&["p", "?X", "\"s", "12"], (1, 4)),
    ];
    for (spelled, want) in &table {
        assert_eq!(rt; levels_and_symbols(rt.alloc(), spelled)?, *want);
    }
    assert_eq!(rt; levels_within(rt.alloc())?, (2, 1));
    Ok(())
}

fn joined(alloc: Global, names: Listed<Text>) -> Result<Text, NoMemory> {
    let mut out = Text::new(alloc);
    for name in names.items() {
        out.append(name.bytes())?;
        out.push(b' ')?;
    }
    Ok(out)
}

fn found(alloc: Global) -> Result<Text, NoMemory> {
    let form = nested(alloc, &["p", "?Y", "@R"], &["f", "?X", "?Y", "?Z"])?;
    joined(alloc, variables_of(alloc, &form)?)
}

fn found_in_clause(alloc: Global) -> Result<Text, NoMemory> {
    let clause = clause(
        alloc,
        &[
            (true, &["p", "?Y", "@R"]),
            (false, &["q", "?X", "?Y", "?Z"]),
        ],
    )?;
    joined(alloc, variables_in(alloc, clause.literals.items())?)
}

#[test]
fn finds_each_variable_once(rt: HostRuntime) -> Result<(), Fail> {
    let text = found(rt.alloc())?;
    assert_eq!(rt; text.bytes(), b"Y X Z ".as_slice());
    let text = found_in_clause(rt.alloc())?;
    assert_eq!(rt; text.bytes(), b"Y X Z ".as_slice());
    Ok(())
}

// headed by p, and an answer
fn heads(alloc: Global, spelled: &[&str]) -> Result<(bool, bool), NoMemory> {
    let form = flat(alloc, spelled)?;
    Ok((is_headed(&form, b"p"), is_answer(&form)))
}

#[test]
fn knows_heads(rt: HostRuntime) -> Result<(), Fail> {
    let table: [(&[&str], (bool, bool)); 4] = [
        (&["p", "!answer"], (true, false)),
        (&["!answer", "p"], (false, true)),
        (&["?p", "p"], (false, false)),
        (&[], (false, false)),
    ];
    for (spelled, want) in &table {
        assert_eq!(rt; heads(rt.alloc(), spelled)?, *want);
    }
    Ok(())
}

// ---- substitutions

// of (p ?X @X (f ?Y ?Z))
fn replaced(alloc: Global, pairs: &[(&str, &str)]) -> Result<Text, NoMemory> {
    let subst = subst(alloc, pairs)?;
    let form = nested(alloc, &["p", "?X", "@X"], &["f", "?Y", "?Z"])?;
    printed(alloc, substitute(alloc, &form, &subst)?)
}

#[test]
fn replaces_all_variables_at_once(rt: HostRuntime) -> Result<(), Fail> {
    let table: [(&[(&str, &str)], &str); 3] = [
        (&[], "(p ?X @X (f ?Y ?Z))"),
        (&[("X", "?Y"), ("Y", "?X")], "(p ?Y @X (f ?X ?Z))"),
        (&[("X", "a"), ("X", "b"), ("Z", "?X")], "(p a @X (f ?Y ?X))"),
    ];
    for (pairs, want) in &table {
        let text = replaced(rt.alloc(), pairs)?;
        assert_eq!(rt; text.bytes(), want.as_bytes());
    }
    Ok(())
}

// X becomes (f ?Y)
fn deeper(alloc: Global) -> Result<Subst, NoMemory> {
    let mut pairs = Listed::new(alloc);
    pairs.push(Pair {
        variable: Text::of(alloc, b"X")?,
        term: flat(alloc, &["f", "?Y"])?,
    })?;
    Ok(Subst { pairs })
}

fn composed(alloc: Global) -> Result<Subst, NoMemory> {
    let first = deeper(alloc)?;
    followed_by(alloc, &first, subst(alloc, &[("Y", "a"), ("X", "b")])?)
}

fn replaced_twice(alloc: Global) -> Result<Text, NoMemory> {
    let both = composed(alloc)?;
    let form = flat(alloc, &["p", "?X", "?Y", "?Z"])?;
    printed(alloc, substitute(alloc, &form, &both)?)
}

#[test]
fn replaces_one_after_another(rt: HostRuntime) -> Result<(), Fail> {
    let text = replaced_twice(rt.alloc())?;
    assert_eq!(rt; text.bytes(), b"(p (f a) a ?Z)".as_slice());
    Ok(())
}

fn filled(alloc: Global, unnamed: Unnamed) -> Result<Text, NoMemory> {
    let subst = subst(alloc, &[("X", "a")])?;
    let form = flat(alloc, &["p", "?X", "?Y"])?;
    printed(alloc, fill(alloc, &form, subst.pairs.items(), unnamed)?)
}

#[test]
fn fills_what_no_pair_names(rt: HostRuntime) -> Result<(), Fail> {
    let table = [
        (Unnamed::Stays, "(p a ?Y)"),
        (Unnamed::BecomesAny, "(p a !any)"),
    ];
    for (unnamed, want) in &table {
        let text = filled(rt.alloc(), *unnamed)?;
        assert_eq!(rt; text.bytes(), want.as_bytes());
    }
    Ok(())
}

fn instance(alloc: Global, spelled: &[(bool, &[&str])]) -> Result<Text, NoMemory> {
    let clause = clause(alloc, spelled)?;
    let subst = subst(alloc, &[("X", "a"), ("X", "b")])?;
    let instance = ground_instance(alloc, &clause, subst.pairs.items())?;
    print_clause(alloc, &instance)
}

#[test]
fn instances_are_ground_and_without_answers(rt: HostRuntime) -> Result<(), Fail> {
    let table: [(&[(bool, &[&str])], &str); 3] = [
        (
            &[
                (true, &["p", "?X", "?Y"]),
                (false, &["q", "?X"]),
                (true, &["!answer", "?X"]),
            ],
            "(or (p a !any) (not (q a)))",
        ),
        (
            &[(false, &["!answer", "b"]), (true, &["p", "!answer"])],
            "(p !answer)",
        ),
        (&[(true, &["!answer"])], "false"),
    ];
    for (literals, want) in &table {
        let text = instance(rt.alloc(), literals)?;
        assert_eq!(rt; text.bytes(), want.as_bytes());
    }
    Ok(())
}

// ---- equality

// the call and the operator, against (p ?X 12)
fn same_form(alloc: Global, spelled: &[&str]) -> Result<(bool, bool), NoMemory> {
    let first = flat(alloc, &["p", "?X", "12"])?;
    let second = flat(alloc, spelled)?;
    Ok((forms_equal(&first, &second), first == second))
}

#[test]
fn tells_trees_apart(rt: HostRuntime) -> Result<(), Fail> {
    let table: [(&[&str], bool); 6] = [
        (&["p", "?X", "12"], true),
        (&["p", "X", "12"], false),
        (&["p", "@X", "12"], false),
        (&["p", "?X", "\"12"], false),
        (&["p", "?X"], false),
        (&["p", "?X", "12", "12"], false),
    ];
    for (spelled, same) in &table {
        assert_eq!(rt; same_form(rt.alloc(), spelled)?, (*same, *same));
    }
    Ok(())
}

// against (p a)
fn same_literal(alloc: Global, positive: bool, argument: &str) -> Result<bool, NoMemory> {
    let first = literal(alloc, true, &["p", "a"])?;
    let second = literal(alloc, positive, &["p", argument])?;
    Ok(literals_equal(&first, &second))
}

#[test]
fn tells_literals_apart(rt: HostRuntime) -> Result<(), Fail> {
    let table = [(true, "a", true), (false, "a", false), (true, "b", false)];
    for (positive, argument, same) in &table {
        assert_eq!(rt; same_literal(rt.alloc(), *positive, argument)?, *same);
    }
    Ok(())
}

// ---- shape: texts with one byte for each token, so that a token's number is its byte's

fn token(alloc: Global, byte: u8) -> Result<Form, NoMemory> {
    let spelled = match byte {
        b'~' => "not",
        b'&' => "and",
        b'|' => "or",
        b'>' => "=>",
        b'=' => "<=>",
        b'A' => "forall",
        b'E' => "exists",
        b'!' => "!answer",
        b'?' => "?X",
        b'@' => "@R",
        b'1' => "1",
        b'"' => "\"s",
        _ => "p",
    };
    leaf(alloc, spelled)
}

fn spelled_by(alloc: Global, tokens: &[u8]) -> Result<Forms, NoMemory> {
    let mut outer: Vec<Forms> = Vec::new(alloc);
    let mut parts = Listed::new(alloc);
    for byte in tokens {
        match *byte {
            b'(' => outer.push(replace(&mut parts, Listed::new(alloc)))?,
            b')' => {
                let around = outer.pop().unwrap_or(Listed::new(alloc));
                let list = Form::List(replace(&mut parts, around));
                parts.push(list)?;
            }
            other => parts.push(token(alloc, other)?)?,
        }
    }
    Ok(parts)
}

fn located(alloc: Global, forms: Forms) -> Result<Listed<Located>, NoMemory> {
    let mut found = Listed::new(alloc);
    for form in forms.into_items() {
        let place = Place {
            constituent: 1,
            form: 1,
            line: 1,
            column: 1,
        };
        found.push(Located { form, place })?;
    }
    Ok(found)
}

// the first fault, and whether each form is shaped
fn shape(alloc: Global, tokens: &str) -> Result<(Option<usize>, bool), NoMemory> {
    let forms = located(alloc, spelled_by(alloc, tokens.as_bytes())?)?;
    let mut shaped = true;
    for located in forms.items() {
        if !is_shaped(&located.form) {
            shaped = false;
        }
    }
    Ok((first_fault_in(forms.items()), shaped))
}

#[test]
fn finds_the_first_fault_of_shape(rt: HostRuntime) -> Result<(), Fail> {
    let table = [
        ("", None),
        ("p", Some(0)),
        ("()", Some(0)),
        ("(p)", None),
        ("(?p)", None),
        ("(\"p)", Some(0)),
        ("(1p)", Some(0)),
        ("(@p)", Some(0)),
        ("((p)p)", Some(0)),
        ("(p())", Some(2)),
        ("(p(~))", Some(2)),
        ("(p~&)", None),
        ("(~)", Some(0)),
        ("(~pp)", Some(0)),
        ("(~(~(p)()))", Some(2)),
        ("(&)", Some(0)),
        ("(|(p))", None),
        ("(>(p))", Some(0)),
        ("(=(p)(p))", None),
        ("(A(?@)(p))", None),
        ("(E(@)(p))", None),
        ("(A()(p))", Some(2)),
        ("(A(p)(p))", Some(0)),
        ("(E()(p)(p))", Some(0)),
        ("(p(A?(p)))", Some(2)),
        ("(p)(A(??)(p(E(?)(&))))()", Some(16)),
        ("(p)(~(p))p", Some(9)),
    ];
    for (tokens, fault) in &table {
        assert_eq!(rt; shape(rt.alloc(), tokens)?, (*fault, fault.is_none()));
    }
    Ok(())
}

#[test]
fn forms_with_the_answer_word_are_not_shaped(rt: HostRuntime) -> Result<(), Fail> {
    for tokens in ["(!p)", "(~(p!))", "(p)(p(p!))"] {
        assert_eq!(rt; shape(rt.alloc(), tokens)?, (None, false));
    }
    Ok(())
}
