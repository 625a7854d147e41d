//! Derivations worked by hand: each step is accepted, its clause and evidence are as wanted, and the evidence refutes; and steps that
//! aren't allowed.
use crate::reading::{clause, subst};
use crate::tests::input;
use crate::{CheckError, Step, check_derivation};
use calculus_programs::{Derived, evidence, refutes};
use kif_tree::{Clause, InputClause, Subst, Text, print_clause};
use sigma_base::{Listed, NoMemory};
use std::alloc::Global;
use std::test::Fail;

/// A step with its substitutions as texts.
#[derive(Clone, Copy)]
enum Rule<'a> {
    Input(u32),
    Resolve(u32, u64, &'a str, u32, u64, &'a str),
    Factor(u32, u64, u64, &'a str),
    Replace(u32, u64, &'a str, u32, u64, &'a str, &'a [u64]),
    ReplaceFlipped(u32, u64, &'a str, u32, u64, &'a str, &'a [u64]),
}

fn step(alloc: Global, rule: Rule) -> Result<Step, Fail> {
    match rule {
        Rule::Input(number) => Ok(Step::Input(number)),
        Rule::Resolve(left, left_literal, left_text, right, right_literal, right_text) => {
            Ok(Step::Resolve {
                left,
                left_literal,
                left_subst: subst(alloc, left_text)?,
                right,
                right_literal,
                right_subst: subst(alloc, right_text)?,
            })
        }
        Rule::Factor(parent, kept_literal, dropped_literal, text) => Ok(Step::Factor {
            parent,
            kept_literal,
            dropped_literal,
            subst: subst(alloc, text)?,
        }),
        Rule::Replace(source, source_literal, from, target, target_literal, into, path) => {
            Ok(Step::Paramodulate {
                source,
                source_literal,
                flipped: false,
                source_subst: subst(alloc, from)?,
                target,
                target_literal,
                path: Listed::of(path.to_vec(alloc)?),
                target_subst: subst(alloc, into)?,
            })
        }
        Rule::ReplaceFlipped(source, source_literal, from, target, target_literal, into, path) => {
            Ok(Step::Paramodulate {
                source,
                source_literal,
                flipped: true,
                source_subst: subst(alloc, from)?,
                target,
                target_literal,
                path: Listed::of(path.to_vec(alloc)?),
                target_subst: subst(alloc, into)?,
            })
        }
    }
}

fn steps(alloc: Global, rules: &[Rule]) -> Result<Listed<Step>, Fail> {
    let mut list = Listed::new(alloc);
    for rule in rules {
        list.push(step(alloc, *rule)?)?;
    }
    Ok(list)
}

fn inputs(alloc: Global, texts: &[&str]) -> Result<Listed<InputClause>, Fail> {
    let mut list = Listed::new(alloc);
    for text in texts {
        list.push(input(clause(alloc, text)?))?;
    }
    Ok(list)
}

/// The checker's answer on steps that aren't too many for it.
fn checked(
    alloc: Global,
    inputs: &[InputClause],
    steps: &[Step],
) -> Result<Listed<Clause>, CheckError> {
    if steps.len() >= 1 << 32 {
        return Err(CheckError::NoMemory);
    }
    check_derivation(alloc, inputs, steps)
}

fn append_lines(alloc: Global, text: &mut Text, clauses: &[Clause]) -> Result<(), NoMemory> {
    for clause in clauses {
        text.append(print_clause(alloc, clause)?.bytes())?;
        text.push(b'\n')?;
    }
    Ok(())
}

fn append_fault(text: &mut Text, error: CheckError) -> Result<(), NoMemory> {
    match error {
        CheckError::BadStep(number) => {
            text.append(b"bad step ")?;
            text.append_decimal(u64::from(number))
        }
        CheckError::NoMemory => text.append(b"no memory"),
    }
}

/// The clauses of the steps, each in a line, or the first step that isn't allowed.
fn derived(alloc: Global, texts: &[&str], rules: &[Rule]) -> Result<Text, Fail> {
    let inputs = inputs(alloc, texts)?;
    let steps = steps(alloc, rules)?;
    let mut text = Text::new(alloc);
    match checked(alloc, inputs.items(), steps.items()) {
        Ok(clauses) => append_lines(alloc, &mut text, clauses.items())?,
        Err(error) => append_fault(&mut text, error)?,
    }
    Ok(text)
}

fn clauses_of(alloc: Global, texts: &[&str]) -> Result<Listed<Clause>, Fail> {
    let mut list = Listed::new(alloc);
    for text in texts {
        list.push(clause(alloc, text)?)?;
    }
    Ok(list)
}

/// The evidence of the last clause, each variable filled with `!any`, and whether it refutes.
fn shown_evidence(alloc: Global, texts: &[&str], rules: &[Rule]) -> Result<Text, Fail> {
    let search_inputs = inputs(alloc, texts)?;
    let steps = steps(alloc, rules)?;
    let mut text = Text::new(alloc);
    let Ok(clauses) = checked(alloc, search_inputs.items(), steps.items()) else {
        return Ok(text);
    };
    let begun = clauses_of(alloc, texts)?;
    let derivation = Derived {
        inputs: begun.items(),
        steps: steps.items(),
        clauses: clauses.items(),
    };
    let nothing = Subst {
        pairs: Listed::new(alloc),
    };
    let last = clauses.items().len().saturating_sub(1);
    let list = evidence(alloc, &derivation, last, &nothing)?;
    append_lines(alloc, &mut text, list.items())?;
    if refutes(alloc, list.items())? {
        text.append(b"refutes")?;
    }
    Ok(text)
}

const G_KIF: [&str; 2] = ["(or (p ?X1) (p ?X2))", "(or (not (p ?X1)) (not (p ?X2)))"];

const G_STEPS: [Rule; 5] = [
    Rule::Input(0),
    Rule::Input(1),
    Rule::Factor(0, 0, 1, "(X2 ?X1)"),
    Rule::Factor(1, 0, 1, "(X2 ?X1)"),
    Rule::Resolve(2, 0, "", 3, 0, ""),
];

const G_DROPPED: [Rule; 5] = [
    Rule::Input(0),
    Rule::Input(1),
    Rule::Factor(0, 0, 2, "(X2 ?X1)"),
    Rule::Factor(1, 0, 1, "(X2 ?X1)"),
    Rule::Resolve(2, 0, "", 3, 0, ""),
];

#[test]
fn factors_contradict(rt: HostRuntime) -> Result<(), Fail> {
    let want =
        "(or (p ?X1) (p ?X2))\n(or (not (p ?X1)) (not (p ?X2)))\n(p ?X1)\n(not (p ?X1))\nfalse\n";
    assert_eq!(rt;
        derived(rt.alloc(), &G_KIF, &G_STEPS)?.bytes(),
        want.as_bytes()
    );
    assert_eq!(rt;
        derived(rt.alloc(), &G_KIF, &G_DROPPED)?.bytes(),
        b"bad step 2".as_slice()
    );
    let want = "(or (p !any) (p !any))\n(or (not (p !any)) (not (p !any)))\nrefutes";
    assert_eq!(rt;
        shown_evidence(rt.alloc(), &G_KIF, &G_STEPS)?.bytes(),
        want.as_bytes()
    );
    Ok(())
}

const E_KIF: [&str; 3] = ["(equal a b)", "(p a)", "(or (not (p b)) (answer))"];

const E_STEPS: [Rule; 5] = [
    Rule::Input(0),
    Rule::Input(1),
    Rule::Input(2),
    Rule::ReplaceFlipped(0, 0, "", 2, 0, "", &[1]),
    Rule::Resolve(1, 0, "", 3, 0, ""),
];

const E_TURNED_ROUND: [Rule; 5] = [
    Rule::Input(0),
    Rule::Input(1),
    Rule::Input(2),
    Rule::Replace(0, 0, "", 2, 0, "", &[1]),
    Rule::Resolve(1, 0, "", 3, 0, ""),
];

#[test]
fn an_equality_is_used_in_its_direction(rt: HostRuntime) -> Result<(), Fail> {
    let want =
        "(equal a b)\n(p a)\n(or (not (p b)) (!answer))\n(or (not (p a)) (!answer))\n(!answer)\n";
    assert_eq!(rt;
        derived(rt.alloc(), &E_KIF, &E_STEPS)?.bytes(),
        want.as_bytes()
    );
    assert_eq!(rt;
        derived(rt.alloc(), &E_KIF, &E_TURNED_ROUND)?.bytes(),
        b"bad step 3".as_slice()
    );
    let want =
        "(p a)\n(equal a b)\n(not (p b))\n(or (not (equal a b)) (equal b a))\n(or (not (equal a b)) (not (p a)) (p b))\n(or (not (equal b a)) (not (p b)) (p a))\nrefutes";
    assert_eq!(rt;
        shown_evidence(rt.alloc(), &E_KIF, &E_STEPS)?.bytes(),
        want.as_bytes()
    );
    Ok(())
}

const INNER: [&str; 3] = [
    "(equal a b)",
    "(p (fFn a))",
    "(or (not (p (fFn b))) (answer))",
];

const INNER_STEPS: [Rule; 5] = [
    Rule::Input(0),
    Rule::Input(1),
    Rule::Input(2),
    Rule::Replace(0, 0, "", 1, 0, "", &[1, 1]),
    Rule::Resolve(3, 0, "", 2, 0, ""),
];

#[test]
fn each_list_round_the_place_has_congruence(rt: HostRuntime) -> Result<(), Fail> {
    let want =
        "(equal a b)\n(p (fFn a))\n(or (not (equal a b)) (equal b a))\n(or (not (equal a b)) (equal (fFn a) (fFn b)))\n(or (not (equal b a)) (equal (fFn b) (fFn a)))\n(or (not (equal (fFn a) (fFn b))) (not (p (fFn a))) (p (fFn b)))\n(or (not (equal (fFn b) (fFn a))) (not (p (fFn b))) (p (fFn a)))\n(not (p (fFn b)))\nrefutes";
    assert_eq!(rt;
        shown_evidence(rt.alloc(), &INNER, &INNER_STEPS)?.bytes(),
        want.as_bytes()
    );
    Ok(())
}

const ALL_RULES: [&str; 4] = [
    "(or (p ?X1) (p a))",
    "(equal a b)",
    "(or (not (p b)) (q ?X1))",
    "(or (not (q c)) (answer))",
];

const ALL_STEPS: [Rule; 8] = [
    Rule::Input(0),
    Rule::Factor(0, 0, 1, "(X1 a)"),
    Rule::Input(1),
    Rule::Replace(2, 0, "", 1, 0, "", &[1]),
    Rule::Input(2),
    Rule::Resolve(3, 0, "", 4, 0, ""),
    Rule::Input(3),
    Rule::Resolve(5, 0, "(X1 c)", 6, 0, ""),
];

#[test]
fn all_rules_have_evidence(rt: HostRuntime) -> Result<(), Fail> {
    let want =
        "(or (p ?X1) (p a))\n(p a)\n(equal a b)\n(p b)\n(or (not (p b)) (q ?X1))\n(q ?X1)\n(or (not (q c)) (!answer))\n(!answer)\n";
    assert_eq!(rt;
        derived(rt.alloc(), &ALL_RULES, &ALL_STEPS)?.bytes(),
        want.as_bytes()
    );
    let want =
        "(equal a b)\n(or (p a) (p a))\n(or (not (equal a b)) (equal b a))\n(or (not (equal a b)) (not (p a)) (p b))\n(or (not (equal b a)) (not (p b)) (p a))\n(or (not (p b)) (q c))\n(not (q c))\nrefutes";
    assert_eq!(rt;
        shown_evidence(rt.alloc(), &ALL_RULES, &ALL_STEPS)?.bytes(),
        want.as_bytes()
    );
    Ok(())
}

const BEGUN: [&str; 10] = [
    "(or (p ?X1) (p a))",
    "(equal a b)",
    "(or (not (p b)) (q ?X1))",
    "(or (answer a) (answer ?X1) (not (q c)))",
    "(or (not (answer a)) (q ?X1))",
    "(not (equal a b))",
    "(or (p ?X1) (not (p ?X1)))",
    "(or (equal a) (equal (p (fFn a)) b) (equal fFn b) (equal a b c))",
    "(p (fFn a))",
    "(or (answer ?X1) (p ?X1))",
];

/// Each is allowed but for one thing.
const REFUSED: [Rule; 31] = [
    // there is no such input
    Rule::Input(10),
    // the step itself, and a later one
    Rule::Resolve(10, 0, "", 2, 0, ""),
    Rule::Resolve(0, 0, "(X1 b)", 11, 0, ""),
    Rule::Factor(10, 0, 1, "(X1 a)"),
    Rule::Replace(10, 0, "", 8, 0, "", &[1, 1]),
    Rule::Replace(1, 0, "", 10, 0, "", &[1, 1]),
    // two signs, in the other order, and one
    Rule::Resolve(2, 0, "", 0, 0, "(X1 b)"),
    Rule::Resolve(0, 0, "", 0, 0, ""),
    // the atoms differ
    Rule::Resolve(0, 0, "(X1 a)", 2, 0, ""),
    Rule::Factor(0, 0, 1, ""),
    // there is no such literal
    Rule::Resolve(0, 2, "(X1 b)", 2, 0, ""),
    Rule::Resolve(0, 0, "(X1 b)", 2, 2, ""),
    Rule::Factor(0, 0, 2, "(X1 a)"),
    Rule::Replace(1, 1, "", 8, 0, "", &[1, 1]),
    Rule::Replace(1, 0, "", 8, 1, "", &[1, 1]),
    // answer literals
    Rule::Resolve(9, 0, "(X1 a)", 4, 0, ""),
    Rule::Factor(3, 0, 1, "(X1 a)"),
    Rule::Replace(1, 0, "", 3, 0, "", &[1]),
    // one literal twice, the later one kept, and two signs
    Rule::Factor(0, 0, 0, ""),
    Rule::Factor(0, 1, 0, "(X1 a)"),
    Rule::Factor(6, 0, 1, ""),
    // another form stands there
    Rule::Replace(1, 0, "", 8, 0, "", &[1]),
    Rule::ReplaceFlipped(1, 0, "", 8, 0, "", &[1, 1]),
    // a negative equality, one with one argument, and one with three
    Rule::Replace(5, 0, "", 8, 0, "", &[1, 1]),
    Rule::Replace(7, 0, "", 8, 0, "", &[1, 1]),
    Rule::Replace(7, 3, "", 8, 0, "", &[1, 1]),
    // the atom itself, a variable, a head, and no place
    Rule::Replace(7, 1, "", 8, 0, "", &[]),
    Rule::Replace(1, 0, "", 0, 0, "(X1 a)", &[1]),
    Rule::Replace(7, 2, "", 8, 0, "", &[1, 0]),
    Rule::Replace(1, 0, "", 8, 0, "", &[2]),
    Rule::Replace(1, 0, "", 8, 0, "", &[1, 1, 1]),
];

/// The checker's answer on steps for all inputs and then that one.
fn after_all(alloc: Global, rule: Rule) -> Result<Text, Fail> {
    let inputs = inputs(alloc, &BEGUN)?;
    let mut steps = Listed::new(alloc);
    for number in 0..10 {
        steps.push(Step::Input(number))?;
    }
    steps.push(step(alloc, rule)?)?;
    let mut text = Text::new(alloc);
    match checked(alloc, inputs.items(), steps.items()) {
        Ok(_) => text.append(b"allowed")?,
        Err(error) => append_fault(&mut text, error)?,
    }
    Ok(text)
}

#[test]
fn steps_that_are_not_allowed_are_named(rt: HostRuntime) -> Result<(), Fail> {
    for rule in REFUSED {
        assert_eq!(rt;
            after_all(rt.alloc(), rule)?.bytes(),
            b"bad step 10".as_slice()
        );
    }
    let allowed = Rule::Replace(1, 0, "", 8, 0, "", &[1, 1]);
    assert_eq!(rt;
        after_all(rt.alloc(), allowed)?.bytes(),
        b"allowed".as_slice()
    );
    Ok(())
}
