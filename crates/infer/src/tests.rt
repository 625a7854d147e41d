//! Conclusions and factors in their order, against values worked by hand. Each is checked as a step of a derivation too.
use crate::reading::clause;
use crate::{Conclusion, Step, check_derivation, conclusions, factors};
use calculus_programs::same_clauses;
use kif_tree::{Clause, InputClause, Text, print_clause};
use sigma_base::{Listed, NoMemory};
use std::alloc::Global;
use std::test::Fail;

/// Blanks and numbers.
fn append_numbers(text: &mut Text, numbers: &[u64]) -> Result<(), NoMemory> {
    for number in numbers {
        text.push(b' ')?;
        text.append_decimal(*number)?;
    }
    Ok(())
}

/// The rule's name, the parents with their literals, and the place.
fn append_step(text: &mut Text, step: &Step) -> Result<(), NoMemory> {
    match step {
        Step::Input(number) => {
            text.append(b"input")?;
            append_numbers(text, &[u64::from(*number)])
        }
        Step::Resolve {
            left,
            left_literal,
            right,
            right_literal,
            ..
        } => {
            text.append(b"resolve")?;
            let left = u64::from(*left);
            append_numbers(
                text,
                &[left, *left_literal, u64::from(*right), *right_literal],
            )
        }
        Step::Factor {
            parent,
            kept_literal,
            dropped_literal,
            ..
        } => {
            text.append(b"factor")?;
            append_numbers(text, &[u64::from(*parent), *kept_literal, *dropped_literal])
        }
        Step::Paramodulate {
            source,
            source_literal,
            flipped,
            target,
            target_literal,
            path,
            ..
        } => {
            text.append(direction(*flipped))?;
            let source = u64::from(*source);
            append_numbers(
                text,
                &[source, *source_literal, u64::from(*target), *target_literal],
            )?;
            text.append(b" at")?;
            append_numbers(text, path.items())
        }
    }
}

fn direction(flipped: bool) -> &'static [u8] {
    if flipped { b"flipped" } else { b"replace" }
}

fn append_conclusion(
    alloc: Global,
    text: &mut Text,
    conclusion: &Conclusion,
) -> Result<(), NoMemory> {
    text.append(print_clause(alloc, &conclusion.clause)?.bytes())?;
    text.push(b' ')?;
    append_step(text, &conclusion.step)?;
    text.push(b'\n')
}

/// An input without a place.
pub(crate) fn input(clause: Clause) -> InputClause {
    InputClause {
        clause,
        place: None,
        variant: 1,
    }
}

/// Whether the checker concludes the same clause by the step from the given clause and its partner.
fn is_confirmed(
    alloc: Global,
    given: &Clause,
    partner: &Clause,
    conclusion: Conclusion,
) -> Result<bool, Fail> {
    let mut inputs = Listed::new(alloc);
    inputs.push(input(given.copy(alloc)?))?;
    inputs.push(input(partner.copy(alloc)?))?;
    let Conclusion { clause, step } = conclusion;
    let mut steps = Listed::new(alloc);
    steps.push(Step::Input(0))?;
    steps.push(Step::Input(1))?;
    steps.push(step)?;
    let Ok(clauses) = check_derivation(alloc, inputs.items(), steps.items()) else {
        return Ok(false);
    };
    let [_, _, last] = clauses.items() else {
        return Ok(false);
    };
    Ok(same_clauses(last.literals.items(), clause.literals.items()))
}

/// Each conclusion in a line, and `not confirmed` after one that the checker doesn't conclude.
fn lines(
    alloc: Global,
    given: &Clause,
    partner: &Clause,
    found: Listed<Conclusion>,
) -> Result<Text, Fail> {
    let mut text = Text::new(alloc);
    for conclusion in found.into_items() {
        append_conclusion(alloc, &mut text, &conclusion)?;
        if !is_confirmed(alloc, given, partner, conclusion)? {
            text.append(b"not confirmed\n")?;
        }
    }
    Ok(text)
}

fn concluded(alloc: Global, given: &str, partner: &str, same: bool) -> Result<Text, Fail> {
    let given = clause(alloc, given)?;
    let partner = clause(alloc, partner)?;
    let found = conclusions(alloc, &given, &partner, same)?;
    lines(alloc, &given, &partner, found)
}

fn factored(alloc: Global, given: &str) -> Result<Text, Fail> {
    let given = clause(alloc, given)?;
    let found = factors(alloc, &given)?;
    lines(alloc, &given, &given, found)
}

#[test]
fn resolutions_come_by_the_given_literal_and_then_the_partners(
    rt: HostRuntime,
) -> Result<(), Fail> {
    let table = [
        (
            "(or (p ?X1) (q ?X1))",
            "(or (not (q a)) (not (p b)))",
            "(or (q b) (not (q a))) resolve 0 0 1 1\n(or (p a) (not (p b))) resolve 0 1 1 0\n",
        ),
        (
            "(or (p a) (p b))",
            "(or (not (p ?X1)) (not (p b)))",
            "(or (p b) (not (p b))) resolve 0 0 1 0\n(or (p a) (not (p b))) resolve 0 1 1 0\n(or (p a) (not (p ?X1))) resolve 0 1 1 1\n",
        ),
        (
            "(or (not (p ?X1)) (q ?X1))",
            "(or (not (q a)) (r c) (p b))",
            "(or (not (q a)) (r c) (q b)) resolve 1 2 0 0\n(or (not (p a)) (r c) (p b)) resolve 0 1 1 0\n",
        ),
        ("(p a)", "(not (p ?X1))", "false resolve 0 0 1 0\n"),
        ("(not (p ?X1))", "(p a)", "false resolve 1 0 0 0\n"),
        ("(p a)", "(p a)", ""),
        ("(p a)", "(not (p b))", ""),
        ("(p a)", "(not (q a))", ""),
        ("(p a)", "(not (p a b))", ""),
        ("(p ?X1 (fFn ?X1))", "(not (p ?X1 ?X1))", ""),
        (
            "(or (not (p ?X1)) (answer ?X1))",
            "(p a)",
            "(!answer a) resolve 1 0 0 0\n",
        ),
        ("(answer a)", "(not (answer a))", ""),
        ("(not (answer a))", "(answer a)", ""),
    ];
    for (given, partner, want) in table {
        assert_eq!(rt;
            concluded(rt.alloc(), given, partner, false)?.bytes(),
            want.as_bytes()
        );
    }
    Ok(())
}

#[test]
fn variables_of_one_name_are_two(rt: HostRuntime) -> Result<(), Fail> {
    let table = [
        (
            "(p ?X1 b)",
            "(not (p a ?X1))",
            false,
            "false resolve 0 0 1 0\n",
        ),
        (
            "(or (p ?X1) (q ?X1))",
            "(or (not (p ?X2)) (r ?X1))",
            false,
            "(or (q ?X1) (r ?X2)) resolve 0 0 1 0\n",
        ),
        (
            "(or (not (p ?X1)) (p (sFn ?X1)))",
            "(or (not (p ?X1)) (p (sFn ?X1)))",
            true,
            "(or (not (p ?X1)) (p (sFn (sFn ?X1)))) resolve 1 1 0 0\n(or (not (p ?X1)) (p (sFn (sFn ?X1)))) resolve 0 1 1 0\n",
        ),
    ];
    for (given, partner, same, want) in table {
        assert_eq!(rt;
            concluded(rt.alloc(), given, partner, same)?.bytes(),
            want.as_bytes()
        );
    }
    Ok(())
}

#[test]
fn equalities_replace_inside_atoms(rt: HostRuntime) -> Result<(), Fail> {
    let table = [
        ("(equal a b)", "(p a)", "(p b) replace 0 0 1 0 at 1\n"),
        ("(equal a b)", "(p b)", "(p a) flipped 0 0 1 0 at 1\n"),
        (
            "(equal a b)",
            "(p (fFn (gFn a)))",
            "(p (fFn (gFn b))) replace 0 0 1 0 at 1 1 1\n",
        ),
        (
            "(equal a b)",
            "(not (p c a))",
            "(not (p c b)) replace 0 0 1 0 at 2\n",
        ),
        ("(equal a b)", "(p ?X1)", ""),
        ("(equal (p a) b)", "(p a)", ""),
        (
            "(equal ?X1 b)",
            "(p (fFn a))",
            "(p b) replace 0 0 1 0 at 1\n(p (fFn b)) replace 0 0 1 0 at 1 1\n",
        ),
        (
            "(or (r ?X1) (equal (fFn ?X1) ?X1))",
            "(p (fFn a))",
            "(or (r a) (p a)) replace 0 1 1 0 at 1\n(or (r (fFn a)) (p (fFn (fFn a)))) flipped 0 1 1 0 at 1\n(or (r a) (p (fFn (fFn a)))) flipped 0 1 1 0 at 1 1\n",
        ),
        ("(equal a)", "(p a)", ""),
        ("(equal a b c)", "(p a)", ""),
        ("(not (equal a b))", "(p a)", ""),
        ("(equal a b)", "(answer a)", ""),
    ];
    for (given, partner, want) in table {
        assert_eq!(rt;
            concluded(rt.alloc(), given, partner, false)?.bytes(),
            want.as_bytes()
        );
    }
    Ok(())
}

#[test]
fn paramodulations_come_after_resolutions_in_their_order(rt: HostRuntime) -> Result<(), Fail> {
    let table = [
        (
            "(equal (fFn a) b)",
            "(or (q ?X1) (p (fFn ?X1)) (r ?X1))",
            false,
            "(or (q a) (p b) (r a)) replace 0 0 1 1 at 1\n",
        ),
        (
            "(or (equal a b) (p ?X1))",
            "(or (not (p c)) (q a))",
            false,
            "(or (equal a b) (q a)) resolve 0 1 1 0\n(or (p ?X1) (not (p c)) (q b)) replace 0 0 1 1 at 1\n",
        ),
        (
            "(equal a b)",
            "(or (p b) (q a))",
            false,
            "(or (p b) (q b)) replace 0 0 1 1 at 1\n(or (p a) (q a)) flipped 0 0 1 0 at 1\n",
        ),
        (
            "(equal a b)",
            "(p b a)",
            false,
            "(p b b) replace 0 0 1 0 at 2\n(p a a) flipped 0 0 1 0 at 1\n",
        ),
        (
            "(equal a b)",
            "(or (p c a) (q a))",
            false,
            "(or (p c b) (q a)) replace 0 0 1 0 at 2\n(or (p c a) (q b)) replace 0 0 1 1 at 1\n",
        ),
        (
            "(equal ?X1 b)",
            "(p (fFn a) c)",
            false,
            "(p b c) replace 0 0 1 0 at 1\n(p (fFn b) c) replace 0 0 1 0 at 1 1\n(p (fFn a) b) replace 0 0 1 0 at 2\n",
        ),
        (
            "(or (equal a b) (equal c d))",
            "(or (p c) (q a))",
            false,
            "(or (equal c d) (p c) (q b)) replace 0 0 1 1 at 1\n(or (equal a b) (p d) (q a)) replace 0 1 1 0 at 1\n",
        ),
        (
            "(or (equal a b) (equal c d))",
            "(p c a)",
            false,
            "(or (equal c d) (p c b)) replace 0 0 1 0 at 2\n(or (equal a b) (p d a)) replace 0 1 1 0 at 1\n",
        ),
        ("(equal ?X1 ?X1)", "(equal ?X1 ?X1)", true, ""),
        (
            "(equal ?X1 ?X1)",
            "(p (fFn ?X1))",
            false,
            "(p (fFn ?X1)) replace 0 0 1 0 at 1\n(p (fFn ?X1)) flipped 0 0 1 0 at 1\n",
        ),
        ("", "(p a)", false, ""),
        (
            "(or (equal a b) (equal c d))",
            "(or (p a c) (q b))",
            false,
            "(or (equal c d) (p b c) (q b)) replace 0 0 1 0 at 1\n(or (equal c d) (p a c) (q a)) flipped 0 0 1 1 at 1\n(or (equal a b) (p a d) (q b)) replace 0 1 1 0 at 2\n",
        ),
        (
            "(equal a b)",
            "(equal a c)",
            false,
            "(equal b c) replace 0 0 1 0 at 1\n(equal c b) replace 1 0 0 0 at 1\n",
        ),
        (
            "(equal a b)",
            "(equal a b)",
            true,
            "(equal b b) replace 0 0 1 0 at 1\n(equal a a) flipped 0 0 1 0 at 2\n",
        ),
        (
            "(equal a b)",
            "(equal a b)",
            false,
            "(equal b b) replace 0 0 1 0 at 1\n(equal a a) flipped 0 0 1 0 at 2\n(equal b b) replace 1 0 0 0 at 1\n(equal a a) flipped 1 0 0 0 at 2\n",
        ),
    ];
    for (given, partner, same, want) in table {
        assert_eq!(rt;
            concluded(rt.alloc(), given, partner, same)?.bytes(),
            want.as_bytes()
        );
    }
    Ok(())
}

#[test]
fn factors_come_by_the_kept_literal_and_then_the_dropped_one(rt: HostRuntime) -> Result<(), Fail> {
    let table = [
        ("(or (p a) (p a))", "(p a) factor 0 0 1\n"),
        ("(or (p a) (p ?X1))", "(p a) factor 0 0 1\n"),
        (
            "(or (p ?X1) (p ?X2) (p a))",
            "(or (p ?X1) (p a)) factor 0 0 1\n(or (p a) (p ?X1)) factor 0 0 2\n(or (p ?X1) (p a)) factor 0 1 2\n",
        ),
        (
            "(or (not (p ?X1)) (q ?X1) (not (p a)))",
            "(or (not (p a)) (q a)) factor 0 0 2\n",
        ),
        (
            "(or (p ?X1) (q ?X1) (p a) (q a))",
            "(or (p a) (q a)) factor 0 0 2\n(or (p a) (q a)) factor 0 1 3\n",
        ),
        (
            "(or (p ?X1) (q ?X1) (q a) (p b))",
            "(or (p b) (q b) (q a)) factor 0 0 3\n(or (p a) (q a) (p b)) factor 0 1 2\n",
        ),
        ("", ""),
        (
            "(or (p ?X1) (p a) (answer ?X1))",
            "(or (p a) (!answer a)) factor 0 0 1\n",
        ),
        ("(or (p a) (not (p ?X1)))", ""),
        ("(or (p ?X1) (p (fFn ?X1)))", ""),
        ("(or (answer a) (answer ?X1) (p b))", ""),
    ];
    for (given, want) in table {
        assert_eq!(rt; factored(rt.alloc(), given)?.bytes(), want.as_bytes());
    }
    Ok(())
}
