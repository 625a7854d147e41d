//! Questions over no axioms: reflexivity and the clauses of the query alone. The pages were worked out by a second program.
use crate::{AskError, ask, print_outcome};
use clause_form::QueryError;
use saturate::{Limits, LimitsError, Mode};
use sigma_base::Listed;
use std::alloc::Global;
use std::process::Abort;
use std::test::Fail;
use unify::ClauseSet;

fn limits(turns: u32, answers: u32, kept: u32, mode: Mode) -> Limits {
    Limits {
        turns,
        answers,
        kept,
        mode,
    }
}

const PAGES: [(&str, u32, u32, u32, Mode, &str); 10] = [
    (
        "(p a)",
        2000,
        1,
        200000,
        Mode::Support,
        "end saturated turns 1\n",
    ),
    (
        "(equal a a)",
        2000,
        1,
        200000,
        Mode::Support,
        "answer 1\n  yes\nproof\n  1. (equal ?X1 ?X1) [equality]\n  2. (or (not (equal a a)) (!answer)) [query]\n  3. (!answer) [resolve 1 2]\nend enough turns 1\n",
    ),
    (
        "(equal ?X (fFn ?Y))",
        2000,
        2,
        200000,
        Mode::Support,
        "answer 1\n  ?X = (fFn ?X1)\n  ?Y = ?X1\nproof\n  1. (equal ?X1 ?X1) [equality]\n  2. (or (not (equal ?X1 (fFn ?X2))) (!answer ?X1 ?X2)) [query]\n  3. (!answer (fFn ?X1) ?X1) [resolve 1 2]\nend saturated turns 1\n",
    ),
    (
        "(or (p a) (not (p a)))",
        2000,
        1,
        200000,
        Mode::Support,
        "answer 1\n  yes\nproof\n  1. (or (not (p a)) (!answer)) [query]\n  2. (or (p a) (!answer)) [query]\n  3. (!answer) [resolve 2 1]\nend enough turns 2\n",
    ),
    (
        "(exists (?X) (=> (p ?X) (and (p a) (p b))))",
        30,
        1,
        200000,
        Mode::Support,
        "answer 1\n  yes\nproof\n  1. (or (p ?X1) (!answer)) [query]\n  2. (or (not (p a)) (not (p b)) (!answer)) [query]\n  3. (or (!answer) (not (p b))) [resolve 1 2]\n  4. (!answer) [resolve 1 3]\nend enough turns 3\n",
    ),
    (
        "(=> (equal a b) (equal (fFn a) (fFn b)))",
        30,
        1,
        200000,
        Mode::Support,
        "answer 1\n  yes\nproof\n  1. (equal ?X1 ?X1) [equality]\n  2. (or (equal a b) (!answer)) [query]\n  3. (or (not (equal (fFn a) (fFn b))) (!answer)) [query]\n  4. (or (!answer) (not (equal (fFn b) (fFn b)))) [paramodulate 2 3]\n  5. (!answer) [resolve 1 4]\nend enough turns 3\n",
    ),
    (
        "(=> (or (p a) (p b)) (p ?X))",
        30,
        1,
        200000,
        Mode::Support,
        "answer 1\n  ?X = ?X1\nor\n  ?X = a\nor\n  ?X = b\nproof\n  1. (or (p a) (p b) (!answer ?X1)) [query]\n  2. (or (not (p ?X1)) (!answer ?X1)) [query]\n  3. (or (p b) (!answer ?X1) (!answer a)) [resolve 1 2]\n  4. (or (!answer ?X1) (!answer a) (!answer b)) [resolve 3 2]\nend enough turns 3\n",
    ),
    (
        "(=> (forall (?X ?Y) (or (p ?X) (p ?Y))) (p c))",
        30,
        1,
        200000,
        Mode::Full,
        "answer 1\n  yes\nproof\n  1. (or (p ?X1) (p ?X2) (!answer)) [query]\n  2. (or (not (p c)) (!answer)) [query]\n  3. (or (p ?X1) (!answer)) [factor 1]\n  4. (!answer) [resolve 3 2]\nend enough turns 3\n",
    ),
    (
        "(=> (and (p a) (forall (?X) (=> (p ?X) (p (sFn ?X))))) (p (sFn (sFn (sFn a)))))",
        4,
        1,
        200000,
        Mode::Support,
        "end spent turns 4\n",
    ),
    (
        "(=> (p a) (q ?X))",
        2000,
        1,
        1,
        Mode::Full,
        "end saturated turns 2\n",
    ),
];

fn check(
    rt: &impl Abort,
    alloc: Global,
    query: &str,
    limits: Limits,
    page: &str,
) -> Result<(), Fail> {
    let query = query.as_bytes();
    assert!(rt; query.len() < 1 << 31);
    let set = ClauseSet::of(Listed::new(alloc))?;
    let outcome = ask(alloc, &set, query, limits)?;
    let shown = print_outcome(alloc, &outcome, &[])?;
    assert_eq!(rt; shown.bytes(), page.as_bytes());
    Ok(())
}

#[test]
fn answers_without_axioms(rt: HostRuntime) -> Result<(), Fail> {
    for (query, turns, answers, kept, mode, page) in PAGES {
        let limits = limits(turns, answers, kept, mode);
        check(&rt, rt.alloc(), query, limits, page)?;
    }
    Ok(())
}

#[test]
fn tells_the_first_refusal(rt: HostRuntime) -> Result<(), Fail> {
    let set = ClauseSet::of(Listed::new(rt.alloc()))?;
    let good = limits(2_000, 1, 200_000, Mode::Support);
    let no_turns = limits(0, 0, 0, Mode::Support);
    let many_answers = limits(1, 1_001, 1, Mode::Full);
    let many_kept = limits(100_000, 1_000, 200_001, Mode::Full);
    assert!(&rt;
        matches!(
            ask(rt.alloc(), &set, b"(p @R)", no_turns),
            Err(AskError::Limits(LimitsError::TurnsOutOfRange))
        )
    );
    assert!(&rt;
        matches!(
            ask(rt.alloc(), &set, b"(p a)", many_answers),
            Err(AskError::Limits(LimitsError::AnswersOutOfRange))
        )
    );
    assert!(&rt;
        matches!(
            ask(rt.alloc(), &set, b"(p a)", many_kept),
            Err(AskError::Limits(LimitsError::KeptOutOfRange))
        )
    );
    assert!(&rt;
        matches!(
            ask(rt.alloc(), &set, b"(p @R)", good),
            Err(AskError::Query(QueryError::RowVariable))
        )
    );
    Ok(())
}
