//! Searches over small files, each page of which was worked out by hand or by a second program.
use crate::tests::{check_all, quiet};
use std::test::Fail;

#[test]
fn sets_deep_clauses_aside(rt: HostRuntime) -> Result<(), Fail> {
    check_all(
        &rt,
        rt.alloc(),
        &[
            quiet(
                &["ask", "(p a)", "u.kif"],
                &[("u.kif", "(=> (p (sFn ?X)) (p ?X))\n")],
                1,
                "end deep turns 1000\n",
            ),
            quiet(
                &["ask", "(p b)", "u.kif"],
                &[(
                    "u.kif",
                    "(=> (p (sFn ?X)) (p ?X))\n(=> (q a a a a a a a a a) (p ?X))\n(q a a a a a a a a a)\n",
                )],
                0,
                "answer 1\n  yes\nproof\n  1. (or (not (q a a a a a a a a a)) (p ?X1)) [u.kif:2:1]\n  2. (q a a a a a a a a a) [u.kif:3:1]\n  3. (or (not (p b)) (!answer)) [query]\n  4. (or (not (q a a a a a a a a a)) (!answer)) [resolve 1 3]\n  5. (!answer) [resolve 2 4]\nend enough turns 5\n",
            ),
        ],
    )?;
    Ok(())
}

#[test]
fn chooses_the_given_clause(rt: HostRuntime) -> Result<(), Fail> {
    check_all(
        &rt,
        rt.alloc(),
        &[
            // equal weights, the oldest is taken
            quiet(
                &["ask", "--answers", "2", "(p ?X)", "a.kif"],
                &[(
                    "a.kif",
                    "(=> (q ?X) (p ?X))\n(=> (r ?X) (p ?X))\n(r a)\n(q b)\n",
                )],
                0,
                "answer 1\n  ?X = b\nproof\n  1. (or (not (q ?X1)) (p ?X1)) [a.kif:1:1]\n  2. (q b) [a.kif:4:1]\n  3. (or (not (p ?X1)) (!answer ?X1)) [query]\n  4. (or (not (q ?X1)) (!answer ?X1)) [resolve 1 3]\n  5. (!answer b) [resolve 2 4]\nanswer 2\n  ?X = a\nproof\n  1. (or (not (r ?X1)) (p ?X1)) [a.kif:2:1]\n  2. (r a) [a.kif:3:1]\n  3. (or (not (p ?X1)) (!answer ?X1)) [query]\n  4. (or (not (r ?X1)) (!answer ?X1)) [resolve 1 3]\n  5. (!answer a) [resolve 2 4]\nend enough turns 3\n",
            ),
            // the lightest is taken first
            quiet(
                &["ask", "--answers", "1", "(p ?X)", "a.kif"],
                &[(
                    "a.kif",
                    "(=> (q ?X c c) (p ?X))\n(=> (r ?X) (p ?X))\n(q a c c)\n(r b)\n",
                )],
                0,
                "answer 1\n  ?X = b\nproof\n  1. (or (not (r ?X1)) (p ?X1)) [a.kif:2:1]\n  2. (r b) [a.kif:4:1]\n  3. (or (not (p ?X1)) (!answer ?X1)) [query]\n  4. (or (not (r ?X1)) (!answer ?X1)) [resolve 1 3]\n  5. (!answer b) [resolve 2 4]\nend enough turns 2\n",
            ),
            // each fifth turn takes the oldest
            quiet(
                &["ask", "--turns", "6", "(p ?X)", "a.kif"],
                &[(
                    "a.kif",
                    "(=> (and (h ?X c c c) (h2 ?X)) (p ?X))\n(h a c c c)\n(h2 a)\n(=> (l1 ?X) (p ?X))\n(=> (l2 ?X) (l1 ?X))\n(=> (l3 ?X) (l2 ?X))\n(=> (l4 ?X) (l3 ?X))\n(=> (l5 ?X) (l4 ?X))\n(=> (l6 ?X) (l5 ?X))\n",
                )],
                1,
                "end spent turns 6\n",
            ),
            // and not the fourth
            quiet(
                &["ask", "--turns", "4", "(p ?X)", "a.kif"],
                &[(
                    "a.kif",
                    "(=> (h ?X c c c c) (p ?X))\n(h a c c c c)\n(=> (l1 ?X) (p ?X))\n(=> (l2 ?X) (l1 ?X))\n(=> (l3 ?X) (l2 ?X))\n",
                )],
                1,
                "end spent turns 4\n",
            ),
            // nor the sixth
            quiet(
                &["ask", "--turns", "5", "(p ?X)", "a.kif"],
                &[(
                    "a.kif",
                    "(=> (h ?X c c c c) (p ?X))\n(h a c c c c)\n(=> (l1 ?X) (p ?X))\n(=> (l2 ?X) (l1 ?X))\n(=> (l3 ?X) (l2 ?X))\n(=> (l4 ?X) (l3 ?X))\n",
                )],
                0,
                "answer 1\n  ?X = a\nproof\n  1. (or (not (h ?X1 c c c c)) (p ?X1)) [a.kif:1:1]\n  2. (h a c c c c) [a.kif:2:1]\n  3. (or (not (p ?X1)) (!answer ?X1)) [query]\n  4. (or (not (h ?X1 c c c c)) (!answer ?X1)) [resolve 1 3]\n  5. (!answer a) [resolve 2 4]\nend enough turns 5\n",
            ),
            // answer literals have weight
            quiet(
                &["ask", "--answers", "2", "(and (p ?X) (q ?Y ?Z))", "a.kif"],
                &[("a.kif", "(p a)\n(q b c)\n(q (fFn d) e)\n")],
                0,
                "answer 1\n  ?X = a\n  ?Y = b\n  ?Z = c\nproof\n  1. (p a) [a.kif:1:1]\n  2. (q b c) [a.kif:2:1]\n  3. (or (not (p ?X1)) (not (q ?X2 ?X3)) (!answer ?X1 ?X2 ?X3)) [query]\n  4. (or (not (p ?X1)) (!answer ?X1 b c)) [resolve 2 3]\n  5. (!answer a b c) [resolve 1 4]\nanswer 2\n  ?X = a\n  ?Y = (fFn d)\n  ?Z = e\nproof\n  1. (p a) [a.kif:1:1]\n  2. (q (fFn d) e) [a.kif:3:1]\n  3. (or (not (p ?X1)) (not (q ?X2 ?X3)) (!answer ?X1 ?X2 ?X3)) [query]\n  4. (or (not (q ?X1 ?X2)) (!answer a ?X1 ?X2)) [resolve 1 3]\n  5. (!answer a (fFn d) e) [resolve 2 4]\nend enough turns 3\n",
            ),
        ],
    )?;
    Ok(())
}

#[test]
fn finds_answers_in_order(rt: HostRuntime) -> Result<(), Fail> {
    check_all(
        &rt,
        rt.alloc(),
        &[
            // a found clause subsumes a later one
            quiet(
                &["ask", "--answers", "5", "(p ?X)", "a.kif"],
                &[("a.kif", "(p ?Y)\n(p a)\n(p b)\n")],
                0,
                "answer 1\n  ?X = ?X1\nproof\n  1. (p ?X1) [a.kif:1:1]\n  2. (or (not (p ?X1)) (!answer ?X1)) [query]\n  3. (!answer ?X1) [resolve 1 2]\nend saturated turns 1\n",
            ),
            // a later, more general one is found too
            quiet(
                &["ask", "--answers", "5", "(p ?X)", "a.kif"],
                &[("a.kif", "(p a)\n(p ?Y)\n(p b)\n")],
                0,
                "answer 1\n  ?X = a\nproof\n  1. (p a) [a.kif:1:1]\n  2. (or (not (p ?X1)) (!answer ?X1)) [query]\n  3. (!answer a) [resolve 1 2]\nanswer 2\n  ?X = ?X1\nproof\n  1. (p ?X1) [a.kif:2:1]\n  2. (or (not (p ?X1)) (!answer ?X1)) [query]\n  3. (!answer ?X1) [resolve 1 2]\nend saturated turns 1\n",
            ),
            // a found clause covers what it subsumes while it comes
            quiet(
                &["ask", "--answers", "3", "(p ?X)", "a.kif"],
                &[("a.kif", "(or (p a) (q a))\n(p a)\n(q b)\n(not (q a))\n")],
                0,
                "answer 1\n  ?X = a\nproof\n  1. (p a) [a.kif:2:1]\n  2. (or (not (p ?X1)) (!answer ?X1)) [query]\n  3. (!answer a) [resolve 1 2]\nend saturated turns 2\n",
            ),
            // two variables, in the order of the query
            quiet(
                &["ask", "--answers", "3", "(r ?Y ?X)", "a.kif"],
                &[("a.kif", "(r a b)\n(r c d)\n(r a b)\n")],
                0,
                "answer 1\n  ?Y = a\n  ?X = b\nproof\n  1. (r a b) [a.kif:1:1]\n  2. (or (not (r ?X1 ?X2)) (!answer ?X1 ?X2)) [query]\n  3. (!answer a b) [resolve 1 2]\nanswer 2\n  ?Y = c\n  ?X = d\nproof\n  1. (r c d) [a.kif:2:1]\n  2. (or (not (r ?X1 ?X2)) (!answer ?X1 ?X2)) [query]\n  3. (!answer c d) [resolve 1 2]\nend saturated turns 1\n",
            ),
            // alternatives of three
            quiet(
                &["ask", "--answers", "1", "(p ?X)", "a.kif"],
                &[("a.kif", "(or (p a) (p b) (p c))\n")],
                0,
                "answer 1\n  ?X = a\nor\n  ?X = b\nor\n  ?X = c\nproof\n  1. (or (p a) (p b) (p c)) [a.kif:1:1]\n  2. (or (not (p ?X1)) (!answer ?X1)) [query]\n  3. (or (p b) (p c) (!answer a)) [resolve 1 2]\n  4. (or (p c) (!answer a) (!answer b)) [resolve 3 2]\n  5. (or (!answer a) (!answer b) (!answer c)) [resolve 4 2]\nend enough turns 5\n",
            ),
            // alternatives that are one
            quiet(
                &["ask", "--answers", "2", "(p ?X)", "a.kif"],
                &[("a.kif", "(or (p ?Y) (p ?Z))\n")],
                0,
                "answer 1\n  ?X = ?X1\nor\n  ?X = ?X2\nproof\n  1. (or (p ?X1) (p ?X2)) [a.kif:1:1]\n  2. (or (not (p ?X1)) (!answer ?X1)) [query]\n  3. (or (p ?X1) (!answer ?X2)) [resolve 1 2]\n  4. (or (!answer ?X1) (!answer ?X2)) [resolve 3 2]\nend saturated turns 2\n",
            ),
            // an alternative shown by one fact
            quiet(
                &["ask", "--answers", "2", "(p ?X)", "a.kif"],
                &[("a.kif", "(or (p a) (p b))\n(not (p b))\n")],
                0,
                "answer 1\n  ?X = a\nproof\n  1. (or (p a) (p b)) [a.kif:1:1]\n  2. (not (p b)) [a.kif:2:1]\n  3. (or (not (p ?X1)) (!answer ?X1)) [query]\n  4. (or (p b) (!answer a)) [resolve 1 3]\n  5. (!answer a) [resolve 4 2]\nend saturated turns 3\n",
            ),
            // yes or yes
            quiet(
                &["ask", "--answers", "1", "(exists (?X) (p ?X))", "a.kif"],
                &[("a.kif", "(or (p a) (p b))\n")],
                0,
                "answer 1\n  yes\nproof\n  1. (or (p a) (p b)) [a.kif:1:1]\n  2. (or (not (p ?X1)) (!answer)) [query]\n  3. (or (p b) (!answer)) [resolve 1 2]\n  4. (!answer) [resolve 3 2]\nend enough turns 2\n",
            ),
        ],
    )?;
    Ok(())
}

#[test]
fn ends_as_defined(rt: HostRuntime) -> Result<(), Fail> {
    check_all(
        &rt,
        rt.alloc(),
        &[
            // saturated without an answer
            quiet(
                &["ask", "(p a)", "a.kif"],
                &[("a.kif", "(p b)\n(=> (q ?X) (p ?X))\n")],
                1,
                "end saturated turns 2\n",
            ),
            // saturated at the last turn
            quiet(
                &["ask", "--turns", "3", "(p a)", "a.kif"],
                &[("a.kif", "(=> (q ?X) (p ?X))\n(=> (r ?X) (q ?X))\n")],
                1,
                "end saturated turns 3\n",
            ),
            // spent a turn before
            quiet(
                &["ask", "--turns", "2", "(p a)", "a.kif"],
                &[("a.kif", "(=> (q ?X) (p ?X))\n(=> (r ?X) (q ?X))\n")],
                1,
                "end spent turns 2\n",
            ),
            // crowded by waiting clauses
            quiet(
                &["ask", "--kept", "2", "(p ?X)", "a.kif"],
                &[(
                    "a.kif",
                    "(=> (q1 ?X) (p ?X))\n(=> (q2 ?X) (p ?X))\n(=> (q3 ?X) (p ?X))\n",
                )],
                1,
                "end crowded turns 1\n",
            ),
            // a found clause is not kept
            quiet(
                &["ask", "--answers", "5", "--kept", "2", "(p ?X)", "a.kif"],
                &[(
                    "a.kif",
                    "(p a)\n(p b)\n(=> (q1 ?X) (p ?X))\n(=> (q2 ?X) (p ?X))\n",
                )],
                0,
                "answer 1\n  ?X = a\nproof\n  1. (p a) [a.kif:1:1]\n  2. (or (not (p ?X1)) (!answer ?X1)) [query]\n  3. (!answer a) [resolve 1 2]\nanswer 2\n  ?X = b\nproof\n  1. (p b) [a.kif:2:1]\n  2. (or (not (p ?X1)) (!answer ?X1)) [query]\n  3. (!answer b) [resolve 1 2]\nend crowded turns 1\n",
            ),
            // inputs are not kept
            quiet(
                &["ask", "--kept", "3", "(p ?X)", "a.kif"],
                &[(
                    "a.kif",
                    "(q1 a)\n(q2 a)\n(q3 a)\n(=> (and (q1 ?X) (q2 ?X)) (p ?X))\n",
                )],
                1,
                "end crowded turns 2\n",
            ),
            // an answer in the last turn
            quiet(
                &["ask", "--turns", "3", "(p a)", "a.kif"],
                &[("a.kif", "(=> (p (sFn ?X)) (p ?X))\n(p (sFn (sFn a)))\n")],
                0,
                "answer 1\n  yes\nproof\n  1. (or (not (p (sFn ?X1))) (p ?X1)) [a.kif:1:1]\n  2. (p (sFn (sFn a))) [a.kif:2:1]\n  3. (or (not (p a)) (!answer)) [query]\n  4. (or (not (p (sFn a))) (!answer)) [resolve 1 3]\n  5. (or (not (p (sFn (sFn a)))) (!answer)) [resolve 1 4]\n  6. (!answer) [resolve 2 5]\nend enough turns 3\n",
            ),
            // no turn beyond
            quiet(
                &["ask", "--turns", "2", "(p a)", "a.kif"],
                &[("a.kif", "(=> (p (sFn ?X)) (p ?X))\n(p (sFn (sFn a)))\n")],
                1,
                "end spent turns 2\n",
            ),
        ],
    )?;
    Ok(())
}

#[test]
fn drops_what_is_covered(rt: HostRuntime) -> Result<(), Fail> {
    check_all(
        &rt,
        rt.alloc(),
        &[
            // a tautology is dropped as it comes
            quiet(
                &["ask", "(p ?X)", "a.kif"],
                &[(
                    "a.kif",
                    "(=> (p ?X) (p ?X))\n(=> (and (q ?X) (not (q ?X))) (p ?X))\n(=> (r ?X) (p ?X))\n(r a)\n",
                )],
                0,
                "answer 1\n  ?X = a\nproof\n  1. (or (not (r ?X1)) (p ?X1)) [a.kif:3:1]\n  2. (r a) [a.kif:4:1]\n  3. (or (not (p ?X1)) (!answer ?X1)) [query]\n  4. (or (not (r ?X1)) (!answer ?X1)) [resolve 1 3]\n  5. (!answer a) [resolve 2 4]\nend enough turns 2\n",
            ),
            // a tautology waits in full mode
            quiet(
                &["ask", "--mode", "full", "(p a)", "a.kif"],
                &[("a.kif", "(or (q b) (not (q b)))\n(p a)\n")],
                0,
                "answer 1\n  yes\nproof\n  1. (p a) [a.kif:2:1]\n  2. (or (not (p a)) (!answer)) [query]\n  3. (!answer) [resolve 1 2]\nend enough turns 2\n",
            ),
            // a clause is not subsumed by its factor
            quiet(
                &[
                    "ask",
                    "--answers",
                    "1",
                    "(not (and (p ?X) (p ?Y)))",
                    "a.kif",
                ],
                &[("a.kif", "(not (p a))\n")],
                0,
                "answer 1\n  ?X = a\n  ?Y = ?X1\nproof\n  1. (not (p a)) [a.kif:1:1]\n  2. (or (p ?X1) (!answer ?X1 ?X2)) [query]\n  3. (!answer a ?X1) [resolve 2 1]\nend enough turns 1\n",
            ),
            // a waiting clause subsumes a new one
            quiet(
                &["ask", "(p ?X)", "a.kif"],
                &[(
                    "a.kif",
                    "(=> (q ?X) (p ?X))\n(=> (and (q ?X) (r ?X)) (p ?X))\n(q a)\n",
                )],
                0,
                "answer 1\n  ?X = a\nproof\n  1. (or (not (q ?X1)) (p ?X1)) [a.kif:1:1]\n  2. (q a) [a.kif:3:1]\n  3. (or (not (p ?X1)) (!answer ?X1)) [query]\n  4. (or (not (q ?X1)) (!answer ?X1)) [resolve 1 3]\n  5. (!answer a) [resolve 2 4]\nend enough turns 2\n",
            ),
            // one given later is dropped
            quiet(
                &["ask", "--turns", "10", "(p a)", "a.kif"],
                &[(
                    "a.kif",
                    "(=> (and (q ?X) (r c c c c)) (p ?X))\n(=> (s ?X) (p ?X))\n(=> (q ?X) (s ?X))\n(q a)\n(r c c c c)\n",
                )],
                0,
                "answer 1\n  yes\nproof\n  1. (or (not (s ?X1)) (p ?X1)) [a.kif:2:1]\n  2. (or (not (q ?X1)) (s ?X1)) [a.kif:3:1]\n  3. (q a) [a.kif:4:1]\n  4. (or (not (p a)) (!answer)) [query]\n  5. (or (not (s a)) (!answer)) [resolve 1 4]\n  6. (or (not (q a)) (!answer)) [resolve 2 5]\n  7. (!answer) [resolve 3 6]\nend enough turns 3\n",
            ),
        ],
    )?;
    Ok(())
}

#[test]
fn draws_conclusions_in_order(rt: HostRuntime) -> Result<(), Fail> {
    check_all(
        &rt,
        rt.alloc(),
        &[
            // a factor comes before the partners
            quiet(
                &["ask", "(exists (?X ?Y) (and (p ?X) (p ?Y)))", "a.kif"],
                &[("a.kif", "(p a)\n(p b)\n")],
                0,
                "answer 1\n  yes\nproof\n  1. (p a) [a.kif:1:1]\n  2. (or (not (p ?X1)) (not (p ?X2)) (!answer)) [query]\n  3. (or (not (p ?X1)) (!answer)) [factor 2]\n  4. (!answer) [resolve 1 3]\nend enough turns 2\n",
            ),
            // a clause resolves with itself
            quiet(
                &[
                    "ask",
                    "--turns",
                    "12",
                    "--mode",
                    "full",
                    "(p (sFn (sFn a)))",
                    "a.kif",
                ],
                &[("a.kif", "(p a)\n(=> (p ?X) (p (sFn ?X)))\n")],
                0,
                "answer 1\n  yes\nproof\n  1. (p a) [a.kif:1:1]\n  2. (or (not (p ?X1)) (p (sFn ?X1))) [a.kif:2:1]\n  3. (or (not (p (sFn (sFn a)))) (!answer)) [query]\n  4. (p (sFn a)) [resolve 1 2]\n  5. (p (sFn (sFn a))) [resolve 4 2]\n  6. (!answer) [resolve 5 3]\nend enough turns 5\n",
            ),
            // partners in the order in which they were processed
            quiet(
                &["ask", "--answers", "3", "(p ?X)", "a.kif"],
                &[(
                    "a.kif",
                    "(=> (q ?X) (p ?X))\n(p c)\n(=> (r ?X) (p ?X))\n(q a)\n(r b)\n",
                )],
                0,
                "answer 1\n  ?X = c\nproof\n  1. (p c) [a.kif:2:1]\n  2. (or (not (p ?X1)) (!answer ?X1)) [query]\n  3. (!answer c) [resolve 1 2]\nanswer 2\n  ?X = a\nproof\n  1. (or (not (q ?X1)) (p ?X1)) [a.kif:1:1]\n  2. (q a) [a.kif:4:1]\n  3. (or (not (p ?X1)) (!answer ?X1)) [query]\n  4. (or (not (q ?X1)) (!answer ?X1)) [resolve 1 3]\n  5. (!answer a) [resolve 2 4]\nanswer 3\n  ?X = b\nproof\n  1. (or (not (r ?X1)) (p ?X1)) [a.kif:3:1]\n  2. (r b) [a.kif:5:1]\n  3. (or (not (p ?X1)) (!answer ?X1)) [query]\n  4. (or (not (r ?X1)) (!answer ?X1)) [resolve 1 3]\n  5. (!answer b) [resolve 2 4]\nend enough turns 3\n",
            ),
            // by the literal of the given clause and then the partner
            quiet(
                &[
                    "ask",
                    "--turns",
                    "30",
                    "--answers",
                    "1",
                    "(and (p ?X) (q ?X))",
                    "a.kif",
                ],
                &[("a.kif", "(or (q a) (p b))\n(or (p a) (q b))\n(p a)\n")],
                1,
                "end saturated turns 7\n",
            ),
        ],
    )?;
    Ok(())
}

#[test]
fn reasons_with_equality(rt: HostRuntime) -> Result<(), Fail> {
    check_all(
        &rt,
        rt.alloc(),
        &[
            // equality from right to left
            quiet(
                &["ask", "(p a)", "a.kif"],
                &[("a.kif", "(equal a b)\n(p b)\n")],
                0,
                "answer 1\n  yes\nproof\n  1. (equal a b) [a.kif:1:1]\n  2. (p b) [a.kif:2:1]\n  3. (or (not (p a)) (!answer)) [query]\n  4. (or (not (p b)) (!answer)) [paramodulate 1 3]\n  5. (!answer) [resolve 2 4]\nend enough turns 2\n",
            ),
            // equality inside a term
            quiet(
                &["ask", "(p (fFn a))", "a.kif"],
                &[("a.kif", "(equal a b)\n(p (fFn b))\n")],
                0,
                "answer 1\n  yes\nproof\n  1. (equal a b) [a.kif:1:1]\n  2. (p (fFn b)) [a.kif:2:1]\n  3. (or (not (p (fFn a))) (!answer)) [query]\n  4. (or (not (p (fFn b))) (!answer)) [paramodulate 1 3]\n  5. (!answer) [resolve 2 4]\nend enough turns 2\n",
            ),
            // outer before inner
            quiet(
                &["ask", "--turns", "40", "(p (fFn (fFn a)))", "a.kif"],
                &[("a.kif", "(equal (fFn a) a)\n(p a)\n")],
                0,
                "answer 1\n  yes\nproof\n  1. (equal (fFn a) a) [a.kif:1:1]\n  2. (p a) [a.kif:2:1]\n  3. (or (not (p (fFn (fFn a)))) (!answer)) [query]\n  4. (or (not (p (fFn a))) (!answer)) [paramodulate 1 3]\n  5. (or (not (p a)) (!answer)) [paramodulate 1 4]\n  6. (!answer) [resolve 2 5]\nend enough turns 3\n",
            ),
            // reflexivity answers
            quiet(
                &["ask", "(equal a a)", "a.kif"],
                &[("a.kif", "(p a)\n")],
                0,
                "answer 1\n  yes\nproof\n  1. (equal ?X1 ?X1) [equality]\n  2. (or (not (equal a a)) (!answer)) [query]\n  3. (!answer) [resolve 1 2]\nend enough turns 1\n",
            ),
            // reflexivity with a variable
            quiet(
                &["ask", "(equal ?X a)", "a.kif"],
                &[("a.kif", "(p b)\n")],
                0,
                "answer 1\n  ?X = a\nproof\n  1. (equal ?X1 ?X1) [equality]\n  2. (or (not (equal ?X1 a)) (!answer ?X1)) [query]\n  3. (!answer a) [resolve 1 2]\nend enough turns 1\n",
            ),
            // an equality in the query alone
            quiet(
                &[
                    "ask",
                    "--turns",
                    "20",
                    "--answers",
                    "2",
                    "(or (equal a b) (p c))",
                    "a.kif",
                ],
                &[("a.kif", "(p c)\n")],
                0,
                "answer 1\n  yes\nproof\n  1. (p c) [a.kif:1:1]\n  2. (or (not (p c)) (!answer)) [query]\n  3. (!answer) [resolve 1 2]\nend saturated turns 2\n",
            ),
            // equal of three arguments is no equality
            quiet(
                &["ask", "(p b)", "a.kif"],
                &[("a.kif", "(equal a b c)\n(p a)\n")],
                1,
                "end saturated turns 1\n",
            ),
            // equality in full mode
            quiet(
                &["ask", "--turns", "30", "--mode", "full", "(r ?X)", "a.kif"],
                &[("a.kif", "(equal a b)\n(or (not (q b)) (r c))\n(q a)\n")],
                0,
                "answer 1\n  ?X = c\nproof\n  1. (equal a b) [a.kif:1:1]\n  2. (or (not (q b)) (r c)) [a.kif:2:1]\n  3. (q a) [a.kif:3:1]\n  4. (or (not (r ?X1)) (!answer ?X1)) [query]\n  5. (q b) [paramodulate 1 3]\n  6. (r c) [resolve 5 2]\n  7. (!answer c) [resolve 6 4]\nend enough turns 7\n",
            ),
            // a contradiction by equality
            quiet(
                &["ask", "--turns", "40", "--mode", "full", "(r a)", "a.kif"],
                &[("a.kif", "(equal a b)\n(p a)\n(not (p b))\n")],
                0,
                "contradiction\nproof\n  1. (equal a b) [a.kif:1:1]\n  2. (p a) [a.kif:2:1]\n  3. (not (p b)) [a.kif:3:1]\n  4. (p b) [paramodulate 1 2]\n  5. false [resolve 4 3]\nend contradiction turns 4\n",
            ),
            // symmetric answers
            quiet(
                &[
                    "ask",
                    "--turns",
                    "20",
                    "--answers",
                    "3",
                    "(equal ?X ?Y)",
                    "a.kif",
                ],
                &[("a.kif", "(equal a b)\n")],
                0,
                "answer 1\n  ?X = a\n  ?Y = b\nproof\n  1. (equal a b) [a.kif:1:1]\n  2. (or (not (equal ?X1 ?X2)) (!answer ?X1 ?X2)) [query]\n  3. (!answer a b) [resolve 1 2]\nanswer 2\n  ?X = ?X1\n  ?Y = ?X1\nproof\n  1. (equal ?X1 ?X1) [equality]\n  2. (or (not (equal ?X1 ?X2)) (!answer ?X1 ?X2)) [query]\n  3. (!answer ?X1 ?X1) [resolve 1 2]\nend saturated turns 1\n",
            ),
        ],
    )?;
    Ok(())
}

#[test]
fn starts_with_all_clauses_in_full_mode(rt: HostRuntime) -> Result<(), Fail> {
    check_all(
        &rt,
        rt.alloc(),
        &[
            // two axioms meet in full mode
            quiet(
                &["ask", "--mode", "full", "(r ?X)", "a.kif"],
                &[("a.kif", "(=> (p ?X) (q ?X))\n(p a)\n(=> (q ?X) (r ?X))\n")],
                0,
                "answer 1\n  ?X = a\nproof\n  1. (or (not (p ?X1)) (q ?X1)) [a.kif:1:1]\n  2. (p a) [a.kif:2:1]\n  3. (or (not (q ?X1)) (r ?X1)) [a.kif:3:1]\n  4. (or (not (r ?X1)) (!answer ?X1)) [query]\n  5. (q a) [resolve 2 1]\n  6. (r a) [resolve 5 3]\n  7. (!answer a) [resolve 6 4]\nend enough turns 6\n",
            ),
            // an answer and then a contradiction
            quiet(
                &[
                    "ask",
                    "--turns",
                    "30",
                    "--answers",
                    "5",
                    "--mode",
                    "full",
                    "(p ?X)",
                    "a.kif",
                ],
                &[("a.kif", "(p a)\n(q a)\n(=> (q ?X) (s ?X))\n(not (s a))\n")],
                0,
                "answer 1\n  ?X = a\nproof\n  1. (p a) [a.kif:1:1]\n  2. (or (not (p ?X1)) (!answer ?X1)) [query]\n  3. (!answer a) [resolve 1 2]\ncontradiction\nproof\n  1. (q a) [a.kif:2:1]\n  2. (or (not (q ?X1)) (s ?X1)) [a.kif:3:1]\n  3. (not (s a)) [a.kif:4:1]\n  4. (s a) [resolve 1 2]\n  5. false [resolve 4 3]\nend contradiction turns 6\n",
            ),
            // a contradiction that a query in support mode does not see
            quiet(
                &["ask", "--answers", "1", "(p ?X)", "a.kif"],
                &[("a.kif", "(q a)\n(not (q a))\n")],
                1,
                "end saturated turns 1\n",
            ),
            // a contradiction with no answer
            quiet(
                &["ask", "--answers", "1", "--mode", "full", "(p ?X)", "a.kif"],
                &[("a.kif", "(q a)\n(not (q a))\n")],
                0,
                "contradiction\nproof\n  1. (q a) [a.kif:1:1]\n  2. (not (q a)) [a.kif:2:1]\n  3. false [resolve 1 2]\nend contradiction turns 2\n",
            ),
        ],
    )?;
    Ok(())
}
