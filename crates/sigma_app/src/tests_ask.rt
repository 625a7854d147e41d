//! Queries over all that forms may be: worked pages, refused queries, and a query of every shape of form.
use crate::tests::{check_all, quiet};
use std::test::Fail;

#[test]
fn shows_the_worked_pages(rt: HostRuntime) -> Result<(), Fail> {
    check_all(
        &rt,
        rt.alloc(),
        &[
            quiet(
                &["ask", "(instance ?X Mortal)", "mortal.kif"],
                &[(
                    "mortal.kif",
                    "; People and mortality, in the manner of SUMO.\n(documentation Entity EnglishLanguage \"The universal class.\")\n(documentation Mortal EnglishLanguage \"Whatever dies.\")\n(documentation Human EnglishLanguage \"Modern man.\")\n(documentation Socrates EnglishLanguage \"A philosopher.\")\n(subclass Mortal Entity)\n(subclass Human Mortal)\n(instance Socrates Human)\n(=>\n  (and\n    (subclass ?SUB ?SUP)\n    (instance ?X ?SUB))\n  (instance ?X ?SUP))\n",
                )],
                0,
                "answer 1\n  ?X = Socrates\nproof\n  1. (subclass Human Mortal) [mortal.kif:7:1]\n  2. (instance Socrates Human) [mortal.kif:8:1]\n  3. (or (not (subclass ?X1 ?X2)) (not (instance ?X3 ?X1)) (instance ?X3 ?X2)) [mortal.kif:9:1]\n  4. (or (not (instance ?X1 Mortal)) (!answer ?X1)) [query]\n  5. (or (not (subclass ?X1 Mortal)) (not (instance ?X2 ?X1)) (!answer ?X2)) [resolve 3 4]\n  6. (or (not (instance ?X1 Human)) (!answer ?X1)) [resolve 1 5]\n  7. (!answer Socrates) [resolve 2 6]\nend enough turns 3\n",
            ),
            quiet(
                &["ask", "(p a)", "empty.kif"],
                &[("empty.kif", "")],
                1,
                "end saturated turns 1\n",
            ),
            quiet(
                &["ask", "--answers", "10", "(p ?X)", "a.kif", "b.kif"],
                &[("a.kif", "(p a)\n"), ("b.kif", "(p a)\n")],
                0,
                "answer 1\n  ?X = a\nproof\n  1. (p a) [a.kif:1:1]\n  2. (or (not (p ?X1)) (!answer ?X1)) [query]\n  3. (!answer a) [resolve 1 2]\nend saturated turns 1\n",
            ),
            quiet(
                &["ask", "(p a)", "a.kif"],
                &[("a.kif", "(p a)\n")],
                0,
                "answer 1\n  yes\nproof\n  1. (p a) [a.kif:1:1]\n  2. (or (not (p a)) (!answer)) [query]\n  3. (!answer) [resolve 1 2]\nend enough turns 1\n",
            ),
            quiet(
                &["ask", "(p ?X)", "f.kif"],
                &[("f.kif", "(or (p a) (p b))\n")],
                0,
                "answer 1\n  ?X = a\nor\n  ?X = b\nproof\n  1. (or (p a) (p b)) [f.kif:1:1]\n  2. (or (not (p ?X1)) (!answer ?X1)) [query]\n  3. (or (p b) (!answer a)) [resolve 1 2]\n  4. (or (!answer a) (!answer b)) [resolve 3 2]\nend enough turns 2\n",
            ),
            quiet(
                &["ask", "--kept", "1", "(p ?X)", "f.kif"],
                &[("f.kif", "(or (p a) (p b))\n")],
                1,
                "end crowded turns 1\n",
            ),
            quiet(
                &["ask", "--mode", "full", "(r a)", "g.kif"],
                &[(
                    "g.kif",
                    "(or (p ?X) (p ?Y))\n(or (not (p ?X)) (not (p ?Y)))\n",
                )],
                0,
                "contradiction\nproof\n  1. (or (p ?X1) (p ?X2)) [g.kif:1:1]\n  2. (or (not (p ?X1)) (not (p ?X2))) [g.kif:2:1]\n  3. (p ?X1) [factor 1]\n  4. (not (p ?X1)) [factor 2]\n  5. false [resolve 3 4]\nend contradiction turns 5\n",
            ),
            quiet(
                &["ask", "(p b)", "e.kif"],
                &[("e.kif", "(equal a b)\n(p a)\n")],
                0,
                "answer 1\n  yes\nproof\n  1. (equal a b) [e.kif:1:1]\n  2. (p a) [e.kif:2:1]\n  3. (or (not (p b)) (!answer)) [query]\n  4. (or (not (p a)) (!answer)) [paramodulate 1 3]\n  5. (!answer) [resolve 2 4]\nend enough turns 2\n",
            ),
            quiet(
                &["ask", "(parent ?Z Ann)", "s.kif"],
                &[("s.kif", "(exists (?Y) (parent ?Y ?X))\n")],
                0,
                "answer 1\n  ?Z = (!1.1.1.1 Ann)\nproof\n  1. (parent (!1.1.1.1 ?X1) ?X1) [s.kif:1:1]\n  2. (or (not (parent ?X1 Ann)) (!answer ?X1)) [query]\n  3. (!answer (!1.1.1.1 Ann)) [resolve 1 2]\nend enough turns 1\n",
            ),
            quiet(
                &[
                    "ask",
                    "--turns",
                    "3",
                    "(p (sFn (sFn (sFn (sFn a)))))",
                    "n.kif",
                ],
                &[("n.kif", "(p a)\n(=> (p ?X) (p (sFn ?X)))\n")],
                1,
                "end spent turns 3\n",
            ),
            quiet(
                &[
                    "ask",
                    "--turns",
                    "5",
                    "(p (sFn (sFn (sFn (sFn a)))))",
                    "n.kif",
                ],
                &[("n.kif", "(p a)\n(=> (p ?X) (p (sFn ?X)))\n")],
                0,
                "answer 1\n  yes\nproof\n  1. (p a) [n.kif:1:1]\n  2. (or (not (p ?X1)) (p (sFn ?X1))) [n.kif:2:1]\n  3. (or (not (p (sFn (sFn (sFn (sFn a)))))) (!answer)) [query]\n  4. (or (not (p (sFn (sFn (sFn a))))) (!answer)) [resolve 2 3]\n  5. (or (not (p (sFn (sFn a)))) (!answer)) [resolve 2 4]\n  6. (or (not (p (sFn a))) (!answer)) [resolve 2 5]\n  7. (or (not (p a)) (!answer)) [resolve 2 6]\n  8. (!answer) [resolve 1 7]\nend enough turns 5\n",
            ),
            quiet(
                &["ask", "(p ?X)", "h.kif"],
                &[("h.kif", "(believes John (instance Mars Planet))\n(p a)\n")],
                0,
                "answer 1\n  ?X = a\nproof\n  1. (p a) [h.kif:2:1]\n  2. (or (not (p ?X1)) (!answer ?X1)) [query]\n  3. (!answer a) [resolve 1 2]\nend enough turns 1\n",
            ),
            quiet(
                &["ask", "(p ?Y)", "v.kif"],
                &[("v.kif", "(p ?X)\n")],
                0,
                "answer 1\n  ?Y = ?X1\nproof\n  1. (p ?X1) [v.kif:1:1]\n  2. (or (not (p ?X1)) (!answer ?X1)) [query]\n  3. (!answer ?X1) [resolve 1 2]\nend enough turns 1\n",
            ),
        ],
    )?;
    Ok(())
}

#[test]
fn refuses_queries(rt: HostRuntime) -> Result<(), Fail> {
    check_all(
        &rt,
        rt.alloc(),
        &[
            quiet(
                &["ask", "(p @R)", "a.kif"],
                &[("a.kif", "(p a)\n")],
                7,
                "query 3\n",
            ),
            quiet(
                &["ask", "(?R a)", "a.kif"],
                &[("a.kif", "(p a)\n")],
                7,
                "query 4\n",
            ),
            quiet(
                &["ask", "(p (q a))", "a.kif"],
                &[("a.kif", "(p a)\n")],
                7,
                "query 5\n",
            ),
            quiet(
                &["ask", "", "a.kif"],
                &[("a.kif", "(p a)\n")],
                7,
                "query 2\n",
            ),
            quiet(
                &["ask", "(p", "a.kif"],
                &[("a.kif", "(p a)\n")],
                7,
                "query 1 syntax 3 1:1\n",
            ),
            quiet(
                &["ask", "(p a) (q b)", "a.kif"],
                &[("a.kif", "(p a)\n")],
                7,
                "query 2\n",
            ),
            quiet(
                &["ask", "(p \"a", "a.kif"],
                &[("a.kif", "(p a)\n")],
                7,
                "query 1 syntax 2 1:4\n",
            ),
            quiet(
                &["ask", "(=> (p ?X))", "a.kif"],
                &[("a.kif", "(p a)\n")],
                7,
                "query 1 syntax 8 1:1\n",
            ),
        ],
    )?;
    Ok(())
}

#[test]
fn asks_of_every_shape_of_form(rt: HostRuntime) -> Result<(), Fail> {
    check_all(
        &rt,
        rt.alloc(),
        &[
            // a biconditional
            quiet(
                &["ask", "--turns", "20", "(p ?X)", "a.kif"],
                &[("a.kif", "(<=> (p ?X) (and (q ?X) (r ?X)))\n(q a)\n(r a)\n")],
                0,
                "answer 1\n  ?X = a\nproof\n  1. (or (not (q ?X1)) (not (r ?X1)) (p ?X1)) [a.kif:1:1]\n  2. (q a) [a.kif:2:1]\n  3. (r a) [a.kif:3:1]\n  4. (or (not (p ?X1)) (!answer ?X1)) [query]\n  5. (or (not (q ?X1)) (not (r ?X1)) (!answer ?X1)) [resolve 1 4]\n  6. (or (not (r a)) (!answer a)) [resolve 2 5]\n  7. (!answer a) [resolve 3 6]\nend enough turns 3\n",
            ),
            // a Skolem word
            quiet(
                &["ask", "(p ?X)", "a.kif"],
                &[("a.kif", "(exists (?Y) (p ?Y))\n")],
                0,
                "answer 1\n  ?X = !1.1.1.1\nproof\n  1. (p !1.1.1.1) [a.kif:1:1]\n  2. (or (not (p ?X1)) (!answer ?X1)) [query]\n  3. (!answer !1.1.1.1) [resolve 1 2]\nend enough turns 1\n",
            ),
            // a Skolem term of two universals
            quiet(
                &["ask", "(r ?X ?Y ?Z)", "a.kif"],
                &[("a.kif", "(forall (?X ?Y) (exists (?Z) (r ?X ?Y ?Z)))\n")],
                0,
                "answer 1\n  ?X = ?X1\n  ?Y = ?X2\n  ?Z = (!1.1.1.1 ?X1 ?X2)\nproof\n  1. (r ?X1 ?X2 (!1.1.1.1 ?X1 ?X2)) [a.kif:1:1]\n  2. (or (not (r ?X1 ?X2 ?X3)) (!answer ?X1 ?X2 ?X3)) [query]\n  3. (!answer ?X1 ?X2 (!1.1.1.1 ?X1 ?X2)) [resolve 1 2]\nend enough turns 1\n",
            ),
            // a universal query
            quiet(
                &[
                    "ask",
                    "--turns",
                    "20",
                    "(forall (?X) (=> (p ?X) (q ?X)))",
                    "a.kif",
                ],
                &[("a.kif", "(=> (p ?X) (r ?X))\n(=> (r ?X) (q ?X))\n")],
                0,
                "answer 1\n  yes\nproof\n  1. (or (not (p ?X1)) (r ?X1)) [a.kif:1:1]\n  2. (or (not (r ?X1)) (q ?X1)) [a.kif:2:1]\n  3. (or (p !query.1) (!answer)) [query]\n  4. (or (not (q !query.1)) (!answer)) [query]\n  5. (or (!answer) (r !query.1)) [resolve 3 1]\n  6. (or (not (r !query.1)) (!answer)) [resolve 2 4]\n  7. (!answer) [resolve 5 6]\nend enough turns 4\n",
            ),
            // a query of two clauses
            quiet(
                &["ask", "(or (p ?X) (q ?X))", "a.kif"],
                &[("a.kif", "(q a)\n")],
                0,
                "answer 1\n  ?X = a\nproof\n  1. (q a) [a.kif:1:1]\n  2. (or (not (q ?X1)) (!answer ?X1)) [query]\n  3. (!answer a) [resolve 1 2]\nend enough turns 2\n",
            ),
            // strings and numerals
            quiet(
                &["ask", "(p ?X ?Y)", "a.kif"],
                &[("a.kif", "(p \"a \\\"b\\\"\" -1.5)\n")],
                0,
                "answer 1\n  ?X = \"a \\\"b\\\"\"\n  ?Y = -1.5\nproof\n  1. (p \"a \\\"b\\\"\" -1.5) [a.kif:1:1]\n  2. (or (not (p ?X1 ?X2)) (!answer ?X1 ?X2)) [query]\n  3. (!answer \"a \\\"b\\\"\" -1.5) [resolve 1 2]\nend enough turns 1\n",
            ),
            // guards ask for types
            quiet(
                &["ask", "--turns", "20", "(loves ?X ?Y)", "a.kif"],
                &[(
                    "a.kif",
                    "(domain parent 1 Human)\n(domain parent 2 Human)\n(=> (parent ?X ?Y) (loves ?X ?Y))\n(parent a b)\n(instance a Human)\n(instance b Human)\n",
                )],
                0,
                "answer 1\n  ?X = a\n  ?Y = b\nproof\n  1. (or (not (instance ?X1 Human)) (not (instance ?X2 Human)) (not (parent ?X1 ?X2)) (loves ?X1 ?X2)) [a.kif:3:1]\n  2. (parent a b) [a.kif:4:1]\n  3. (instance a Human) [a.kif:5:1]\n  4. (instance b Human) [a.kif:6:1]\n  5. (or (not (loves ?X1 ?X2)) (!answer ?X1 ?X2)) [query]\n  6. (or (not (instance ?X1 Human)) (not (instance ?X2 Human)) (not (parent ?X1 ?X2)) (!answer ?X1 ?X2)) [resolve 1 5]\n  7. (or (not (instance a Human)) (not (instance b Human)) (!answer a b)) [resolve 2 6]\n  8. (or (not (instance b Human)) (!answer a b)) [resolve 3 7]\n  9. (!answer a b) [resolve 4 8]\nend enough turns 7\n",
            ),
            // two files, cited by their names
            quiet(
                &["ask", "(p ?X)", "a.kif", "b.kif"],
                &[("a.kif", "(=> (q ?X) (p ?X))\n"), ("b.kif", "\n (q a)")],
                0,
                "answer 1\n  ?X = a\nproof\n  1. (or (not (q ?X1)) (p ?X1)) [a.kif:1:1]\n  2. (q a) [b.kif:2:2]\n  3. (or (not (p ?X1)) (!answer ?X1)) [query]\n  4. (or (not (q ?X1)) (!answer ?X1)) [resolve 1 3]\n  5. (!answer a) [resolve 2 4]\nend enough turns 2\n",
            ),
            // the variable of a proof is left
            quiet(
                &["ask", "(p ?X ?Y)", "a.kif"],
                &[("a.kif", "(=> (q ?X) (p ?X ?Y))\n(q a)\n")],
                0,
                "answer 1\n  ?X = a\n  ?Y = ?X1\nproof\n  1. (or (not (q ?X1)) (p ?X1 ?X2)) [a.kif:1:1]\n  2. (q a) [a.kif:2:1]\n  3. (or (not (p ?X1 ?X2)) (!answer ?X1 ?X2)) [query]\n  4. (or (not (q ?X1)) (!answer ?X1 ?X2)) [resolve 1 3]\n  5. (!answer a ?X1) [resolve 2 4]\nend enough turns 2\n",
            ),
            // a clause nests too deep beside one that waits
            quiet(
                &["ask", "--turns", "4", "(p a)", "a.kif"],
                &[("a.kif", "(=> (p (sFn ?X)) (p ?X))\n(=> (q ?X) (p ?X))\n")],
                1,
                "end spent turns 4\n",
            ),
        ],
    )?;
    Ok(())
}
