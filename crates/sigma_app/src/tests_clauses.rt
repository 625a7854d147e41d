//! Pages of clauses over files in memory, and the statuses that come before them.
use crate::tests::{File, USAGE, check_all, failing, over_spaces, quiet};
use std::test::Fail;

const RELATIONS: &str =
    "(instance parent BinaryPredicate)\n(instance ancestor BinaryPredicate)\n(instance between TernaryPredicate)\n(subrelation parent ancestor)\n(subrelation parent between)\n(=> (and (subrelation ?R1 ?R2) (?R1 @ROW)) (?R2 @ROW))\n";

const RELATIONS_PAGE: &str =
    "(instance parent BinaryPredicate) [r.kif:1:1 v1]\n(instance ancestor BinaryPredicate) [r.kif:2:1 v1]\n(instance between TernaryPredicate) [r.kif:3:1 v1]\n(subrelation parent ancestor) [r.kif:4:1 v1]\n(subrelation parent between) [r.kif:5:1 v1]\n(or (not (subrelation parent ancestor)) (not (parent ?X1 ?X2)) (ancestor ?X1 ?X2)) [r.kif:6:1 v1]\n6 clauses\n";

const GUARDS: &str =
    "(domain parent 1 Human)\n(domain parent 2 Human)\n(=> (parent ?X ?Y) (loves ?X ?Y))\n(exists (?Y) (parent ?Y ?X))\n";

const GUARDS_PAGE: &str =
    "(domain parent 1 Human) [k.kif:1:1 v1]\n(domain parent 2 Human) [k.kif:2:1 v1]\n(or (not (instance ?X1 Human)) (not (instance ?X2 Human)) (not (parent ?X1 ?X2)) (loves ?X1 ?X2)) [k.kif:3:1 v1]\n(or (not (instance ?X1 Human)) (instance (!1.4.1.1 ?X1) Human)) [k.kif:4:1 v1]\n(or (not (instance ?X1 Human)) (parent (!1.4.1.1 ?X1) ?X1)) [k.kif:4:1 v1]\n5 clauses\n";

const NONE: &str = "0 clauses\n";

#[test]
fn shows_the_clauses_of_a_file(rt: HostRuntime) -> Result<(), Fail> {
    check_all(
        &rt,
        rt.alloc(),
        &[
            quiet(
                &["clauses", "r.kif"],
                &[("r.kif", RELATIONS)],
                0,
                RELATIONS_PAGE,
            ),
            quiet(&["clauses", "k.kif"], &[("k.kif", GUARDS)], 0, GUARDS_PAGE),
            quiet(&["clauses", "empty.kif"], &[("empty.kif", "")], 0, NONE),
            quiet(
                &["clauses", "v.kif"],
                &[("v.kif", "(p a)\n(q b)\n  (=> (?R a) (not (?R b)))\n")],
                0,
                "(p a) [v.kif:1:1 v1]\n(q b) [v.kif:2:1 v1]\n(or (not (p a)) (not (p b))) [v.kif:3:3 v1]\n(or (not (q a)) (not (q b))) [v.kif:3:3 v2]\n4 clauses\n",
            ),
            quiet(
                &["clauses", "h.kif"],
                &[("h.kif", "(believes John (instance Mars Planet))\n(p a)\n")],
                0,
                "(p a) [h.kif:2:1 v1]\n1 clauses\n",
            ),
        ],
    )?;
    Ok(())
}

const TWO: &[File] = &[
    ("a.kif", "(and (p a) (not (q a)))\n"),
    (
        "b.kif",
        "(documentation q EnglishLanguage \"A relation.\")\n(exists (?X ?Y) (r ?X ?Y))\n",
    ),
];

#[test]
fn shows_the_clauses_of_the_files_in_their_order(rt: HostRuntime) -> Result<(), Fail> {
    check_all(
        &rt,
        rt.alloc(),
        &[
            quiet(
                &["clauses", "a.kif", "b.kif"],
                TWO,
                0,
                "(p a) [a.kif:1:1 v1]\n(not (q a)) [a.kif:1:1 v1]\n(r !2.2.1.1 !2.2.1.2) [b.kif:2:1 v1]\n3 clauses\n",
            ),
            quiet(
                &["clauses", "--", "b.kif", "a.kif"],
                TWO,
                0,
                "(r !1.2.1.1 !1.2.1.2) [b.kif:2:1 v1]\n(p a) [a.kif:1:1 v1]\n(not (q a)) [a.kif:1:1 v1]\n3 clauses\n",
            ),
            failing(
                &["clauses", "a.kif", "b.kif"],
                &[("a.kif", ""), ("b.kif", "; nothing")],
                &[3],
                &[2],
                0,
                NONE,
            ),
        ],
    )?;
    Ok(())
}

#[test]
fn ends_where_a_file_is_not_read(rt: HostRuntime) -> Result<(), Fail> {
    const BOTH: &[&str] = &["clauses", "a.kif", "b.kif"];
    check_all(
        &rt,
        rt.alloc(),
        &[
            quiet(BOTH, &[("a.kif", "((")], 3, "absent b.kif\n"),
            quiet(
                BOTH,
                &[("a.kif", "(p a)"), ("b.kif", "\n(p a))")],
                5,
                "syntax 4 b.kif:2:6\n",
            ),
            failing(BOTH, TWO, &[2], &[], 4, "file fault b.kif\n"),
            failing(BOTH, TWO, &[1], &[1], 8, ""),
            failing(&["clauses"], TWO, &[1], &[], 2, USAGE),
            failing(
                &["clauses", "a.kif", "b.kif", "a.kif"],
                TWO,
                &[1],
                &[],
                2,
                USAGE,
            ),
        ],
    )?;
    Ok(())
}

#[test]
fn keeps_the_limits_of_files(rt: HostRuntime) -> Result<(), Fail> {
    let cases: [(&[usize], u8, &str); 3] = [
        (&[0, 8_388_609], 6, "limit file f2\n"),
        (&[0; 65], 6, "limit files 65\n"),
        (&[1; 64], 0, NONE),
    ];
    for (lengths, status, printed) in cases {
        let (ended, text) = over_spaces(&rt, rt.alloc(), &["clauses"], lengths)?;
        assert_eq!(rt; ended, status);
        assert_eq!(rt; text.bytes(), printed.as_bytes());
    }
    Ok(())
}
