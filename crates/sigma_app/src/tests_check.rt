//! Checks over files in memory: the pages, and the statuses that come before them.
use crate::check_page::check_page;
use crate::tests::{File, USAGE, check_all, failing, over_spaces, quiet};
use diagnose::Diagnostic;
use kif_tree::{LoadName, Place, Text};
use sigma_base::NoMemory;
use std::alloc::Global;
use std::test::Fail;

const PLANTS: &str =
    "(disjoint Plant Animal)\n(instance Rex Plant)\n(instance Rex Animal)\n(domain waters 1 Animal)\n(instance Fern Plant)\n(waters Fern Rex)\n";

const PLANTS_PAGE: &str =
    "1 z.kif:1:1 Animal no parent\n1 z.kif:1:1 Plant no parent\n2 z.kif:1:1 Animal no documentation\n2 z.kif:1:1 Plant no documentation\n2 z.kif:2:1 Rex no documentation\n3 z.kif:2:1 Rex disjoint parents [z.kif:1:1]\n1 z.kif:4:1 waters no parent\n2 z.kif:4:1 waters no documentation\n11 z.kif:4:1 waters arity unstated\n2 z.kif:5:1 Fern no documentation\n4 z.kif:6:1 Fern wrong argument type [z.kif:4:1]\n11 diagnostics\n";

const MORTAL: &str =
    "; People and mortality, in the manner of SUMO.\n(documentation Entity EnglishLanguage \"The universal class.\")\n(documentation Mortal EnglishLanguage \"Whatever dies.\")\n(documentation Human EnglishLanguage \"Modern man.\")\n(documentation Socrates EnglishLanguage \"A philosopher.\")\n(subclass Mortal Entity)\n(subclass Human Mortal)\n(instance Socrates Human)\n(=>\n  (and\n    (subclass ?SUB ?SUP)\n    (instance ?X ?SUB))\n  (instance ?X ?SUP))\n";

const NONE: &str = "0 diagnostics\n";

#[test]
fn shows_the_diagnostics_of_a_file(rt: HostRuntime) -> Result<(), Fail> {
    check_all(
        &rt,
        rt.alloc(),
        &[
            quiet(&["check", "z.kif"], &[("z.kif", PLANTS)], 0, PLANTS_PAGE),
            quiet(
                &["check", "c.kif"],
                &[("c.kif", "(subclass A B)\n(subclass B A)\n(instance a A)\n")],
                0,
                "2 c.kif:1:1 A no documentation\n2 c.kif:1:1 B no documentation\n2 c.kif:3:1 a no documentation\n3 diagnostics\n",
            ),
            quiet(
                &["check", "v.kif"],
                &[(
                    "v.kif",
                    "(=> (p ?X) (p ?Y))\n(forall (?Z) (p a))\n(instance p BinaryPredicate)\n",
                )],
                0,
                "2 v.kif:1:1 p no documentation\n5 v.kif:1:1 p wrong argument count\n6 v.kif:1:1 ?Y unquantified variable\n1 v.kif:2:1 a no parent\n2 v.kif:2:1 a no documentation\n5 v.kif:2:1 p wrong argument count\n7 v.kif:2:1 ?Z quantified variable unused\n1 v.kif:3:1 BinaryPredicate no parent\n2 v.kif:3:1 BinaryPredicate no documentation\n9 diagnostics\n",
            ),
            quiet(&["check", "mortal.kif"], &[("mortal.kif", MORTAL)], 0, NONE),
            quiet(&["check", "empty.kif"], &[("empty.kif", "")], 0, NONE),
        ],
    )?;
    Ok(())
}

const OUTSIDE_PAGE: &str =
    "1 h.kif:1:1 John no parent\n1 h.kif:1:1 Mars no parent\n1 h.kif:1:1 Planet no parent\n1 h.kif:1:1 believes no parent\n2 h.kif:1:1 John no documentation\n2 h.kif:1:1 Mars no documentation\n2 h.kif:1:1 Planet no documentation\n2 h.kif:1:1 believes no documentation\n8 h.kif:1:1 believes outside the profile, not translated\n11 h.kif:1:1 believes arity unstated\n1 h.kif:2:1 a no parent\n1 h.kif:2:1 p no parent\n2 h.kif:2:1 a no documentation\n2 h.kif:2:1 p no documentation\n11 h.kif:2:1 p arity unstated\n15 diagnostics\n";

#[test]
fn shows_what_is_left_out_of_the_translation(rt: HostRuntime) -> Result<(), Fail> {
    check_all(
        &rt,
        rt.alloc(),
        &[
            quiet(
                &["check", "d.kif"],
                &[(
                    "d.kif",
                    "(valence p 2)\n(valence q 3)\n(=> (p @ROW) (q @ROW))\n",
                )],
                0,
                "1 d.kif:1:1 p no parent\n2 d.kif:1:1 p no documentation\n1 d.kif:2:1 q no parent\n2 d.kif:2:1 q no documentation\n9 d.kif:3:1 @ROW row variable never fits\n5 diagnostics\n",
            ),
            quiet(
                &["check", "h.kif"],
                &[("h.kif", "(believes John (instance Mars Planet))\n(p a)\n")],
                0,
                OUTSIDE_PAGE,
            ),
            quiet(
                &["check", "n.kif"],
                &[(
                    "n.kif",
                    "(p a)\n(=> (and (subrelation ?R q) (?R ?X)) (q ?X))\n",
                )],
                0,
                "1 n.kif:1:1 a no parent\n1 n.kif:1:1 p no parent\n2 n.kif:1:1 a no documentation\n2 n.kif:1:1 p no documentation\n11 n.kif:1:1 p arity unstated\n1 n.kif:2:1 q no parent\n2 n.kif:2:1 q no documentation\n11 n.kif:2:1 q arity unstated\n12 n.kif:2:1 ?R no relation fits\n9 diagnostics\n",
            ),
            quiet(
                &["check", "a.kif", "b.kif"],
                &[
                    ("a.kif", "(valence p 2)\n"),
                    ("b.kif", "(valence q 3)\n(=> (p @ROW) (q @ROW))\n"),
                ],
                0,
                "1 a.kif:1:1 p no parent\n2 a.kif:1:1 p no documentation\n1 b.kif:1:1 q no parent\n2 b.kif:1:1 q no documentation\n9 b.kif:2:1 @ROW row variable never fits\n5 diagnostics\n",
            ),
        ],
    )?;
    Ok(())
}

const WATERS: &[File] = &[
    ("a.kif", "(domain waters 1 Animal)\n"),
    ("b.kif", "(instance Fern Plant)\n(waters Fern Fern)\n"),
];

#[test]
fn checks_the_files_together(rt: HostRuntime) -> Result<(), Fail> {
    check_all(
        &rt,
        rt.alloc(),
        &[
            quiet(
                &["check", "a.kif", "b.kif"],
                WATERS,
                0,
                "1 a.kif:1:1 Animal no parent\n1 a.kif:1:1 waters no parent\n2 a.kif:1:1 Animal no documentation\n2 a.kif:1:1 waters no documentation\n11 a.kif:1:1 waters arity unstated\n1 b.kif:1:1 Plant no parent\n2 b.kif:1:1 Fern no documentation\n2 b.kif:1:1 Plant no documentation\n4 b.kif:2:1 Fern wrong argument type [a.kif:1:1]\n9 diagnostics\n",
            ),
            quiet(
                &["check", "--", "b.kif", "a.kif"],
                WATERS,
                0,
                "1 b.kif:1:1 Plant no parent\n2 b.kif:1:1 Fern no documentation\n2 b.kif:1:1 Plant no documentation\n1 b.kif:2:1 waters no parent\n2 b.kif:2:1 waters no documentation\n4 b.kif:2:1 Fern wrong argument type [a.kif:1:1]\n11 b.kif:2:1 waters arity unstated\n1 a.kif:1:1 Animal no parent\n2 a.kif:1:1 Animal no documentation\n9 diagnostics\n",
            ),
            failing(
                &["check", "a.kif", "b.kif"],
                &[("a.kif", ""), ("b.kif", "; nothing")],
                &[3],
                &[2],
                0,
                NONE,
            ),
        ],
    )?;
    Ok(())
}

#[test]
fn ends_where_a_file_is_not_read(rt: HostRuntime) -> Result<(), Fail> {
    const BOTH: &[&str] = &["check", "a.kif", "b.kif"];
    check_all(
        &rt,
        rt.alloc(),
        &[
            quiet(BOTH, &[("a.kif", "((")], 3, "absent b.kif\n"),
            quiet(
                BOTH,
                &[("a.kif", "(p a)"), ("b.kif", "\n(p a))")],
                5,
                "syntax 4 b.kif:2:6\n",
            ),
            quiet(
                BOTH,
                &[("a.kif", "(not)"), ("b.kif", "(")],
                5,
                "syntax 8 a.kif:1:1\n",
            ),
            failing(BOTH, WATERS, &[2], &[], 4, "file fault b.kif\n"),
            failing(BOTH, WATERS, &[1], &[1], 8, ""),
            failing(BOTH, &[("a.kif", ""), ("b.kif", ")")], &[3], &[1], 8, ""),
        ],
    )?;
    Ok(())
}

#[test]
fn refuses_the_words_of_a_check(rt: HostRuntime) -> Result<(), Fail> {
    let first: &'static [u64] = &[1];
    check_all(
        &rt,
        rt.alloc(),
        &[
            failing(&["check"], WATERS, first, &[], 2, USAGE),
            failing(
                &["check", "--kept", "9", "a.kif"],
                WATERS,
                first,
                &[],
                2,
                USAGE,
            ),
            failing(&["check", "a.kif", "a.kif"], WATERS, first, &[], 2, USAGE),
            failing(
                &["check", "a.kif", "c.kif", "a.kif"],
                WATERS,
                first,
                &[],
                2,
                USAGE,
            ),
        ],
    )?;
    Ok(())
}

const FULL: usize = 8_388_608;

#[test]
fn keeps_the_limits_of_files(rt: HostRuntime) -> Result<(), Fail> {
    let cases: [(&[usize], u8, &str); 3] = [
        (&[0, FULL + 1], 6, "limit file f2\n"),
        (&[0; 65], 6, "limit files 65\n"),
        (&[1; 64], 0, NONE),
    ];
    for (lengths, status, printed) in cases {
        let (ended, text) = over_spaces(&rt, rt.alloc(), &["check"], lengths)?;
        assert_eq!(rt; ended, status);
        assert_eq!(rt; text.bytes(), printed.as_bytes());
    }
    Ok(())
}

const fn at(constituent: u32, line: u32) -> Place {
    Place {
        constituent,
        form: line,
        line,
        column: 1,
    }
}

fn names(alloc: Global) -> Result<Vec<LoadName>, NoMemory> {
    let mut names = Vec::new(alloc);
    for (number, name) in [(1u32, "a.kif"), (2, "b.kif")] {
        names.push(LoadName {
            number,
            name: Text::of(alloc, name.as_bytes())?,
        })?;
    }
    Ok(names)
}

#[test]
fn prints_what_each_code_says(rt: HostRuntime) -> Result<(), Fail> {
    let alloc = rt.alloc();
    let mut list = Vec::new(alloc);
    for code in 1..=13u8 {
        list.push(Diagnostic {
            code,
            place: at(1, 7),
            term: Text::of(alloc, b"w")?,
            other: if code == 3 { Some(at(2, 12)) } else { None },
        })?;
    }
    let names = names(alloc)?;
    let page = check_page(alloc, names.as_slice(), list.as_slice())?;
    let wanted: &[u8] = b"1 a.kif:7:1 w no parent
2 a.kif:7:1 w no documentation
3 a.kif:7:1 w disjoint parents [b.kif:12:1]
4 a.kif:7:1 w wrong argument type
5 a.kif:7:1 w wrong argument count
6 a.kif:7:1 w unquantified variable
7 a.kif:7:1 w quantified variable unused
8 a.kif:7:1 w outside the profile, not translated
9 a.kif:7:1 w row variable never fits
10 a.kif:7:1 w too many variants
11 a.kif:7:1 w arity unstated
12 a.kif:7:1 w no relation fits
13 a.kif:7:1 w too many clauses
13 diagnostics
";
    assert_eq!(rt; page.bytes(), wanted);
    Ok(())
}
