//! The tool over files and a sink in memory: the pages, and when each status comes.
use crate::run_tool;
use kif_tree::Text;
use sig_io::{MemFiles, MemSink, NamedFile, Sink, Words, WriteError, after_fault, have_own_names};
use sigma_base::NoMemory;
use std::alloc::Global;
use std::process::Abort;
use std::test::Fail;

pub type File = (&'static str, &'static str);

/// One run: the words, the files, which fetches and which writes fail, and what must come of it.
#[derive(Drop)]
pub struct Run {
    words: &'static [&'static str],
    files: &'static [File],
    failing_fetches: &'static [u64],
    failing_writes: &'static [u64],
    status: u8,
    printed: &'static str,
}

pub(crate) const fn quiet(
    words: &'static [&'static str],
    files: &'static [File],
    status: u8,
    printed: &'static str,
) -> Run {
    failing(words, files, &[], &[], status, printed)
}

pub(crate) const fn failing(
    words: &'static [&'static str],
    files: &'static [File],
    failing_fetches: &'static [u64],
    failing_writes: &'static [u64],
    status: u8,
    printed: &'static str,
) -> Run {
    Run {
        words,
        files,
        failing_fetches,
        failing_writes,
        status,
        printed,
    }
}

fn words_of(alloc: Global, words: &[&str]) -> Result<Words, NoMemory> {
    let mut all = Words::new(alloc);
    for word in words {
        if all.count() == u32::MAX {
            return Err(NoMemory);
        }
        all.push(word)?;
    }
    Ok(all)
}

fn files_of(rt: &impl Abort, alloc: Global, run: &Run) -> Result<MemFiles, NoMemory> {
    let mut files = Vec::new(alloc);
    for (name, body) in run.files {
        files.push(NamedFile {
            name: Text::of(alloc, name.as_bytes())?,
            body: Text::of(alloc, body.as_bytes())?,
        })?;
    }
    assert!(rt; have_own_names(&files));
    MemFiles::new(files, Vec::from_slice(alloc, run.failing_fetches)?)
}

fn check(rt: &impl Abort, alloc: Global, run: &Run) -> Result<(), NoMemory> {
    let words = words_of(alloc, run.words)?;
    let mut files = files_of(rt, alloc, run)?;
    let mut out = MemSink::new(
        Text::of(alloc, b"before\n")?,
        Vec::from_slice(alloc, run.failing_writes)?,
    )?;
    let status = run_tool(alloc, &words, &mut files, &mut out);
    assert_eq!(rt; status, run.status, "words {:?}", run.words);
    assert!(rt; out.written().starts_with(b"before\n"));
    assert_eq!(rt;
        out.written().len(),
        7 + run.printed.len(),
        "words {:?}",
        run.words
    );
    assert!(rt;
        out.written().ends_with(run.printed.as_bytes()),
        "words {:?}",
        run.words
    );
    Ok(())
}

pub(crate) fn check_all(rt: &impl Abort, alloc: Global, runs: &[Run]) -> Result<(), NoMemory> {
    for run in runs {
        check(rt, alloc, run)?;
    }
    Ok(())
}

pub const USAGE: &str =
    "usage: sigma ask [--turns N] [--answers N] [--kept N] [--mode support|full] QUERY FILE...\n       sigma check FILE...\n       sigma clauses FILE...\n       sigma export FILE...\n       sigma drill N\n       sigma serve --port P --workers N --store FILE\n";

#[test]
fn shows_the_first_fact_that_answers(rt: HostRuntime) -> Result<(), Fail> {
    check_all(
        &rt,
        rt.alloc(),
        &[
            quiet(
                &["ask", "(p ?X)", "facts.kif"],
                &[("facts.kif", "; a fact\n(q c)\n; another\n(p a)\n")],
                0,
                "answer 1\n  ?X = a\nproof\n  1. (p a) [facts.kif:4:1]\n  2. (or (not (p ?X1)) (!answer ?X1)) [query]\n  3. (!answer a) [resolve 1 2]\nend enough turns 1\n",
            ),
            quiet(
                &["ask", "\u{feff} (p\ta) ; sure?", "facts.kif"],
                &[("facts.kif", "\u{feff}(p\r\n a)")],
                0,
                "answer 1\n  yes\nproof\n  1. (p a) [facts.kif:1:4]\n  2. (or (not (p a)) (!answer)) [query]\n  3. (!answer) [resolve 1 2]\nend enough turns 1\n",
            ),
            quiet(
                &["ask", "(r ?Y b ?X ?Y)", "facts.kif"],
                &[("facts.kif", "(r a b c d)(r a b c a)\n(r c b a c)\n")],
                0,
                "answer 1\n  ?Y = a\n  ?X = c\nproof\n  1. (r a b c a) [facts.kif:1:12]\n  2. (or (not (r ?X1 b ?X2 ?X1)) (!answer ?X1 ?X2)) [query]\n  3. (!answer a c) [resolve 1 2]\nend enough turns 1\n",
            ),
        ],
    )?;
    Ok(())
}

#[test]
fn searches_the_files_in_their_order(rt: HostRuntime) -> Result<(), Fail> {
    check_all(
        &rt,
        rt.alloc(),
        &[
            quiet(
                &["ask", "(p ?X)", "b.kif", "a.kif"],
                &[("a.kif", "(p a)\n"), ("b.kif", "(q b)\n(p b)\n")],
                0,
                "answer 1\n  ?X = b\nproof\n  1. (p b) [b.kif:2:1]\n  2. (or (not (p ?X1)) (!answer ?X1)) [query]\n  3. (!answer b) [resolve 1 2]\nend enough turns 1\n",
            ),
            quiet(
                &["ask", "(p ?X)", "none.kif", "a.kif", "b.kif"],
                &[("a.kif", "(p a)\n"), ("b.kif", "(p b)\n"), ("none.kif", "")],
                0,
                "answer 1\n  ?X = a\nproof\n  1. (p a) [a.kif:1:1]\n  2. (or (not (p ?X1)) (!answer ?X1)) [query]\n  3. (!answer a) [resolve 1 2]\nend enough turns 1\n",
            ),
        ],
    )?;
    Ok(())
}

#[test]
fn shows_that_no_fact_answers(rt: HostRuntime) -> Result<(), Fail> {
    let none = "end saturated turns 1\n";
    check_all(
        &rt,
        rt.alloc(),
        &[
            quiet(
                &["ask", "(p ?X ?X)", "a.kif"],
                &[("a.kif", "(p a b)\n")],
                1,
                none,
            ),
            quiet(&["ask", "(p a)", "a.kif"], &[("a.kif", "")], 1, none),
            quiet(
                &["ask", "(p ?X)", "a.kif", "b.kif"],
                &[("a.kif", "(p)\n(p a b)"), ("b.kif", "(q a)\n")],
                1,
                none,
            ),
        ],
    )?;
    Ok(())
}

#[test]
fn names_the_first_fault_of_the_texts(rt: HostRuntime) -> Result<(), Fail> {
    const ASK: &[&str] = &["ask", "(p", "a.kif", "b.kif"];
    check_all(
        &rt,
        rt.alloc(),
        &[
            quiet(
                ASK,
                &[("a.kif", "(p \"abc"), ("b.kif", ")")],
                5,
                "syntax 2 a.kif:1:4\n",
            ),
            quiet(
                ASK,
                &[("a.kif", "(=> (p) (q))"), ("b.kif", "(p a))")],
                5,
                "syntax 4 b.kif:1:6\n",
            ),
            quiet(
                ASK,
                &[("a.kif", "(p \"a\\n\")"), ("b.kif", "")],
                5,
                "syntax 5 a.kif:1:6\n",
            ),
            quiet(
                ASK,
                &[("a.kif", ""), ("b.kif", "(p a)\n\n (q\n (r\n")],
                5,
                "syntax 3 b.kif:3:2\n",
            ),
            quiet(
                ASK,
                &[("a.kif", "(p 1x)"), ("b.kif", "")],
                5,
                "syntax 6 a.kif:1:4\n",
            ),
            quiet(
                ASK,
                &[("a.kif", "(p\u{7f})"), ("b.kif", "")],
                5,
                "syntax 1 a.kif:1:3\n",
            ),
            quiet(
                ASK,
                &[("a.kif", "(p a)\n(q (and))"), ("b.kif", "(")],
                5,
                "syntax 8 a.kif:2:4\n",
            ),
        ],
    )?;
    Ok(())
}

#[test]
fn says_what_is_not_built(rt: HostRuntime) -> Result<(), Fail> {
    let not_built = "not built\n";
    check_all(
        &rt,
        rt.alloc(),
        &[
            quiet(&["drill", "2000"], &[], 10, not_built),
            quiet(&["export", "a.kif", "b.kif"], &[], 10, not_built),
        ],
    )?;
    Ok(())
}

#[test]
fn refuses_other_words(rt: HostRuntime) -> Result<(), Fail> {
    const FACT: &[File] = &[("a.kif", "(p a)\n")];
    check_all(
        &rt,
        rt.alloc(),
        &[
            quiet(&[], FACT, 2, USAGE),
            quiet(&["ask"], FACT, 2, USAGE),
            quiet(&["ask", "(p a)"], FACT, 2, USAGE),
            quiet(&["ask", "--turns", "0", "(p a)", "a.kif"], FACT, 2, USAGE),
            quiet(&["drill", "2001"], FACT, 2, USAGE),
            quiet(
                &["serve", "--port", "1", "--workers", "1", "--store", "s"],
                FACT,
                2,
                USAGE,
            ),
            quiet(&["ask", "(p a)", "a.kif", "b.kif", "a.kif"], FACT, 2, USAGE),
            quiet(
                &["ask", "--turns", "5", "(p a)", "a.kif", "a.kif"],
                FACT,
                2,
                USAGE,
            ),
            quiet(&["asks", "(p a)", "a.kif"], FACT, 2, USAGE),
            quiet(&["ask", "-p", "a.kif"], FACT, 2, USAGE),
        ],
    )?;
    Ok(())
}

const ASK: &[&str] = &["ask", "(p a)", "a.kif", "b.kif"];

const TWO: &[File] = &[("a.kif", "(p b)\n"), ("b.kif", "(p c)\n")];

#[test]
fn tells_what_the_outside_refused(rt: HostRuntime) -> Result<(), Fail> {
    check_all(
        &rt,
        rt.alloc(),
        &[
            quiet(
                &["ask", "(p ?", "a.kif", "c.kif", "d.kif"],
                &[("a.kif", "((")],
                3,
                "absent c.kif\n",
            ),
            failing(ASK, TWO, &[1], &[], 4, "file fault a.kif\n"),
            failing(ASK, TWO, &[2], &[], 4, "file fault b.kif\n"),
            failing(
                &["ask", "(p a)", "c.kif", "b.kif"],
                TWO,
                &[2],
                &[],
                3,
                "absent c.kif\n",
            ),
            failing(ASK, TWO, &[3], &[2], 1, "end saturated turns 1\n"),
            failing(ASK, TWO, &[], &[1], 8, ""),
            failing(ASK, TWO, &[1], &[1], 8, ""),
        ],
    )?;
    Ok(())
}

#[test]
fn fetches_nothing_where_the_words_need_no_file(rt: HostRuntime) -> Result<(), Fail> {
    let first: &'static [u64] = &[1];
    check_all(
        &rt,
        rt.alloc(),
        &[
            failing(
                &["export", "a.kif", "b.kif"],
                TWO,
                first,
                &[],
                10,
                "not built\n",
            ),
            failing(&["drill", "1"], TWO, first, &[], 10, "not built\n"),
            failing(&["drill", "0"], TWO, first, &[], 2, USAGE),
            failing(
                &["ask", "--turns", "0", "(p a)", "a.kif"],
                TWO,
                first,
                &[],
                2,
                USAGE,
            ),
            failing(
                &["ask", "(p a)", "a.kif", "a.kif"],
                TWO,
                first,
                &[],
                2,
                USAGE,
            ),
            failing(
                &["ask", "(p a)", "a.kif", "--turns"],
                TWO,
                first,
                &[],
                2,
                USAGE,
            ),
        ],
    )?;
    Ok(())
}

/// A sink that takes a byte at a time, and as many as there is room for.
#[derive(Drop)]
struct Drip {
    content: Text,
    room: u8,
    faults: u64,
}

impl Sink for Drip {
    ghost use Rattle.std.specs.Prelude.{Some};

    ghost told = { λ s. Some s.content };

    ghost faults = { λ s. s.faults };

    fn write(&mut self, piece: &[u8]) -> Result<usize, WriteError> {
        if self.room == 0 {
            self.faults = after_fault(self.faults);
            return Err(WriteError::Failed);
        }
        let Some(&byte) = piece.first() else {
            return Ok(0);
        };
        if self.content.push(byte).is_err() {
            return Err(WriteError::NoMemory);
        }
        self.room -= 1;
        Ok(1)
    }
}

fn cut_short(
    rt: &impl Abort,
    alloc: Global,
    failing_fetches: &'static [u64],
    room: u8,
) -> Result<(u8, Text), NoMemory> {
    let run = failing(ASK, TWO, failing_fetches, &[], 0, "");
    let words = words_of(alloc, run.words)?;
    let mut files = files_of(rt, alloc, &run)?;
    let mut out = Drip {
        content: Text::new(alloc),
        room,
        faults: 0,
    };
    let status = run_tool(alloc, &words, &mut files, &mut out);
    Ok((status, out.content))
}

#[test]
fn prints_a_prefix_where_a_later_write_fails(rt: HostRuntime) -> Result<(), Fail> {
    let cases: [(&'static [u64], u8, u8, &[u8]); 4] = [
        (&[], 0, 8, b""),
        (&[], 3, 8, b"end"),
        (&[], 22, 1, b"end saturated turns 1\n"),
        (&[2], 4, 8, b"file"),
    ];
    for (failing_fetches, room, status, printed) in cases {
        let (ended, text) = cut_short(&rt, rt.alloc(), failing_fetches, room)?;
        assert_eq!(rt; ended, status);
        assert_eq!(rt; text.bytes(), printed);
    }
    Ok(())
}

/// So many spaces, by doubling.
fn spaces(rt: &impl Abort, alloc: Global, length: usize) -> Result<Text, NoMemory> {
    let mut text = Text::of(alloc, b" ")?;
    for _ in 0..24 {
        if text.bytes().len() < length {
            let so_far = text.copy(alloc)?;
            text.append(so_far.bytes())?;
        }
    }
    assert!(rt; length <= text.bytes().len());
    let (front, _) = text.bytes().split_at(length);
    Text::of(alloc, front)
}

/// The name of the file of this number.
fn name_of(alloc: Global, number: u64) -> Result<Text, NoMemory> {
    let mut name = Text::of(alloc, b"f")?;
    name.append_decimal(number)?;
    Ok(name)
}

/// What comes of the words before the paths of files that hold so many spaces each.
pub(crate) fn over_spaces(
    rt: &impl Abort,
    alloc: Global,
    before: &[&str],
    lengths: &[usize],
) -> Result<(u8, Text), NoMemory> {
    let mut words = words_of(alloc, before)?;
    let mut files = Vec::new(alloc);
    let mut number: u64 = 0;
    for length in lengths {
        number = number.saturating_add(1);
        let name = name_of(alloc, number)?;
        assert!(rt; words.count() < 100);
        words.push(expect_text(rt, &name))?;
        files.push(NamedFile {
            name,
            body: spaces(rt, alloc, *length)?,
        })?;
    }
    assert!(rt; have_own_names(&files));
    let mut files = MemFiles::new(files, Vec::new(alloc))?;
    let mut out = MemSink::new(Text::new(alloc), Vec::new(alloc))?;
    let status = run_tool(alloc, &words, &mut files, &mut out);
    Ok((status, Text::of(alloc, out.written())?))
}

fn expect_text<'a>(rt: &impl Abort, text: &'a Text) -> &'a str {
    match str::from_utf8(text.bytes()) {
        Ok(text) => text,
        Err(_) => panic!(rt; "not UTF-8"),
    }
}

const FULL: usize = 8_388_608;

#[test]
fn keeps_the_limits(rt: HostRuntime) -> Result<(), Fail> {
    const NONE: &str = "end saturated turns 1\n";
    let cases: [(&[usize], u8, &str); 6] = [
        (&[FULL], 1, NONE),
        (&[0, FULL + 1, FULL + 1], 6, "limit file f2\n"),
        (
            &[FULL, FULL, FULL, FULL, FULL, FULL, FULL, FULL, FULL + 1],
            6,
            "limit file f9\n",
        ),
        (
            &[FULL, FULL, FULL, FULL, FULL, FULL, FULL, FULL, 1],
            6,
            "limit live 67108865\n",
        ),
        (&[0; 64], 1, NONE),
        (&[0; 65], 6, "limit files 65\n"),
    ];
    for (lengths, status, printed) in cases {
        let (ended, text) = over_spaces(&rt, rt.alloc(), &["ask", "(p a)"], lengths)?;
        assert_eq!(rt; ended, status);
        assert_eq!(rt; text.bytes(), printed.as_bytes());
    }
    Ok(())
}

#[test]
fn keeps_the_limit_of_a_query(rt: HostRuntime) -> Result<(), Fail> {
    for (length, status, printed) in [(FULL, 7, "query 2\n"), (FULL + 1, 2, USAGE)] {
        let query = spaces(&rt, rt.alloc(), length)?;
        let (ended, text) = over_spaces(&rt, rt.alloc(), &["ask", expect_text(&rt, &query)], &[1])?;
        assert_eq!(rt; ended, status);
        assert_eq!(rt; text.bytes(), printed.as_bytes());
    }
    Ok(())
}
