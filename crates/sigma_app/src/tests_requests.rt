//! The words of command lines: what they ask for, and which are refused.
use crate::refusals::{QUERY_LIMIT, is_refused};
use crate::requests::{Request, WordsError, request_of};
use sig_io::Words;
use sigma_base::NoMemory;
use std::alloc::{AllocError, Global};
use std::process::Abort;
use std::test::Fail;

fn words_of(alloc: Global, words: &[&str]) -> Result<Words, NoMemory> {
    let mut all = Words::new(alloc);
    for word in words {
        if all.count() == u32::MAX {
            return Err(NoMemory);
        }
        all.push(word)?;
    }
    Ok(all)
}

/// The command, the files, the query or the size, and the options in the order of the usage line.
fn shown(alloc: Global, request: &Request<'_>) -> Result<String, AllocError> {
    match request {
        Request::Ask(ask) => format!(in alloc;
            "ask {} {:?} {:?} {:?} {:?} {:?}",
            ask.query, ask.files, ask.turns, ask.answers, ask.kept, ask.mode
        ),
        Request::Check(files) => format!(in alloc; "check {files:?}"),
        Request::Clauses(files) => format!(in alloc; "clauses {files:?}"),
        Request::Export(files) => format!(in alloc; "export {files:?}"),
        Request::Drill(size) => format!(in alloc; "drill {size}"),
    }
}

fn read(alloc: Global, words: &Words) -> Result<String, NoMemory> {
    match request_of(alloc, words) {
        Ok(request) => Ok(shown(alloc, &request)?),
        Err(WordsError::Usage) => Ok(String::from_str(alloc, "refused")?),
        Err(WordsError::NoMemory) => Err(NoMemory),
    }
}

fn check(rt: &impl Abort, alloc: Global, words: &[&str], want: &str) -> Result<(), NoMemory> {
    let given = words_of(alloc, words)?;
    let found = read(alloc, &given)?;
    assert_eq!(rt; found.as_str(), want, "words {words:?}");
    Ok(())
}

fn check_all(
    rt: &impl Abort,
    alloc: Global,
    rows: &[(&'static [&'static str], &'static str)],
) -> Result<(), NoMemory> {
    for (words, want) in rows {
        check(rt, alloc, words, want)?;
    }
    Ok(())
}

#[test]
fn takes_words_of_the_usage_text(rt: HostRuntime) -> Result<(), Fail> {
    check_all(
        &rt,
        rt.alloc(),
        &[
            (
                &["ask", "q", "a.kif", "b.kif"],
                r#"ask q ["a.kif", "b.kif"] None None None None"#,
            ),
            (
                &[
                    "ask",
                    "--turns",
                    "100000",
                    "--answers=1000",
                    "--kept",
                    "200000",
                    "--mode=support",
                    "q",
                    "a.kif",
                ],
                r#"ask q ["a.kif"] Some("100000") Some("1000") Some("200000") Some("support")"#,
            ),
            (
                &["ask", "--turns=5", "q", "a.kif", "--mode", "full", "b.kif"],
                r#"ask q ["a.kif", "b.kif"] Some("5") None None Some("full")"#,
            ),
            (
                &["ask", "q", "a.kif", "--turns", "+05"],
                r#"ask q ["a.kif"] Some("+05") None None None"#,
            ),
            (
                &["ask", "--", "-p", "-a.kif"],
                r#"ask -p ["-a.kif"] None None None None"#,
            ),
            (&["ask", "", ""], r#"ask  [""] None None None None"#),
            (&["check", "a.kif"], r#"check ["a.kif"]"#),
            (
                &["clauses", "b.kif", "a.kif", "a.kif"],
                r#"clauses ["b.kif", "a.kif", "a.kif"]"#,
            ),
            (&["export", "ask", "check"], r#"export ["ask", "check"]"#),
            (&["drill", "1"], "drill 1"),
            (&["drill", "2000"], "drill 2000"),
        ],
    )?;
    Ok(())
}

#[test]
fn refuses_other_words(rt: HostRuntime) -> Result<(), Fail> {
    let refused = "refused";
    check_all(
        &rt,
        rt.alloc(),
        &[
            (&[], refused),
            (&[""], refused),
            (&["asks", "q", "a.kif"], refused),
            (&["--turns", "5", "ask", "q", "a.kif"], refused),
            (
                &["serve", "--port", "1", "--workers", "1", "--store", "s"],
                refused,
            ),
            (&["ask"], refused),
            (&["ask", "q"], refused),
            (&["ask", "--turns", "0", "(p a)", "a.kif"], refused),
            (&["ask", "--turns", "100001", "q", "a.kif"], refused),
            (&["ask", "--answers", "1001", "q", "a.kif"], refused),
            (&["ask", "--kept", "200001", "q", "a.kif"], refused),
            (
                &["ask", "--turns", "1", "--turns", "1", "q", "a.kif"],
                refused,
            ),
            (&["ask", "--mode", "fuller", "q", "a.kif"], refused),
            (&["ask", "--mode", "Full", "q", "a.kif"], refused),
            (&["ask", "--turns", "q", "a.kif"], refused),
            (&["ask", "q", "a.kif", "--turns"], refused),
            (&["ask", "--turns=", "q", "a.kif"], refused),
            (&["ask", "--turns=-5", "q", "a.kif"], refused),
            (&["ask", "--turns", "5.0", "q", "a.kif"], refused),
            (&["ask", "--turns", " 5", "q", "a.kif"], refused),
            (&["ask", "--answers", "0", "q", "a.kif"], refused),
            (&["ask", "--kept", "0", "q", "a.kif"], refused),
            (&["ask", "--mode", "", "q", "a.kif"], refused),
            (&["ask", "--help", "q", "a.kif"], refused),
            (&["ask", "-h", "q", "a.kif"], refused),
            (&["ask", "--version", "q", "a.kif"], refused),
            (&["ask", "-p", "a.kif"], refused),
            (&["check"], refused),
            (&["check", "--turns", "1", "a.kif"], refused),
            (&["clauses"], refused),
            (&["export", "--help"], refused),
            (&["drill"], refused),
            (&["drill", "0"], refused),
            (&["drill", "2001"], refused),
            (&["drill", "1", "1"], refused),
        ],
    )?;
    Ok(())
}

fn refuses(rt: &impl Abort, alloc: Global, words: &[&str]) -> Result<bool, NoMemory> {
    let words = words_of(alloc, words)?;
    match request_of(alloc, &words) {
        Ok(request) => is_refused(alloc, &request),
        Err(_) => panic!(rt; "the words aren't read"),
    }
}

#[test]
fn refuses_a_path_that_stands_twice(rt: HostRuntime) -> Result<(), Fail> {
    let alloc = rt.alloc();
    assert!(rt; !refuses(&rt, alloc, &["check", "a", "b", "c"])?);
    assert!(rt; refuses(&rt, alloc, &["check", "a", "b", "b"])?);
    assert!(rt; refuses(&rt, alloc, &["clauses", "a", "b", "a"])?);
    assert!(rt; refuses(&rt, alloc, &["export", "", "a", ""])?);
    assert!(rt; !refuses(&rt, alloc, &["ask", "a", "a", "./a"])?);
    assert!(rt; refuses(&rt, alloc, &["ask", "q", "a", "a"])?);
    assert!(rt; !refuses(&rt, alloc, &["drill", "1"])?);
    Ok(())
}

fn long_text(alloc: Global, length: usize) -> Result<String, AllocError> {
    let mut text = String::new(alloc);
    for _ in 0..length {
        text.push('p')?;
    }
    Ok(text)
}

#[test]
fn refuses_a_long_query(rt: HostRuntime) -> Result<(), Fail> {
    let alloc = rt.alloc();
    let longest = long_text(alloc, QUERY_LIMIT)?;
    assert!(rt; !refuses(&rt, alloc, &["ask", longest.as_str(), "a"])?);
    let longer = long_text(alloc, QUERY_LIMIT + 1)?;
    assert!(rt; refuses(&rt, alloc, &["ask", longer.as_str(), "a"])?);
    Ok(())
}
