//! Each call with ample memory, failures at listed calls, and a sink that takes a byte at a time.
use crate::{
    FetchError, Fetched, Files, MemFiles, MemSink, NamedFile, Sink, Words, WriteError, after_fault,
    have_own_names, write_all,
};
use kif_tree::Text;
use sigma_base::NoMemory;
use std::alloc::Global;
use std::process::Abort;
use std::test::Fail;

fn sink(alloc: Global, failing: &[u64]) -> Result<MemSink, NoMemory> {
    MemSink::new(Text::of(alloc, b"0")?, Vec::from_slice(alloc, failing)?)
}

#[test]
fn writes_a_whole_piece(rt: HostRuntime) -> Result<(), Fail> {
    let mut out = sink(rt.alloc(), &[])?;
    assert_eq!(rt; write_all(&mut out, b"abc"), Ok(()));
    assert_eq!(rt; write_all(&mut out, b""), Ok(()));
    assert_eq!(rt; write_all(&mut out, b"de"), Ok(()));
    assert_eq!(rt; out.written(), b"0abcde".as_slice());
    Ok(())
}

#[test]
fn writes_fail_at_the_listed_calls(rt: HostRuntime) -> Result<(), Fail> {
    let cases = [
        ([2, 2], [true, false, true, true], b"0xxx".as_slice()),
        ([3, 1], [false, true, false, true], b"0xx".as_slice()),
        ([0, 5], [true, true, true, true], b"0xxxx".as_slice()),
    ];
    for (failing, goes_well, held) in cases {
        let mut out = sink(rt.alloc(), &failing)?;
        for well in goes_well {
            let want = if well { Ok(1) } else { Err(WriteError::Failed) };
            assert_eq!(rt; out.write(b"x"), want, "failing {failing:?}");
        }
        assert_eq!(rt; out.written(), held, "failing {failing:?}");
    }
    Ok(())
}

#[test]
fn a_fault_ends_the_writing(rt: HostRuntime) -> Result<(), Fail> {
    let mut out = sink(rt.alloc(), &[1])?;
    assert_eq!(rt; write_all(&mut out, b"abc"), Err(WriteError::Failed));
    assert_eq!(rt; out.written(), b"0".as_slice());
    assert_eq!(rt; write_all(&mut out, b"abc"), Ok(()));
    assert_eq!(rt; out.written(), b"0abc".as_slice());
    Ok(())
}

/// Takes one byte at a time, and fails where it has no room.
#[derive(Drop)]
struct Drip {
    content: Text,
    room: u8,
    faults: u64,
}

impl Sink for Drip {
    ghost use Rattle.std.specs.Prelude.{Some};

    ghost told = { λ s. Some s.content };

    ghost faults = { λ s. s.faults };

    fn write(&mut self, piece: &[u8]) -> Result<usize, WriteError> {
        if self.room == 0 {
            self.faults = after_fault(self.faults);
            return Err(WriteError::Failed);
        }
        let Some(&byte) = piece.first() else {
            return Ok(0);
        };
        if self.content.push(byte).is_err() {
            return Err(WriteError::NoMemory);
        }
        self.room -= 1;
        Ok(1)
    }
}

fn dripping(alloc: Global, room: u8) -> Drip {
    Drip {
        content: Text::new(alloc),
        room,
        faults: 0,
    }
}

#[test]
fn writes_on_where_a_part_was_taken(rt: HostRuntime) -> Result<(), Fail> {
    let mut out = dripping(rt.alloc(), 3);
    assert_eq!(rt; write_all(&mut out, b"abc"), Ok(()));
    assert_eq!(rt; out.content.bytes(), b"abc".as_slice());
    let mut out = dripping(rt.alloc(), 2);
    assert_eq!(rt; write_all(&mut out, b"abc"), Err(WriteError::Failed));
    assert_eq!(rt; out.content.bytes(), b"ab".as_slice());
    assert_eq!(rt; out.faults, 1);
    Ok(())
}

#[test]
fn a_count_stays_at_its_last_value(rt: HostRuntime) {
    assert_eq!(rt; after_fault(0), 1);
    assert_eq!(rt; after_fault(u64::MAX - 1), u64::MAX);
    assert_eq!(rt; after_fault(u64::MAX), u64::MAX);
}

fn named(alloc: Global, name: &str, body: &str) -> Result<NamedFile, NoMemory> {
    Ok(NamedFile {
        name: Text::of(alloc, name.as_bytes())?,
        body: Text::of(alloc, body.as_bytes())?,
    })
}

fn two_files(alloc: Global, first: &str, second: &str) -> Result<Vec<NamedFile>, NoMemory> {
    let mut files = Vec::new(alloc);
    files.push(named(alloc, first, "abc")?)?;
    files.push(named(alloc, second, "")?)?;
    Ok(files)
}

#[test]
fn names_differ(rt: HostRuntime) -> Result<(), Fail> {
    assert!(rt; have_own_names(&[]));
    assert!(rt; have_own_names(&two_files(rt.alloc(), "a", "b")?));
    assert!(rt; have_own_names(&two_files(rt.alloc(), "a", "aa")?));
    assert!(rt; !have_own_names(&two_files(rt.alloc(), "a", "a")?));
    Ok(())
}

fn files(rt: &impl Abort, alloc: Global, failing: &[u64]) -> Result<MemFiles, NoMemory> {
    let content = two_files(alloc, "a", "b")?;
    assert!(rt; have_own_names(&content));
    MemFiles::new(content, Vec::from_slice(alloc, failing)?)
}

// The answer, and the bytes that were appended to one that stood there.
fn fetch(
    from: &mut MemFiles,
    alloc: Global,
    name: &str,
    limit: usize,
) -> Result<(Fetched, Vec<u8>), FetchError> {
    let mut into = Vec::from_slice(alloc, b"0").map_err(|_| FetchError::NoMemory)?;
    let found = from.fetch(name, limit, &mut into)?;
    Ok((found, into))
}

#[test]
fn fetches_by_name_and_limit(rt: HostRuntime) -> Result<(), Fail> {
    let cases = [
        ("a", 3, Fetched::Whole, "0abc"),
        ("a", 4, Fetched::Whole, "0abc"),
        ("a", 2, Fetched::TooLong, "0"),
        ("b", 0, Fetched::Whole, "0"),
        ("c", 9, Fetched::Absent, "0"),
        ("", 9, Fetched::Absent, "0"),
    ];
    let mut from = files(&rt, rt.alloc(), &[])?;
    for (name, limit, want, held) in cases {
        let answer = fetch(&mut from, rt.alloc(), name, limit);
        assert!(rt;
            matches!(&answer, Ok((found, into)) if *found == want && into.as_slice() == held.as_bytes()),
            "{name} {limit}"
        );
    }
    Ok(())
}

#[test]
fn fetches_fail_at_the_listed_calls(rt: HostRuntime) -> Result<(), Fail> {
    let cases = [
        ([2, 2], [true, false, true, true]),
        ([3, 1], [false, true, false, true]),
    ];
    for (failing, goes_well) in cases {
        let mut from = files(&rt, rt.alloc(), &failing)?;
        for well in goes_well {
            let want = if well {
                Ok(Fetched::Absent)
            } else {
                Err(FetchError::Failed)
            };
            let mut into = Vec::new(rt.alloc());
            assert_eq!(rt; from.fetch("c", 9, &mut into), want, "failing {failing:?}");
        }
    }
    Ok(())
}

#[test]
fn words_stand_in_order(rt: HostRuntime) -> Result<(), Fail> {
    let mut words = Words::new(rt.alloc());
    assert_eq!(rt; words.count(), 0);
    assert_eq!(rt; words.word(0), None);
    words.push("ask")?;
    words.push("(p ?X)")?;
    assert_eq!(rt; words.count(), 2);
    assert_eq!(rt; words.word(0), Some("ask"));
    assert_eq!(rt; words.word(1), Some("(p ?X)"));
    assert_eq!(rt; words.word(2), None);
    Ok(())
}
