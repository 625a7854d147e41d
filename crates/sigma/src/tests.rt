//! The adapters over a real file and a real pipe.
use crate::screen::Screen;
use crate::shelf::FileShelf;
use sig_io::{FetchError, Fetched, Files, Sink};
use std::fs;
use std::io::{self, Read};
use std::process::Abort;
use std::test::Fail;

fn fetch<F: Files + Drop>(
    rt: &(impl Abort + AllocGlobal),
    files: &mut F,
    name: &str,
    limit: usize,
    want: Result<Fetched, FetchError>,
    bytes: &[u8],
) {
    let mut into = Vec::new(rt.alloc());
    let found = files.fetch(name, limit, &mut into);
    assert!(rt; found == want, "fetch of {name}");
    assert!(rt; into.as_slice() == bytes, "bytes of {name}");
}

#[test]
fn fetches_files_of_the_disk(rt: HostRuntime) -> Result<(), Fail> {
    fs::write(&rt, "shelf.kif", "(p a)\n")?;
    let mut files = FileShelf::new(&rt, rt.alloc());
    fetch(
        &rt,
        &mut files,
        "shelf.kif",
        6,
        Ok(Fetched::Whole),
        b"(p a)\n",
    );
    fetch(&rt, &mut files, "shelf.kif", 5, Ok(Fetched::TooLong), b"");
    fetch(&rt, &mut files, "absent.kif", 6, Ok(Fetched::Absent), b"");
    fetch(
        &rt,
        &mut files,
        "shelf.kif/below",
        6,
        Ok(Fetched::Absent),
        b"",
    );
    fetch(&rt, &mut files, "", 6, Ok(Fetched::Absent), b"");
    fetch(&rt, &mut files, ".", 6, Err(FetchError::Failed), b"");
    fs::remove_file(&rt, "shelf.kif")?;
    Ok(())
}

#[test]
fn writes_to_a_pipe(rt: HostRuntime) -> Result<(), Fail> {
    let (mut reader, writer) = io::pipe(&rt)?;
    let mut screen = Screen::over(writer);
    assert!(rt; screen.write(b"abc") == Ok(3));
    assert!(rt; screen.write(b"") == Ok(0));
    drop(screen);
    let mut text = Vec::new(rt.alloc());
    reader.read_to_end(&mut text)?;
    assert_eq!(rt; text.as_slice(), b"abc".as_slice());
    Ok(())
}
