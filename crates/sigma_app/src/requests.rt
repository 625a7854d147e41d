//! What the words of a command line ask for, read by the parser of command lines.
ghost use Rattle.std.specs.Prelude.{◌≡◌, ◌≢◌, IfOk, None, Some, Err, map, true, string_bytes};
ghost use Rattle.clap.specs.Words.{rows_of, found_of, matches_of, takes};
ghost use Rattle.sigma_app.specs.Commands as commands;
ghost use Rattle.sigma_app.specs.Requests as spec;

use crate::commands::{CommandName, command_named, command_of};
use clap::ArgMatches;
use clap::error::ErrorKind;
use sig_io::Words;
use std::alloc::{AllocError, Global};

/// Why words are refused.
#[derive(Clone, Copy, Debug, PartialEq, Eq)]
pub enum WordsError {
    Usage,
    NoMemory,
}

impl From<AllocError> for WordsError {
    ghost use Rattle.sigma_app.specs.declared.requests.WordsError.TheVariants as errors;

    ghost from_gives = { λ _ error. error ≡ errors.NoMemory };

    fn from(_: AllocError) -> WordsError {
        WordsError::NoMemory
    }
}

/// What is asked, and of which files. The numbers are as they are written.
#[derive(Debug, Drop)]
pub struct Ask<'a> {
    pub query: &'a str,
    pub files: Vec<&'a str>,
    pub turns: Option<&'a str>,
    pub answers: Option<&'a str>,
    pub kept: Option<&'a str>,
    pub mode: Option<&'a str>,
}

/// What a command line asks for.
#[derive(Debug, Drop)]
pub enum Request<'a> {
    Ask(Ask<'a>),
    Check(Vec<&'a str>),
    Clauses(Vec<&'a str>),
    Export(Vec<&'a str>),
    Drill(&'a str),
}

impl<'a> Request<'a> {
    /// The paths in the order in which they were written. A drill has none.
    pub fn files(&self) -> &[&'a str]
        ensures { spec.texts result.now ≡ spec.paths (spec.meaning_of self.now) }
    {
        match self {
            Request::Ask(ask) => ask.files.as_slice(),
            Request::Check(files) | Request::Clauses(files) | Request::Export(files) =>
                files.as_slice(),
            Request::Drill(_) => &[],
        }
    }
}

fn error_of(kind: ErrorKind) -> WordsError
    ensures { kind ≡ ErrorKind.OutOfMemory → result ≡ WordsError.NoMemory }
{
    match kind {
        ErrorKind::OutOfMemory => WordsError::NoMemory,
        _ => WordsError::Usage,
    }
}

/// What the command finds in the words after its name.
fn found_in<'a>(
    alloc: Global,
    name: CommandName,
    words: &'a [String],
) -> Result<ArgMatches<'a>, WordsError>
    ensures found { IfOk result (λ m. rows_of (found_of m) ≡ matches_of (commands.app name) (map string_bytes words.entry.now)) }
    ensures refused { result ≡ Err WordsError.Usage → takes (commands.app name) (map string_bytes words.entry.now) ≢ true }
{
    let command = command_of(alloc, name)?;
    match command.try_get_matches_from(words) {
        Ok(matches) => Ok(matches),
        Err(error) => Err(error_of(error.kind())),
    }
}

#[tactic(auto, using(crate::proofs::RequestLaws::rows_read))]
fn files_of<'a>(alloc: Global, matches: &ArgMatches<'a>) -> Result<Vec<&'a str>, WordsError>
    ensures found { IfOk result (λ files. spec.paths_of (rows_of (found_of matches.now)) ≡ Some (spec.texts files.items)) }
    ensures absent { result ≡ Err WordsError.Usage → spec.paths_of (rows_of (found_of matches.now)) ≡ None }
{
    let Some(files) = matches.get_strs("files") else {
        return Err(WordsError::Usage);
    };
    Ok(Vec::from_slice(alloc, files)?)
}

#[tactic(auto, using(crate::proofs::RequestLaws::rows_read))]
fn asked_by<'a>(alloc: Global, matches: &ArgMatches<'a>) -> Result<Ask<'a>, WordsError>
    ensures found { IfOk result (λ ask. spec.meaning_by CommandName.Ask (rows_of (found_of matches.now)) ≡ Some (spec.meaning_of (Request.Ask ask))) }
    ensures absent { result ≡ Err WordsError.Usage → spec.meaning_by CommandName.Ask (rows_of (found_of matches.now)) ≡ None }
{
    let Some(query) = matches.get_str("query") else {
        return Err(WordsError::Usage);
    };
    Ok(Ask {
        query,
        files: files_of(alloc, matches)?,
        turns: matches.get_str("turns"),
        answers: matches.get_str("answers"),
        kept: matches.get_str("kept"),
        mode: matches.get_str("mode"),
    })
}

#[tactic(auto, using(crate::proofs::RequestLaws::rows_read))]
fn size_of<'a>(matches: &ArgMatches<'a>) -> Result<&'a str, WordsError>
    ensures found { IfOk result (λ size. spec.meaning_by CommandName.Drill (rows_of (found_of matches.now)) ≡ Some (spec.drills size.now)) }
    ensures absent { result ≡ Err WordsError.Usage → spec.meaning_by CommandName.Drill (rows_of (found_of matches.now)) ≡ None }
{
    match matches.get_str("size") {
        Some(size) => Ok(size),
        None => Err(WordsError::Usage),
    }
}

/// The request by what the command found.
fn request_by<'a>(
    alloc: Global,
    name: CommandName,
    matches: &ArgMatches<'a>,
) -> Result<Request<'a>, WordsError>
    ensures found { IfOk result (λ r. spec.meaning_by name (rows_of (found_of matches.now)) ≡ Some (spec.meaning_of r)) }
    ensures absent { result ≡ Err WordsError.Usage → spec.meaning_by name (rows_of (found_of matches.now)) ≡ None }
{
    Ok(match name {
        CommandName::Ask => Request::Ask(asked_by(alloc, matches)?),
        CommandName::Check => Request::Check(files_of(alloc, matches)?),
        CommandName::Clauses => Request::Clauses(files_of(alloc, matches)?),
        CommandName::Export => Request::Export(files_of(alloc, matches)?),
        CommandName::Drill => Request::Drill(size_of(matches)?),
    })
}

/// What the words ask for. The first names the command, and its parser reads the others.
pub fn request_of<'a>(alloc: Global, words: &'a Words) -> Result<Request<'a>, WordsError>
    ensures { spec.ReadsWords words.entry.now result }
{
    let Some((word, rest)) = words.items().split_first() else {
        return Err(WordsError::Usage);
    };
    let Some(name) = command_named(word.as_str()) else {
        return Err(WordsError::Usage);
    };
    let matches = found_in(alloc, name, rest)?;
    request_by(alloc, name, &matches)
}
