//! A file by its name, and lists of such files.
ghost use Rattle.std.specs.Prelude.{◌≡◌, ◌↔◌, IsTrue, find};
ghost use Rattle.std.specs.List.{list_any};
ghost use Rattle.std.specs.Option.{option_map};
ghost use Rattle.std.specs.Str.{bytes_eq};
ghost use Rattle.sig_io.specs.Named.{pairs_of, names_of, AreDistinct};
ghost use Rattle.sig_io.specs.Told.{body_of};

use kif_tree::Text;

/// A name, as `Files::fetch` takes it, and the bytes under it.
#[derive(Debug, Drop)]
pub struct NamedFile {
    pub name: Text,
    pub body: Text,
}

fn named<'a>(files: &'a [NamedFile], name: &str) -> Option<&'a NamedFile>
    ensures { option_map (λ f. f.now) result ≡ find (λ f. bytes_eq f.name name.now) files.now }
{
    files.iter().find(|f| f.name.bytes() == name.as_bytes())
}

/// The body of the first file of that name.
#[tactic(auto, using(crate::proofs::NamedLaws::body_found))]
pub(crate) fn body<'a>(files: &'a [NamedFile], name: &str) -> Option<&'a [u8]>
    ensures { option_map (λ b. b.now) result ≡ body_of (pairs_of files.now) name.now }
{
    match named(files, name) {
        Some(file) => Some(file.body.bytes()),
        None => None,
    }
}

fn is_named(files: &[NamedFile], name: &Text) -> bool
    ensures { result ≡ list_any (λ f. bytes_eq f.name name.now) files.now }
{
    files.iter().any(|f| f.name.equals(name))
}

/// Whether no two files have the same name.
pub fn have_own_names(mut files: &[NamedFile]) -> bool
    ensures { IsTrue result ↔ AreDistinct (names_of files.entry.now) }
{
    while let [file, rest @ ..] = files {
        if is_named(rest, &file.name) {
            return false;
        }
        files = rest;
    }
    true
}
