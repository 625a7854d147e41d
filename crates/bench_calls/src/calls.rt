//! The calls that are timed.
ghost use Rattle.std.specs.Prelude.{◌≡◌, IfOk};

use kif_reader::read_forms;
use kif_tree::{Form, Forms, Located};
use sigma_base::{Listed, NoMemory};
use signatures::Signatures;
use std::alloc::Global;
use std::fmt::Write;
use taxonomy::Taxonomy;
use type_guard::guard;
use var_expand::{Expanded, expand};

/// Which call is made: a copy or an expansion of a form with two predicate variables, or of one without any, or nothing but the tables.
#[derive(Clone, Copy)]
pub enum Kind {
    Tables,
    Copy,
    Expand,
    CopyPlain,
    ExpandPlain,
    GuardPlain,
}

/// A call over so many relation names, in so many rounds. Each round expands a form with two predicate variables once, which makes as
/// many variants as there are pairs of names, or does so many times what makes one form.
#[derive(Clone, Copy)]
pub struct Call {
    pub kind: Kind,
    pub names: u16,
    pub rounds: u16,
}

/// What is expanded, behind the facts that use the names.
fn text_of(alloc: Global, names: u16) -> Result<Vec<u8>, NoMemory> {
    let mut text = String::new(alloc);
    for number in 0..names {
        writeln!(text, "(p{number} a)")?;
    }
    text.push_str("(=> (?R ?X) (?S ?X))\n(=> (and (p1 ?X) (p2 ?X)) (exists (?Y) (p3 ?Y)))\n")?;
    Ok(text.into_bytes())
}

fn forms_of(alloc: Global, names: u16) -> Result<Vec<Located>, NoMemory> {
    let text = text_of(alloc, names)?;
    if text.len() >= 1 << 31 {
        return Err(NoMemory);
    }
    read_forms(alloc, text.as_slice(), 1).map_err(|_| NoMemory)
}

/// What the calls of one round are given.
#[derive(Clone, Copy)]
struct Given<'a> {
    plain: &'a Form,
    varied: &'a Form,
    signatures: &'a Signatures,
    taxonomy: &'a Taxonomy,
    pairs: usize,
}

// ---- one round

fn copies(alloc: Global, form: &Form, count: usize) -> Result<usize, NoMemory>
    ensures { IfOk result (λ made. made ≡ count) }
{
    let mut copies: Forms = Listed::new(alloc);
    for _ in 0..count {
        copies.push(form.copy(alloc)?)?;
    }
    Ok(copies.items().len())
}

fn variants(alloc: Global, form: &Form, given: &Given<'_>) -> Result<usize, NoMemory> {
    match expand(alloc, form, given.signatures, given.taxonomy)? {
        Expanded::Variants(variants) => Ok(variants.items().len()),
        _ => Ok(0),
    }
}

fn variants_of_plain(alloc: Global, given: &Given<'_>) -> Result<usize, NoMemory> {
    let mut count: usize = 0;
    for _ in 0..given.pairs {
        count = count.saturating_add(variants(alloc, given.plain, given)?);
    }
    Ok(count)
}

fn guarded(alloc: Global, given: &Given<'_>) -> Result<usize, NoMemory>
    ensures { IfOk result (λ made. made ≡ given.now.pairs) }
{
    let mut copies: Forms = Listed::new(alloc);
    for _ in 0..given.pairs {
        copies.push(guard(alloc, given.plain, given.signatures)?)?;
    }
    Ok(copies.items().len())
}

fn round(alloc: Global, kind: Kind, given: &Given<'_>) -> Result<usize, NoMemory> {
    match kind {
        Kind::Tables => Ok(0),
        Kind::Copy => copies(alloc, given.varied, given.pairs),
        Kind::Expand => variants(alloc, given.varied, given),
        Kind::CopyPlain => copies(alloc, given.plain, given.pairs),
        Kind::ExpandPlain => variants_of_plain(alloc, given),
        Kind::GuardPlain => guarded(alloc, given),
    }
}

/// How many forms were made in all rounds.
pub(crate) fn count_of(alloc: Global, call: Call) -> Result<usize, NoMemory> {
    let forms = forms_of(alloc, call.names)?;
    let taxonomy = Taxonomy::of(alloc, forms.as_slice())?;
    let signatures = Signatures::of(alloc, forms.as_slice(), &taxonomy)?;
    let [.., varied, plain] = forms.as_slice() else {
        return Ok(0);
    };
    let names = usize::from(call.names);
    let given = Given {
        plain: &plain.form,
        varied: &varied.form,
        signatures: &signatures,
        taxonomy: &taxonomy,
        pairs: names.saturating_mul(names),
    };
    let mut count: usize = 0;
    for _ in 0..call.rounds {
        count = count.saturating_add(round(alloc, call.kind, &given)?);
    }
    Ok(count)
}
