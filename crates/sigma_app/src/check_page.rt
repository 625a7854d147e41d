//! The page of a check.
ghost use Rattle.std.specs.Prelude.{◌≡◌, ◌++◌, IfOk, OnOk};
ghost use Rattle.std.specs.List.{flat_map};
ghost use Rattle.sigma_app.specs.CheckPage as spec;

use crate::places::append_place;
use diagnose::Diagnostic;
use kif_tree::{LoadName, Place, Text};
use sigma_base::NoMemory;
use std::alloc::Global;

fn code_text(code: u8) -> &'static [u8]
    ensures { result.now ≡ spec.code_text code }
{
    match code {
        1 => b"no parent",
        2 => b"no documentation",
        3 => b"disjoint parents",
        4 => b"wrong argument type",
        5 => b"wrong argument count",
        6 => b"unquantified variable",
        7 => b"quantified variable unused",
        8 => b"outside the profile, not translated",
        9 => b"row variable never fits",
        10 => b"too many variants",
        11 => b"arity unstated",
        12 => b"no relation fits",
        13 => b"too many clauses",
        _ => b"",
    }
}

fn append_other(out: &mut Text, names: &[LoadName], other: &Option<Place>) -> Result<(), NoMemory>
    ensures { OnOk result (out.new ≡ out.old ++ spec.other_text names.now other.now) }
{
    match other {
        None => Ok(()),
        Some(place) => {
            out.append(b" [")?;
            append_place(out, names, place)?;
            out.append(b"]")
        }
    }
}

#[tactic(auto, unfolding(crate::specs::CheckPage::where_text))]
fn append_where(out: &mut Text, names: &[LoadName], diagnostic: &Diagnostic) -> Result<(), NoMemory>
    ensures { OnOk result (out.new ≡ out.old ++ spec.where_text names.now diagnostic.now) }
{
    out.append_decimal(u64::from(diagnostic.code))?;
    out.push(b' ')?;
    append_place(out, names, &diagnostic.place)
}

#[tactic(auto, unfolding(crate::specs::CheckPage::what_text))]
fn append_what(out: &mut Text, names: &[LoadName], diagnostic: &Diagnostic) -> Result<(), NoMemory>
    ensures { OnOk result (out.new ≡ out.old ++ spec.what_text names.now diagnostic.now) }
{
    out.append(diagnostic.term.bytes())?;
    out.push(b' ')?;
    out.append(code_text(diagnostic.code))?;
    append_other(out, names, &diagnostic.other)
}

#[tactic(auto, unfolding(crate::specs::CheckPage::diagnostic_text))]
fn append_diagnostic(
    out: &mut Text,
    names: &[LoadName],
    diagnostic: &Diagnostic,
) -> Result<(), NoMemory>
    ensures { OnOk result (out.new ≡ out.old ++ spec.diagnostic_text names.now diagnostic.now) }
{
    append_where(out, names, diagnostic)?;
    out.push(b' ')?;
    append_what(out, names, diagnostic)?;
    out.push(b'\n')
}

fn append_diagnostics(
    out: &mut Text,
    names: &[LoadName],
    list: &[Diagnostic],
) -> Result<(), NoMemory>
    ensures { OnOk result (out.new ≡ out.old ++ flat_map (spec.diagnostic_text names.now) list.now) }
{
    for diagnostic in list {
        append_diagnostic(out, names, diagnostic)?;
    }
    Ok(())
}

/// A line for each diagnostic, and last how many there are. The places show the names of the loads.
#[tactic(auto, unfolding(crate::specs::CheckPage::check_page))]
pub fn check_page(alloc: Global, names: &[LoadName], list: &[Diagnostic]) -> Result<Text, NoMemory>
    ensures { IfOk result (λ page. page ≡ spec.check_page names.now list.now) }
{
    let mut page = Text::new(alloc);
    append_diagnostics(&mut page, names, list)?;
    page.append_decimal(list.len() as u64)?;
    page.append(b" diagnostics\n")?;
    Ok(page)
}
