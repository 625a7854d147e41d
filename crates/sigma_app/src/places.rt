//! Places as pages show them.
ghost use Rattle.std.specs.Prelude.{◌≡◌, ◌++◌, OnOk};
ghost use Rattle.kif_tree.specs.Printed as printed;

use kif_tree::{LoadName, Place, Text};
use sigma_base::NoMemory;

fn append_name(out: &mut Text, mut names: &[LoadName], number: u32) -> Result<(), NoMemory>
    ensures { OnOk result (out.new ≡ out.old ++ printed.name_of names.entry.now number) }
{
    while let [entry, rest @ ..] = names {
        if entry.number == number {
            return out.append(entry.name.bytes());
        }
        names = rest;
    }
    Ok(())
}

/// Adds `NAME:LINE:COLUMN` at the end, with no text made for the place alone: a check shows many places.
pub fn append_place(out: &mut Text, names: &[LoadName], place: &Place) -> Result<(), NoMemory>
    ensures { OnOk result (out.new ≡ out.old ++ printed.place_text names.now place.now) }
{
    append_name(out, names, place.constituent)?;
    out.push(b':')?;
    out.append_decimal(u64::from(place.line))?;
    out.push(b':')?;
    out.append_decimal(u64::from(place.column))
}
