//! The page of clauses.
ghost use Rattle.std.specs.Prelude.{◌≡◌, ◌++◌, IfOk, OnOk};
ghost use Rattle.std.specs.List.{flat_map};
ghost use Rattle.sigma_app.specs.ClausesPage as spec;

use crate::places::append_place;
use kif_tree::{InputClause, LoadName, Text, print_clause};
use sigma_base::NoMemory;
use std::alloc::Global;

#[tactic(auto, unfolding(crate::specs::ClausesPage::input_text))]
fn append_input(
    alloc: Global,
    out: &mut Text,
    names: &[LoadName],
    input: &InputClause,
) -> Result<(), NoMemory>
    ensures { OnOk result (out.new ≡ out.old ++ spec.input_text names.now input.now) }
{
    out.append(print_clause(alloc, &input.clause)?.bytes())?;
    out.append(b" [")?;
    if let Some(place) = &input.place {
        append_place(out, names, place)?;
    }
    out.append(b" v")?;
    out.append_decimal(u64::from(input.variant))?;
    out.append(b"]\n")
}

fn append_inputs(
    alloc: Global,
    out: &mut Text,
    names: &[LoadName],
    inputs: &[InputClause],
) -> Result<(), NoMemory>
    ensures { OnOk result (out.new ≡ out.old ++ flat_map (spec.input_text names.now) inputs.now) }
{
    for input in inputs {
        append_input(alloc, out, names, input)?;
    }
    Ok(())
}

/// A line for each clause, with the place and the variant that it comes from, and last how many there are.
#[tactic(auto, unfolding(crate::specs::ClausesPage::clauses_page))]
pub fn clauses_page(
    alloc: Global,
    names: &[LoadName],
    inputs: &[InputClause],
) -> Result<Text, NoMemory>
    ensures { IfOk result (λ page. page ≡ spec.clauses_page names.now inputs.now) }
{
    let mut page = Text::new(alloc);
    append_inputs(alloc, &mut page, names, inputs)?;
    page.append_decimal(inputs.len() as u64)?;
    page.append(b" clauses\n")?;
    Ok(page)
}
