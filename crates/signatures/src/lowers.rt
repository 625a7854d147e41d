//! The lower words of told `subrelation` forms.
ghost use Rattle.std.specs.Prelude.{IfOk, OnOk, MatchOption, ◌≡◌};
ghost use Rattle.signatures.specs.Lowers as spec;

use crate::forms::link_in;
use crate::word_table::{WordTable, push};
use kif_tree::{Located, Text};
use sigma_base::{Listed, NoMemory};
use std::alloc::Global;
use std::collections::HashMap;
use taxonomy::ChainKind;

/// For each word those that `subrelation` forms call lower than it.
pub type Lowers = WordTable<Listed<Text>>;

/// Adds the lower word of the form, where it is a `subrelation` form.
fn add_lower(alloc: Global, table: &mut Lowers, located: &Located) -> Result<(), NoMemory>
    ensures { OnOk result (spec.AddsLower table.old table.new located.now) }
{
    let Some(found) = link_in(located) else {
        return Ok(());
    };
    let ChainKind::Relation = found.kind else {
        return Ok(());
    };
    let low = found.low.copy(alloc)?;
    push(alloc, table, found.high.bytes(), low)
}

/// The lower words of the forms.
pub fn lowers_of(alloc: Global, forms: &[Located]) -> Result<Lowers, NoMemory>
    ensures { IfOk result (spec.AreLowers forms.now) }
{
    let mut table = HashMap::new(alloc);
    for located in forms {
        add_lower(alloc, &mut table, located)?;
    }
    Ok(table)
}
