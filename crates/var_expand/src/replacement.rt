//! A form after a choice.
ghost use Rattle.std.specs.Prelude.{◌≡◌, IfOk, ◌++◌, OnOk};
ghost use Rattle.std.specs.List.{flat_map, list_any};
ghost use Rattle.kif_tree.specs.Shape as shape;
ghost use Rattle.kif_tree.specs.Terms.{same};
ghost use Rattle.var_expand.specs.Replacement as spec;
ghost use Rattle.var_expand.specs.Spliced.{spliced_part};

use crate::chosen::{Chosen, becomes_by};
use kif_tree::{Form, Forms, bound, forms_equal};
use sigma_base::{Listed, NoMemory};
use std::alloc::Global;

fn is_name(form: &Form) -> bool
    ensures { result ≡ shape.is_name form.now }
{
    matches!(form, Form::Variable(_) | Form::Row(_))
}

fn is_among(names: &[Form], variable: &Form) -> bool
    ensures { result ≡ list_any (same variable.now) names.now }
{
    for name in names {
        if forms_equal(variable, name) {
            return true;
        }
    }
    false
}

/// What remains of the choice where a quantifier lists these names.
fn without<'a>(
    alloc: Global,
    names: &[Form],
    choice: &[Chosen<'a>],
) -> Result<Listed<Chosen<'a>>, NoMemory>
    ensures { IfOk result (λ rest. rest ≡ spec.without names.now choice.now) }
{
    let mut rest = Listed::new(alloc);
    for chosen in choice {
        if !is_among(names, chosen.variable) {
            rest.push(Chosen {
                variable: chosen.variable,
                becomes: chosen.becomes,
            })?;
        }
    }
    Ok(rest)
}

fn append_copies(alloc: Global, forms: &mut Forms, more: &[Form]) -> Result<(), NoMemory>
    ensures { OnOk result (forms.new ≡ forms.old ++ more.now) }
{
    for form in more {
        forms.push(form.copy(alloc)?)?;
    }
    Ok(())
}

/// The form with its variables and row variables replaced in all lists where they are free.
#[cycle(replace)]
pub fn replaced(alloc: Global, form: &Form, choice: &[Chosen]) -> Result<Form, NoMemory>
    ensures { IfOk result (λ replaced. replaced ≡ spec.replaced form.now choice.now) }
{
    let Form::List(parts) = form else {
        return form.copy(alloc);
    };
    let parts = parts.items();
    let names = bound(parts);
    if names.is_empty() {
        return Ok(Form::List(spliced(alloc, parts, choice)?));
    }
    let rest = without(alloc, names, choice)?;
    Ok(Form::List(spliced(alloc, parts, rest.items())?))
}

#[cycle(replace)]
fn spliced(alloc: Global, parts: &[Form], choice: &[Chosen]) -> Result<Forms, NoMemory>
    ensures { IfOk result (λ spliced. spliced ≡ flat_map (spliced_part choice.now) parts.now) }
{
    let mut forms = Listed::new(alloc);
    for part in parts {
        if is_name(part) {
            append_copies(alloc, &mut forms, becomes_by(choice, part))?;
        } else {
            forms.push(replaced(alloc, part, choice)?)?;
        }
    }
    Ok(forms)
}
