//! The variables and row variables that are free in a form. The walk keeps those that the quantifiers around it list in a set,
//! so that each occurrence is looked up once, however deep quantifiers nest and however much they list.
ghost use Rattle.std.specs.Prelude.{◌≡◌, ◌||◌, ◌&&◌, ◌++◌, ◌∷◌, [], filter, map, true, IfOk, OnOk};
ghost use Rattle.std.specs.List.{flat_map, list_any};
ghost use Rattle.kif_tree.specs.Names as spec;
ghost use Rattle.kif_tree.specs.Shape.{is_name, lists_names};
ghost use Rattle.kif_tree.specs.Terms.{same};
ghost use Rattle.kif_tree.specs.declared.form.Form as declared;

use crate::form::{Form, Forms};
use crate::name_set::NameSet;
use crate::names::bound;
use sigma_base::{Listed, NoMemory};
use std::alloc::Global;

/// The variables and row variables that are free in the form, in order of their first free occurrence. A form without any
/// takes no memory.
pub fn free_names(alloc: Global, form: &Form) -> Result<Forms, NoMemory>
    ensures { IfOk result (λ names. names ≡ spec.free_names form.now) }
{
    let mut found = Vec::new(alloc);
    let mut hidden = NameSet::new(alloc);
    append_free(alloc, &mut found, &mut hidden, form)?;
    once(alloc, found.as_slice())
}

/// Equal names, each once, at its first place.
fn once(alloc: Global, names: &[&Form]) -> Result<Forms, NoMemory>
    ensures { IfOk result (λ kept. lists_names (map (λ name. name.now) names.now) ≡ true → kept ≡ spec.each_once (map (λ name. name.now) names.now)) }
{
    let mut seen = NameSet::new(alloc);
    let mut kept = Listed::new(alloc);
    for &name in names {
        if !seen.has(name) {
            seen.add(alloc, name)?;
            kept.push(name.copy(alloc)?)?;
        }
    }
    Ok(kept)
}

// ---- the walk

/// Adds the free occurrences of names that aren't hidden, in order.
#[cycle(append_free)]
fn append_free<'a>(
    alloc: Global,
    found: &mut Vec<&'a Form>,
    hidden: &mut NameSet,
    form: &'a Form,
) -> Result<(), NoMemory>
    ensures found { OnOk result (map (λ name. name.now) found.new.items ≡ map (λ name. name.now) found.old.items ++ filter (spec.is_other hidden.old) (spec.free form.now)) }
    ensures hidden { OnOk result ((name : declared.Form) → list_any (same name) hidden.new ≡ list_any (same name) hidden.old) }
{
    match form {
        Form::Variable(_) | Form::Row(_) => append_name(found, hidden, form),
        Form::List(parts) => append_of_list(alloc, found, hidden, parts.items()),
        _ => Ok(()),
    }
}

/// Adds those of a list of these parts.
#[cycle(append_free)]
fn append_of_list<'a>(
    alloc: Global,
    found: &mut Vec<&'a Form>,
    hidden: &mut NameSet,
    parts: &'a [Form],
) -> Result<(), NoMemory>
    ensures found { OnOk result (map (λ name. name.now) found.new.items ≡ map (λ name. name.now) found.old.items ++ filter (spec.is_other hidden.old) (filter (spec.is_other (spec.bound parts.now)) (flat_map spec.free parts.now))) }
    ensures hidden { OnOk result ((name : declared.Form) → list_any (same name) hidden.new ≡ list_any (same name) hidden.old) }
{
    let names = bound(parts);
    if names.is_empty() {
        return append_of_parts(alloc, found, hidden, parts);
    }
    let fresh = hide(alloc, hidden, names)?;
    append_of_parts(alloc, found, hidden, parts)?;
    show(hidden, fresh.as_slice());
    Ok(())
}

#[cycle(append_free)]
fn append_of_parts<'a>(
    alloc: Global,
    found: &mut Vec<&'a Form>,
    hidden: &mut NameSet,
    parts: &'a [Form],
) -> Result<(), NoMemory>
    ensures found { OnOk result (map (λ name. name.now) found.new.items ≡ map (λ name. name.now) found.old.items ++ filter (spec.is_other hidden.old) (flat_map spec.free parts.now)) }
    ensures hidden { OnOk result ((name : declared.Form) → list_any (same name) hidden.new ≡ list_any (same name) hidden.old) }
{
    for part in parts {
        append_free(alloc, found, hidden, part)?;
    }
    Ok(())
}

/// Adds the name, unless it is hidden.
fn append_name<'a>(
    found: &mut Vec<&'a Form>,
    hidden: &NameSet,
    name: &'a Form,
) -> Result<(), NoMemory>
    ensures { OnOk result (map (λ name. name.now) found.new.items ≡ map (λ name. name.now) found.old.items ++ filter (spec.is_other hidden.now) (name.now ∷ [])) }
{
    if hidden.has(name) {
        return Ok(());
    }
    found.push(name)?;
    Ok(())
}

// ---- what a quantifier hides

/// Adds the names to those that are hidden, and lends those that weren't hidden before.
fn hide<'a>(
    alloc: Global,
    hidden: &mut NameSet,
    names: &'a [Form],
) -> Result<Vec<&'a Form>, NoMemory>
    ensures hidden { OnOk result ((name : declared.Form) → list_any (same name) hidden.new ≡ (list_any (same name) hidden.old || (is_name name && list_any (same name) names.now))) }
    ensures fresh { IfOk result (λ fresh. (name : declared.Form) → list_any (same name) hidden.old ≡ (list_any (same name) hidden.new && spec.is_other (map (λ name. name.now) fresh.items) name)) }
{
    let mut fresh = Vec::new(alloc);
    for name in names {
        if !hidden.has(name) {
            hidden.add(alloc, name)?;
            fresh.push(name)?;
        }
    }
    Ok(fresh)
}

/// Takes the names out of those that are hidden.
fn show(hidden: &mut NameSet, names: &[&Form])
    ensures { (name : declared.Form) → list_any (same name) hidden.new ≡ (list_any (same name) hidden.old && spec.is_other (map (λ name. name.now) names.now) name) }
{
    for &name in names {
        hidden.remove(name);
    }
}
