//! Where variables stand as arguments. The walk goes over a quantifier's body and finds the free occurrences of the variables
//! that the quantifier lists: a quantifier inside takes those that it lists itself out of the set for as long as the walk is
//! in it, so that each occurrence is looked up once.
ghost use Rattle.std.specs.Prelude.{◌≡◌, ◌||◌, ◌&&◌, ◌++◌, ◌∷◌, [], ◌+◌, filter, map, true, IfOk, OnOk};
ghost use Rattle.std.specs.List.{flat_map, list_any};
ghost use Rattle.kif_tree.specs.Names.{bound, is_other};
ghost use Rattle.kif_tree.specs.Profile.{operands};
ghost use Rattle.kif_tree.specs.Shape.{is_name, lists_names};
ghost use Rattle.kif_tree.specs.Terms.{same};
ghost use Rattle.kif_tree.specs.declared.form.Form as declared;
ghost use Rattle.kif_tree.specs.declared.form.Form.TheVariants as form_of;
ghost use Rattle.type_guard.specs.Guards.{is_of};
ghost use Rattle.type_guard.specs.Occurrences as spec;
ghost use Rattle.type_guard.specs.Reads as reads;

use kif_tree::{Form, NameSet, Text, bound, operands};
use sigma_base::NoMemory;
use std::alloc::Global;

/// A variable that stands as an argument of a list with this word at its head. The first argument has number 1.
#[derive(Clone, Copy, Debug)]
pub struct VariableAt<'a> {
    pub variable: &'a Text,
    pub head: &'a Text,
    pub argument: usize,
}

/// Adds the free occurrences of the wanted variables in the form, from left to right.
#[cycle(append_in)]
pub fn append_in<'a>(
    alloc: Global,
    found: &mut Vec<VariableAt<'a>>,
    wanted: &mut NameSet,
    form: &'a Form,
) -> Result<(), NoMemory>
    ensures found { OnOk result (reads.all found.new.items ≡ reads.all found.old.items ++ filter (is_of wanted.old) (spec.occurrences form.now)) }
    ensures wanted { OnOk result ((name : declared.Form) → list_any (same name) wanted.new ≡ list_any (same name) wanted.old) }
{
    match form {
        Form::List(parts) => append_in_list(alloc, found, wanted, parts.items()),
        _ => Ok(()),
    }
}

/// Adds those of a list of these parts.
#[cycle(append_in)]
fn append_in_list<'a>(
    alloc: Global,
    found: &mut Vec<VariableAt<'a>>,
    wanted: &mut NameSet,
    parts: &'a [Form],
) -> Result<(), NoMemory>
    ensures found { OnOk result (reads.all found.new.items ≡ reads.all found.old.items ++ filter (is_of wanted.old) (spec.occurrences (form_of.List parts.now))) }
    ensures wanted { OnOk result ((name : declared.Form) → list_any (same name) wanted.new ≡ list_any (same name) wanted.old) }
{
    let names = bound(parts);
    if names.is_empty() {
        return append_under_head(alloc, found, wanted, parts);
    }
    let masked = mask(alloc, wanted, names)?;
    append_under_head(alloc, found, wanted, parts)?;
    add_names(alloc, wanted, masked.as_slice())
}

/// Adds those at and in the operands of a list of these parts.
#[cycle(append_in)]
fn append_under_head<'a>(
    alloc: Global,
    found: &mut Vec<VariableAt<'a>>,
    wanted: &mut NameSet,
    parts: &'a [Form],
) -> Result<(), NoMemory>
    ensures found { OnOk result (reads.all found.new.items ≡ reads.all found.old.items ++ filter (is_of wanted.old) (reads.under_head parts.now)) }
    ensures wanted { OnOk result ((name : declared.Form) → list_any (same name) wanted.new ≡ list_any (same name) wanted.old) }
{
    let [head, ..] = parts else {
        return Ok(());
    };
    match head {
        Form::Word(word) => append_of_word(alloc, found, wanted, word, operands(parts)),
        _ => append_in_all(alloc, found, wanted, operands(parts)),
    }
}

/// Adds those at and in the arguments of a list with this word at its head.
#[cycle(append_in)]
fn append_of_word<'a>(
    alloc: Global,
    found: &mut Vec<VariableAt<'a>>,
    wanted: &mut NameSet,
    head: &'a Text,
    arguments: &'a [Form],
) -> Result<(), NoMemory>
    ensures found { OnOk result (reads.all found.new.items ≡ reads.all found.old.items ++ filter (is_of wanted.old) (reads.of_arguments head.now 1 arguments.now)) }
    ensures wanted { OnOk result ((name : declared.Form) → list_any (same name) wanted.new ≡ list_any (same name) wanted.old) }
{
    for at in 0..arguments.len() {
        append_of_argument(alloc, found, wanted, head, at + 1, &arguments[at])?;
    }
    Ok(())
}

/// Adds the argument itself where it is a wanted variable, and those that are in it.
#[cycle(append_in)]
fn append_of_argument<'a>(
    alloc: Global,
    found: &mut Vec<VariableAt<'a>>,
    wanted: &mut NameSet,
    head: &'a Text,
    argument: usize,
    part: &'a Form,
) -> Result<(), NoMemory>
    ensures found { OnOk result (reads.all found.new.items ≡ reads.all found.old.items ++ filter (is_of wanted.old) (reads.of_argument head.now argument part.now)) }
    ensures wanted { OnOk result ((name : declared.Form) → list_any (same name) wanted.new ≡ list_any (same name) wanted.old) }
{
    match part {
        Form::Variable(variable) if wanted.has(part) => {
            found.push(VariableAt {
                variable,
                head,
                argument,
            })?;
            Ok(())
        }
        _ => append_in(alloc, found, wanted, part),
    }
}

#[cycle(append_in)]
fn append_in_all<'a>(
    alloc: Global,
    found: &mut Vec<VariableAt<'a>>,
    wanted: &mut NameSet,
    forms: &'a [Form],
) -> Result<(), NoMemory>
    ensures found { OnOk result (reads.all found.new.items ≡ reads.all found.old.items ++ filter (is_of wanted.old) (flat_map spec.occurrences forms.now)) }
    ensures wanted { OnOk result ((name : declared.Form) → list_any (same name) wanted.new ≡ list_any (same name) wanted.old) }
{
    for form in forms {
        append_in(alloc, found, wanted, form)?;
    }
    Ok(())
}

// ---- what a quantifier inside hides

/// Takes the names out of the set, and lends those that it had.
fn mask<'a>(alloc: Global, set: &mut NameSet, names: &'a [Form]) -> Result<Vec<&'a Form>, NoMemory>
    ensures set { OnOk result ((name : declared.Form) → list_any (same name) set.new ≡ (list_any (same name) set.old && is_other names.now name)) }
    ensures masked { IfOk result (λ masked. (name : declared.Form) → list_any (same name) set.old ≡ (list_any (same name) set.new || list_any (same name) (map (λ name. name.now) masked.items))) }
    ensures names { IfOk result (λ masked. lists_names names.now ≡ true → lists_names (map (λ name. name.now) masked.items) ≡ true) }
{
    let mut masked = Vec::new(alloc);
    for name in names {
        if set.has(name) {
            set.remove(name);
            masked.push(name)?;
        }
    }
    Ok(masked)
}

/// Adds the names to the set.
fn add_names(alloc: Global, set: &mut NameSet, names: &[&Form]) -> Result<(), NoMemory>
    ensures { OnOk result ((form : declared.Form) → list_any (same form) set.new ≡ (list_any (same form) set.old || (is_name form && list_any (same form) (map (λ name. name.now) names.now)))) }
{
    for &name in names {
        set.add(alloc, name)?;
    }
    Ok(())
}

/// A set of these variables and row variables.
pub fn set_of(alloc: Global, names: &[Form]) -> Result<NameSet, NoMemory>
    ensures { IfOk result (λ set. (form : declared.Form) → list_any (same form) set ≡ (is_name form && list_any (same form) names.now)) }
{
    let mut set = NameSet::new(alloc);
    for name in names {
        set.add(alloc, name)?;
    }
    Ok(set)
}
