//! Variables that are free where they should be quantified, or quantified where they aren't free.
ghost use Rattle.std.specs.Prelude.{◌≡◌, ◌&&◌, ◌++◌, ◌∷◌, [], not, codes, IfOk, OnOk, MatchOption};
ghost use Rattle.std.specs.Str.{bytes_eq};
ghost use Rattle.kif_tree.specs.Shape as shape;
ghost use Rattle.kif_tree.specs.Terms.{Bytes};
ghost use Rattle.kif_tree.specs.declared.form.Form.{Form, out-Form};
ghost use Rattle.kif_tree.specs.declared.form.Form.TheVariants as form_of;
ghost use Rattle.diagnose.specs.Diagnostics.{IsOfVariables};
ghost use Rattle.diagnose.specs.Found.{Adds, OfSome};
ghost use Rattle.diagnose.specs.Variables as variables;
ghost use Rattle.diagnose.specs.VariableWalk as spec;

use crate::diagnostic::Diagnostic;
use kif_tree::{Form, Located, Place, Text, WordSet, is_quantifier, lists_names, parts_of};
use sigma_base::NoMemory;
use std::alloc::Global;

/// Adds what is wrong with the form's variables.
pub fn add_variable_faults(
    alloc: Global,
    located: &Located,
    found: &mut Vec<Diagnostic>,
) -> Result<(), NoMemory>
    ensures { OnOk result (Adds (λ d. (d.place ≡ located.now.place) × IsOfVariables located.now.form d) found.old.items found.new.items) }
{
    if let Some((first, second)) = two_parts(&located.form, b"=>") {
        return add_of_implication(alloc, located.place, first, second, found);
    }
    if let Some((first, second)) = two_parts(&located.form, b"<=>") {
        return add_of_equivalence(alloc, located.place, first, second, found);
    }
    let mut free = WordSet::new(alloc);
    collect(alloc, located.place, &located.form, &mut free, found)
}

/// The two parts after this word at the head of a list.
fn two_parts<'a>(form: &'a Form, word: &[u8]) -> Option<(&'a Form, &'a Form)>
    ensures { MatchOption result ((first second : Form) → form.now ≡ variables.implication word.now first second → ⊥) (λ parts. form.now ≡ variables.implication word.now parts.0.now parts.1.now) }
{
    let Form::List(parts) = form else {
        return None;
    };
    let [head, first, second] = parts.items() else {
        return None;
    };
    let Form::Word(text) = head else {
        return None;
    };
    if text.bytes() == word {
        return Some((first, second));
    }
    None
}

fn add_of_implication(
    alloc: Global,
    place: Place,
    first: &Form,
    second: &Form,
    found: &mut Vec<Diagnostic>,
) -> Result<(), NoMemory>
    ensures { OnOk result (Adds (spec.IsFaultAt place (variables.implication (codes "=>") first.now second.now)) found.old.items found.new.items) }
{
    let mut in_first = WordSet::new(alloc);
    let mut in_second = WordSet::new(alloc);
    collect(alloc, place, first, &mut in_first, found)?;
    collect(alloc, place, second, &mut in_second, found)?;
    add_missing(alloc, place, in_second, &in_first, found)?;
    Ok(())
}

fn add_of_equivalence(
    alloc: Global,
    place: Place,
    first: &Form,
    second: &Form,
    found: &mut Vec<Diagnostic>,
) -> Result<(), NoMemory>
    ensures { OnOk result (Adds (spec.IsFaultAt place (variables.implication (codes "<=>") first.now second.now)) found.old.items found.new.items) }
{
    let mut in_first = WordSet::new(alloc);
    let mut in_second = WordSet::new(alloc);
    collect(alloc, place, first, &mut in_first, found)?;
    collect(alloc, place, second, &mut in_second, found)?;
    let in_second = add_missing(alloc, place, in_second, &in_first, found)?;
    add_missing(alloc, place, in_first, &in_second, found)?;
    Ok(())
}

/// Adds a fault for each name that the other set lacks, and gives the names back.
fn add_missing(
    alloc: Global,
    place: Place,
    names: WordSet,
    other: &WordSet,
    found: &mut Vec<Diagnostic>,
) -> Result<WordSet, NoMemory>
    ensures names { IfOk result (λ kept. (name : Bytes) → shape.is_among kept name ≡ shape.is_among names name) }
    ensures found { OnOk result (Adds (spec.IsOnlyIn 6 place (shape.is_among names) (shape.is_among other.now)) found.old.items found.new.items) }
{
    let mut left = names;
    let mut kept = WordSet::new(alloc);
    while let Some(name) = left.pop_first() {
        add_unless(alloc, 6, place, name.bytes(), other, found)?;
        kept.add(alloc, name.bytes())?;
    }
    Ok(kept)
}

/// Adds a fault of the variable, unless the set has its name.
fn add_unless(
    alloc: Global,
    code: u8,
    place: Place,
    name: &[u8],
    set: &WordSet,
    found: &mut Vec<Diagnostic>,
) -> Result<(), NoMemory>
    ensures { OnOk result (Adds (spec.IsOnlyIn code place (λ other. bytes_eq other name.now) (shape.is_among set.now)) found.old.items found.new.items) }
{
    if set.has(name) {
        return Ok(());
    }
    found.push(fault(alloc, code, place, name)?)?;
    Ok(())
}

fn fault(alloc: Global, code: u8, place: Place, name: &[u8]) -> Result<Diagnostic, NoMemory>
    ensures { IfOk result (λ d. d ≡ spec.fault code place name.now) }
{
    let mut term = Text::of(alloc, b"?")?;
    term.append(name)?;
    Ok(Diagnostic {
        code,
        place,
        term,
        other: None,
    })
}

// ---- the walk

/// Adds the names of the form's free variables to the set, and the faults of its quantifiers.
#[cycle(collect)]
fn collect(
    alloc: Global,
    place: Place,
    form: &Form,
    free: &mut WordSet,
    found: &mut Vec<Diagnostic>,
) -> Result<(), NoMemory>
    ensures free { OnOk result (spec.Collects (spec.is_free form.now) free.old free.new) }
    ensures found { OnOk result (Adds (spec.IsUnusedAt place form.now) found.old.items found.new.items) }
{
    match form {
        Form::Variable(text) => free.add(alloc, text.bytes()),
        Form::List(parts) => collect_list(alloc, place, parts.items(), free, found),
        _ => Ok(()),
    }
}

#[cycle(collect)]
fn collect_list(
    alloc: Global,
    place: Place,
    parts: &[Form],
    free: &mut WordSet,
    found: &mut Vec<Diagnostic>,
) -> Result<(), NoMemory>
    ensures free { OnOk result (spec.Collects (spec.is_free (form_of.List parts.now)) free.old free.new) }
    ensures found { OnOk result (Adds (spec.IsUnusedAt place (form_of.List parts.now)) found.old.items found.new.items) }
{
    match parts {
        [head, names, body] if quantifies(head, names) => {
            let mut within = WordSet::new(alloc);
            collect(alloc, place, body, &mut within, found)?;
            leave(alloc, place, parts_of(names), within, free, found)
        }
        _ => collect_all(alloc, place, parts, free, found),
    }
}

#[cycle(collect)]
fn collect_all(
    alloc: Global,
    place: Place,
    parts: &[Form],
    free: &mut WordSet,
    found: &mut Vec<Diagnostic>,
) -> Result<(), NoMemory>
    ensures free { OnOk result (spec.Collects (spec.is_free_in parts.now) free.old free.new) }
    ensures found { OnOk result (Adds (OfSome (spec.IsUnusedAt place) parts.now) found.old.items found.new.items) }
{
    for part in parts {
        collect(alloc, place, part, free, found)?;
    }
    Ok(())
}

/// Adds the names that are free within a quantifier but not listed by it, and a fault for each that is listed but not free.
fn leave(
    alloc: Global,
    place: Place,
    listed: &[Form],
    within: WordSet,
    free: &mut WordSet,
    found: &mut Vec<Diagnostic>,
) -> Result<(), NoMemory>
    ensures free { OnOk result (spec.Collects (λ name. shape.is_among within name && not (spec.is_listed listed.now name)) free.old free.new) }
    ensures found { OnOk result (Adds (spec.IsOnlyIn 7 place (spec.is_listed listed.now) (shape.is_among within)) found.old.items found.new.items) }
{
    let mut within = within;
    add_unused(alloc, place, listed, &within, found)?;
    remove_listed(&mut within, listed);
    free.join(within)
}

fn add_unused(
    alloc: Global,
    place: Place,
    listed: &[Form],
    within: &WordSet,
    found: &mut Vec<Diagnostic>,
) -> Result<(), NoMemory>
    ensures { OnOk result (Adds (spec.IsOnlyIn 7 place (spec.is_listed listed.now) (shape.is_among within.now)) found.old.items found.new.items) }
{
    for part in listed {
        if let Form::Variable(text) = part {
            add_unless(alloc, 7, place, text.bytes(), within, found)?;
        }
    }
    Ok(())
}

fn remove_listed(set: &mut WordSet, listed: &[Form])
    ensures { (name : Bytes) → shape.is_among set.new name ≡ (shape.is_among set.old name && not (spec.is_listed listed.now name)) }
{
    for part in listed {
        if let Form::Variable(text) = part {
            set.remove(text.bytes());
        }
    }
}

// ---- quantifiers

/// Whether a list of these two parts and a body quantifies what the second lists.
fn quantifies(head: &Form, names: &Form) -> bool
    ensures { result ≡ (shape.is_quantifier head.now && shape.lists_names_layer (out-Form names.now)) }
{
    match names {
        Form::List(parts) => is_quantifier(head) && lists_names(parts.items()),
        _ => false,
    }
}
