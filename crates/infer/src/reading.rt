//! Clauses and substitutions of tests, written as forms.
use kif_reader::read_forms;
use kif_tree::{Clause, Form, Literal, Pair, Subst, Text, copy_all, is_headed, parts_of};
use sigma_base::{Listed, NoMemory};
use std::alloc::Global;
use std::test::Fail;

/// The forms of a text that isn't longer than the reader takes.
pub(crate) fn forms_of(alloc: Global, text: &str) -> Result<Listed<Form>, Fail> {
    let mut forms = Listed::new(alloc);
    let text = text.as_bytes();
    if text.len() >= 1 << 31 {
        return Ok(forms);
    }
    for located in read_forms(alloc, text, 1)? {
        forms.push(located.form)?;
    }
    Ok(forms)
}

/// The clause of a text, which is `(or L ..)`, one literal or empty. An atom headed `answer` becomes that of an answer literal.
pub(crate) fn clause(alloc: Global, text: &str) -> Result<Clause, Fail> {
    let forms = forms_of(alloc, text)?;
    let mut literals = Listed::new(alloc);
    for form in forms.items() {
        append_literals(alloc, &mut literals, form)?;
    }
    Ok(Clause { literals })
}

fn append_literals(
    alloc: Global,
    literals: &mut Listed<Literal>,
    form: &Form,
) -> Result<(), NoMemory> {
    if !is_headed(form, b"or") {
        return literals.push(literal(alloc, form)?);
    }
    for part in after_head(form) {
        literals.push(literal(alloc, part)?)?;
    }
    Ok(())
}

/// The parts of a list after its head.
pub(crate) fn after_head(form: &Form) -> &[Form] {
    match parts_of(form) {
        [_, rest @ ..] => rest,
        _ => &[],
    }
}

fn literal(alloc: Global, form: &Form) -> Result<Literal, NoMemory> {
    let mut positive = true;
    let mut atom = form;
    if is_headed(form, b"not") {
        if let [negated, ..] = after_head(form) {
            positive = false;
            atom = negated;
        }
    }
    Ok(Literal {
        positive,
        atom: atom_of(alloc, atom)?,
    })
}

fn atom_of(alloc: Global, form: &Form) -> Result<Form, NoMemory> {
    if !is_headed(form, b"answer") {
        return form.copy(alloc);
    }
    let mut parts = Listed::new(alloc);
    parts.push(Form::Word(Text::of(alloc, b"!answer")?))?;
    parts.append(copy_all(alloc, after_head(form))?)?;
    Ok(Form::List(parts))
}

/// The substitution of a text of lists, each a name without prefix and what becomes of it.
pub(crate) fn subst(alloc: Global, text: &str) -> Result<Subst, Fail> {
    let forms = forms_of(alloc, text)?;
    let mut pairs = Listed::new(alloc);
    for form in forms.items() {
        append_pair(alloc, &mut pairs, form)?;
    }
    Ok(Subst { pairs })
}

fn append_pair(alloc: Global, pairs: &mut Listed<Pair>, form: &Form) -> Result<(), NoMemory> {
    if let [Form::Word(name), term] = parts_of(form) {
        pairs.push(Pair {
            variable: name.copy(alloc)?,
            term: term.copy(alloc)?,
        })?;
    }
    Ok(())
}
