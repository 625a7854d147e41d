//! What stands between two forms and their being equal.
ghost use Rattle.std.specs.Prelude.{◌≡◌, true};
ghost use Rattle.kif_tree.specs.declared.form.Form.TheVariants.{Variable, List};
ghost use Rattle.unify.specs.Difference.{Differs};
ghost use Rattle.unify.specs.Unifiers.{HasNoneApart};

use kif_tree::{Form, Text, forms_equal, occurs};

/// Where it is true, the forms don't become equal, whatever the variables of each become: two parts at one place differ, neither of
/// which is a variable. Where it is false, `unify` may refuse them still. It takes no memory.
#[cycle(clash)]
pub fn clash(first: &Form, second: &Form) -> bool
    ensures { result ≡ true → HasNoneApart first.now second.now }
{
    match first {
        Form::Variable(_) => false,
        Form::List(parts) => match second {
            Form::Variable(_) => false,
            Form::List(others) => parts_clash(parts.items(), others.items()),
            _ => true,
        },
        _ => match second {
            Form::Variable(_) => false,
            Form::List(_) => true,
            _ => !forms_equal(first, second),
        },
    }
}

#[cycle(clash)]
fn parts_clash(first: &[Form], second: &[Form]) -> bool
    ensures { result ≡ true → HasNoneApart (List first.now) (List second.now) }
{
    if first.len() != second.len() {
        return true;
    }
    for at in 0..first.len() {
        if clash(&first[at], &second[at]) {
            return true;
        }
    }
    false
}

/// What stands between two forms and their being equal.
pub(crate) enum Difference<'a> {
    Same,
    /// No substitution makes them equal.
    Clash,
    /// Each substitution that makes them equal gives the variable what it gives this form.
    Bind(&'a Text, &'a Form),
}

fn binding<'a>(name: &'a Text, term: &'a Form) -> Difference<'a>
    ensures { Differs (Variable name.now) term.now result }
{
    match term {
        Form::Variable(other) => if name.equals(other) {
            Difference::Same
        } else {
            Difference::Bind(name, term)
        },
        _ => if occurs(name, term) {
            Difference::Clash
        } else {
            Difference::Bind(name, term)
        },
    }
}

/// The first difference of the forms, part by part.
#[cycle(compare)]
pub(crate) fn compare<'a>(first: &'a Form, second: &'a Form) -> Difference<'a>
    ensures { Differs first.now second.now result }
{
    match first {
        Form::Variable(name) => binding(name, second),
        Form::List(parts) => match second {
            Form::Variable(name) => binding(name, first),
            Form::List(others) => first_difference(parts.items(), others.items()),
            _ => Difference::Clash,
        },
        _ => match second {
            Form::Variable(name) => binding(name, first),
            Form::List(_) => Difference::Clash,
            _ => if forms_equal(first, second) {
                Difference::Same
            } else {
                Difference::Clash
            },
        },
    }
}

#[cycle(compare)]
fn first_difference<'a>(first: &'a [Form], second: &'a [Form]) -> Difference<'a>
    ensures { Differs (List first.now) (List second.now) result }
{
    if first.len() != second.len() {
        return Difference::Clash;
    }
    for at in 0..first.len() {
        match compare(&first[at], &second[at]) {
            Difference::Same => {}
            found => return found,
        }
    }
    Difference::Same
}
