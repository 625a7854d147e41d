//! Equality of forms and literals.
ghost use Rattle.std.specs.Prelude.{◌≡◌, ◌↔◌, IsTrue};
ghost use Rattle.kif_tree.specs.Terms as spec;
ghost use Rattle.kif_tree.specs.Clauses as clauses;

use crate::clause::Literal;
use crate::form::Form;

/// Whether the forms are one tree. It takes no memory.
pub fn forms_equal(first: &Form, second: &Form) -> bool
    ensures test { result ≡ spec.same first.now second.now }
    ensures equal { IsTrue result ↔ (first.now ≡ second.now) }
{
    trees_equal(first, second)
}

fn trees_equal(first: &Form, second: &Form) -> bool
    ensures { IsTrue result ↔ (first.now ≡ second.now) }
{
    match (first, second) {
        (Form::Word(a), Form::Word(b)) => a.equals(b),
        (Form::Variable(a), Form::Variable(b)) => a.equals(b),
        (Form::Row(a), Form::Row(b)) => a.equals(b),
        (Form::Numeral(a), Form::Numeral(b)) => a.equals(b),
        (Form::Quoted(a), Form::Quoted(b)) => a.equals(b),
        (Form::List(a), Form::List(b)) => {
            let a = a.items();
            let b = b.items();
            if a.len() != b.len() {
                return false;
            }
            for at in 0..a.len() {
                if !trees_equal(&a[at], &b[at]) {
                    return false;
                }
            }
            true
        }
        _ => false,
    }
}

/// Whether the literals have one sign and one atom. It takes no memory.
pub fn literals_equal(first: &Literal, second: &Literal) -> bool
    ensures test { result ≡ clauses.same_literal first.now second.now }
    ensures equal { IsTrue result ↔ (first.now ≡ second.now) }
{
    first.positive == second.positive && forms_equal(&first.atom, &second.atom)
}

impl PartialEq for Form {
    ghost use Rattle.std.specs.Cmp.{partial_equiv_from_equiv};
    ghost use Rattle.kif_tree.specs.Terms.{same};
    ghost use Rattle.kif_tree.specs.SameLaws.{same_equivalence};

    ghost eq = { same };

    ghost laws = { partial_equiv_from_equiv same_equivalence };

    fn eq(&self, other: &Form) -> bool {
        forms_equal(self, other)
    }
}

impl Eq for Form {
    ghost use Rattle.kif_tree.specs.SameLaws.{same_equivalence};

    ghost laws = { same_equivalence };
}
