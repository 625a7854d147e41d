//! When a truth assignment satisfies a ground clause. An assignment is the list of the atoms that are true.
ghost use Rattle.std.specs.Prelude.{◌≡◌};
ghost use Rattle.calculus.specs.Truth as spec;

use kif_tree::{Clause, Form, Literal, forms_equal};

/// Whether the atom is among the true ones. It takes no memory.
pub fn is_true(atoms: &[Form], atom: &Form) -> bool
    ensures { result ≡ spec.is_true atoms.now atom.now }
{
    for other in atoms {
        if forms_equal(atom, other) {
            return true;
        }
    }
    false
}

/// Whether the literal is true. It takes no memory.
pub fn holds(atoms: &[Form], literal: &Literal) -> bool
    ensures { result ≡ spec.holds atoms.now literal.now }
{
    is_true(atoms, &literal.atom) == literal.positive
}

/// Whether some literal of the clause is true. It takes no memory.
pub fn satisfies(atoms: &[Form], clause: &Clause) -> bool
    ensures { result ≡ spec.satisfies atoms.now clause.now }
{
    for literal in clause.literals.items() {
        if holds(atoms, literal) {
            return true;
        }
    }
    false
}

/// Whether each clause has a true literal. It takes no memory.
pub fn satisfies_all(atoms: &[Form], clauses: &[Clause]) -> bool
    ensures { result ≡ spec.satisfies_all atoms.now clauses.now }
{
    for clause in clauses {
        if !satisfies(atoms, clause) {
            return false;
        }
    }
    true
}
