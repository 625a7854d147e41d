//! The test of whether a list of ground clauses can be satisfied, by trial of all truth assignments over its atoms.
ghost use Rattle.std.specs.Prelude.{◌≡◌, ◌∷◌, [], ◌++◌, ◌↔◌, if◌then◌else◌, IsTrue, IfOk, OnOk};
ghost use Rattle.calculus.specs.Truth.{Refutes, is_true};
ghost use Rattle.calculus_programs.specs.Choices as spec;

use calculus::{is_true, satisfies_all};
use kif_tree::{Clause, Form, Forms, copy_all};
use sigma_base::{Listed, NoMemory};
use std::alloc::Global;

/// Whether no truth assignment satisfies every clause. The time doubles with each atom.
pub fn refutes(alloc: Global, clauses: &[Clause]) -> Result<bool, NoMemory>
    ensures { IfOk result (λ answer. IsTrue answer ↔ Refutes clauses.now) }
{
    let mut atoms = Listed::new(alloc);
    for clause in clauses {
        gather(alloc, &mut atoms, clause)?;
    }
    let none = Listed::new(alloc);
    let found = some_choice(alloc, clauses, &none, atoms.items())?;
    Ok(!found)
}

fn gather(alloc: Global, atoms: &mut Forms, clause: &Clause) -> Result<(), NoMemory>
    ensures { OnOk result (atoms.new ≡ spec.gathered atoms.old clause.now) }
{
    for literal in clause.literals.items() {
        push_once(alloc, atoms, &literal.atom)?;
    }
    Ok(())
}

fn push_once(alloc: Global, atoms: &mut Forms, atom: &Form) -> Result<(), NoMemory>
    ensures { OnOk result (atoms.new ≡ (if is_true atoms.old atom.now then atoms.old else atoms.old ++ atom.now ∷ [])) }
{
    if is_true(atoms.items(), atom) {
        return Ok(());
    }
    atoms.push(atom.copy(alloc)?)
}

/// Whether some of the further atoms, together with those chosen, satisfy the clauses.
fn some_choice(
    alloc: Global,
    clauses: &[Clause],
    chosen: &Forms,
    further: &[Form],
) -> Result<bool, NoMemory>
    ensures { IfOk result (λ answer. answer ≡ spec.some_choice clauses.now chosen.now further.now) }
{
    let [atom, rest @ ..] = further else {
        return Ok(satisfies_all(chosen.items(), clauses));
    };
    if some_choice(alloc, clauses, chosen, rest)? {
        return Ok(true);
    }
    let mut more = copy_all(alloc, chosen.items())?;
    more.push(atom.copy(alloc)?)?;
    some_choice(alloc, clauses, &more, rest)
}
