//! Instances of equality made from their parts.
ghost use Rattle.std.specs.Prelude.{◌≡◌, ◌∷◌, [], ◌++◌, IfOk, OnOk};
ghost use Rattle.kif_tree.specs.Subst.{value_of};
ghost use Rattle.calculus.specs.Equality as spec;
ghost use Rattle.calculus.specs.Evidence.{equalities};
ghost use Rattle.calculus.specs.Rules as rules;

use crate::opening::{fill_frames, framed, plugged};
use calculus::{Frame, Replaced};
use kif_tree::{Clause, Form, Literal, Pair, Text, Unnamed, fill};
use sigma_base::{Listed, NoMemory};
use std::alloc::Global;

/// The atom (equal left right).
pub fn equal(alloc: Global, left: &Form, right: &Form) -> Result<Form, NoMemory>
    ensures { IfOk result (λ atom. atom ≡ spec.equal left.now right.now) }
{
    let mut parts = Listed::new(alloc);
    parts.push(Form::Word(Text::of(alloc, b"equal")?))?;
    parts.push(left.copy(alloc)?)?;
    parts.push(right.copy(alloc)?)?;
    Ok(Form::List(parts))
}

fn push_literal(literals: &mut Listed<Literal>, positive: bool, atom: Form) -> Result<(), NoMemory>
    ensures { OnOk result (literals.new ≡ literals.old ++ record { positive = positive; atom = atom } ∷ []) }
{
    literals.push(Literal { positive, atom })
}

/// Where a equals b, b equals a.
pub fn symmetry(alloc: Global, a: &Form, b: &Form) -> Result<Clause, NoMemory>
    ensures { IfOk result (λ clause. clause ≡ spec.symmetry a.now b.now) }
{
    let mut literals = Listed::new(alloc);
    push_literal(&mut literals, false, equal(alloc, a, b)?)?;
    push_literal(&mut literals, true, equal(alloc, b, a)?)?;
    Ok(Clause { literals })
}

/// Equal arguments make equal lists.
pub fn congruence(alloc: Global, frame: &Frame, a: &Form, b: &Form) -> Result<Clause, NoMemory>
    ensures { IfOk result (λ clause. clause ≡ spec.congruence frame.now a.now b.now) }
{
    let mut literals = Listed::new(alloc);
    push_literal(&mut literals, false, equal(alloc, a, b)?)?;
    push_literal(&mut literals, true, equal_lists(alloc, frame, a, b)?)?;
    Ok(Clause { literals })
}

fn equal_lists(alloc: Global, frame: &Frame, a: &Form, b: &Form) -> Result<Form, NoMemory>
    ensures { IfOk result (λ atom. atom ≡ spec.equal (rules.framed frame.now a.now) (rules.framed frame.now b.now)) }
{
    let left = framed(alloc, frame, a)?;
    let right = framed(alloc, frame, b)?;
    equal(alloc, &left, &right)
}

/// Equal arguments make atoms of one truth.
pub fn replacing_instance(
    alloc: Global,
    frame: &Frame,
    a: &Form,
    b: &Form,
) -> Result<Clause, NoMemory>
    ensures { IfOk result (λ clause. clause ≡ spec.replacing frame.now a.now b.now) }
{
    let mut literals = Listed::new(alloc);
    push_literal(&mut literals, false, equal(alloc, a, b)?)?;
    push_literal(&mut literals, false, framed(alloc, frame, a)?)?;
    push_literal(&mut literals, true, framed(alloc, frame, b)?)?;
    Ok(Clause { literals })
}

/// Adds both directions at each list, the innermost first.
fn append_inside(
    alloc: Global,
    out: &mut Listed<Clause>,
    frames: &[Frame],
    a: &Form,
    b: &Form,
) -> Result<(), NoMemory>
    ensures { OnOk result (out.new ≡ out.old ++ spec.inside frames.now a.now b.now) }
{
    let [frame, rest @ ..] = frames else {
        return Ok(());
    };
    append_inside(alloc, out, rest, a, b)?;
    let first = plugged(alloc, rest, a)?;
    let second = plugged(alloc, rest, b)?;
    out.push(congruence(alloc, frame, &first, &second)?)?;
    out.push(congruence(alloc, frame, &second, &first)?)
}

/// Adds both directions at each list inside the atom, the innermost first, and at the atom itself.
pub fn append_congruences(
    alloc: Global,
    out: &mut Listed<Clause>,
    frames: &[Frame],
    a: &Form,
    b: &Form,
) -> Result<(), NoMemory>
    ensures { OnOk result (out.new ≡ out.old ++ spec.congruences frames.now a.now b.now) }
{
    let [frame, rest @ ..] = frames else {
        return Ok(());
    };
    append_inside(alloc, out, rest, a, b)?;
    let first = plugged(alloc, rest, a)?;
    let second = plugged(alloc, rest, b)?;
    out.push(replacing_instance(alloc, frame, &first, &second)?)?;
    out.push(replacing_instance(alloc, frame, &second, &first)?)
}

/// Adds the instances of equality that a paramodulation needs, under the filling.
pub fn append_equalities(
    alloc: Global,
    out: &mut Listed<Clause>,
    made: &Replaced,
    filling: &[Pair],
) -> Result<(), NoMemory>
    ensures { OnOk result (out.new ≡ out.old ++ equalities made.now (value_of filling.now)) }
{
    let unnamed = Unnamed::BecomesAny;
    let frames = fill_frames(alloc, made.frames.items(), filling, unnamed)?;
    let left = fill(alloc, &made.left, filling, unnamed)?;
    let right = fill(alloc, &made.right, filling, unnamed)?;
    out.push(symmetry(alloc, &left, &right)?)?;
    append_congruences(alloc, out, frames.items(), &left, &right)
}
