//! Paramodulation, before the conclusion is tidied.
ghost use Rattle.std.specs.Prelude.{◌≡◌, ◌<◌, ◌&&◌, not, length, get_or, IfOk};
ghost use Rattle.kif_tree.specs.declared.clause.Literal.{Literal};
ghost use Rattle.kif_tree.specs.Subst.{bind, lookup};
ghost use Rattle.kif_tree.specs.Terms.{same};
ghost use Rattle.kif_tree.specs.Clauses.{is_answer};
ghost use Rattle.calculus.specs.Rules as rules;
ghost use Rattle.calculus_programs.specs.Picks.{picked, placed, exchanged, is_any_variable};

use crate::opening::{fill_frames, open, plugged, sides};
use crate::rules::{append_others, meet};
use crate::tidying::append_filled;
use calculus::{Frame, Opened, Replaced, Sides};
use kif_tree::{Form, Literal, Subst, Unnamed, is_answer, substitute};
use sigma_base::{Listed, NoMemory};
use std::alloc::Global;

/// A clause with one of its literals and the clause's substitution.
#[derive(Clone, Copy)]
pub struct Parent<'a> {
    pub literals: &'a [Literal],
    pub at: usize,
    pub subst: &'a Subst,
}

/// What the paramodulation makes, where the rule allows it.
pub fn replace(
    alloc: Global,
    source: &Parent,
    flipped: bool,
    target: &Parent,
    path: &[u64],
) -> Result<Option<Replaced>, NoMemory>
    ensures { IfOk result (λ answer. answer ≡ rules.replaced source.now.literals.now source.now.at flipped (lookup source.now.subst.now.pairs) target.now.literals.now target.now.at path.now (lookup target.now.subst.now.pairs)) }
{
    if source.at >= source.literals.len() {
        return Ok(None);
    }
    let Some(equality) = sides(alloc, &source.literals[source.at].atom)? else {
        return Ok(None);
    };
    replace_by(alloc, source, flipped, &equality, target, path)
}

/// The same by an equality literal with these sides.
fn replace_by(
    alloc: Global,
    source: &Parent,
    flipped: bool,
    equality: &Sides,
    target: &Parent,
    path: &[u64],
) -> Result<Option<Replaced>, NoMemory>
    requires { source.now.at < length source.now.literals.now }
    ensures { IfOk result (λ answer. (s : Literal) → s ≡ get_or source.now.literals.now source.now.at s → answer ≡ placed (lookup source.now.subst.now.pairs) flipped (picked source.now.literals.now source.now.at s) equality.now target.now.literals.now target.now.at path.now (lookup target.now.subst.now.pairs)) }
{
    if target.at >= target.literals.len() {
        return Ok(None);
    }
    let Some(place) = open(alloc, &target.literals[target.at].atom, path)? else {
        return Ok(None);
    };
    replaced_by(alloc, source, flipped, equality, target, &place)
}

fn replaced_by(
    alloc: Global,
    source: &Parent,
    flipped: bool,
    equality: &Sides,
    target: &Parent,
    place: &Opened,
) -> Result<Option<Replaced>, NoMemory>
    requires source_literal { source.now.at < length source.now.literals.now }
    requires target_literal { target.now.at < length target.now.literals.now }
    ensures { IfOk result (λ answer. (s m : Literal) → s ≡ get_or source.now.literals.now source.now.at s → m ≡ get_or target.now.literals.now target.now.at m → answer ≡ rules.replaced_by (lookup source.now.subst.now.pairs) flipped (picked source.now.literals.now source.now.at s) equality.now (lookup target.now.subst.now.pairs) (picked target.now.literals.now target.now.at m) place.now) }
{
    if !may_replace(alloc, source, flipped, equality, target, place)? {
        return Ok(None);
    }
    Ok(Some(replacement(alloc, source, flipped, equality, target, place)?))
}

fn may_replace(
    alloc: Global,
    source: &Parent,
    flipped: bool,
    equality: &Sides,
    target: &Parent,
    place: &Opened,
) -> Result<bool, NoMemory>
    requires source_literal { source.now.at < length source.now.literals.now }
    requires target_literal { target.now.at < length target.now.literals.now }
    ensures { IfOk result (λ may. (s m : Literal) → s ≡ get_or source.now.literals.now source.now.at s → m ≡ get_or target.now.literals.now target.now.at m → may ≡ rules.replaces (lookup source.now.subst.now.pairs) flipped equality.now (lookup target.now.subst.now.pairs) s m place.now) }
{
    allowed(
        alloc,
        &source.literals[source.at],
        source.subst,
        from_side(flipped, equality),
        &target.literals[target.at],
        target.subst,
        place,
    )
}

/// The tests of the rule on the two literals, the side that is replaced and the place.
fn allowed(
    alloc: Global,
    source: &Literal,
    source_subst: &Subst,
    from: &Form,
    target: &Literal,
    target_subst: &Subst,
    place: &Opened,
) -> Result<bool, NoMemory>
    ensures { IfOk result (λ may. may ≡ (source.now.positive && (not (is_answer target.now.atom) && (not (rules.is_empty place.now.frames) && (not (is_any_variable place.now.inner) && same (bind (lookup target_subst.now.pairs) place.now.inner) (bind (lookup source_subst.now.pairs) from.now)))))) }
{
    if !source.positive || is_answer(&target.atom) {
        return Ok(false);
    }
    if is_empty(place.frames.items()) || is_variable(&place.inner) {
        return Ok(false);
    }
    meet(alloc, &place.inner, target_subst, from, source_subst)
}

fn is_empty(frames: &[Frame]) -> bool
    ensures { result ≡ rules.is_empty frames.now }
{
    match frames {
        [] => true,
        _ => false,
    }
}

#[tactic(auto, using(crate::proofs::OpenLaws::variable_laws))]
fn is_variable(form: &Form) -> bool
    ensures { result ≡ is_any_variable form.now }
{
    match form {
        Form::Variable(_) => true,
        _ => false,
    }
}

fn from_side(flipped: bool, equality: &Sides) -> &Form
    ensures { result.now ≡ rules.from_side flipped equality.now }
{
    if flipped {
        &equality.right
    } else {
        &equality.left
    }
}

fn to_side(flipped: bool, equality: &Sides) -> &Form
    ensures { result.now ≡ rules.to_side flipped equality.now }
{
    if flipped {
        &equality.left
    } else {
        &equality.right
    }
}

fn replacement(
    alloc: Global,
    source: &Parent,
    flipped: bool,
    equality: &Sides,
    target: &Parent,
    place: &Opened,
) -> Result<Replaced, NoMemory>
    requires source_literal { source.now.at < length source.now.literals.now }
    requires target_literal { target.now.at < length target.now.literals.now }
    ensures { IfOk result (λ made. (s m : Literal) → s ≡ get_or source.now.literals.now source.now.at s → m ≡ get_or target.now.literals.now target.now.at m → made ≡ rules.replacement_by (lookup source.now.subst.now.pairs) flipped (picked source.now.literals.now source.now.at s) equality.now (lookup target.now.subst.now.pairs) (picked target.now.literals.now target.now.at m) place.now) }
{
    let pairs = target.subst.pairs.items();
    let frames = fill_frames(alloc, place.frames.items(), pairs, Unnamed::Stays)?;
    let to = to_side(flipped, equality);
    let conclusion = conclude(alloc, source, to, target, frames.items())?;
    let left = substitute(alloc, &equality.left, source.subst)?;
    let right = substitute(alloc, &equality.right, source.subst)?;
    Ok(Replaced {
        conclusion,
        left,
        right,
        frames,
    })
}

/// The source's other literals, then the target's with the one that is changed in its place.
fn conclude(
    alloc: Global,
    source: &Parent,
    to: &Form,
    target: &Parent,
    frames: &[Frame],
) -> Result<Listed<Literal>, NoMemory>
    requires source_literal { source.now.at < length source.now.literals.now }
    requires target_literal { target.now.at < length target.now.literals.now }
    ensures { IfOk result (λ conclusion. (m : Literal) → m ≡ get_or target.now.literals.now target.now.at m → conclusion ≡ exchanged source.now.literals.now source.now.at (lookup source.now.subst.now.pairs) target.now.literals.now target.now.at (lookup target.now.subst.now.pairs) (record { positive = m.positive; atom = rules.plugged frames.now (bind (lookup source.now.subst.now.pairs) to.now) })) }
{
    let pairs = target.subst.pairs.items();
    let at = target.at;
    let mut conclusion = Listed::new(alloc);
    append_others(
        alloc,
        &mut conclusion,
        source.literals,
        source.at,
        source.subst,
    )?;
    append_filled(
        alloc,
        &mut conclusion,
        &target.literals[..at],
        pairs,
        Unnamed::Stays,
    )?;
    let positive = target.literals[at].positive;
    conclusion.push(changed(alloc, positive, frames, to, source.subst)?)?;
    append_filled(
        alloc,
        &mut conclusion,
        &target.literals[at + 1..],
        pairs,
        Unnamed::Stays,
    )?;
    Ok(conclusion)
}

fn changed(
    alloc: Global,
    positive: bool,
    frames: &[Frame],
    to: &Form,
    subst: &Subst,
) -> Result<Literal, NoMemory>
    ensures { IfOk result (λ literal. literal ≡ record { positive = positive; atom = rules.plugged frames.now (bind (lookup subst.now.pairs) to.now) }) }
{
    let inner = substitute(alloc, to, subst)?;
    let atom = plugged(alloc, frames, &inner)?;
    Ok(Literal { positive, atom })
}
