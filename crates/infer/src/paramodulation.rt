//! Paramodulation of one clause into another.
ghost use Rattle.std.specs.Prelude.{◌≡◌, ◌<◌, ◌+◌, ◌++◌, ℕ, length, get_or, map, List, Some, true, false, IfOk, OnOk, MatchOption};
ghost use Rattle.sigma_base.specs.Lists.{Each};
ghost use Rattle.kif_tree.specs.declared.clause.Literal.{Literal};
ghost use Rattle.kif_tree.specs.declared.form.Form.TheVariants as forms;
ghost use Rattle.kif_tree.specs.Clauses.{Literals, is_answer as asks};
ghost use Rattle.kif_tree.specs.Subst.{bind, lookup};
ghost use Rattle.calculus.specs.declared.places.Opened.{Opened};
ghost use Rattle.calculus.specs.declared.step.Step.TheVariants as steps;
ghost use Rattle.calculus.specs.Rules as rules;
ghost use Rattle.calculus_programs.specs.Picks.{exchanged};
ghost use Rattle.infer.specs.Conclusions.{Adds, IsFoundAt};
ghost use Rattle.infer.specs.Inside.{IsEquation, LeadsTo};
ghost use Rattle.infer.specs.Plain.{IsPlain, IsPlainConclusion};
ghost use Rattle.infer.specs.Sites.{paramodulation_sites, paramodulations, paramodulations_by, paths, unset};

use crate::apart::{Apart, meet};
use crate::conclusion::{Conclusion, Parent, push_made};
use calculus::Step;
use calculus_programs::{append_filled, append_others, made_tidy, sides};
use kif_tree::{Clause, Form, Forms, Literal, Subst, Unnamed, is_answer, substitute};
use sigma_base::{Listed, NoMemory};
use std::alloc::Global;

/// An equality literal with the side that is replaced and the side that comes in its place.
#[derive(Clone, Copy)]
struct Equality<'a> {
    source: Parent<'a>,
    flipped: bool,
    from: &'a Form,
    to: &'a Form,
}

/// Adds what follows by the equality literals of the source inside the literals of the target, by source literal, unflipped first,
/// target literal, and place from left to right, outer before inner.
pub(crate) fn add_paramodulations(
    alloc: Global,
    found: &mut Listed<Conclusion>,
    source_number: u32,
    source: &Clause,
    target_number: u32,
    target: &Clause,
) -> Result<(), NoMemory>
    ensures adds { OnOk result ((clauses : List Literals) → rules.nth clauses source_number ≡ Some source.now → rules.nth clauses target_number ≡ Some target.now → Adds clauses (paramodulations source_number source.now target_number target.now) found.old found.new) }
    ensures plain { OnOk result (IsPlain source.now → IsPlain target.now → Each IsPlainConclusion found.old → Each IsPlainConclusion found.new) }
{
    for literal in 0..source.literals.items().len() {
        let parent = Parent {
            number: source_number,
            clause: source,
            literal,
        };
        add_by_literal(alloc, found, &parent, target_number, target)?;
    }
    Ok(())
}

fn add_by_literal(
    alloc: Global,
    found: &mut Listed<Conclusion>,
    source: &Parent,
    target_number: u32,
    target: &Clause,
) -> Result<(), NoMemory>
    requires { source.now.literal < length source.now.clause.now }
    ensures adds { OnOk result ((clauses : List Literals) → rules.nth clauses source.now.number ≡ Some source.now.clause.now → rules.nth clauses target_number ≡ Some target.now → Adds clauses (paramodulations_by source.now.number source.now.literal false target_number target.now ++ paramodulations_by source.now.number source.now.literal true target_number target.now) found.old found.new) }
    ensures plain { OnOk result (IsPlain source.now.clause.now → IsPlain target.now → Each IsPlainConclusion found.old → Each IsPlainConclusion found.new) }
{
    let clause = source.clause;
    let literal = &clause.literals.items()[source.literal];
    if !literal.positive {
        return Ok(());
    }
    let Some(equality) = sides(alloc, &literal.atom)? else {
        return Ok(());
    };
    let forth = Equality {
        source: *source,
        flipped: false,
        from: &equality.left,
        to: &equality.right,
    };
    add_by_equality(alloc, found, &forth, target_number, target)?;
    let back = Equality {
        source: *source,
        flipped: true,
        from: &equality.right,
        to: &equality.left,
    };
    add_by_equality(alloc, found, &back, target_number, target)
}

fn add_by_equality(
    alloc: Global,
    found: &mut Listed<Conclusion>,
    equality: &Equality,
    target_number: u32,
    target: &Clause,
) -> Result<(), NoMemory>
    requires { IsEquation equality.now.source.clause.now equality.now.source.literal equality.now.flipped equality.now.from.now equality.now.to.now }
    ensures adds { OnOk result ((clauses : List Literals) → rules.nth clauses equality.now.source.number ≡ Some equality.now.source.clause.now → rules.nth clauses target_number ≡ Some target.now → Adds clauses (paramodulations_by equality.now.source.number equality.now.source.literal equality.now.flipped target_number target.now) found.old found.new) }
    ensures plain { OnOk result (IsPlain equality.now.source.clause.now → IsPlain target.now → Each IsPlainConclusion found.old → Each IsPlainConclusion found.new) }
{
    for literal in 0..target.literals.items().len() {
        let parent = Parent {
            number: target_number,
            clause: target,
            literal,
        };
        add_into_literal(alloc, found, equality, &parent)?;
    }
    Ok(())
}

fn add_into_literal(
    alloc: Global,
    found: &mut Listed<Conclusion>,
    equality: &Equality,
    target: &Parent,
) -> Result<(), NoMemory>
    requires equation { IsEquation equality.now.source.clause.now equality.now.source.literal equality.now.flipped equality.now.from.now equality.now.to.now }
    requires there { target.now.literal < length target.now.clause.now }
    ensures adds { OnOk result ((clauses : List Literals) → rules.nth clauses equality.now.source.number ≡ Some equality.now.source.clause.now → rules.nth clauses target.now.number ≡ Some target.now.clause.now → Adds clauses (paramodulation_sites equality.now.source.number equality.now.source.literal equality.now.flipped target.now.number target.now.clause.now target.now.literal) found.old found.new) }
    ensures plain { OnOk result (IsPlain equality.now.source.clause.now → IsPlain target.now.clause.now → Each IsPlainConclusion found.old → Each IsPlainConclusion found.new) }
{
    let clause = target.clause;
    let literal = &clause.literals.items()[target.literal];
    if is_answer(&literal.atom) {
        return Ok(());
    }
    let mut path = Vec::new(alloc);
    add_inside(alloc, found, equality, target, &literal.atom, &mut path)
}

/// The same inside the form to which the path leads.
fn add_inside(
    alloc: Global,
    found: &mut Listed<Conclusion>,
    equality: &Equality,
    target: &Parent,
    form: &Form,
    path: &mut Vec<u64>,
) -> Result<(), NoMemory>
    requires equation { IsEquation equality.now.source.clause.now equality.now.source.literal equality.now.flipped equality.now.from.now equality.now.to.now }
    requires leads { LeadsTo target.now.clause.now target.now.literal path.old.items form.now }
    requires asserts { (literal : Literal) → rules.nth target.now.clause.now target.now.literal ≡ Some literal → asks literal.atom ≡ false }
    ensures path { OnOk result (path.new.items ≡ path.old.items) }
    ensures adds { OnOk result ((clauses : List Literals) → rules.nth clauses equality.now.source.number ≡ Some equality.now.source.clause.now → rules.nth clauses target.now.number ≡ Some target.now.clause.now → Adds clauses (map (λ (more : List ℕ). steps.Paramodulate equality.now.source.number equality.now.source.literal equality.now.flipped unset target.now.number target.now.literal (path.old.items ++ more) unset) (paths form.now)) found.old found.new) }
    ensures plain { OnOk result (IsPlain equality.now.source.clause.now → IsPlain target.now.clause.now → Each IsPlainConclusion found.old → Each IsPlainConclusion found.new) }
{
    let Form::List(parts) = form else {
        return Ok(());
    };
    let parts = parts.items();
    for at in 1..parts.len() {
        path.push(at as u64)?;
        let made = paramodulant(alloc, equality, target, &parts[at], path.as_slice())?;
        push_made(found, made)?;
        add_inside(alloc, found, equality, target, &parts[at], path)?;
        path.pop();
    }
    Ok(())
}

/// What follows by the equality at the argument place to which the path leads.
fn paramodulant(
    alloc: Global,
    equality: &Equality,
    target: &Parent,
    inner: &Form,
    path: &[u64],
) -> Result<Option<Conclusion>, NoMemory>
    requires equation { IsEquation equality.now.source.clause.now equality.now.source.literal equality.now.flipped equality.now.from.now equality.now.to.now }
    requires leads { LeadsTo target.now.clause.now target.now.literal path.now inner.now }
    requires inside { 0 < length path.now }
    requires asserts { (literal : Literal) → rules.nth target.now.clause.now target.now.literal ≡ Some literal → asks literal.atom ≡ false }
    ensures at { IfOk result (λ made. (clauses : List Literals) → rules.nth clauses equality.now.source.number ≡ Some equality.now.source.clause.now → rules.nth clauses target.now.number ≡ Some target.now.clause.now → IsFoundAt clauses (steps.Paramodulate equality.now.source.number equality.now.source.literal equality.now.flipped unset target.now.number target.now.literal path.now unset) made) }
    ensures plain { IfOk result (λ made. IsPlain equality.now.source.clause.now → IsPlain target.now.clause.now → MatchOption made (Unit {0}) IsPlainConclusion) }
{
    if let Form::Variable(_) = inner {
        return Ok(None);
    }
    let source = equality.source;
    let first = source.clause;
    let second = target.clause;
    let Some(apart) = meet(
        alloc,
        first.literals.items(),
        equality.from,
        second.literals.items(),
        inner,
    )?
    else {
        return Ok(None);
    };
    let replaced = replaced(alloc, equality, target, path, &apart)?;
    let clause = made_tidy(alloc, replaced)?;
    let path = Listed::of(path.to_vec(alloc)?);
    Ok(Some(Conclusion {
        clause,
        step: Step::Paramodulate {
            source: source.number,
            source_literal: source.literal as u64,
            flipped: equality.flipped,
            source_subst: apart.left,
            target: target.number,
            target_literal: target.literal as u64,
            path,
            target_subst: apart.right,
        },
    }))
}

/// The source's other literals, then the target's with the one in which the path leads changed in its place.
fn replaced(
    alloc: Global,
    equality: &Equality,
    target: &Parent,
    path: &[u64],
    apart: &Apart,
) -> Result<Clause, NoMemory>
    requires source { equality.now.source.literal < length equality.now.source.clause.now }
    requires target { target.now.literal < length target.now.clause.now }
    ensures { IfOk result (λ clause. (literal : Literal) (place : Opened) → literal ≡ get_or target.now.clause.now target.now.literal literal → rules.opened path.now literal.atom ≡ Some place → clause ≡ exchanged equality.now.source.clause.now equality.now.source.literal (lookup apart.now.left.pairs) target.now.clause.now target.now.literal (lookup apart.now.right.pairs) (rules.changed (lookup apart.now.left.pairs) equality.now.to.now (lookup apart.now.right.pairs) literal place)) }
{
    let source = equality.source;
    let first = source.clause;
    let second = target.clause;
    let all = second.literals.items();
    let at = target.literal;
    let pairs = apart.right.pairs.items();
    let mut literals = Listed::new(alloc);
    append_others(
        alloc,
        &mut literals,
        first.literals.items(),
        source.literal,
        &apart.left,
    )?;
    append_filled(alloc, &mut literals, &all[..at], pairs, Unnamed::Stays)?;
    let other = substitute(alloc, equality.to, &apart.left)?;
    let atom = exchange(alloc, &all[at].atom, path, &apart.right, other)?;
    literals.push(Literal {
        positive: all[at].positive,
        atom,
    })?;
    append_filled(alloc, &mut literals, &all[at + 1..], pairs, Unnamed::Stays)?;
    Ok(Clause { literals })
}

/// The form under the substitution, with another form at the path's end.
fn exchange(
    alloc: Global,
    form: &Form,
    path: &[u64],
    subst: &Subst,
    other: Form,
) -> Result<Form, NoMemory>
    ensures { IfOk result (λ whole. (place : Opened) → rules.opened path.now form.now ≡ Some place → whole ≡ rules.plugged (map (rules.bind_frame (lookup subst.now.pairs)) place.frames) other) }
{
    let [place, rest @ ..] = path else {
        return Ok(other);
    };
    let Form::List(parts) = form else {
        return Ok(other);
    };
    let parts = parts.items();
    let at = *place as usize;
    if at >= parts.len() {
        return Ok(other);
    }
    let mut filled = Listed::new(alloc);
    append_substituted(alloc, &mut filled, &parts[..at], subst)?;
    filled.push(exchange(alloc, &parts[at], rest, subst, other)?)?;
    append_substituted(alloc, &mut filled, &parts[at + 1..], subst)?;
    Ok(Form::List(filled))
}

fn append_substituted(
    alloc: Global,
    out: &mut Forms,
    forms: &[Form],
    subst: &Subst,
) -> Result<(), NoMemory>
    ensures { OnOk result (out.new ≡ out.old ++ map (bind (lookup subst.now.pairs)) forms.now) }
{
    for form in forms {
        out.push(substitute(alloc, form, subst)?)?;
    }
    Ok(())
}
