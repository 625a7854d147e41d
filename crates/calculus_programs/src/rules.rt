//! Resolution and factoring, before the conclusion is tidied.
ghost use Rattle.std.specs.Prelude.{◌≡◌, ◌++◌, ◌+◌, ◌<◌, length, take, drop, IfOk, OnOk};
ghost use Rattle.kif_tree.specs.Subst.{bind, lookup};
ghost use Rattle.kif_tree.specs.Terms.{same};
ghost use Rattle.kif_tree.specs.Clauses.{bind_clause};
ghost use Rattle.calculus.specs.Rules as rules;

use crate::tidying::append_filled;
use kif_tree::{Form, Literal, Subst, Unnamed, forms_equal, is_answer, substitute};
use sigma_base::{Listed, NoMemory};
use std::alloc::Global;

/// Whether the two forms are equal, each under its substitution.
pub fn meet(
    alloc: Global,
    left: &Form,
    left_subst: &Subst,
    right: &Form,
    right_subst: &Subst,
) -> Result<bool, NoMemory>
    ensures { IfOk result (λ met. met ≡ same (bind (lookup left_subst.now.pairs) left.now) (bind (lookup right_subst.now.pairs) right.now)) }
{
    let left = substitute(alloc, left, left_subst)?;
    let right = substitute(alloc, right, right_subst)?;
    Ok(forms_equal(&left, &right))
}

fn may_resolve(
    alloc: Global,
    left: &Literal,
    left_subst: &Subst,
    right: &Literal,
    right_subst: &Subst,
) -> Result<bool, NoMemory>
    ensures { IfOk result (λ may. may ≡ rules.resolves (lookup left_subst.now.pairs) (lookup right_subst.now.pairs) left.now right.now) }
{
    if !left.positive || right.positive || is_answer(&left.atom) || is_answer(&right.atom) {
        return Ok(false);
    }
    meet(alloc, &left.atom, left_subst, &right.atom, right_subst)
}

/// Adds the literals other than the numbered one under the substitution at the end. Where memory wants, nothing is said of what was added.
pub fn append_others(
    alloc: Global,
    out: &mut Listed<Literal>,
    literals: &[Literal],
    without: usize,
    subst: &Subst,
) -> Result<(), NoMemory>
    requires { without < length literals.now }
    ensures { OnOk result (out.new ≡ out.old ++ bind_clause (lookup subst.now.pairs) (take without literals.now ++ drop (without + 1) literals.now)) }
{
    let pairs = subst.pairs.items();
    append_filled(alloc, out, &literals[..without], pairs, Unnamed::Stays)?;
    append_filled(alloc, out, &literals[without + 1..], pairs, Unnamed::Stays)
}

/// The resolvent before it is tidied, where the rule allows it.
pub fn resolve(
    alloc: Global,
    left: &[Literal],
    left_literal: u64,
    left_subst: &Subst,
    right: &[Literal],
    right_literal: u64,
    right_subst: &Subst,
) -> Result<Option<Listed<Literal>>, NoMemory>
    ensures { IfOk result (λ answer. answer ≡ rules.resolved left.now left_literal (lookup left_subst.now.pairs) right.now right_literal (lookup right_subst.now.pairs)) }
{
    let i = left_literal as usize;
    let j = right_literal as usize;
    if i >= left.len() {
        return Ok(None);
    }
    if j >= right.len() {
        return Ok(None);
    }
    if !may_resolve(alloc, &left[i], left_subst, &right[j], right_subst)? {
        return Ok(None);
    }
    let mut conclusion = Listed::new(alloc);
    append_others(alloc, &mut conclusion, left, i, left_subst)?;
    append_others(alloc, &mut conclusion, right, j, right_subst)?;
    Ok(Some(conclusion))
}

fn may_merge(
    alloc: Global,
    kept: &Literal,
    dropped: &Literal,
    subst: &Subst,
) -> Result<bool, NoMemory>
    ensures { IfOk result (λ may. may ≡ rules.merges (lookup subst.now.pairs) kept.now dropped.now) }
{
    if kept.positive != dropped.positive || is_answer(&kept.atom) || is_answer(&dropped.atom) {
        return Ok(false);
    }
    meet(alloc, &kept.atom, subst, &dropped.atom, subst)
}

/// The factor before it is tidied, where the rule allows it.
pub fn factor(
    alloc: Global,
    parent: &[Literal],
    kept_literal: u64,
    dropped_literal: u64,
    subst: &Subst,
) -> Result<Option<Listed<Literal>>, NoMemory>
    ensures { IfOk result (λ answer. answer ≡ rules.factored parent.now kept_literal dropped_literal (lookup subst.now.pairs)) }
{
    let i = kept_literal as usize;
    let j = dropped_literal as usize;
    if j >= parent.len() {
        return Ok(None);
    }
    if i >= j {
        return Ok(None);
    }
    if !may_merge(alloc, &parent[i], &parent[j], subst)? {
        return Ok(None);
    }
    let mut conclusion = Listed::new(alloc);
    append_others(alloc, &mut conclusion, parent, j, subst)?;
    Ok(Some(conclusion))
}
