//! A quick look at literals, before a search for places.
ghost use Rattle.std.specs.Prelude.{◌≡◌, map, false, true};
ghost use Rattle.sigma_base.specs.Lists.{Each};
ghost use Rattle.kif_tree.specs.Clauses.{bind_literal};
ghost use Rattle.kif_tree.specs.Subst.{Filling, bind};
ghost use Rattle.unify.specs.Subsumption.{Subsumes};

use kif_tree::{Form, Literal};

/// Whether the first clause may subsume the second: it doesn't where this is false. It takes no memory.
pub(crate) fn each_has_place(general: &[Literal], special: &[Literal]) -> bool
    ensures { result ≡ false → Subsumes general.now special.now → ⊥ }
{
    if general.len() > special.len() {
        return false;
    }
    for literal in general {
        if !has_place(literal, special) {
            return false;
        }
    }
    true
}

/// Whether the literal may become one of the others: it becomes none where this is false.
fn has_place(literal: &Literal, others: &[Literal]) -> bool
    ensures { result ≡ false → (g : Filling) → Each (λ other. bind_literal g literal.now ≡ other → ⊥) others.now }
{
    for other in others {
        if looks_alike(literal, other) {
            return true;
        }
    }
    false
}

/// Whether the first literal may become the second: their signs are one where this is true, and it doesn't where this is false. It takes no memory.
pub(crate) fn looks_alike(literal: &Literal, other: &Literal) -> bool
    ensures away { result ≡ false → (g : Filling) → bind_literal g literal.now ≡ other.now → ⊥ }
    ensures sign { result ≡ true → literal.now.positive ≡ other.now.positive }
{
    literal.positive == other.positive && has_head_of(&literal.atom, &other.atom)
}

fn has_head_of(pattern: &Form, target: &Form) -> bool
    ensures { result ≡ false → (g : Filling) → bind g pattern.now ≡ target.now → ⊥ }
{
    let Form::List(parts) = pattern else {
        return true;
    };
    let Form::List(others) = target else {
        return false;
    };
    begins_as(parts.items(), others.items())
}

fn begins_as(patterns: &[Form], targets: &[Form]) -> bool
    ensures { result ≡ false → (g : Filling) → map (bind g) patterns.now ≡ targets.now → ⊥ }
{
    if patterns.len() != targets.len() {
        return false;
    }
    let [pattern, ..] = patterns else {
        return true;
    };
    let [target, ..] = targets else {
        return true;
    };
    let Form::Word(word) = pattern else {
        return true;
    };
    let Form::Word(other) = target else {
        return false;
    };
    word.equals(other)
}
