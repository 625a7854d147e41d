//! Most general substitutions of two clauses with variables of their own.
ghost use Rattle.std.specs.Prelude.{◌≡◌, ◌∷◌, map, true, IfOk, MatchOption};
ghost use Rattle.kif_tree.specs.Clauses.{clause_variables};
ghost use Rattle.kif_tree.specs.Subst.{apply, apply_pair};
ghost use Rattle.kif_tree.specs.Terms.{distinct};
ghost use Rattle.unify.specs.Unifiers.{HasNone, HasNoneApart, IsMostGeneral, ArePlain, is_plain};
ghost use Rattle.infer.specs.Fillings.{IsOf, Meet, tags as tags_of};

use kif_tree::{Form, Literal, Pair, Subst, Text, substitute, variables_in};
use sigma_base::{Listed, NoMemory};
use std::alloc::Global;
use unify::{clash, unify};

/// A substitution of each of two clauses.
#[derive(Drop)]
pub(crate) struct Apart {
    pub left: Subst,
    pub right: Subst,
}

/// Most general substitutions of the clauses of two forms that make the forms equal, where some do. Forms that clash take no memory.
pub(crate) fn meet(
    alloc: Global,
    left: &[Literal],
    first: &Form,
    right: &[Literal],
    second: &Form,
) -> Result<Option<Apart>, NoMemory>
    requires first { IsOf left.now first.now }
    requires second { IsOf right.now second.now }
    ensures meet { IfOk result (λ answer. MatchOption answer (HasNoneApart first.now second.now) (λ apart. Meet left.now first.now right.now second.now apart)) }
    ensures plain { IfOk result (λ answer. is_plain first.now ≡ true → is_plain second.now ≡ true → MatchOption answer (Unit {0}) (λ apart. ArePlain apart.left.pairs × ArePlain apart.right.pairs)) }
{
    if clash(first, second) {
        return Ok(None);
    }
    let left_tags = tags(alloc, left, b'L')?;
    let right_tags = tags(alloc, right, b'R')?;
    let Some(unifier) = unify_tagged(alloc, first, &left_tags, second, &right_tags)? else {
        return Ok(None);
    };
    Ok(Some(Apart {
        left: followed(alloc, &left_tags, &unifier)?,
        right: followed(alloc, &right_tags, &unifier)?,
    }))
}

/// A most general unifier of the forms, each under its own substitution.
fn unify_tagged(
    alloc: Global,
    first: &Form,
    first_tags: &Subst,
    second: &Form,
    second_tags: &Subst,
) -> Result<Option<Subst>, NoMemory>
    ensures general { IfOk result (λ answer. MatchOption answer (HasNone (apply first_tags.now.pairs first.now) (apply second_tags.now.pairs second.now)) (λ subst. IsMostGeneral subst.pairs (apply first_tags.now.pairs first.now) (apply second_tags.now.pairs second.now))) }
    ensures plain { IfOk result (λ answer. is_plain (apply first_tags.now.pairs first.now) ≡ true → is_plain (apply second_tags.now.pairs second.now) ≡ true → MatchOption answer (Unit {0}) (λ subst. ArePlain subst.pairs)) }
{
    let first = substitute(alloc, first, first_tags)?;
    let second = substitute(alloc, second, second_tags)?;
    unify(alloc, &first, &second)
}

/// Each variable of the literals becomes the variable of its name with the byte before it.
fn tags(alloc: Global, literals: &[Literal], tag: u8) -> Result<Subst, NoMemory>
    ensures { IfOk result (λ subst. subst.pairs ≡ tags_of tag (distinct (clause_variables literals.now))) }
{
    let names = variables_in(alloc, literals)?;
    let mut pairs = Listed::new(alloc);
    for name in names.items() {
        pairs.push(Pair {
            variable: name.copy(alloc)?,
            term: Form::Variable(tagged(alloc, name, tag)?),
        })?;
    }
    Ok(Subst { pairs })
}

fn tagged(alloc: Global, name: &Text, tag: u8) -> Result<Text, NoMemory>
    ensures { IfOk result (λ text. text ≡ tag ∷ name.now) }
{
    let mut text = Text::new(alloc);
    text.push(tag)?;
    text.append(name.bytes())?;
    Ok(text)
}

/// The first substitution followed by the second, on the variables that the first names.
fn followed(alloc: Global, first: &Subst, second: &Subst) -> Result<Subst, NoMemory>
    ensures { IfOk result (λ subst. subst.pairs ≡ map (apply_pair second.now.pairs) first.now.pairs) }
{
    let mut pairs = Listed::new(alloc);
    for pair in first.pairs.items() {
        pairs.push(Pair {
            variable: pair.variable.copy(alloc)?,
            term: substitute(alloc, &pair.term, second)?,
        })?;
    }
    Ok(Subst { pairs })
}
