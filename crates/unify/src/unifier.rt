//! Most general unifiers.
ghost use Rattle.std.specs.Prelude.{◌≡◌, ◌∷◌, [], true, IfOk, MatchOption};
ghost use Rattle.unify.specs.Unifiers.{HasNone, IsMostGeneral, ArePlain, is_plain};

use crate::difference::{Difference, clash, compare};
use kif_tree::{Form, Pair, Subst, Text, followed_by, substitute};
use sigma_base::{Listed, NoMemory};
use std::alloc::Global;

/// A most general unifier of the two forms, or `None` where no substitution makes them equal. One variable has one meaning in both.
/// Forms that clash are refused without a copy.
pub fn unify(alloc: Global, first: &Form, second: &Form) -> Result<Option<Subst>, NoMemory>
    ensures general { IfOk result (λ answer. MatchOption answer (HasNone first.now second.now) (λ subst. IsMostGeneral subst.pairs first.now second.now)) }
    ensures plain { IfOk result (λ answer. is_plain first.now ≡ true → is_plain second.now ≡ true → MatchOption answer (Unit {0}) (λ subst. ArePlain subst.pairs)) }
{
    if clash(first, second) {
        return Ok(None);
    }
    let mut left = first.copy(alloc)?;
    let mut right = second.copy(alloc)?;
    let mut subst = Subst {
        pairs: Listed::new(alloc),
    };
    'solve: loop {
        let found = match compare(&left, &right) {
            Difference::Same => return Ok(Some(subst)),
            Difference::Clash => return Ok(None),
            Difference::Bind(name, term) => single(alloc, name, term)?,
        };
        left = substitute(alloc, &left, &found)?;
        right = substitute(alloc, &right, &found)?;
        subst = followed_by(alloc, &subst, found)?;
    }
}

fn single(alloc: Global, name: &Text, term: &Form) -> Result<Subst, NoMemory>
    ensures { IfOk result (λ subst. subst.pairs ≡ record { variable = name.now; term = term.now } ∷ []) }
{
    let mut pairs = Listed::new(alloc);
    pairs.push(Pair {
        variable: name.copy(alloc)?,
        term: term.copy(alloc)?,
    })?;
    Ok(Subst { pairs })
}
