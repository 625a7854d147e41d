//! The search for the choices that fit, in order of the choices.
ghost use Rattle.std.specs.Prelude.{◌≡◌, ◌++◌, ◌∷◌, [], true, false, map, filter, IfOk, OnOk};
ghost use Rattle.var_expand.specs.Choices.{sets};
ghost use Rattle.var_expand.specs.Search as spec;

use crate::chosen::{Chosen, copied, set_to};
use crate::fitting::{Problem, passes};
use crate::options::Offer;
use kif_tree::Form;
use sigma_base::{Listed, NoMemory};
use std::alloc::{AllocError, Global};

/// Of more choices than this, one more is found and no others.
pub const MOST: usize = 20_000;

fn push<'a>(
    choice: &mut Vec<Chosen<'a>>,
    variable: &'a Form,
    becomes: &'a [Form],
) -> Result<(), NoMemory>
    ensures { OnOk result (choice.new.items ≡ choice.old.items ++ sets variable.now becomes.now ∷ []) }
{
    choice
        .push(Chosen { variable, becomes })
        .map_err(AllocError::from)?;
    Ok(())
}

// ---- whether more can be set

fn passes_with<'a>(
    problem: &Problem,
    choice: &mut Vec<Chosen<'a>>,
    variable: &'a Form,
    becomes: &'a [Form],
) -> Result<bool, NoMemory>
    ensures same { OnOk result (choice.new.items ≡ choice.old.items) }
    ensures sound { IfOk result (λ may. may ≡ false → spec.IsHopeless problem.now (choice.old.items ++ sets variable.now becomes.now ∷ [])) }
{
    push(choice, variable, becomes)?;
    let may = passes(problem, choice.as_slice(), true);
    choice.pop();
    Ok(may)
}

fn has_option<'a>(
    problem: &Problem,
    choice: &mut Vec<Chosen<'a>>,
    offer: &Offer<'a>,
) -> Result<bool, NoMemory>
    requires { spec.IsOffer problem.now offer.now }
    ensures same { OnOk result (choice.new.items ≡ choice.old.items) }
    ensures sound { IfOk result (λ has. has ≡ false → spec.IsHopeless problem.now choice.old.items) }
{
    for option in offer.allowed.items() {
        if passes_with(problem, choice, offer.variable, option.forms)? {
            return Ok(true);
        }
    }
    Ok(false)
}

/// The offer is for a variable of the part for which nothing is set yet.
fn is_waiting(choice: &[Chosen], offer: &Offer, part: usize) -> bool {
    offer.part == part && set_to(choice, offer.variable).is_none()
}

/// Each variable of the part for which nothing is set yet still has an option, whatever the others become.
fn have_options<'a>(
    problem: &Problem,
    choice: &mut Vec<Chosen<'a>>,
    offers: &[Offer<'a>],
    part: usize,
) -> Result<bool, NoMemory>
    requires { spec.AreOffers problem.now offers.now }
    ensures same { OnOk result (choice.new.items ≡ choice.old.items) }
    ensures sound { IfOk result (λ have. have ≡ false → spec.IsHopeless problem.now choice.old.items) }
{
    for offer in offers {
        if is_waiting(choice.as_slice(), offer, part) && !has_option(problem, choice, offer)? {
            return Ok(false);
        }
    }
    Ok(true)
}

#[cycle(complete)]
fn completes_with<'a>(
    problem: &Problem,
    choice: &mut Vec<Chosen<'a>>,
    offer: &Offer<'a>,
    becomes: &'a [Form],
    offers: &[Offer<'a>],
    last: &[Offer<'a>],
    part: usize,
) -> Result<bool, NoMemory>
    requires offers { spec.AreOffers problem.now offers.now }
    requires last { spec.AreOffers problem.now last.now }
    ensures same { OnOk result (choice.new.items ≡ choice.old.items) }
    ensures sound { IfOk result (λ can. can ≡ false → spec.IsHopeless problem.now (choice.old.items ++ sets offer.now.variable becomes.now ∷ [])) }
{
    push(choice, offer.variable, becomes)?;
    let can = may_complete(problem, choice, offers, last, part)?;
    choice.pop();
    Ok(can)
}

/// As `completes`, by the choice itself and by each variable alone first.
#[cycle(complete)]
fn may_complete<'a>(
    problem: &Problem,
    choice: &mut Vec<Chosen<'a>>,
    offers: &[Offer<'a>],
    last: &[Offer<'a>],
    part: usize,
) -> Result<bool, NoMemory>
    requires offers { spec.AreOffers problem.now offers.now }
    requires last { spec.AreOffers problem.now last.now }
    ensures same { OnOk result (choice.new.items ≡ choice.old.items) }
    ensures sound { IfOk result (λ can. can ≡ false → spec.IsHopeless problem.now choice.old.items) }
{
    if !passes(problem, choice.as_slice(), true) {
        return Ok(false);
    }
    if !have_options(problem, choice, offers, part)? {
        return Ok(false);
    }
    if !have_options(problem, choice, last, part)? {
        return Ok(false);
    }
    completes(problem, choice, offers, last, part)
}

/// The variables of the part can all be set so that the choice may still fit.
#[cycle(complete)]
fn completes<'a>(
    problem: &Problem,
    choice: &mut Vec<Chosen<'a>>,
    offers: &[Offer<'a>],
    last: &[Offer<'a>],
    part: usize,
) -> Result<bool, NoMemory>
    requires offers { spec.AreOffers problem.now offers.now }
    requires last { spec.AreOffers problem.now last.now }
    ensures same { OnOk result (choice.new.items ≡ choice.old.items) }
    ensures sound { IfOk result (λ can. can ≡ false → spec.IsHopeless problem.now choice.old.items) }
{
    let [offer, more @ ..] = offers else {
        if last.is_empty() {
            return Ok(true);
        }
        return completes(problem, choice, last, &[], part);
    };
    if !is_waiting(choice.as_slice(), offer, part) {
        return completes(problem, choice, more, last, part);
    }
    for option in offer.allowed.items() {
        if completes_with(problem, choice, offer, option.forms, more, last, part)? {
            return Ok(true);
        }
    }
    Ok(false)
}

/// Each part alone can be set so that the choice may fit.
pub fn parts_complete<'a>(
    alloc: Global,
    problem: &Problem,
    names: &[Offer<'a>],
    rows: &[Offer<'a>],
    parts: &[usize],
) -> Result<bool, NoMemory>
    requires names { spec.AreOffers problem.now names.now }
    requires rows { spec.AreOffers problem.now rows.now }
    ensures { IfOk result (λ complete. complete ≡ false → spec.IsHopeless problem.now []) }
{
    let mut choice = Vec::new(alloc);
    for part in parts {
        if !completes(problem, &mut choice, rows, names, *part)? {
            return Ok(false);
        }
    }
    Ok(true)
}

// ---- the choices that fit

/// The offers of predicate variables and those of row variables.
#[derive(Clone, Copy)]
pub struct Offers<'s, 'a> {
    pub names: &'s [Offer<'a>],
    pub rows: &'s [Offer<'a>],
}

fn can_go_on<'a>(
    problem: &Problem,
    offers: &Offers<'_, 'a>,
    choice: &mut Vec<Chosen<'a>>,
    part: usize,
) -> Result<bool, NoMemory>
    requires names { spec.AreOffers problem.now offers.now.names.now }
    requires rows { spec.AreOffers problem.now offers.now.rows.now }
    ensures same { OnOk result (choice.new.items ≡ choice.old.items) }
    ensures sound { IfOk result (λ on. on ≡ false → spec.IsHopeless problem.now choice.old.items) }
{
    if !passes(problem, choice.as_slice(), true) {
        return Ok(false);
    }
    completes(problem, choice, offers.rows, offers.names, part)
}

fn keep<'a>(
    alloc: Global,
    problem: &Problem,
    choice: &[Chosen<'a>],
    found: &mut Listed<Listed<Chosen<'a>>>,
) -> Result<(), NoMemory>
    ensures { OnOk result (found.new ≡ spec.filled found.old (filter (spec.passes problem.now false) (choice.now ∷ []))) }
{
    if found.items().len() <= MOST && passes(problem, choice, false) {
        found.push(copied(alloc, choice)?)?;
    }
    Ok(())
}

#[cycle(grow)]
fn grow_with<'a>(
    alloc: Global,
    problem: &Problem,
    offers: &Offers<'_, 'a>,
    choice: &mut Vec<Chosen<'a>>,
    offer: &Offer<'a>,
    becomes: &'a [Form],
    more: &[Offer<'a>],
    found: &mut Listed<Listed<Chosen<'a>>>,
) -> Result<(), NoMemory>
    requires names { spec.AreOffers problem.now offers.now.names.now }
    requires rows { spec.AreOffers problem.now offers.now.rows.now }
    requires more { spec.AreOffers problem.now more.now }
    requires begun { spec.IsBegun problem.now (choice.old.items ++ sets offer.now.variable becomes.now ∷ []) (map spec.offered_variable more.now) }
    ensures same { OnOk result (choice.new.items ≡ choice.old.items) }
    ensures found { OnOk result (found.new ≡ spec.filled found.old (spec.fitting problem.now (choice.old.items ++ sets offer.now.variable becomes.now ∷ []) (map spec.offered_variable more.now))) }
{
    if found.items().len() > MOST {
        return Ok(());
    }
    push(choice, offer.variable, becomes)?;
    go_on(alloc, problem, offers, choice, offer.part, more, found)?;
    choice.pop();
    Ok(())
}

/// As `grow`, unless the part of the variable that was set last can't be completed.
#[cycle(grow)]
fn go_on<'a>(
    alloc: Global,
    problem: &Problem,
    offers: &Offers<'_, 'a>,
    choice: &mut Vec<Chosen<'a>>,
    part: usize,
    rest: &[Offer<'a>],
    found: &mut Listed<Listed<Chosen<'a>>>,
) -> Result<(), NoMemory>
    requires names { spec.AreOffers problem.now offers.now.names.now }
    requires rows { spec.AreOffers problem.now offers.now.rows.now }
    requires rest { spec.AreOffers problem.now rest.now }
    requires begun { spec.IsBegun problem.now choice.old.items (map spec.offered_variable rest.now) }
    ensures same { OnOk result (choice.new.items ≡ choice.old.items) }
    ensures found { OnOk result (found.new ≡ spec.filled found.old (spec.fitting problem.now choice.old.items (map spec.offered_variable rest.now))) }
{
    if rest.is_empty() {
        return keep(alloc, problem, choice.as_slice(), found);
    }
    if !can_go_on(problem, offers, choice, part)? {
        return Ok(());
    }
    grow(alloc, problem, offers, choice, rest, found)
}

/// Adds the choices that fit and begin with this one, in order, as long as no more than 20,000 were found before.
#[cycle(grow)]
pub fn grow<'a>(
    alloc: Global,
    problem: &Problem,
    offers: &Offers<'_, 'a>,
    choice: &mut Vec<Chosen<'a>>,
    rest: &[Offer<'a>],
    found: &mut Listed<Listed<Chosen<'a>>>,
) -> Result<(), NoMemory>
    requires names { spec.AreOffers problem.now offers.now.names.now }
    requires rows { spec.AreOffers problem.now offers.now.rows.now }
    requires rest { spec.AreOffers problem.now rest.now }
    requires begun { spec.IsBegun problem.now choice.old.items (map spec.offered_variable rest.now) }
    ensures same { OnOk result (choice.new.items ≡ choice.old.items) }
    ensures found { OnOk result (found.new ≡ spec.filled found.old (spec.fitting problem.now choice.old.items (map spec.offered_variable rest.now))) }
{
    let [offer, more @ ..] = rest else {
        return keep(alloc, problem, choice.as_slice(), found);
    };
    for option in offer.allowed.items() {
        grow_with(
            alloc,
            problem,
            offers,
            choice,
            offer,
            option.forms,
            more,
            found,
        )?;
    }
    Ok(())
}
