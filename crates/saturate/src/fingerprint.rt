//! Fingerprints of clauses, by which most pairs of clauses are told apart without a walk through either.
ghost use Rattle.std.specs.Prelude.{◌≡◌, ◌<◌, IfOk};
ghost use Rattle.std.specs.List.{list_any};
ghost use Rattle.saturate.specs.Fingerprints as spec;
ghost use Rattle.saturate.specs.Indexes.{HasCodes, key_of};

use crate::index::key;
use kif_tree::{Clause, Form, Literal, parts_of};
use sigma_base::{Listed, NoMemory};
use std::alloc::Global;

/// The fingerprint of a literal.
#[derive(Clone, Copy, Debug)]
pub(crate) struct Fingerprint {
    pub(crate) positive: bool,
    /// How many parts the atom has, head and arguments, or 0 where it is no list.
    pub(crate) parts: usize,
    /// The code of the head.
    pub(crate) head: u64,
    /// The code of the first argument, and 0 where there is none.
    pub(crate) first: u64,
    /// The code of the second argument, and 0 where there is none.
    pub(crate) second: u64,
}

/// The fingerprints of a clause's literals, of which the first one stands apart, since most clauses have one literal and most tests end
/// with it.
#[derive(Debug, Drop)]
pub(crate) struct Fingerprints {
    pub(crate) first: Fingerprint,
    pub(crate) others: Listed<Fingerprint>,
}

pub(crate) fn mixed(code: u64, next: u64) -> u64
    requires code { code < 2147483648 }
    requires next { next < 2147483648 }
    ensures mixed { result ≡ spec.mixed code next }
    ensures below { result < 2147483648 }
{
    (code * 257 + next) % 2_147_483_647
}

pub(crate) fn code_of_text(kind: u64, text: &[u8]) -> u64
    requires { kind < 2147483648 }
    ensures code { result ≡ spec.code_of_text kind text.now }
    ensures below { result < 2147483648 }
{
    let mut code = kind;
    for byte in text {
        code = mixed(code, *byte as u64);
    }
    code
}

/// A number for a form without variables, and 0 for one with variables. Two forms may have one number.
pub(crate) fn code(form: &Form) -> u64
    ensures code { result ≡ spec.code form.now }
    ensures below { result < 2147483648 }
{
    match form {
        Form::Word(text) => code_of_text(1, text.bytes()),
        Form::Numeral(text) => code_of_text(2, text.bytes()),
        Form::Quoted(text) => code_of_text(3, text.bytes()),
        Form::List(parts) => {
            let mut joined = 4;
            for part in parts.items() {
                let next = code(part);
                if next == 0 {
                    return 0;
                }
                joined = mixed(joined, next);
            }
            joined
        }
        _ => 0,
    }
}

fn part_code(parts: &[Form], at: usize) -> u64
    ensures { result ≡ spec.part_code parts.now at }
{
    match parts.get(at) {
        Some(part) => code(part),
        None => 0,
    }
}

fn fits(code: u64, other: u64) -> bool
    ensures { result ≡ spec.fits code other }
{
    code == 0 || code == other
}

fn agree(code: u64, other: u64) -> bool
    ensures { result ≡ spec.agree code other }
{
    other == 0 || fits(code, other)
}

impl Fingerprint {
    fn of_parts(positive: bool, parts: &[Form]) -> Fingerprint
        ensures { result ≡ spec.fingerprint_of positive parts.now }
    {
        Fingerprint {
            positive,
            parts: parts.len(),
            head: part_code(parts, 0),
            first: part_code(parts, 1),
            second: part_code(parts, 2),
        }
    }

    fn of(literal: &Literal) -> Fingerprint
        ensures { result ≡ spec.fingerprint literal.now }
    {
        Fingerprint::of_parts(literal.positive, parts_of(&literal.atom))
    }

    /// The key under which clauses may stand that have a literal with this fingerprint.
    pub(crate) fn key(&self) -> u64
        requires codes { HasCodes self.now }
        ensures { result ≡ key_of self.now }
    {
        key(self.positive, self.head, self.first, self.second)
    }

    fn may_become(&self, other: &Fingerprint) -> bool
        ensures { result ≡ spec.may_become self.now other.now }
    {
        self.parts == 0
            || (self.positive == other.positive
                && self.parts == other.parts
                && fits(self.head, other.head)
                && fits(self.first, other.first)
                && fits(self.second, other.second))
    }

    fn may_clash(&self, other: &Fingerprint) -> bool
        ensures { result ≡ spec.may_clash self.now other.now }
    {
        self.parts == 0
            || other.parts == 0
            || (self.positive != other.positive
                && self.parts == other.parts
                && agree(self.head, other.head)
                && agree(self.first, other.first)
                && agree(self.second, other.second))
    }

    fn may_become_any(&self, others: &[Fingerprint]) -> bool
        ensures { result ≡ list_any (spec.may_become self.now) others.now }
    {
        for other in others {
            if self.may_become(other) {
                return true;
            }
        }
        false
    }

    /// Where it is false, a literal with this fingerprint becomes none of a clause with those.
    fn may_be_in(&self, others: &Fingerprints) -> bool
        ensures { result ≡ spec.may_be_in self.now others.now }
    {
        self.may_become(&others.first) || self.may_become_any(others.others.items())
    }

    fn may_clash_with_any(&self, others: &[Fingerprint]) -> bool
        ensures { result ≡ list_any (spec.may_clash self.now) others.now }
    {
        for other in others {
            if self.may_clash(other) {
                return true;
            }
        }
        false
    }

    fn may_resolve(&self, others: &Fingerprints) -> bool
        ensures { result ≡ spec.may_resolve self.now others.now }
    {
        self.may_clash(&others.first) || self.may_clash_with_any(others.others.items())
    }
}

fn first_of(literals: &[Literal]) -> Fingerprint
    ensures { result ≡ spec.first_of literals.now }
{
    match literals {
        [first, ..] => Fingerprint::of(first),
        [] => Fingerprint::of_parts(true, &[]),
    }
}

fn others_of(alloc: Global, literals: &[Literal]) -> Result<Listed<Fingerprint>, NoMemory>
    ensures { IfOk result (λ prints. prints ≡ spec.others_of literals.now) }
{
    let mut prints = Listed::new(alloc);
    let [_, others @ ..] = literals else {
        return Ok(prints);
    };
    for literal in others {
        prints.push(Fingerprint::of(literal))?;
    }
    Ok(prints)
}

impl Fingerprints {
    pub(crate) fn of(alloc: Global, clause: &Clause) -> Result<Fingerprints, NoMemory>
        ensures { IfOk result (λ prints. prints ≡ spec.fingerprints clause.now) }
    {
        let literals = clause.literals.items();
        let first = first_of(literals);
        let others = others_of(alloc, literals)?;
        Ok(Fingerprints { first, others })
    }

    /// Where it is false, no clause with these fingerprints subsumes one with the others.
    pub(crate) fn may_subsume(&self, others: &Fingerprints) -> bool
        ensures { result ≡ spec.may_subsume self.now others.now }
    {
        if !self.first.may_be_in(others) {
            return false;
        }
        for print in self.others.items() {
            if !print.may_be_in(others) {
                return false;
            }
        }
        true
    }

    /// Where it is false, no literal of a clause with these fingerprints is resolved upon with one of a clause with the others.
    pub(crate) fn may_meet(&self, others: &Fingerprints) -> bool
        ensures { result ≡ spec.may_meet self.now others.now }
    {
        if self.first.may_resolve(others) {
            return true;
        }
        for print in self.others.items() {
            if print.may_resolve(others) {
                return true;
            }
        }
        false
    }
}
