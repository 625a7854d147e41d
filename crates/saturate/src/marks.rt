//! Marks of clauses, by which most partners of a given clause are passed over.
ghost use Rattle.std.specs.Prelude.{◌≡◌, ◌<◌, true, false};
ghost use Rattle.kif_tree.specs.Names.{parts_in};
ghost use Rattle.saturate.specs.Fingerprints.{fingerprints as prints_of};
ghost use Rattle.saturate.specs.Marks as spec;

use crate::fingerprint::{Fingerprint, Fingerprints, code, code_of_text};
use crate::inputs::is_equality;
use kif_tree::{Clause, Form, Literal, parts_of};

/// The marks of a clause: in each number a bit for what there is of a kind, or all bits.
#[derive(Clone, Copy, Debug)]
pub(crate) struct Marks {
    /// The signs and heads of the literals.
    pub(crate) own: u64,
    /// The signs and heads of the literals with which these could be resolved.
    pub(crate) wanted: u64,
    /// What stands in the literals as an argument, at any depth, other than variables.
    pub(crate) terms: u64,
    /// The sides of positive equalities, which rewrite such arguments.
    pub(crate) rewritten: u64,
}

/// A bit for the sign and the head, or all bits where the head isn't known.
fn mark(positive: bool, head: u64) -> u64
    ensures { result ≡ spec.mark positive head }
{
    if head == 0 {
        return u64::MAX;
    }
    let sign = if positive { 1 } else { 0 };
    1 << (head % 32 * 2 + sign)
}

fn mark_of(own: bool, print: &Fingerprint) -> u64
    ensures { result ≡ spec.mark_of own print.now }
{
    mark(own == print.positive, print.head)
}

/// The marks of the literals, or those of literals with the other signs.
fn marks_of(own: bool, first: &Fingerprint, others: &[Fingerprint]) -> u64
    ensures { result ≡ spec.marks_of own first.now others.now }
{
    let mut marks = mark_of(own, first);
    for print in others {
        marks |= mark_of(own, print);
    }
    marks
}

fn place_mark(from: u64, code: u64) -> u64
    requires { from < 33 }
    ensures { result ≡ spec.place_mark from code }
{
    if code == 0 {
        return u64::MAX;
    }
    1 << (from + code % 32)
}

fn list_mark(parts: &[Form]) -> u64
    ensures { result ≡ spec.list_mark parts.now }
{
    match parts {
        [head, ..] => place_mark(32, code(head)),
        [] => place_mark(0, 4),
    }
}

/// What a form is, or what a list begins with.
fn term_mark(form: &Form) -> u64
    ensures { result ≡ spec.term_mark form.now }
{
    let parts = parts_of(form);
    if parts.is_empty() {
        return place_mark(0, code(form));
    }
    list_mark(parts)
}

/// The marks of the form and of the arguments in it, other than variables.
#[tactic(auto, using(crate::proofs::TermMarkLaws::terms_laws))]
fn terms(form: &Form) -> u64
    ensures { result ≡ spec.terms form.now }
{
    match form {
        Form::Word(text) => place_mark(0, code_of_text(1, text.bytes())),
        Form::Numeral(text) => place_mark(0, code_of_text(2, text.bytes())),
        Form::Quoted(text) => place_mark(0, code_of_text(3, text.bytes())),
        Form::Variable(_) => 0,
        Form::Row(_) => u64::MAX,
        Form::List(parts) => {
            let mut marks = list_mark(parts.items());
            let [_, arguments @ ..] = parts.items() else {
                return marks;
            };
            for argument in arguments {
                marks |= terms(argument);
            }
            marks
        }
    }
}

fn inner_terms(parts: &[Form]) -> u64
    ensures { result ≡ spec.inner_terms parts.now }
{
    let mut marks = 0;
    let [_, arguments @ ..] = parts else {
        return marks;
    };
    for argument in arguments {
        marks |= terms(argument);
    }
    marks
}

fn terms_in(literals: &[Literal]) -> u64
    ensures { result ≡ spec.terms_in literals.now }
{
    let mut marks = 0;
    for literal in literals {
        marks |= inner_terms(parts_of(&literal.atom));
    }
    marks
}

fn sides_marks(parts: &[Form]) -> u64
    ensures { result ≡ spec.sides_marks parts.now }
{
    match parts {
        [_, left, right] => term_mark(left) | term_mark(right),
        _ => 0,
    }
}

fn rewritten_by(literal: &Literal) -> u64
    ensures { result ≡ spec.rewritten_by literal.now }
{
    if literal.positive && is_equality(&literal.atom) {
        return sides_marks(parts_of(&literal.atom));
    }
    0
}

fn rewritten_in(literals: &[Literal]) -> u64
    ensures { result ≡ spec.rewritten_in literals.now }
{
    let mut marks = 0;
    for literal in literals {
        marks |= rewritten_by(literal);
    }
    marks
}

impl Marks {
    /// The marks of the clause, which has these fingerprints.
    pub(crate) fn of(clause: &Clause, prints: &Fingerprints) -> Marks
        requires { prints.now ≡ prints_of clause.now }
        ensures { result ≡ spec.marks clause.now }
    {
        let literals = clause.literals.items();
        let others = prints.others.items();
        Marks {
            own: marks_of(true, &prints.first, others),
            wanted: marks_of(false, &prints.first, others),
            terms: terms_in(literals),
            rewritten: rewritten_in(literals),
        }
    }

    /// Where it is false, no literal of a clause with these marks is resolved upon with one of a clause with the others.
    pub(crate) fn may_resolve_by(&self, others: &Marks) -> bool
        ensures { result ≡ spec.may_resolve_by self.now others.now }
    {
        self.wanted & others.own != 0
    }

    /// Where it is false, no equation of a clause with these marks rewrites a clause with the others.
    pub(crate) fn may_rewrite(&self, others: &Marks) -> bool
        ensures { result ≡ spec.may_rewrite self.now others.now }
    {
        self.rewritten & others.terms != 0
    }
}
