//! The conditions that a form puts on what is chosen.
ghost use Rattle.std.specs.Prelude.{◌≡◌, ◌++◌, ◌∷◌, [], IfOk, OnOk};
ghost use Rattle.std.specs.List.{flat_map};
ghost use Rattle.std.specs.Str.{bytes_eq};
ghost use Rattle.kif_tree.specs.Names.{parts_in};
ghost use Rattle.kif_tree.specs.Profile.{begins};
ghost use Rattle.taxonomy.specs.Told as told;
ghost use Rattle.var_expand.specs.Conditions as conditions;
ghost use Rattle.var_expand.specs.Gathered as spec;

use kif_tree::{Form, forms_equal, parts_of};
use sigma_base::{Listed, NoMemory};
use std::alloc::Global;
use std::marker::Model;
use std::slice;
use taxonomy::ChainKind;

/// Chains of this kind lead from the lower to the higher, once both are words.
#[derive(Debug, Drop)]
pub struct Condition<'a> {
    pub kind: ChainKind,
    pub low: &'a Form,
    pub high: &'a Form,
}

impl<'a> Model for Condition<'a> {
    ghost use Rattle.std.specs.Coded.{codes};
    ghost use Rattle.kif_tree.specs.contracts.form.Form as form;
    ghost use Rattle.taxonomy.specs.contracts.told.ChainKind as chain_kind;
    ghost use Rattle.var_expand.specs.Gathered.{Demand};

    ghost Value = { Demand };

    ghost coded = { Prim.hlevel (codes, form.the_row.coded, chain_kind.the_row.coded) };

    ghost view = { λ condition. record { kind = condition.kind; low = condition.low.now; high = condition.high.now } };
}

/// The form is one of these.
fn is_one_of(forms: &[Form], form: &Form) -> bool
    ensures { result ≡ conditions.is_one_of forms.now form.now }
{
    for other in forms {
        if forms_equal(form, other) {
            return true;
        }
    }
    false
}

fn is_word(form: &Form) -> bool
    ensures { result ≡ conditions.is_word form.now }
{
    matches!(form, Form::Word(_))
}

fn is_side(predicates: &[Form], form: &Form) -> bool
    ensures { result ≡ conditions.is_side predicates.now form.now }
{
    is_word(form) || is_one_of(predicates, form)
}

fn relates(predicates: &[Form], low: &Form, high: &Form) -> bool
    ensures { result ≡ spec.relates predicates.now low.now high.now }
{
    is_side(predicates, low)
        && is_side(predicates, high)
        && (is_one_of(predicates, low) || is_one_of(predicates, high))
}

fn kind_by(predicates: &[Form], word: &[u8], low: &Form, high: &Form) -> Option<ChainKind>
    ensures { result ≡ spec.kind_by predicates.now word.now low.now high.now }
{
    if b"instance".as_slice() == word && is_one_of(predicates, low) && is_word(high) {
        return Some(ChainKind::Instance);
    }
    if b"subrelation".as_slice() == word && relates(predicates, low, high) {
        return Some(ChainKind::Relation);
    }
    None
}

/// The kind of chain that the condition speaks of, if it is one.
fn kind_of(predicates: &[Form], head: &Form, low: &Form, high: &Form) -> Option<ChainKind>
    ensures { result ≡ spec.kind_of_head predicates.now (told.word_text head.now) low.now high.now }
{
    match head {
        Form::Word(text) => kind_by(predicates, text.bytes(), low, high),
        _ => None,
    }
}

fn push_condition<'a>(
    found: &mut Listed<Condition<'a>>,
    predicates: &[Form],
    parts: &'a [Form],
) -> Result<(), NoMemory>
    ensures { OnOk result (found.new ≡ found.old ++ spec.demands predicates.now parts.now) }
{
    let [head, low, high] = parts else {
        return Ok(());
    };
    let Some(kind) = kind_of(predicates, head, low, high) else {
        return Ok(());
    };
    found.push(Condition { kind, low, high })
}

fn push_conditions<'a>(
    found: &mut Listed<Condition<'a>>,
    predicates: &[Form],
    forms: &'a [Form],
) -> Result<(), NoMemory>
    ensures { OnOk result (found.new ≡ found.old ++ flat_map (λ part. spec.demands predicates.now (parts_in part)) forms.now) }
{
    for form in forms {
        push_condition(found, predicates, parts_of(form))?;
    }
    Ok(())
}

/// The first part of an implication. Any other form has none.
fn antecedents(parts: &[Form]) -> &[Form]
    ensures { result.now ≡ conditions.antecedents parts.now }
{
    match parts {
        [head, first, _] if is_the_word(head, b"=>") => slice::from_ref(first),
        _ => &parts[..0],
    }
}

fn is_the_word(form: &Form, word: &[u8]) -> bool
    ensures { result ≡ begins (bytes_eq word.now) (form.now ∷ []) }
{
    match form {
        Form::Word(text) => word == text.bytes(),
        _ => false,
    }
}

/// The parts of an `and`, and any other form itself.
fn conjuncts(form: &Form) -> &[Form]
    ensures { result.now ≡ conditions.conjuncts form.now }
{
    match parts_of(form) {
        [head, parts @ ..] if is_the_word(head, b"and") => parts,
        _ => slice::from_ref(form),
    }
}

/// The conditions of the form, where these are its predicate variables.
pub fn gather_conditions<'a>(
    alloc: Global,
    predicates: &[Form],
    form: &'a Form,
) -> Result<Listed<Condition<'a>>, NoMemory>
    ensures { IfOk result (λ found. found ≡ spec.all_demands predicates.now form.now) }
{
    let mut found = Listed::new(alloc);
    for antecedent in antecedents(parts_of(form)) {
        push_conditions(&mut found, predicates, conjuncts(antecedent))?;
    }
    Ok(found)
}
