//! How many clauses a form has, which is told before any is built. One walk counts them under both signs, so that a part that is read
//! more than once is counted once.
ghost use Rattle.std.specs.Prelude.{◌≡◌, ◌+◌, ◌*◌, ◌≤◌, List, map, length, Some};
ghost use Rattle.kif_tree.specs.Terms.{Bytes};
ghost use Rattle.clause_form.specs.ClauseForms.{raw_clauses};
ghost use Rattle.clause_form.specs.Matrices.{distribution};
ghost use Rattle.clause_form.specs.Readings.{reading};
ghost use Rattle.clause_form.specs.Sizes as spec;
ghost use Rattle.clause_form.specs.declared.scope.Counts as the_counts;
ghost use Rattle.clause_form.specs.declared.scope.Scope as the_scope;

use crate::connective::{Connective, connective_of};
use kif_tree::Form;

/// The greatest number that is counted.
const ABOVE_LIMIT: u32 = 4097;

/// How many clauses a form has under each sign.
#[derive(Clone, Copy, Debug, PartialEq, Eq)]
pub struct Sizes {
    pub positive: u32,
    pub negative: u32,
}

/// The sums and the products of the sizes of forms.
#[derive(Clone, Copy, Debug, PartialEq, Eq)]
pub struct Totals {
    pub sums: Sizes,
    pub products: Sizes,
}

/// How many clauses the form has, or 4,097 where they are more than 4,096. It takes no memory.
pub fn count_clauses(form: &Form) -> u32
    ensures { (prefix : Bytes) → result ≡ spec.capped (length (raw_clauses prefix form.now)) }
{
    count_read(form, true)
}

/// How many clauses the form has when it is read with the sign, up to 4,097.
pub(crate) fn count_read(form: &Form, sign: bool) -> u32
    ensures { (prefix : Bytes) (scope : the_scope.Scope) (counts : the_counts.Counts) → result ≡ spec.capped (length (distribution (reading prefix form.now sign scope counts).matrix)) }
{
    let sizes = sizes_of(form);
    if sign {
        return sizes.positive;
    }
    sizes.negative
}

#[cycle(sizes)]
fn sizes_of(form: &Form) -> Sizes
    ensures { result ≡ spec.capped_sizes (spec.sizes form.now) }
{
    let Form::List(parts) = form else {
        return ONE_EACH;
    };
    let [head, rest @ ..] = parts.items() else {
        return ONE_EACH;
    };
    match connective_of(head) {
        Some(connective) => sizes_connected(connective, rest),
        None => ONE_EACH,
    }
}

const ONE_EACH: Sizes = Sizes {
    positive: 1,
    negative: 1,
};

#[cycle(sizes)]
fn sizes_connected(connective: Connective, parts: &[Form]) -> Sizes
    ensures { result ≡ spec.capped_sizes (spec.connected (Some connective) (map spec.beside parts.now)) }
{
    match connective {
        Connective::Not => match parts {
            [part] => swapped(sizes_of(part)),
            _ => ONE_EACH,
        },
        Connective::And => conjoined(totals_of(parts)),
        Connective::Or => disjoined(totals_of(parts)),
        Connective::Implies => match parts {
            [first, second] => implied(sizes_of(first), sizes_of(second)),
            _ => ONE_EACH,
        },
        Connective::Equivalent => match parts {
            [first, second] => equated(sizes_of(first), sizes_of(second)),
            _ => ONE_EACH,
        },
        Connective::ForAll | Connective::Exists => match parts {
            [_, body] => sizes_of(body),
            _ => ONE_EACH,
        },
    }
}

#[cycle(sizes)]
fn totals_of(parts: &[Form]) -> Totals
    ensures { result ≡ spec.capped_totals (spec.totals (map spec.sizes parts.now)) }
{
    let mut sums = Sizes {
        positive: 0,
        negative: 0,
    };
    let mut products = ONE_EACH;
    for part in parts {
        let sizes = sizes_of(part);
        sums = plus(sums, sizes);
        products = times(products, sizes);
    }
    Totals { sums, products }
}

// ---- the arithmetic of sizes up to the greatest number

fn capped_sum(a: u32, b: u32) -> u32
    requires first { a ≤ 4097 }
    requires second { b ≤ 4097 }
    ensures { result ≡ spec.capped (a + b) }
{
    (a + b).min(ABOVE_LIMIT)
}

fn capped_product(a: u32, b: u32) -> u32
    requires first { a ≤ 4097 }
    requires second { b ≤ 4097 }
    ensures { result ≡ spec.capped (a * b) }
{
    (a * b).min(ABOVE_LIMIT)
}

fn swapped(a: Sizes) -> Sizes
    ensures { result ≡ spec.swapped a }
{
    Sizes {
        positive: a.negative,
        negative: a.positive,
    }
}

fn plus(a: Sizes, b: Sizes) -> Sizes
    requires first { spec.AreCapped a }
    requires second { spec.AreCapped b }
    ensures { result ≡ spec.capped_sizes (spec.plus a b) }
{
    Sizes {
        positive: capped_sum(a.positive, b.positive),
        negative: capped_sum(a.negative, b.negative),
    }
}

fn times(a: Sizes, b: Sizes) -> Sizes
    requires first { spec.AreCapped a }
    requires second { spec.AreCapped b }
    ensures { result ≡ spec.capped_sizes (spec.times a b) }
{
    Sizes {
        positive: capped_product(a.positive, b.positive),
        negative: capped_product(a.negative, b.negative),
    }
}

fn conjoined(all: Totals) -> Sizes
    ensures { result ≡ spec.conjoined all }
{
    Sizes {
        positive: all.sums.positive,
        negative: all.products.negative,
    }
}

fn disjoined(all: Totals) -> Sizes
    ensures { result ≡ spec.disjoined all }
{
    Sizes {
        positive: all.products.positive,
        negative: all.sums.negative,
    }
}

fn implied(a: Sizes, b: Sizes) -> Sizes
    requires first { spec.AreCapped a }
    requires second { spec.AreCapped b }
    ensures { result ≡ spec.capped_sizes (spec.implied a b) }
{
    Sizes {
        positive: capped_product(a.negative, b.positive),
        negative: capped_sum(a.positive, b.negative),
    }
}

fn equated(a: Sizes, b: Sizes) -> Sizes
    requires first { spec.AreCapped a }
    requires second { spec.AreCapped b }
    ensures { result ≡ spec.capped_sizes (spec.equated a b) }
{
    Sizes {
        positive: capped_sum(
            capped_product(a.negative, b.positive),
            capped_product(b.negative, a.positive),
        ),
        negative: capped_sum(
            capped_product(a.positive, b.positive),
            capped_product(a.negative, b.negative),
        ),
    }
}
