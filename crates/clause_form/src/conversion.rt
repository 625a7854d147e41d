//! The clauses of a form.
ghost use Rattle.std.specs.Prelude.{◌≡◌, map, true, IfOk};
ghost use Rattle.calculus.specs.Tidy.{tidy as tidy_clause};
ghost use Rattle.clause_form.specs.ClauseForms as spec;
ghost use Rattle.clause_form.specs.Readings as readings;
ghost use Rattle.clause_form.specs.Sentences.{is_sentence, AreInputs};

use crate::counting::count_clauses;
use crate::distribution::distribute;
use crate::reading::read;
use crate::scope::{Counts, Scope};
use calculus_programs::made_tidy;
use kif_tree::{Clause, Form, Text};
use sigma_base::{Listed, NoMemory};
use std::alloc::Global;

/// How many clauses a variant or a query may have.
pub const MOST_CLAUSES: u32 = 4096;

/// What the Skolem symbols of a variant begin with: the number of its load, of its form in the text, and its own number.
#[derive(Clone, Copy, Debug, PartialEq, Eq)]
pub struct SkolemBase {
    pub load: u32,
    pub form: u32,
    pub variant: u32,
}

/// The clauses of a form, or that they are more than 4,096.
#[derive(Debug, Drop)]
pub enum ClauseForm {
    Clauses(Listed<Clause>),
    TooMany,
}

/// The clauses of a closed form.
///
/// The form is read with a sign, and `not` changes it. `forall` read positive and `exists` read negative bind new universal variables; the
/// other quantifiers replace each variable by a Skolem term of all universal variables around it. Then conjunctions are parted and
/// disjunctions are multiplied out. Each clause is tidy: no literal stands twice, and its variables are X1, X2 and so on.
///
/// It is meant for closed forms in the profile without row variables and predicate variables, and answers for any. A free variable keeps its
/// name, which a new variable may share.
#[tactic(auto, using(crate::proofs::TruthLaws::distribution_is_true))]
pub fn clauses(alloc: Global, form: &Form, base: SkolemBase) -> Result<ClauseForm, NoMemory>
    ensures are { IfOk result (λ answer. answer ≡ spec.clause_form base form.now) }
    ensures equivalent { spec.DistributionIsTrue (readings.matrix_of (spec.skolem_prefix base) form.now) }
    ensures proper { IfOk result (λ answer. is_sentence form.now ≡ true → AreInputs answer) }
{
    if count_clauses(form) > MOST_CLAUSES {
        return Ok(ClauseForm::TooMany);
    }
    let prefix = skolem_prefix(alloc, base)?;
    let scope = outermost(alloc);
    let mut counts = NOTHING;
    let matrix = read(alloc, prefix.bytes(), form, true, &scope, &mut counts)?;
    let raw = distribute(alloc, matrix)?;
    Ok(ClauseForm::Clauses(tidied(alloc, raw)?))
}

/// Before anything was read.
pub(crate) const NOTHING: Counts = Counts {
    variables: 0,
    skolems: 0,
};

/// The scope outside of all quantifiers.
pub(crate) fn outermost(alloc: Global) -> Scope
    ensures { result ≡ readings.outermost }
{
    Scope {
        pairs: Listed::new(alloc),
        universals: Listed::new(alloc),
    }
}

fn skolem_prefix(alloc: Global, base: SkolemBase) -> Result<Text, NoMemory>
    ensures { IfOk result (λ prefix. prefix ≡ spec.skolem_prefix base) }
{
    let mut prefix = Text::of(alloc, b"!")?;
    prefix.append_decimal(u64::from(base.load))?;
    prefix.push(b'.')?;
    prefix.append_decimal(u64::from(base.form))?;
    prefix.push(b'.')?;
    prefix.append_decimal(u64::from(base.variant))?;
    Ok(prefix)
}

fn tidied(alloc: Global, clauses: Listed<Clause>) -> Result<Listed<Clause>, NoMemory>
    ensures { IfOk result (λ tidied. tidied ≡ map tidy_clause clauses) }
{
    let mut tidied = Listed::new(alloc);
    for clause in clauses.into_items() {
        tidied.push(made_tidy(alloc, clause)?)?;
    }
    Ok(tidied)
}
