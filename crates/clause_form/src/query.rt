//! Queries.
ghost use Rattle.std.specs.Prelude.{◌≡◌, ◌⊎◌, ◌<◌, ◌^◌, ◌∷◌, ◌++◌, [], map, length, Ok, Err, IfOk, MatchResult};
ghost use Rattle.std.specs.List.{list_any};
ghost use Rattle.kif_tree.specs.Profile.{compounds};
ghost use Rattle.kif_tree.specs.declared.form.Form.TheVariants as forms;
ghost use Rattle.kif_tree.specs.Clauses.{Literals};
ghost use Rattle.calculus.specs.Answers as answers;
ghost use Rattle.calculus.specs.Equality.{yes};
ghost use Rattle.calculus.specs.Tidy.{tidy as tidy_clause};
ghost use Rattle.clause_form.specs.ClauseForms.{DistributionIsTrue};
ghost use Rattle.clause_form.specs.Queries as spec;
ghost use Rattle.clause_form.specs.declared.query.QueryError.TheVariants as errors;

use crate::conversion::{MOST_CLAUSES, NOTHING, outermost};
use crate::counting::count_read;
use crate::distribution::distribute;
use crate::reading::read;
use crate::scope::enter_universal;
use calculus_programs::made_tidy;
use kif_reader::{ReadError, read_forms};
use kif_tree::{
    Clause, Form, Literal, Text, copy_all, free_names, has_no_row, in_profile, operands,
};
use sigma_base::{Listed, NoMemory};
use std::alloc::Global;

/// The clauses of a query's negation, each with an answer literal last, and the free variables that are asked for, without their
/// prefix, in order of their first free occurrence.
#[derive(Debug, Drop)]
pub struct QueryClauses {
    pub clauses: Listed<Clause>,
    pub asked: Listed<Text>,
}

/// Why a text is no query. Of several causes the first in this order is told.
#[derive(Debug, Drop)]
pub enum QueryError {
    /// The text has a fault. It is never want of memory.
    Syntax(ReadError),
    /// The text doesn't hold just one form.
    NotOneForm,
    /// A row variable occurs, if only in the list of a quantifier.
    RowVariable,
    /// A variable heads a list.
    PredicateVariable,
    /// The form is outside the profile.
    HigherOrder,
    /// The negated query has more than 4,096 clauses.
    TooManyClauses,
    NoMemory,
}

impl From<NoMemory> for QueryError {
    ghost use Rattle.clause_form.specs.declared.query.QueryError.TheVariants as errors;

    ghost from_gives = { λ _ error. error ≡ errors.NoMemory };

    fn from(_: NoMemory) -> QueryError {
        QueryError::NoMemory
    }
}

/// The clauses of the negation of the query that the text spells: those of the form read negative under its free variables, each with the
/// positive literal `(!answer ?X1 .. ?Xn)` of these variables last, and then made tidy.
pub fn negate_query(alloc: Global, text: &[u8]) -> Result<QueryClauses, QueryError>
    requires { length text.now < 2 ^ 31 }
    ensures answer { MatchResult result (λ query. spec.IsQueryAnswer text.now (Ok query)) (λ error. (error ≡ errors.NoMemory) ⊎ spec.IsQueryAnswer text.now (Err error)) }
    ensures equivalent { IfOk result (λ query. spec.IsQueryOf text.now query) }
{
    let forms = match read_forms(alloc, text, 0) {
        Ok(forms) => forms,
        Err(ReadError::NoMemory) => return Err(QueryError::NoMemory),
        Err(fault) => return Err(QueryError::Syntax(fault)),
    };
    let [located] = forms.as_slice() else {
        return Err(QueryError::NotOneForm);
    };
    negate_form(alloc, &located.form)
}

fn negate_form(alloc: Global, query: &Form) -> Result<QueryClauses, QueryError>
    ensures { MatchResult result (λ found. spec.form_answer query.now ≡ Ok found) (λ error. (error ≡ errors.NoMemory) ⊎ (spec.form_answer query.now ≡ Err error)) }
{
    if !has_no_row(query) {
        return Err(QueryError::RowVariable);
    }
    if applies_variable(query) {
        return Err(QueryError::PredicateVariable);
    }
    if !in_profile(query) {
        return Err(QueryError::HigherOrder);
    }
    if count_read(query, false) > MOST_CLAUSES {
        return Err(QueryError::TooManyClauses);
    }
    Ok(negated(alloc, query)?)
}

/// Whether a variable heads a list.
fn applies_variable(form: &Form) -> bool
    ensures { result ≡ spec.applies_variable form.now }
{
    let Form::List(parts) = form else {
        return false;
    };
    if begins_with_variable(parts.items()) {
        return true;
    }
    for part in operands(parts.items()) {
        if applies_variable(part) {
            return true;
        }
    }
    false
}

fn begins_with_variable(parts: &[Form]) -> bool
    ensures { result ≡ spec.begins_with_variable parts.now }
{
    matches!(parts, [Form::Variable(_), ..])
}

fn negated(alloc: Global, query: &Form) -> Result<QueryClauses, NoMemory>
    ensures clauses { IfOk result (λ found. found.clauses ≡ spec.query_clauses query.now) }
    ensures asked { IfOk result (λ found. found.asked ≡ spec.asked query.now) }
{
    let asked = asked_variables(alloc, query)?;
    let mut counts = NOTHING;
    let scope = enter_universal(alloc, asked.items(), &outermost(alloc), &mut counts)?;
    let matrix = read(alloc, b"!query", query, false, &scope, &mut counts)?;
    let raw = distribute(alloc, matrix)?;
    let clauses = with_answers(alloc, raw, scope.universals.items())?;
    Ok(QueryClauses { clauses, asked })
}

/// The free variables, in order of their first free occurrence.
fn asked_variables(alloc: Global, query: &Form) -> Result<Listed<Text>, NoMemory>
    ensures { IfOk result (λ asked. asked ≡ spec.asked query.now) }
{
    let names = free_names(alloc, query)?;
    let mut asked = Listed::new(alloc);
    for name in names.items() {
        if let Form::Variable(text) = name {
            asked.push(text.copy(alloc)?)?;
        }
    }
    Ok(asked)
}

/// The clauses, each with the answer literal last, made tidy.
fn with_answers(
    alloc: Global,
    clauses: Listed<Clause>,
    shown: &[Form],
) -> Result<Listed<Clause>, NoMemory>
    ensures { IfOk result (λ answering. answering ≡ map (λ (clause : Literals). tidy_clause (clause ++ yes (answers.answer_atom shown.now) ∷ [])) clauses) }
{
    let mut answering = Listed::new(alloc);
    for clause in clauses.into_items() {
        answering.push(with_answer(alloc, clause, shown)?)?;
    }
    Ok(answering)
}

fn with_answer(alloc: Global, clause: Clause, shown: &[Form]) -> Result<Clause, NoMemory>
    ensures { IfOk result (λ answering. answering ≡ tidy_clause (clause ++ yes (answers.answer_atom shown.now) ∷ [])) }
{
    let Clause { mut literals } = clause;
    literals.push(Literal {
        positive: true,
        atom: answer_atom(alloc, shown)?,
    })?;
    made_tidy(alloc, Clause { literals })
}

fn answer_atom(alloc: Global, shown: &[Form]) -> Result<Form, NoMemory>
    ensures { IfOk result (λ atom. atom ≡ answers.answer_atom shown.now) }
{
    let mut parts = Listed::new(alloc);
    parts.push(Form::Word(Text::of(alloc, b"!answer")?))?;
    parts.append(copy_all(alloc, shown)?)?;
    Ok(Form::List(parts))
}
