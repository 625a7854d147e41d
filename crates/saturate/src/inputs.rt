//! What a search begins with.
ghost use Rattle.std.specs.Prelude.{◌≡◌, ◌∷◌, ◌++◌, [], ◌<◌, ◌^◌, length, true, IfOk, OnOk};
ghost use Rattle.std.specs.Option.{option_map};
ghost use Rattle.std.specs.List.{list_any};
ghost use Rattle.calculus.specs.Rules.{nth};
ghost use Rattle.calculus.specs.Answers.{reflexivity_input};
ghost use Rattle.infer.specs.Checks.{clauses_of};
ghost use Rattle.unify.specs.ClauseSets.{IsClauseSet};
ghost use Rattle.saturate.specs.Inputs as spec;

use kif_tree::{Clause, Form, InputClause, Literal, Text, is_headed, parts_of};
use sigma_base::{Listed, NoMemory};
use std::alloc::Global;
use std::marker::Model;
use unify::ClauseSet;

/// The clauses with which a search begins, in order: those of a set, which are lent and not copied, and after them `(equal ?X1 ?X1)` where an
/// equality occurs, and the clauses of a query. Contracts see their list.
#[derive(Debug, Drop)]
pub struct Inputs<'a> {
    set: &'a [InputClause],
    more: Listed<InputClause>,
}

impl<'a> Model for Inputs<'a> {
    ghost use Rattle.std.specs.Prelude.{List, ◌++◌};
    ghost use Rattle.std.specs.Coded.{codes};
    ghost use Rattle.kif_tree.specs.declared.clause.InputClause.{InputClause};
    ghost use Rattle.kif_tree.specs.contracts.form.Form as form;

    ghost Value = { List InputClause };

    ghost coded = { Prim.hlevel (codes, form.the_row.coded) };

    ghost view = { λ inputs. inputs.set.now ++ inputs.more };
}

impl<'a> Inputs<'a> {
    /// The clauses of the set and of the query, which is copied. The query's clauses have no place and are variants from 1, and `(equal ?X1 ?X1)` is
    /// variant 0.
    pub fn of(alloc: Global, set: &'a ClauseSet, query: &[Clause]) -> Result<Inputs<'a>, NoMemory>
        requires { length query.now < 2 ^ 30 }
        ensures inputs { IfOk result (λ inputs. inputs ≡ spec.search_inputs set.now query.now) }
        ensures set { IsClauseSet set.now }
    {
        let set = set.inputs();
        let mut more = Listed::new(alloc);
        if inputs_have_equality(set) || have_equality(query) {
            more.push(reflexivity(alloc)?)?;
        }
        append_query(alloc, &mut more, query)?;
        Ok(Inputs { set, more })
    }

    /// How many there are. It takes no memory.
    pub fn count(&self) -> usize
        ensures { result ≡ length self.now }
    {
        self.set.len() + self.more.items().len()
    }

    /// The one of that number, counted from 0. It takes no memory.
    pub fn get(&self, number: usize) -> Option<&InputClause>
        ensures { option_map (λ input. input.now) result ≡ nth self.now number }
    {
        if number < self.set.len() {
            return self.set.get(number);
        }
        self.more.items().get(number - self.set.len())
    }

    /// Whether the one of that number is a clause of the query. It takes no memory.
    pub fn is_of_query(&self, number: u32) -> bool
        ensures { result ≡ spec.is_query_number self.now number }
    {
        match self.get(number as usize) {
            Some(input) => is_query_input(input),
            None => false,
        }
    }
}

fn is_query_input(input: &InputClause) -> bool
    ensures { result ≡ spec.is_of_query input.now.place input.now.variant }
{
    input.place.is_none() && input.variant > 0
}

fn inputs_have_equality(inputs: &[InputClause]) -> bool
    ensures { result ≡ list_any spec.has_equality (clauses_of inputs.now) }
{
    for input in inputs {
        if has_equality(&input.clause) {
            return true;
        }
    }
    false
}

fn have_equality(clauses: &[Clause]) -> bool
    ensures { result ≡ list_any spec.has_equality clauses.now }
{
    for clause in clauses {
        if has_equality(clause) {
            return true;
        }
    }
    false
}

fn has_equality(clause: &Clause) -> bool
    ensures { result ≡ spec.has_equality clause.now }
{
    for literal in clause.literals.items() {
        if is_equality(&literal.atom) {
            return true;
        }
    }
    false
}

/// An atom `(equal s t)` of just two arguments.
pub(crate) fn is_equality(atom: &Form) -> bool
    ensures { result ≡ spec.is_equality atom.now }
{
    parts_of(atom).len() == 3 && is_headed(atom, b"equal")
}

fn reflexivity(alloc: Global) -> Result<InputClause, NoMemory>
    ensures { IfOk result (λ input. spec.reflexivity_inputs true ≡ input ∷ []) }
{
    let mut parts = Listed::new(alloc);
    parts.push(Form::Word(Text::of(alloc, b"equal")?))?;
    parts.push(Form::Variable(Text::of(alloc, b"X1")?))?;
    parts.push(Form::Variable(Text::of(alloc, b"X1")?))?;
    let mut literals = Listed::new(alloc);
    literals.push(Literal {
        positive: true,
        atom: Form::List(parts),
    })?;
    Ok(InputClause {
        clause: Clause { literals },
        place: None,
        variant: 0,
    })
}

fn append_query(
    alloc: Global,
    more: &mut Listed<InputClause>,
    query: &[Clause],
) -> Result<(), NoMemory>
    requires { length query.now < 2 ^ 30 }
    ensures { OnOk result (more.new ≡ more.old ++ spec.numbered_inputs 1 query.now) }
{
    let mut variant: u32 = 0;
    for clause in query {
        variant += 1;
        more.push(InputClause {
            clause: clause.copy(alloc)?,
            place: None,
            variant,
        })?;
    }
    Ok(())
}
