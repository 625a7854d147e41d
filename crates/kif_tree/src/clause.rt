//! Literals and clauses.
ghost use Rattle.std.specs.Prelude.{◌≡◌, IfOk};

use crate::form::Form;
use crate::place::Place;
use sigma_base::{Listed, NoMemory};
use std::alloc::Global;
use std::marker::Model;

/// An atom, or its negation.
#[derive(Debug, Drop)]
pub struct Literal {
    pub positive: bool,
    pub atom: Form,
}

/// A disjunction of literals, which contracts see as their list. Its variables are universal.
#[derive(Debug, Drop)]
pub struct Clause {
    pub literals: Listed<Literal>,
}

impl Model for Clause {
    ghost use Rattle.std.specs.Prelude.{List};
    ghost use Rattle.std.specs.Coded.{codes};
    ghost use Rattle.kif_tree.specs.declared.clause.Literal.{Literal};
    ghost use Rattle.kif_tree.specs.contracts.form.Form as form;

    ghost Value = { List Literal };

    ghost coded = { Prim.hlevel (codes, form.the_row.coded) };

    ghost view = { λ clause. clause.literals };
}

impl Literal {
    /// An equal literal.
    pub fn copy(&self, alloc: Global) -> Result<Literal, NoMemory>
        ensures { IfOk result (λ copy. copy ≡ self.now) }
    {
        Ok(Literal {
            positive: self.positive,
            atom: self.atom.copy(alloc)?,
        })
    }
}

impl Clause {
    /// An equal clause.
    pub fn copy(&self, alloc: Global) -> Result<Clause, NoMemory>
        ensures { IfOk result (λ copy. copy ≡ self.now) }
    {
        let mut literals = Listed::new(alloc);
        for literal in self.literals.items() {
            literals.push(literal.copy(alloc)?)?;
        }
        Ok(Clause { literals })
    }
}

/// A clause from which a search begins. With a place it is a clause of that variant of the form there. Without one,
/// variant 0 is the reflexivity clause, and variant k from 1 is the k-th clause of the query.
#[derive(Debug, Drop)]
pub struct InputClause {
    pub clause: Clause,
    pub place: Option<Place>,
    pub variant: u32,
}
