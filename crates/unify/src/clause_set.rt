//! The axioms of searches.
ghost use Rattle.std.specs.Prelude.{◌≡◌, IfOk};
ghost use Rattle.unify.specs.ClauseSets.{IsClauseSet};

use kif_tree::InputClause;
use sigma_base::{Listed, NoMemory};
use std::marker::Model;

/// Fewer than 2^31 proper clauses without answer literals, each with the place that it comes from. Contracts see their list.
#[derive(Debug, Drop)]
pub struct ClauseSet {
    inputs: Listed<InputClause>,
}

impl Model for ClauseSet {
    ghost use Rattle.std.specs.Prelude.{List};
    ghost use Rattle.std.specs.Coded.{codes};
    ghost use Rattle.kif_tree.specs.declared.clause.InputClause.{InputClause};
    ghost use Rattle.kif_tree.specs.contracts.form.Form as form;
    ghost use Rattle.unify.specs.ClauseSets.{IsClauseSet};

    ghost Value = { List InputClause };

    ghost coded = { Prim.hlevel (codes, form.the_row.coded) };

    ghost view = { λ set. set.inputs };

    ghost invariant = { λ set. IsClauseSet set.inputs };
}

impl ClauseSet {
    /// The set of these clauses, in their order.
    pub fn of(inputs: Listed<InputClause>) -> Result<ClauseSet, NoMemory>
        requires { IsClauseSet inputs }
        ensures { IfOk result (λ set. set ≡ inputs) }
    {
        Ok(ClauseSet { inputs })
    }

    /// The clauses in order. It takes no memory.
    pub fn inputs(&self) -> &[InputClause]
        ensures inputs { result.now ≡ self.now }
        ensures set { IsClauseSet self.now }
    {
        self.inputs.items()
    }
}
