//! What variables are bound to while forms are matched, without copies.
ghost use Rattle.std.specs.Prelude.{◌≡◌, ◌++◌, ◌∷◌, [], take, length, true, false, IfOk, OnOk, MatchOption};
ghost use Rattle.std.specs.List.{list_any};
ghost use Rattle.std.specs.Str.{bytes_eq};
ghost use Rattle.kif_tree.specs.Subst.{lookup};
ghost use Rattle.unify.specs.Bindings.{names_of};

use kif_tree::{Form, Pair, Subst, Text};
use sigma_base::{Listed, NoMemory};
use std::alloc::Global;
use std::marker::Model;

#[derive(Clone, Copy)]
struct Binding<'a> {
    variable: &'a Text,
    term: &'a Form,
}

/// The variables of a pattern that were met, each once, with the part of the target that it stands for. Contracts see pairs.
#[derive(Drop)]
pub(crate) struct Bindings<'a> {
    list: Vec<Binding<'a>>,
}

impl<'a> Model for Bindings<'a> {
    ghost use Rattle.std.specs.Prelude.{List, map};
    ghost use Rattle.std.specs.Coded.{codes};
    ghost use Rattle.kif_tree.specs.declared.subst.Pair.{Pair};
    ghost use Rattle.kif_tree.specs.contracts.form.Form as form;
    ghost use Rattle.unify.specs.declared.bindings.Binding.{Binding};

    ghost Value = { List Pair };

    ghost coded = { Prim.hlevel (codes, form.the_row.coded) };

    ghost view = { λ bindings. map (λ (binding : Binding). record { variable = binding.variable.now; term = binding.term.now }) bindings.list.items };
}

impl<'a> Bindings<'a> {
    pub(crate) fn new(alloc: Global) -> Bindings<'a>
        ensures { result ≡ [] }
    {
        Bindings {
            list: Vec::new(alloc),
        }
    }

    pub(crate) fn count(&self) -> usize
        ensures { result ≡ length self.now }
    {
        self.list.len()
    }

    /// What the variable is bound to.
    pub(crate) fn find(&self, name: &Text) -> Option<&'a Form>
        ensures { MatchOption result (list_any (bytes_eq name.now) (names_of self.now) ≡ false) (λ term. list_any (bytes_eq name.now) (names_of self.now) ≡ true × (lookup self.now name.now ≡ term.now)) }
    {
        for binding in self.list.as_slice() {
            if binding.variable.equals(name) {
                return Some(binding.term);
            }
        }
        None
    }

    /// Adds the variable last.
    pub(crate) fn push(&mut self, variable: &'a Text, term: &'a Form) -> Result<(), NoMemory>
        ensures { OnOk result (self.new ≡ self.old ++ record { variable = variable.now; term = term.now } ∷ []) }
    {
        self.list.push(Binding { variable, term })?;
        Ok(())
    }

    /// Forgets what was added after the first `count`.
    pub(crate) fn truncate(&mut self, count: usize)
        ensures { self.new ≡ take count self.old }
    {
        self.list.truncate(count);
    }

    pub(crate) fn copied(&self, alloc: Global) -> Result<Subst, NoMemory>
        ensures { IfOk result (λ subst. subst.pairs ≡ self.now) }
    {
        let mut pairs = Listed::new(alloc);
        for binding in self.list.as_slice() {
            pairs.push(Pair {
                variable: binding.variable.copy(alloc)?,
                term: binding.term.copy(alloc)?,
            })?;
        }
        Ok(Subst { pairs })
    }
}
