//! Sets of variables and row variables.
ghost use Rattle.std.specs.Prelude.{◌≡◌, ◌||◌, ◌&&◌, [], not, OnOk};
ghost use Rattle.std.specs.List.{list_any};
ghost use Rattle.kif_tree.specs.Shape.{is_name};
ghost use Rattle.kif_tree.specs.Terms.{same};
ghost use Rattle.kif_tree.specs.declared.form.Form as declared;

use crate::form::Form;
use crate::word_set::WordSet;
use sigma_base::NoMemory;
use std::alloc::Global;
use std::marker::Model;

/// A set of variables and row variables, which contracts see as a list of forms.
#[derive(Debug, Drop)]
pub struct NameSet {
    variables: WordSet,
    rows: WordSet,
}

impl Model for NameSet {
    ghost use Rattle.std.specs.Prelude.{List};
    ghost use Rattle.std.specs.Coded.{codes};
    ghost use Rattle.kif_tree.specs.declared.form.Form.{Form};
    ghost use Rattle.kif_tree.specs.contracts.form.Form as form;
    ghost use Rattle.kif_tree.specs.NameSets.{names_of};

    ghost Value = { List Form };

    ghost coded = { Prim.hlevel (codes, form.the_row.coded) };

    ghost view = { λ set. names_of set.variables set.rows };
}

impl NameSet {
    /// No names. It takes no memory.
    pub fn new(alloc: Global) -> NameSet
        ensures { result ≡ [] }
    {
        NameSet {
            variables: WordSet::new(alloc),
            rows: WordSet::new(alloc),
        }
    }

    /// Whether the form is a name of the set. It takes no memory.
    pub fn has(&self, form: &Form) -> bool
        ensures { result ≡ list_any (same form.now) self.now }
    {
        match form {
            Form::Variable(text) => self.variables.has(text.bytes()),
            Form::Row(text) => self.rows.has(text.bytes()),
            _ => false,
        }
    }

    /// Adds the name, if the set hasn't got it. Any other form is left out.
    pub fn add(&mut self, alloc: Global, name: &Form) -> Result<(), NoMemory>
        ensures { OnOk result ((form : declared.Form) → list_any (same form) self.new ≡ (list_any (same form) self.old || (is_name name.now && same form name.now))) }
    {
        match name {
            Form::Variable(text) => self.variables.add(alloc, text.bytes()),
            Form::Row(text) => self.rows.add(alloc, text.bytes()),
            _ => Ok(()),
        }
    }

    /// Takes the name out, if the set has it. It takes no memory.
    pub fn remove(&mut self, name: &Form)
        ensures { (form : declared.Form) → list_any (same form) self.new ≡ (list_any (same form) self.old && not (same form name.now)) }
    {
        match name {
            Form::Variable(text) => self.variables.remove(text.bytes()),
            Form::Row(text) => self.rows.remove(text.bytes()),
            _ => {}
        }
    }
}
