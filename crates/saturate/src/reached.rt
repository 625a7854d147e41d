//! Where a search stands.
ghost use Rattle.std.specs.Prelude.{◌≡◌, ◌∷◌, ◌++◌, [], ◌<◌, ◌^◌, length, Bool, true, false, Some, IfOk, OnOk, get_or};
ghost use Rattle.std.specs.Option.{option_map};
ghost use Rattle.calculus.specs.Rules.{nth};
ghost use Rattle.kif_tree.specs.Clauses.{Literals};
ghost use Rattle.unify.specs.Subsumption.{Subsumes};
ghost use Rattle.infer.specs.Conclusions.{AreConclusions, clause_at};
ghost use Rattle.infer.specs.declared.conclusion.Conclusion.{Conclusion};
ghost use Rattle.saturate.specs.Runs as spec;
ghost use Rattle.saturate.specs.Fingerprints.{fingerprints as prints_of, may_meet};
ghost use Rattle.saturate.specs.Indexes.{IsListedUnderOne, listed as listed_in};
ghost use Rattle.saturate.specs.States.{HasWeights, HasFingerprints};
ghost use Rattle.std.specs.Prelude.{min, sum, map};
ghost use Rattle.kif_tree.specs.Terms.{symbols as symbols_in};

use crate::fingerprint::Fingerprints;
use crate::index::{Index, list, rarest_key};
use crate::inputs::Inputs;
use crate::table::FingerprintTable;
use calculus::Step;
use infer::Conclusion;
use kif_tree::{Clause, symbols};
use sigma_base::{Listed, NoMemory};
use std::alloc::Global;

/// Where a search stands. The lists after the steps name clauses by the numbers of their steps, which begin with the inputs in order.
#[derive(Debug, Drop)]
pub struct Reached<'a> {
    pub inputs: Inputs<'a>,
    /// The clauses of the steps after the inputs.
    pub derived: Listed<Clause>,
    pub steps: Listed<Step>,
    /// Those that were given and not dropped, after those that in support mode began so, in this order.
    pub processed: Listed<u32>,
    pub waiting: Listed<u32>,
    /// Those that nest too deep.
    pub aside: Listed<u32>,
    /// Those that have answer literals alone.
    pub found: Listed<u32>,
}

impl<'a> Reached<'a> {
    /// The clause of that number. It takes no memory.
    pub fn clause(&self, number: u32) -> Option<&Clause>
        ensures { option_map (λ clause. clause.now) result ≡ nth (spec.clauses self.now) number }
    {
        let at = number as usize;
        let count = self.inputs.count();
        if at < count {
            return match self.inputs.get(at) {
                Some(input) => Some(&input.clause),
                None => None,
            };
        }
        self.derived.items().get(at - count)
    }

    /// Whether the clause is one of the query, as it stands among the inputs. It takes no memory.
    pub fn is_of_query(&self, number: u32) -> bool
        ensures { result ≡ spec.is_of_query self.now number }
    {
        self.inputs.is_of_query(number)
    }

    /// Whether the clause is no input. It takes no memory.
    pub fn is_derived(&self, number: u32) -> bool
        ensures { result ≡ spec.is_derived self.now number }
    {
        self.inputs.count() <= number as usize
    }
}

/// Where a search stands, and what would be counted again and again.
#[derive(Debug, Drop)]
pub(crate) struct State<'a> {
    pub reached: Reached<'a>,
    /// How many symbols the clause of each step has.
    pub weights: Listed<u64>,
    /// The fingerprints of the clause of each step.
    pub fingerprints: FingerprintTable,
    /// The numbers of all known clauses, and of some that were dropped, each by the key of one of its literals.
    pub listed: Index,
    /// How many derived clauses are processed, wait or are aside.
    pub kept: usize,
}

/// The words, variables, numerals and strings of all literals, or the greatest `u64` where there are more.
pub(crate) fn weight(clause: &Clause) -> u64
    ensures { result ≡ spec.weight clause.now }
{
    let mut count: u64 = 0;
    for literal in clause.literals.items() {
        count = count.saturating_add(symbols(&literal.atom));
    }
    count
}

impl<'a> State<'a> {
    /// The next step, with its clause, which has the number that comes back. More steps than numbers of 32 bits count as want of memory, which
    /// comes long before.
    pub fn add(&mut self, alloc: Global, conclusion: Conclusion) -> Result<u32, NoMemory>
        requires weights { HasWeights self.old }
        requires fingerprints { HasFingerprints self.old }
        ensures number { IfOk result (λ number. number ≡ length self.old.reached.steps) }
        ensures grown { OnOk result (self.new.reached ≡ spec.grown self.old.reached conclusion) }
        ensures kept { OnOk result (self.new.kept ≡ self.old.kept) }
        ensures listed { OnOk result (self.new.listed ≡ self.old.listed) }
        ensures weights { OnOk result (HasWeights self.new) }
        ensures fingerprints { OnOk result (HasFingerprints self.new) }
    {
        let Ok(number) = u32::try_from(self.reached.steps.items().len()) else {
            return Err(NoMemory);
        };
        let Conclusion { clause, step } = conclusion;
        self.weights.push(weight(&clause))?;
        self.fingerprints.add(alloc, &clause)?;
        self.reached.derived.push(clause)?;
        self.reached.steps.push(step)?;
        Ok(number)
    }

    /// Lists the clause by the key of that of its literals under which the fewest clauses stand.
    pub fn list(&mut self, alloc: Global, number: u32) -> Result<(), NoMemory>
        requires number { number < length (spec.clauses self.old.reached) }
        requires fingerprints { HasFingerprints self.old }
        ensures listed { OnOk result (IsListedUnderOne (listed_in self.old.listed) (listed_in self.new.listed) (clause_at (spec.clauses self.old.reached) number) number) }
        ensures reached { OnOk result (self.new.reached ≡ self.old.reached) }
        ensures weights { OnOk result (self.new.weights ≡ self.old.weights) }
        ensures fingerprints { OnOk result (self.new.fingerprints ≡ self.old.fingerprints) }
        ensures kept { OnOk result (self.new.kept ≡ self.old.kept) }
    {
        let key = rarest_key(
            &self.listed,
            &self.fingerprints.all.items()[number as usize],
        );
        list(alloc, &mut self.listed, key, number)
    }

    /// How many symbols the clause has.
    pub fn weight_of(&self, number: u32) -> u64
        requires { HasWeights self.now }
        ensures { result ≡ spec.weight_at self.now.reached number }
    {
        match self.weights.items().get(number as usize) {
            Some(weight) => *weight,
            None => 0,
        }
    }

    /// Where it is false, the clause subsumes none with these fingerprints.
    pub fn may_subsume(&self, number: u32, prints: &Fingerprints) -> bool
        requires { HasFingerprints self.now }
        ensures { result ≡ false → (general special : Literals) → nth (spec.clauses self.now.reached) number ≡ Some general → prints.now ≡ prints_of special → Subsumes general special → ⊥ }
    {
        match self.fingerprints.all.items().get(number as usize) {
            Some(own) => own.may_subsume(prints),
            None => true,
        }
    }

    /// Where it is false, no literal of the one clause is resolved upon with one of the other.
    fn may_resolve(&self, given: u32, partner: u32) -> bool
        requires { HasFingerprints self.now }
        ensures { result ≡ false → may_meet (prints_of (clause_at (spec.clauses self.now.reached) given)) (prints_of (clause_at (spec.clauses self.now.reached) partner)) ≡ false }
    {
        let all = self.fingerprints.all.items();
        match (all.get(given as usize), all.get(partner as usize)) {
            (Some(own), Some(other)) => own.may_meet(other),
            _ => true,
        }
    }

    /// Where it is false, nothing follows from the two clauses.
    pub fn may_meet(&self, given: u32, partner: u32) -> bool
        requires { HasFingerprints self.now }
        ensures { result ≡ false → (same : Bool) → AreConclusions (clause_at (spec.clauses self.now.reached) given) (clause_at (spec.clauses self.now.reached) partner) same [] }
    {
        let marks = self.fingerprints.marks.items();
        let Some(own) = marks.get(given as usize) else {
            return true;
        };
        let Some(other) = marks.get(partner as usize) else {
            return true;
        };
        if own.may_rewrite(other) || other.may_rewrite(own) {
            return true;
        }
        own.may_resolve_by(other) && self.may_resolve(given, partner)
    }
}
