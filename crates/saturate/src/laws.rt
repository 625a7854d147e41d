//! Laws of runs, each as the contract of a function without a body.
ghost use Rattle.saturate.specs.Laws as laws;

/// Two runs from the same inputs within the same limits end alike after the same turns. They differ in the names of variables inside the
/// substitutions of their steps alone, where a substitution is read as what it gives the variables of its parent.
pub fn one_run_law()
    ensures { laws.OneRun }
{}

/// The steps of a run derive its clauses.
pub fn sound_law()
    ensures { laws.RunsAreSound }
{}

/// The end of a run means what is said of it.
pub fn end_law()
    ensures { laws.EndsHold }
{}

/// Where the query is one atom, and a clause with which the search begins is one positive literal that unifies with it, a search in
/// support mode finds something or ends crowded.
pub fn unit_law()
    ensures { laws.UnitsAnswer }
{}

/// Subsumption is a preorder, and what a tautology subsumes is one.
pub fn subsumption_law()
    ensures reflexive { laws.SubsumptionIsReflexive }
    ensures transitive { laws.SubsumptionIsTransitive }
    ensures tautologies { laws.TautologiesSubsume }
{}
