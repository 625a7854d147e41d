//! Laws of outcomes and refusals, each as the contract of a function without a body.
ghost use Rattle.answers.specs.Laws as laws;

/// The outcome is a function of set, query and limits, but for the names of variables inside the substitutions of its proofs. They aren't
/// shown, so the page is one. Each run of the search has an outcome, which is alike.
pub fn one_outcome_law()
    ensures outcome { laws.OneOutcome }
    ensures every { laws.EveryRunAnswers }
    ensures page { laws.OnePage }
{}

/// Whatever the run of the search: each answer has a proof that ends in just what is shown, and what it rests on refutes. The end that is told
/// means what is said of it.
pub fn proof_law()
    ensures proved { laws.OutcomesAreProved }
    ensures end { laws.OutcomesEnd }
{}

/// In support mode a query of one atom is answered where one axiom of one positive literal unifies with it, unless the search ends crowded.
pub fn unit_law()
    ensures { laws.UnitsAnswer }
{}

/// A text is one query at most, or is none for one reason at most, and not both; want of memory is no such reason. So a good query within the
/// limits is refused for want of memory alone, and so is a question that has an outcome.
pub fn refusal_law()
    ensures good { laws.GoodIsRefusedForMemory }
    ensures one { laws.OneQueryAnswer }
    ensures memory { laws.MemoryIsNoQueryAnswer }
    ensures asked_or_refused { laws.AskedIsRefusedForMemory }
{}
