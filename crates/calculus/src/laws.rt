//! Laws of the definitions, each as the contract of a function without a body.
ghost use Rattle.calculus.specs.Laws as laws;

/// A truth assignment that satisfies the evidence of a clause satisfies the clause.
pub fn evidence_law()
    ensures { laws.EvidenceHolds }
{}

/// Each member of the evidence of a clause is a ground instance of an input or of equality.
pub fn instances_law()
    ensures { laws.EvidenceIsGround }
{}

/// Each member of the evidence that is an instance of an input is so by one of the uses.
pub fn uses_law()
    ensures { laws.EvidenceIsOfUses }
{}

/// The answer literals of each input that is used are answer literals of the clause.
pub fn answers_law()
    ensures { laws.AnswersStay }
{}

/// The evidence of a clause is made of that of earlier clauses.
pub fn recursion_law()
    ensures { laws.EvidenceSteps }
{}

/// A ground instance under a filling is one under a list of pairs.
pub fn pairs_law()
    ensures { laws.PairsSuffice }
{}

/// The evidence of a clause that has answer literals alone, or no literal, refutes.
pub fn refutation_law()
    ensures { laws.EvidenceRefutes }
{}

/// The evidence of a clause that has answer literals alone is evidence for the query under the bindings that it shows.
pub fn query_law()
    ensures { laws.QueryEvidence }
{}

/// The evidence of a clause without literals is a contradiction of the inputs.
pub fn contradiction_law()
    ensures { laws.ContradictionEvidence }
{}

/// Satisfaction doesn't change under repeats and order of literals.
pub fn satisfaction_law()
    ensures { laws.SatisfactionIsOfLiterals }
{}

/// A truth assignment that satisfies two clauses satisfies what one resolution on an atom concludes from them.
pub fn resolution_law()
    ensures { laws.ResolutionHolds }
{}

/// No truth assignment satisfies a clause together with the negation of each of its literals.
pub fn negation_law()
    ensures { laws.NegationRefutes }
{}

/// A substitution followed by another acts as their composition on clauses.
pub fn composition_law()
    ensures { laws.ClausesCompose }
{}

/// A tidy clause stays as it is when it is made tidy again.
pub fn idempotence_law()
    ensures { laws.TidyIsIdempotent }
{}

/// Two clauses that substitutions turn into each other have one tidy form.
pub fn renaming_law()
    ensures { laws.TidiesAlike }
{}

/// The evidence of a clause depends on what the variables of the clause become, and on no other variable.
pub fn variables_law()
    ensures { laws.EvidenceIsOfVariables }
{}

/// A substitution by ground forms makes each variable ground, also one that no pair names.
pub fn closing_law()
    ensures { laws.GroundPairsClose }
{}
