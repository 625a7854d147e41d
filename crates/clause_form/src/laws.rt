//! Laws of the definitions, each as the contract of a function without a body.
ghost use Rattle.clause_form.specs.SentenceLaws as laws;

/// A sentence reads as literals of atoms, under conjunctions and disjunctions that have parts.
pub fn reading_law()
    ensures { laws.SentencesReadAsAtoms }
{}

/// The clauses of what a sentence reads as are literals of atoms, and none is empty.
pub fn distribution_law()
    ensures { laws.SentencesGiveAtomClauses }
{}

/// The clauses of a sentence are proper and have no answer literals.
pub fn input_law()
    ensures { laws.SentencesGiveInputs }
{}

/// The clauses of a query that is a sentence are proper, each with the answer literal last.
pub fn query_law()
    ensures { laws.SentencesGiveQueryClauses }
{}

/// A shaped form in the profile, without row variables and without a variable at a head, is a sentence.
pub fn sentence_law()
    ensures { laws.ProfiledAreSentences }
{}
