//! Laws of lists of conclusions and of derivations, each as the contract of a function without a body.
ghost use Rattle.infer.specs.Laws as laws;

/// Two lists of the conclusions at the same sites have the same clauses in the same order. On the variables of the parents their steps
/// differ in the names of variables inside substitutions alone.
pub fn one_list_law()
    ensures { laws.OneList }
{}

/// Steps derive one list of clauses, or have one first step that isn't allowed, and not both.
pub fn checking_law()
    ensures one_derivation { laws.OneDerivation }
    ensures one_bad_step { laws.OneBadStep }
    ensures either { laws.BadStepOrDerivation }
{}
