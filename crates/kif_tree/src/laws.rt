//! Laws of the definitions, each as the contract of a function without a body.
ghost use Rattle.kif_tree.specs.Laws as laws;

/// One substitution and then another replace as their composition does.
pub fn composition_law()
    ensures { laws.Composes }
{}

/// The test of two forms in the definitions decides whether they are equal.
pub fn equality_law()
    ensures { laws.SameDecides }
{}

/// Fillings agree on a form exactly where they agree on its variables.
pub fn agreement_law()
    ensures agree { laws.Agrees }
    ensures only { laws.AgreesOnly }
{}

/// Ground forms in the place of all variables make a form without row variables ground.
pub fn ground_law()
    ensures { laws.Grounds }
{}
