//! Laws of the definitions, each as the contract of a function without a body.
ghost use Rattle.diagnose.specs.Laws as laws;

/// Forms at different places have one list of diagnostics at most.
pub fn one_list_law()
    ensures { laws.OneList }
{}
