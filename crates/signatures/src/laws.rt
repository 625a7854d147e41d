//! Laws of the definitions, each as the contract of a function without a body.
ghost use Rattle.signatures.specs.Laws as laws;

/// Forms have one set of tables: any two that are right for them have the same of each word.
pub fn one_tables_law()
    ensures { laws.TablesAreOne }
{}
