//! Laws of the definitions, each as the contract of a function without a body.
ghost use Rattle.taxonomy.specs.Laws as laws;

/// The words that a form tells are those of which it is the list.
pub fn told_words_law()
    ensures { laws.TellsItsWords }
{}
