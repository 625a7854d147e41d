//! Laws of the definitions, each as the contract of a function without a body.
ghost use Rattle.translate.specs.Laws as laws;

/// Forms have one translation at most, by any tables that are right for the same forms: at most one within the limit and at most one form
/// at which the limit is passed, and never both.
pub fn one_translation_law()
    ensures translations { laws.TranslationsAreOne }
    ensures whole { laws.WholesAreOne }
    ensures full { laws.FullAtOne }
    ensures exclusive { laws.WholeIsNotFull }
{}

/// What the forms that are left out have for diagnostics stands at their places, in order.
pub fn left_out_law()
    ensures ascending { laws.LeftOutAreAscending }
    ensures placed { laws.LeftOutArePlaced }
{}

/// A form that is a word before words, numerals and strings gives one clause, itself. The word isn't logical, and the form in the profile
/// and not only shown.
pub fn plain_form_law()
    ensures itself { laws.PlainGivesItself }
    ensures profiled { laws.PlainIsInProfile }
    ensures shown { laws.PlainIsNotShown }
{}
