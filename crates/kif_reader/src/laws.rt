//! Laws of the definitions, each as the contract of a function without a body.
ghost use Rattle.kif_reader.specs.Laws as laws;

/// Each text spells forms or has a first fault: one list of forms at most, one first fault at most, and not both.
pub fn one_reading_law()
    ensures some { laws.EachHasReading }
    ensures spelled { laws.SpellsOnce }
    ensures exclusive { laws.SpelledHasNoFault }
    ensures fault { laws.OneFirstFault }
    ensures front { laws.FrontIsOfWhole }
{}

/// The forms that texts spell have leaves of their kinds and their shape, and none holds the word of answer literals.
pub fn spelled_form_law()
    ensures leaves { laws.SpelledIsSpellable }
    ensures answerless { laws.SpelledHasNoAnswer }
    ensures shaped { laws.SpelledIsShaped }
{}

/// The printed text of a form that a text spells spells just that form again.
pub fn printed_form_law()
    ensures { laws.PrintedSpellsAgain }
{}

/// The tokens that a reader gives are those of the text's cut, up to its end or to the first fault of a token. A text has one such fault at
/// most, and none where the whole of it is cut.
pub fn tokens_law()
    ensures tokens { laws.GivesTheTokens }
    ensures places { laws.TokensStand }
    ensures whole { laws.EndsAtTheEnd }
    ensures fault { laws.MeetsTheFault }
    ensures one { laws.OneLexFault }
    ensures exclusive { laws.WholeHasNoLexFault }
{}

/// The test of the definitions decides which texts are numerals.
pub fn numeral_law()
    ensures { laws.NumeralDecides }
{}
