//! Laws of the definitions, each as the contract of a function without a body.
ghost use Rattle.sigma_app.specs.Laws as laws;
ghost use Rattle.sigma_app.specs.Requests as requests;

/// The tool gives one status and one text for the same words and files: for words that the promise of the parser of command lines doesn't take,
/// the other outcome is the usage. It has an outcome for all words and files but for a query; for a check and for clauses where the forms have a
/// translation and a list of diagnostics, or too many clauses. A good query over good files has status 0 or 1, where its words aren't refused,
/// and the usage has a cause in the words.
pub fn one_outcome_law()
    ensures some { laws.ToolAnswers }
    ensures translations { laws.TranslationsAnswer }
    ensures one { laws.ToolIsOne }
    ensures good { laws.GoodQueriesAreAnswered }
    ensures usage { laws.UsageHasCause }
    ensures others { laws.OthersGetUsage }
{}

/// What forms that are spelled give is a set of clauses, of which the laws of `answers` say what its outcomes are.
pub fn clause_set_law()
    ensures { laws.TranslationsAreSets }
{}

/// The words of a command line mean one thing at most: nothing where the first names no command, and something where the parser
/// promises to take them. Then the options have values that they may have. It takes words of each command.
pub fn words_law()
    ensures one { requests.MeansOne }
    ensures none { requests.OthersMeanNothing }
    ensures some { requests.TakenMeans }
    ensures taken { requests.TakesUsage }
    ensures modes { requests.TakesTwoModes }
    ensures options { requests.OptionsFit }
    ensures sizes { requests.SizesFit }
    ensures twice { requests.TwiceIsExact }
{}
