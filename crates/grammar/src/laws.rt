//! Laws of grammars, each the contract of a function that does nothing.

ghost use Rattle.grammar.specs.Laws.{OneValue, SomeAnswer, NeverBoth, OnePlace, BeginningsAreFronts, FrontsAreBeginnings, MoreFronts, GivesWhatIsSpelled, ReadsWhatIsSpelled, RefusesAtOnce, ReadsByProduction, TellsFronts, WithoutRecursion, SmallGrammar, NearestIf, NoWordTwice, Levels};

/// Tokens spell one value at most.
pub fn one_value<T, N, K>()
    ensures { OneValue T N K }
{}

/// Tokens spell a value within the levels or have one place of a refusal, and never both.
pub fn one_answer<T, N, K>()
    ensures some { SomeAnswer T N K }
    ensures never_both { NeverBoth T N K }
    ensures one_place { OnePlace T N K }
{}

/// The fronts are the beginnings of what is spelled, and with more levels there are more.
pub fn fronts<T, N, K>()
    ensures beginnings { BeginningsAreFronts T N K }
    ensures completions { FrontsAreBeginnings T N K }
    ensures more { MoreFronts T N K }
{}

/// The reader gives exactly what is spelled within the levels, and else refuses at the first token
/// that ends no front.
pub fn reads_all<T, N, K>()
    ensures gives { GivesWhatIsSpelled T N K }
    ensures reads { ReadsWhatIsSpelled T N K }
    ensures refuses { RefusesAtOnce T N K }
{}

/// The reader of a name is that of its production, and it tells fronts.
pub fn reads_names<T, N, K>()
    ensures by_production { ReadsByProduction T N K }
    ensures tells_fronts { TellsFronts T N K }
{}

/// Where a primary is an atom or an expression in parentheses, and an expression goes on behind a
/// primary, the openings may be counted, and closed one after the other behind an atom.
pub fn parentheses<T, A, B>()
    ensures { WithoutRecursion T A B }
{}

/// A small grammar with a production of each form meets what the laws ask.
pub fn small_grammar()
    ensures { SmallGrammar }
{}

/// What the reader of the small grammar answers on some lists.
pub fn small_lists()
    ensures nearest { NearestIf }
    ensures no_word_twice { NoWordTwice }
    ensures levels { Levels }
{}
