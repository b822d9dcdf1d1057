//! Laws of the grammar, each the contract of a function that does nothing.

ghost use Rattle.ruby_meaning.specs.Grammar.Laws.{OneProgram, SpelledOrRefused, NeverBoth, OnePlace, BeginningsAreFronts, OneTokenTells};
ghost use Rattle.ruby_meaning.specs.Grammar.Refusals.{OneConstruct, SomeConstruct};
ghost use Rattle.ruby_meaning.specs.Grammar.Rows.{RefusedRows};

/// Tokens spell one program at most. They spell one within the limit of depth or have one place of
/// a refusal, and never both.
pub fn one_program()
    ensures one_program { OneProgram }
    ensures some_answer { SpelledOrRefused }
    ensures never_both { NeverBoth }
    ensures one_place { OnePlace }
{}

/// Each beginning of what a production spells is a front of it.
pub fn beginnings_are_fronts()
    ensures { BeginningsAreFronts }
{}

/// The grammar meets what is asked of a grammar in which one token tells how to go on.
pub fn one_token_tells()
    ensures { OneTokenTells }
{}

/// A refusal names one construct, at one place.
pub fn one_construct()
    ensures one { OneConstruct }
    ensures some { SomeConstruct }
{}

/// Parameters out of order, and blocks where none may stand, are refused at once.
pub fn refused_rows()
    ensures { RefusedRows }
{}
