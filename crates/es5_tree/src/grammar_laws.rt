//! Laws of the grammar, each the contract of a function that does nothing.

ghost use Rattle.es5_tree.specs.Grammar.Laws.{BeginningsAreFronts, NeverBoth, NotScriptOrRead, OnePlace, OneRead, OneScript, OneSpelled, OneStop, OneTokenTells, ReadSpells, ScriptOrPlace, SpelledOrRefused, StopsAtToken};

/// Tokens spell one script at most. They spell one within the limit of depth or have one token
/// that ends no front, and never both; where they end with their end token, it is one of them.
pub fn tokens_spell_one()
    ensures one_script { OneScript }
    ensures some_answer { SpelledOrRefused }
    ensures never_both { NeverBoth }
    ensures one_stop { OneStop }
    ensures at_token { StopsAtToken }
{}

/// With its places, bytes spell one script at most, and one at most but for sites and places.
pub fn bytes_spell_one()
    ensures one_read { OneRead }
    ensures spells { ReadSpells }
    ensures one_spelled { OneSpelled }
{}

/// Bytes spell a script within the limit of depth or have one place where they spell none, and
/// never both.
pub fn script_or_place()
    ensures some_answer { ScriptOrPlace }
    ensures never_both { NotScriptOrRead }
    ensures one_place { OnePlace }
{}

/// Each beginning of what a production spells is a front of it.
pub fn beginnings_are_fronts()
    ensures { BeginningsAreFronts }
{}

/// The grammar meets what is asked of a grammar in which one token tells how to go on.
pub fn one_token_tells()
    ensures { OneTokenTells }
{}
