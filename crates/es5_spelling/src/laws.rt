//! Laws of spelling, each the contract of a function that does nothing.

ghost use Rattle.es5_spelling.specs.Laws.{NodesWithinBytes, NodesWithinTokens, PrintedIsSpelled, ReadIsSpellable, SameBytesSameText, SpelledIsSpellable};

/// The printed text of a spellable script spells it, but for its sites and places.
pub fn printed_is_spelled()
    ensures { PrintedIsSpelled }
{}

/// What bytes spell is spellable, with its places and but for sites and places.
pub fn spelled_is_spellable()
    ensures read { ReadIsSpellable }
    ensures spelled { SpelledIsSpellable }
{}

/// A script has no more statements and expressions than there are bytes that spell it.
pub fn nodes_within_bytes()
    ensures { NodesWithinBytes }
{}

/// A script has fewer statements and expressions than there are tokens that spell it.
pub fn nodes_within_tokens()
    ensures { NodesWithinTokens }
{}

/// Scripts that the same bytes spell print the same text.
pub fn same_bytes_same_text()
    ensures { SameBytesSameText }
{}
