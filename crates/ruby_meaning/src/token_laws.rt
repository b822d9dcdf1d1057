//! Laws of the definition of tokens, each the contract of a function that does nothing.

ghost use Rattle.ruby_meaning.specs.Lexing.Laws.{SomeLexing, OneList, NeverBoth, OneFault, Joined, Placed, InOrder, OneEof, LongestSign, LongestMethodSign, NoSign};
ghost use Rattle.ruby_meaning.specs.Lexing.Written.{WrittenReads};

/// A text has one list of tokens or one refusal, and never both; it is the join of the slices of
/// its pieces, with what stands behind its end.
pub fn one_lexing()
    ensures some_lexing { SomeLexing }
    ensures one_list { OneList }
    ensures never_both { NeverBoth }
    ensures one_fault { OneFault }
    ensures joined { Joined }
{}

/// A token's place is that of its first unit, and its span lies in the text. The spans are in
/// order, and the list has one end token, its last.
pub fn tokens_placed()
    ensures placed { Placed }
    ensures in_order { InOrder }
    ensures one_eof { OneEof }
{}

/// An operator is the longest that stands at its place.
pub fn longest_sign()
    ensures longest { LongestSign }
    ensures longest_method { LongestMethodSign }
    ensures none { NoSign }
{}

/// What is written in double quotes is one token, and stands for what was written.
pub fn quoted_reads()
    ensures { WrittenReads }
{}
