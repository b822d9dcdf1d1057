//! Laws of the definitions, each the contract of a function that does nothing.

ghost use Rattle.es5_tree.specs.Signs.{LongestSign, NoSign};
ghost use Rattle.es5_tree.specs.Written.{DigitsRead, DigitsWritten, NumberStands, WordStands, TextStands};
ghost use Rattle.es5_tree.specs.Laws.{LexedOnce, SlicesAscend, OneEndToken, NumeralsSafe, TokensOrNone};

/// Bytes have one list of tokens, or one first byte where no token, blank or comment begins, and
/// never both.
pub fn one_list_of_tokens()
    ensures one { TokensOrNone }
    ensures once { LexedOnce }
{}

/// The slices of the tokens of bytes follow one another, the end token is the last and the only
/// one, and numerals are at most 2^53-1.
pub fn tokens_in_order()
    ensures ascend { SlicesAscend }
    ensures ended { OneEndToken }
    ensures safe { NumeralsSafe }
{}

/// A sign is the longest of the table that begins the bytes there.
pub fn longest_sign()
    ensures longest { LongestSign }
    ensures none { NoSign }
{}

/// A run of digits is a numeral exactly where it is what `{}` writes of a number up to 2^53-1.
pub fn decimal_numerals()
    ensures read { DigitsRead }
    ensures written { DigitsWritten }
{}

/// A number, a name and a text as a writer spells them are each one token, which is read back.
pub fn written_tokens()
    ensures number { NumberStands }
    ensures word { WordStands }
    ensures text { TextStands }
{}
