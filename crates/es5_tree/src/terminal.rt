//! The terminals of the grammar: what it sees of a token.

use crate::token::EsMark;

/// The reserved words that productions have (ECMA-262 5.1, 7.6.1.1, 7.8.1 and 7.8.2).
#[derive(Clone, Copy, Debug, PartialEq, Eq)]
pub enum Keyword {
    Break,
    Catch,
    Continue,
    Delete,
    Else,
    False,
    Finally,
    Function,
    If,
    Null,
    Return,
    This,
    Throw,
    True,
    Try,
    Typeof,
    Var,
    While,
}

/// What the grammar sees of a token (ECMA-262 5.1, 5.1.4).
#[derive(Clone, Copy, Debug, PartialEq, Eq)]
pub enum Terminal {
    /// An identifier but for `arguments`.
    Name,
    Arguments,
    Num,
    Str,
    Keyword(Keyword),
    Mark(EsMark),
    /// `eval` or another reserved word, which no production has.
    Refused,
    End,
}

/// The spellings of the keywords.
pub const KEYWORDS: [(&[u8], Keyword); 18] = [
    (b"break", Keyword::Break),
    (b"catch", Keyword::Catch),
    (b"continue", Keyword::Continue),
    (b"delete", Keyword::Delete),
    (b"else", Keyword::Else),
    (b"false", Keyword::False),
    (b"finally", Keyword::Finally),
    (b"function", Keyword::Function),
    (b"if", Keyword::If),
    (b"null", Keyword::Null),
    (b"return", Keyword::Return),
    (b"this", Keyword::This),
    (b"throw", Keyword::Throw),
    (b"true", Keyword::True),
    (b"try", Keyword::Try),
    (b"typeof", Keyword::Typeof),
    (b"var", Keyword::Var),
    (b"while", Keyword::While),
];

/// The levels of expressions that are parts of others, loosest first (ECMA-262 5.1, 11.2 and 11.4 to
/// 11.13).
#[derive(Clone, Copy, Debug, PartialEq, Eq)]
pub enum Level {
    Assignment,
    And,
    Equality,
    Relational,
    Additive,
    Multiplicative,
    Unary,
    /// Members, indices and calls.
    Call,
}
