//! The table of signs.

use crate::token::EsMark;

/// What an entry of the table is.
#[derive(Clone, Copy, Debug, PartialEq, Eq)]
pub enum Sign {
    /// A token.
    Mark(EsMark),
    /// The beginning of a comment, or a punctuator of the standard that the profile refuses: no
    /// token.
    Refused,
}

/// The signs (ECMA-262 5.1, 7.7), with the beginnings of comments (7.4). Longer ones stand first, so
/// that the first that stands at a place is the longest.
pub const SIGNS: [(&[u8], Sign); 29] = [
    (b"===", Sign::Mark(EsMark::Same)),
    (b"!==", Sign::Mark(EsMark::Different)),
    (b"<=", Sign::Mark(EsMark::LessOrEqual)),
    (b">=", Sign::Mark(EsMark::GreaterOrEqual)),
    (b"&&", Sign::Mark(EsMark::And)),
    (b"||", Sign::Mark(EsMark::Or)),
    (b"--", Sign::Refused),
    (b"//", Sign::Refused),
    (b"/*", Sign::Refused),
    (b"{", Sign::Mark(EsMark::OpenBrace)),
    (b"}", Sign::Mark(EsMark::CloseBrace)),
    (b"(", Sign::Mark(EsMark::OpenParen)),
    (b")", Sign::Mark(EsMark::CloseParen)),
    (b"[", Sign::Mark(EsMark::OpenBracket)),
    (b"]", Sign::Mark(EsMark::CloseBracket)),
    (b".", Sign::Mark(EsMark::Dot)),
    (b";", Sign::Mark(EsMark::Semicolon)),
    (b",", Sign::Mark(EsMark::Comma)),
    (b"<", Sign::Mark(EsMark::Less)),
    (b">", Sign::Mark(EsMark::Greater)),
    (b"+", Sign::Mark(EsMark::Plus)),
    (b"-", Sign::Mark(EsMark::Minus)),
    (b"*", Sign::Mark(EsMark::Times)),
    (b"/", Sign::Mark(EsMark::Divide)),
    (b"%", Sign::Mark(EsMark::Remainder)),
    (b"!", Sign::Mark(EsMark::Not)),
    (b"?", Sign::Mark(EsMark::Question)),
    (b":", Sign::Mark(EsMark::Colon)),
    (b"=", Sign::Mark(EsMark::Assign)),
];
