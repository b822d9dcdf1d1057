//! What stands at a place between two tokens.

/// What a byte may begin.
#[derive(Clone, Copy, Debug, PartialEq, Eq)]
pub enum Class {
    /// White space or a line terminator.
    Blank,
    /// A name or a reserved word.
    Letter,
    /// A numeral.
    Digit,
    /// A string literal.
    Quote,
    /// A comment, a sign or nothing.
    Other,
}

/// Whether the last token is `return` or `throw`, behind which only `;` or the end may come once a
/// line terminator has come (ECMA-262 5.1, 7.9.1, 12.9 and 12.13).
#[derive(Clone, Copy, Debug, PartialEq, Eq)]
pub enum Restriction {
    /// It is another one.
    Free,
    /// It is, and no line terminator stands behind it.
    SameLine,
    /// It is, and one stands behind it.
    NextLine,
}
