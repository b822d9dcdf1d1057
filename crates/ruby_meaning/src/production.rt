//! The names of the grammar's productions, and what the grammar sees of a token.

use crate::token::{Mark, Word};

/// What the grammar sees of a token: its kind, and for some signs how they stand behind the token
/// before.
#[derive(Clone, Copy, Debug, PartialEq, Eq)]
pub enum Sign {
    Name,
    Const,
    Ivar,
    Gvar,
    Label,
    Int,
    Text,
    TextBegin,
    TextEnd,
    PartBegin,
    PartEnd,
    Newline,
    Eof,
    Keyword(Word),
    Op(Mark),
    /// A `(` directly behind a name, `yield`, `super` or `.`: it opens the arguments of a call.
    CallOpen,
    /// A sign with a blank before it and none behind, next after a name, `yield` or `super`: it
    /// begins an argument.
    Marked(Mark),
}

/// What stands before a parameter in its list.
#[derive(Clone, Copy, Debug, PartialEq, Eq)]
pub enum Stage {
    /// Names alone.
    Plain,
    /// One with a default, and no name behind it.
    Optional,
    /// `*`, and no name behind it.
    Rest,
    /// A name behind a default or a `*`.
    After,
}

/// A production of the grammar.
#[derive(Clone, Copy, Debug, PartialEq, Eq)]
pub enum Production {
    /// `stmts`
    Statements,
    /// `stmt`
    Statement,
    /// `expr`
    Expression,
    /// `nexpr`
    NotExpression,
    /// `rhs`
    RightSide,
    /// What stands behind the `=` of an assignment on a right side.
    NestedValue,
    /// `rhs1`
    OneValue,
    /// `arg`
    Argument,
    /// `? :`
    Ternary,
    /// The level below `..`
    RangeOperand,
    /// The level below `||`
    OrOperand,
    /// The level below `&&`
    AndOperand,
    /// The level below `==`
    EqualityOperand,
    /// The level below `<`
    ComparisonOperand,
    /// The level below `<<`
    ShiftOperand,
    /// The level below `+`
    SumOperand,
    /// The level below `*`
    ProductOperand,
    /// The level of `**`
    PowerOperand,
    /// The level of `!`
    NotOperand,
    /// `cargs`; with a block pass or without one
    CommandArguments(bool),
    /// `arguments`; with a block pass or without one
    Arguments(bool),
    /// `arguments` behind a pair
    MorePairs(bool),
    /// What stands behind the first part of an `if`: `elsif` parts and an `else`.
    Otherwise,
    /// `("," target)+ "=" rhs`; with a `*` among the targets or without one
    MoreTargets(bool),
    /// `params` behind such ones; a name may be names in brackets, or may not
    Parameters(Stage, bool),
}

/// A production where it stands: whether it may take a `do` block, and whether it stands in the
/// body of a rescue clause.
#[derive(Clone, Copy, Debug, PartialEq, Eq)]
pub struct Part {
    pub production: Production,
    pub takes_do: bool,
    pub in_rescue: bool,
}
