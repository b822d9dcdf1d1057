//! What the parser's functions take and give.

use es5_tree::{EsExpr, EsStmt, EsStmts, EsToken, Level};
use sqlite_items::Items;

/// A part that others hold.
#[derive(Clone, Copy, Debug, PartialEq, Eq)]
pub enum Part {
    Expr(Level),
    /// A statement in a function or outside, and in a loop of that function or outside.
    Stmt(bool, bool),
}

/// A statement, and whether an `else` may go on with it.
#[derive(Drop)]
pub struct Statement {
    pub stmt: EsStmt,
    pub takes_else: bool,
}

/// What a part gives.
#[derive(Drop)]
pub enum Reading {
    Expr(EsExpr),
    Stmt(Statement),
}

/// An expression with its first token, which may be an opening bracket.
#[derive(Drop)]
pub struct Operand<'a> {
    pub first: &'a EsToken,
    pub expr: EsExpr,
}

/// What stands behind a value: the name of a member, the key of an index with its bracket, or the
/// arguments of a call with their bracket.
#[derive(Drop)]
pub enum Access<'a> {
    Member(&'a EsToken),
    Index(&'a EsToken, EsExpr),
    Call(&'a EsToken, Items<EsExpr>),
}

/// The name that a `catch` gives to what was thrown, and its block.
#[derive(Drop)]
pub struct Caught<'a> {
    pub name: &'a EsToken,
    pub body: EsStmts,
}

/// What stands behind the block of a `try`.
#[derive(Drop)]
pub struct Handlers<'a> {
    pub catch: Option<Caught<'a>>,
    pub finally: Option<EsStmts>,
}

/// The test of an `if` and its statement.
#[derive(Drop)]
pub struct Branch {
    pub test: EsExpr,
    pub first: Statement,
}

/// The values of a conditional expression.
#[derive(Drop)]
pub struct Choices {
    pub first: EsExpr,
    pub second: EsExpr,
}

/// The levels of operators that always take both values.
#[derive(Clone, Copy, Debug, PartialEq, Eq)]
pub enum Binary {
    Product,
    Sum,
    Relation,
    Equality,
}

/// The operators that may take the first value alone.
#[derive(Clone, Copy, Debug, PartialEq, Eq)]
pub enum Logical {
    And,
    Or,
}
