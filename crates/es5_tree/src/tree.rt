use crate::safe_int::SafeInt;
use opal_base::{Names, Pos, Units};
use sqlite_items::{Boxed, Items};

/// A script: the directive `"use strict"`, and the statements behind it.
#[derive(Drop)]
pub struct Script {
    pub body: EsStmts,
}

pub type EsStmts = Items<EsStmt>;

/// A statement (ECMA-262 5.1, section 12).
#[cycle(tree)]
#[derive(Drop)]
pub enum EsStmt {
    /// `var name;` or `var name = value;` (12.2).
    Var(Units, Option<EsExpr>),
    Expr(EsExpr),
    Block(EsStmts),
    If(EsExpr, Boxed<EsStmt>, Option<Boxed<EsStmt>>),
    While(EsExpr, Boxed<EsStmt>),
    Return(Option<EsExpr>),
    Break,
    Continue,
    Throw(EsExpr),
    /// At least one of the last two parts is there (12.14).
    Try {
        body: EsStmts,
        catch: Option<Catch>,
        finally: Option<EsStmts>,
    },
    Empty,
}

/// The part of a `try` statement that takes what was thrown.
#[cycle(tree)]
#[derive(Drop)]
pub struct Catch {
    pub name: Units,
    pub body: EsStmts,
}

/// An expression: its form, the number of the site in the Ruby source that it comes from, and the
/// place of its first token.
#[cycle(tree)]
#[derive(Drop)]
pub struct EsExpr {
    pub kind: Boxed<EsKind>,
    pub origin: Option<u32>,
    pub pos: Pos,
}

/// The form of an expression (ECMA-262 5.1, section 11).
#[cycle(tree)]
#[derive(Drop)]
pub enum EsKind {
    Num(SafeInt),
    Str(Units),
    True,
    False,
    Null,
    This,
    Name(Units),
    Array(Items<EsExpr>),
    /// As many values as keys (11.1.5).
    Object {
        keys: Names,
        values: Items<EsExpr>,
    },
    /// A function expression (13).
    Function {
        name: Option<Units>,
        params: Names,
        body: EsStmts,
    },
    /// `base.name`; the last field is the place of the name (11.2.1).
    Member(EsExpr, Units, Pos),
    /// `base[key]`; the last field is the place of the key's first token (11.2.1).
    Index(EsExpr, EsExpr, Pos),
    Call(EsExpr, Items<EsExpr>),
    Not(EsExpr),
    Neg(EsExpr),
    Typeof(EsExpr),
    /// Of a member or an index (11.4.1).
    Delete(EsExpr),
    Binary(Operator, EsExpr, EsExpr),
    And(EsExpr, EsExpr),
    Or(EsExpr, EsExpr),
    Cond(EsExpr, EsExpr, EsExpr),
    /// To a name, a member or an index (11.13.1).
    Assign(EsExpr, EsExpr),
}

/// The operators that always take both values (ECMA-262 5.1, 11.5 to 11.9).
#[derive(Clone, Copy, Debug, PartialEq, Eq)]
pub enum Operator {
    Same,
    Different,
    Less,
    Greater,
    LessOrEqual,
    GreaterOrEqual,
    Add,
    Subtract,
    Multiply,
    Divide,
    Remainder,
}
