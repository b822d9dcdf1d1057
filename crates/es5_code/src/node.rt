//! Nodes whose parts are numbers of other nodes (ECMA-262 5.1, sections 11 to 13).

ghost use Rattle.std.specs.Prelude.{◌≡◌, ◌<◌, IfSome};
ghost use Rattle.std.specs.Option.{option_copied};
ghost use Rattle.es5_code.specs.Sorts.{expr_id, expr_of, function_node, function_of, stmt_id, stmt_of};

use es5_objects::EsText;
use es5_tree::{Operator, SafeInt};
use opal_base::{Names, Pos};
use sqlite_items::Items;

/// The number of a node, from 0.
pub type NodeId = usize;

/// A node: an expression, a statement, or a list of either.
#[derive(Drop)]
pub enum Node {
    Expr(ExprNode),
    Stmt(StmtForm),
    Exprs(Items<NodeId>),
    Stmts(Items<NodeId>),
}

/// An expression: its form, the number of the site that it comes from, and the place of its first
/// token.
#[derive(Drop)]
pub struct ExprNode {
    pub form: ExprForm,
    pub origin: Option<u32>,
    pub pos: Pos,
}

/// The form of an expression.
#[derive(Drop)]
pub enum ExprForm {
    Num(SafeInt),
    Str(EsText),
    True,
    False,
    Null,
    This,
    Name(EsText),
    /// The list of the elements.
    Array(NodeId),
    /// The keys, and the list of their values.
    Object { keys: Names, values: NodeId },
    Function(FunctionForm),
    /// The base, the name, and the place of the name.
    Member(NodeId, EsText, Pos),
    /// The base, the key, and the place of the key's first token.
    Index(NodeId, NodeId, Pos),
    /// The callee, and the list of the arguments.
    Call(NodeId, NodeId),
    Not(NodeId),
    Neg(NodeId),
    Typeof(NodeId),
    Delete(NodeId),
    Binary(Operator, NodeId, NodeId),
    And(NodeId, NodeId),
    Or(NodeId, NodeId),
    Cond(NodeId, NodeId, NodeId),
    Assign(NodeId, NodeId),
}

/// A function.
#[derive(Drop)]
pub struct FunctionForm {
    pub name: Option<EsText>,
    pub params: Names,
    /// The list of its statements.
    pub body: NodeId,
    /// The names of a call's record: the parameters, `arguments` where the function's own code names
    /// it, and its other variables.
    pub variables: Names,
    /// Its own code names `arguments`.
    pub names_arguments: bool,
}

/// The part of a `try` that takes what was thrown.
#[derive(Drop)]
pub struct CatchForm {
    pub name: EsText,
    /// The list of its statements.
    pub body: NodeId,
}

/// A statement.
#[derive(Drop)]
pub enum StmtForm {
    Var(EsText, Option<NodeId>),
    Expr(NodeId),
    /// The list of the statements.
    Block(NodeId),
    If(NodeId, NodeId, Option<NodeId>),
    While(NodeId, NodeId),
    Return(Option<NodeId>),
    Break,
    Continue,
    Throw(NodeId),
    /// The lists of the first and of the last part.
    Try {
        body: NodeId,
        catch: Option<CatchForm>,
        finally: Option<NodeId>,
    },
    Empty,
}

impl Node {
    /// The expression that it is.
    pub(crate) fn as_expr(&self) -> Option<&ExprNode>
        ensures { option_copied result ≡ expr_of self.now }
    {
        match self {
            Node::Expr(expr) => Some(expr),
            _ => None,
        }
    }

    /// The statement that it is.
    pub(crate) fn as_stmt(&self) -> Option<&StmtForm>
        ensures { option_copied result ≡ stmt_of self.now }
    {
        match self {
            Node::Stmt(stmt) => Some(stmt),
            _ => None,
        }
    }

    /// The function that it is.
    pub(crate) fn as_function(&self) -> Option<&FunctionForm>
        ensures { option_copied result ≡ function_node self.now }
    {
        match self {
            Node::Expr(expr) => expr.as_function(),
            _ => None,
        }
    }

    /// The expression at a place from 0 of the list of expressions that it is.
    pub(crate) fn expr_of_list(&self, k: usize) -> Option<NodeId>
        ensures id { result ≡ expr_id self.now k }
        ensures below { IfSome result (λ i. k < usize.MAX) }
    {
        match self {
            Node::Exprs(ids) => ids.as_slice().get(k).copied(),
            _ => None,
        }
    }

    /// The statement at a place from 0 of the list of statements that it is.
    pub(crate) fn stmt_of_list(&self, k: usize) -> Option<NodeId>
        ensures id { result ≡ stmt_id self.now k }
        ensures below { IfSome result (λ i. k < usize.MAX) }
    {
        match self {
            Node::Stmts(ids) => ids.as_slice().get(k).copied(),
            _ => None,
        }
    }
}

impl ExprNode {
    /// The function that it is.
    pub(crate) fn as_function(&self) -> Option<&FunctionForm>
        ensures { option_copied result ≡ function_of self.now.form }
    {
        match &self.form {
            ExprForm::Function(function) => Some(function),
            _ => None,
        }
    }
}
