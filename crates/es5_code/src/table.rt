ghost use Rattle.std.specs.Prelude.{◌≡◌, ◌<◌, IfSome, IfOk, option_map};
ghost use Rattle.std.specs.Option.{option_copied};
ghost use Rattle.es5_code.specs.At.{IsElement, IsExprAt, IsFunctionAt, IsStmtAt};
ghost use Rattle.es5_code.specs.Sound.{Sound};
ghost use Rattle.es5_code.specs.Trees.{expr_in, exprs_in, stmt_in, stmts_in};

use crate::node::{ExprNode, FunctionForm, Node, NodeId, StmtForm};
use opal_base::Names;
use sqlite_items::Items;
use std::marker::Model;

/// The nodes of a script, each behind its parts.
#[derive(Drop)]
pub struct NodeTable {
    nodes: Items<Node>,
    body: NodeId,
    variables: Names,
}

impl Model for NodeTable {
    ghost use Rattle.es5_code.specs.At.{Table};
    ghost use Rattle.es5_code.specs.Sound.{Sound};

    ghost Value = { Table };

    ghost view = { λ t. record { nodes = t.nodes; body = t.body; variables = t.variables } };

    ghost invariant = { λ t. Sound t.nodes };
}

impl NodeTable {
    /// The table of these nodes.
    pub(crate) fn new(nodes: Items<Node>, body: NodeId, variables: Names) -> NodeTable
        requires { Sound nodes }
        ensures { result ≡ record { nodes = nodes; body = body; variables = variables } }
    {
        NodeTable {
            nodes,
            body,
            variables,
        }
    }

    /// The number of the list of the script's statements.
    pub fn body(&self) -> NodeId
        ensures { result ≡ self.now.body }
    {
        self.body
    }

    /// The names of the script's variables.
    pub fn variables(&self) -> &Names
        ensures { result.now ≡ self.now.variables }
    {
        &self.variables
    }

    /// The expression at a number, or `None` where none is there.
    pub fn expr(&self, i: NodeId) -> Option<&ExprNode>
        ensures { IsExprAt self.now.nodes i (option_copied result) }
    {
        match self.nodes.get(i) {
            Some(node) => node.as_expr(),
            None => None,
        }
    }

    /// The statement at a number, or `None` where none is there.
    pub fn stmt(&self, i: NodeId) -> Option<&StmtForm>
        ensures { IsStmtAt self.now.nodes i (option_copied result) }
    {
        match self.nodes.get(i) {
            Some(node) => node.as_stmt(),
            None => None,
        }
    }

    /// The function at a number, or `None` where none is there.
    pub fn function(&self, i: NodeId) -> Option<&FunctionForm>
        ensures { IsFunctionAt self.now.nodes i (option_copied result) }
    {
        match self.nodes.get(i) {
            Some(node) => node.as_function(),
            None => None,
        }
    }

    /// The expression at a place from 0 of a list of expressions, or `None` behind the last one.
    pub fn expr_of_list(&self, list: NodeId, k: usize) -> Option<NodeId>
        ensures element { IsElement (exprs_in self.now.nodes list) (λ i. expr_in self.now.nodes i) k result }
        ensures below { IfSome result (λ i. k < usize.MAX) }
    {
        match self.nodes.get(list) {
            Some(node) => node.expr_of_list(k),
            None => None,
        }
    }

    /// The statement at a place from 0 of a list of statements, or `None` behind the last one.
    pub fn stmt_of_list(&self, list: NodeId, k: usize) -> Option<NodeId>
        ensures element { IsElement (stmts_in self.now.nodes list) (λ i. stmt_in self.now.nodes i) k result }
        ensures below { IfSome result (λ i. k < usize.MAX) }
    {
        match self.nodes.get(list) {
            Some(node) => node.stmt_of_list(k),
            None => None,
        }
    }
}
