//! A script, node by node, into a table.

ghost use Rattle.std.specs.Prelude.{◌≡◌, ◌<◌, ◌++◌, [], ◌∷◌, length, IfOk};
ghost use Rattle.es5_evaluation.specs.Declared.{locals};
ghost use Rattle.es5_code.specs.Numbers.{Catches, FormOf, Numbered, NumberedIf, StmtFormOf};
ghost use Rattle.es5_code.specs.Sound.{Sound};
ghost use Rattle.es5_code.specs.Trees.{expr_of, exprs_of, stmt_of, stmts_in, stmts_of};

use crate::node::{CatchForm, ExprForm, ExprNode, FunctionForm, Node, NodeId, StmtForm};
use crate::own::{new_names, own_names, variables};
use crate::table::NodeTable;
use es5_objects::EsText;
use es5_tree::{Catch, EsExpr, EsKind, EsStmt, EsStmts, Script};
use opal_base::{Names, NoMemory, Units};
use sqlite_items::{Boxed, Items};
use std::alloc::Global;

/// One more node behind the others.
fn add(nodes: &mut Items<Node>, node: Node) -> Result<NodeId, NoMemory>
    ensures { IfOk result (λ i. (i ≡ length nodes.old) × (nodes.new ≡ nodes.old ++ node ∷ [])) }
{
    let i = nodes.len();
    match nodes.push(node) {
        Ok(()) => Ok(i),
        Err(_) => Err(NoMemory),
    }
}

fn push(ids: &mut Vec<NodeId>, id: NodeId) -> Result<(), NoMemory>
    ensures { IfOk result (λ u. ids.new.items ≡ ids.old.items ++ id ∷ []) }
{
    match ids.push(id) {
        Ok(()) => Ok(()),
        Err(_) => Err(NoMemory),
    }
}

fn text_if(alloc: Global, text: Option<Units>) -> Result<Option<EsText>, NoMemory>
    ensures { IfOk result (λ shared. shared ≡ text) }
{
    match text {
        Some(text) => {
            let shared = EsText::new(alloc, text)?;
            Ok(Some(shared))
        }
        None => Ok(None),
    }
}

#[cycle(number)]
fn expression(alloc: Global, expr: EsExpr, nodes: &mut Items<Node>) -> Result<NodeId, NoMemory>
    requires { Sound nodes.old }
    ensures { IfOk result (λ i. Numbered expr_of nodes.old nodes.new i expr) }
{
    let EsExpr { kind, origin, pos } = expr;
    let form = form(alloc, kind.into_inner(), nodes)?;
    add(nodes, Node::Expr(ExprNode { form, origin, pos }))
}

#[cycle(number)]
fn form(alloc: Global, kind: EsKind, nodes: &mut Items<Node>) -> Result<ExprForm, NoMemory>
    requires { Sound nodes.old }
    ensures { IfOk result (λ form. FormOf nodes.old nodes.new form kind) }
{
    match kind {
        EsKind::Num(value) => Ok(ExprForm::Num(value)),
        EsKind::Str(text) => {
            let text = EsText::new(alloc, text)?;
            Ok(ExprForm::Str(text))
        }
        EsKind::True => Ok(ExprForm::True),
        EsKind::False => Ok(ExprForm::False),
        EsKind::Null => Ok(ExprForm::Null),
        EsKind::This => Ok(ExprForm::This),
        EsKind::Name(name) => {
            let name = EsText::new(alloc, name)?;
            Ok(ExprForm::Name(name))
        }
        EsKind::Array(items) => {
            let items = expressions(alloc, items, nodes)?;
            Ok(ExprForm::Array(items))
        }
        EsKind::Object { keys, values } => {
            let values = expressions(alloc, values, nodes)?;
            Ok(ExprForm::Object { keys, values })
        }
        EsKind::Function { name, params, body } => {
            let own = own_names(alloc, &body)?;
            let variables = variables(alloc, &params, &own)?;
            let name = text_if(alloc, name)?;
            let body = statements(alloc, body, nodes)?;
            Ok(ExprForm::Function(FunctionForm {
                name,
                params,
                body,
                variables,
                names_arguments: own.arguments,
            }))
        }
        EsKind::Member(base, name, mark) => {
            let base = expression(alloc, base, nodes)?;
            let name = EsText::new(alloc, name)?;
            Ok(ExprForm::Member(base, name, mark))
        }
        EsKind::Index(base, key, mark) => {
            let base = expression(alloc, base, nodes)?;
            let key = expression(alloc, key, nodes)?;
            Ok(ExprForm::Index(base, key, mark))
        }
        EsKind::Call(callee, args) => {
            let callee = expression(alloc, callee, nodes)?;
            let args = expressions(alloc, args, nodes)?;
            Ok(ExprForm::Call(callee, args))
        }
        EsKind::Not(value) => {
            let value = expression(alloc, value, nodes)?;
            Ok(ExprForm::Not(value))
        }
        EsKind::Neg(value) => {
            let value = expression(alloc, value, nodes)?;
            Ok(ExprForm::Neg(value))
        }
        EsKind::Typeof(value) => {
            let value = expression(alloc, value, nodes)?;
            Ok(ExprForm::Typeof(value))
        }
        EsKind::Delete(value) => {
            let value = expression(alloc, value, nodes)?;
            Ok(ExprForm::Delete(value))
        }
        EsKind::Binary(operator, left, right) => {
            let left = expression(alloc, left, nodes)?;
            let right = expression(alloc, right, nodes)?;
            Ok(ExprForm::Binary(operator, left, right))
        }
        EsKind::And(left, right) => {
            let left = expression(alloc, left, nodes)?;
            let right = expression(alloc, right, nodes)?;
            Ok(ExprForm::And(left, right))
        }
        EsKind::Or(left, right) => {
            let left = expression(alloc, left, nodes)?;
            let right = expression(alloc, right, nodes)?;
            Ok(ExprForm::Or(left, right))
        }
        EsKind::Cond(test, first, second) => {
            let test = expression(alloc, test, nodes)?;
            let first = expression(alloc, first, nodes)?;
            let second = expression(alloc, second, nodes)?;
            Ok(ExprForm::Cond(test, first, second))
        }
        EsKind::Assign(target, value) => {
            let target = expression(alloc, target, nodes)?;
            let value = expression(alloc, value, nodes)?;
            Ok(ExprForm::Assign(target, value))
        }
    }
}

/// The numbers are found from the last expression on, since an `Items` gives its last one up.
#[cycle(number)]
fn expressions(
    alloc: Global,
    exprs: Items<EsExpr>,
    nodes: &mut Items<Node>,
) -> Result<NodeId, NoMemory>
    requires { Sound nodes.old }
    ensures { IfOk result (λ i. Numbered exprs_of nodes.old nodes.new i exprs) }
{
    let mut ids = Vec::new(alloc);
    let mut left = exprs;
    while let Some(expr) = left.pop() {
        let id = expression(alloc, expr, nodes)?;
        push(&mut ids, id)?;
    }
    ids.reverse();
    add(nodes, Node::Exprs(Items::from_vec(ids)))
}

#[cycle(number)]
#[tactic(auto, using(crate::proofs::Forms::options))]
fn value_if(
    alloc: Global,
    expr: Option<EsExpr>,
    nodes: &mut Items<Node>,
) -> Result<Option<NodeId>, NoMemory>
    requires { Sound nodes.old }
    ensures { IfOk result (λ i. NumberedIf expr_of nodes.old nodes.new i expr) }
{
    match expr {
        Some(expr) => {
            let id = expression(alloc, expr, nodes)?;
            Ok(Some(id))
        }
        None => Ok(None),
    }
}

#[cycle(number)]
fn statement(alloc: Global, stmt: EsStmt, nodes: &mut Items<Node>) -> Result<NodeId, NoMemory>
    requires { Sound nodes.old }
    ensures { IfOk result (λ i. Numbered stmt_of nodes.old nodes.new i stmt) }
{
    let form = stmt_form(alloc, stmt, nodes)?;
    add(nodes, Node::Stmt(form))
}

#[cycle(number)]
fn stmt_form(alloc: Global, stmt: EsStmt, nodes: &mut Items<Node>) -> Result<StmtForm, NoMemory>
    requires { Sound nodes.old }
    ensures { IfOk result (λ form. StmtFormOf nodes.old nodes.new form stmt) }
{
    match stmt {
        EsStmt::Var(name, value) => {
            let name = EsText::new(alloc, name)?;
            let value = value_if(alloc, value, nodes)?;
            Ok(StmtForm::Var(name, value))
        }
        EsStmt::Expr(value) => {
            let value = expression(alloc, value, nodes)?;
            Ok(StmtForm::Expr(value))
        }
        EsStmt::Block(body) => {
            let body = statements(alloc, body, nodes)?;
            Ok(StmtForm::Block(body))
        }
        EsStmt::If(test, first, second) => {
            let test = expression(alloc, test, nodes)?;
            let first = statement(alloc, first.into_inner(), nodes)?;
            let second = otherwise(alloc, second, nodes)?;
            Ok(StmtForm::If(test, first, second))
        }
        EsStmt::While(test, body) => {
            let test = expression(alloc, test, nodes)?;
            let body = statement(alloc, body.into_inner(), nodes)?;
            Ok(StmtForm::While(test, body))
        }
        EsStmt::Return(value) => {
            let value = value_if(alloc, value, nodes)?;
            Ok(StmtForm::Return(value))
        }
        EsStmt::Break => Ok(StmtForm::Break),
        EsStmt::Continue => Ok(StmtForm::Continue),
        EsStmt::Throw(value) => {
            let value = expression(alloc, value, nodes)?;
            Ok(StmtForm::Throw(value))
        }
        EsStmt::Try {
            body,
            catch,
            finally,
        } => {
            let body = statements(alloc, body, nodes)?;
            let catch = catch_part(alloc, catch, nodes)?;
            match finally {
                Some(last) => {
                    let finally = Some(statements(alloc, last, nodes)?);
                    Ok(StmtForm::Try {
                        body,
                        catch,
                        finally,
                    })
                }
                None => Ok(StmtForm::Try {
                    body,
                    catch,
                    finally: None,
                }),
            }
        }
        EsStmt::Empty => Ok(StmtForm::Empty),
    }
}

/// As `expressions`.
#[cycle(number)]
fn statements(alloc: Global, stmts: EsStmts, nodes: &mut Items<Node>) -> Result<NodeId, NoMemory>
    requires { Sound nodes.old }
    ensures { IfOk result (λ i. Numbered stmts_of nodes.old nodes.new i stmts) }
{
    let mut ids = Vec::new(alloc);
    let mut left = stmts;
    while let Some(stmt) = left.pop() {
        let id = statement(alloc, stmt, nodes)?;
        push(&mut ids, id)?;
    }
    ids.reverse();
    add(nodes, Node::Stmts(Items::from_vec(ids)))
}

#[cycle(number)]
#[tactic(auto, using(crate::proofs::Forms::options))]
fn otherwise(
    alloc: Global,
    stmt: Option<Boxed<EsStmt>>,
    nodes: &mut Items<Node>,
) -> Result<Option<NodeId>, NoMemory>
    requires { Sound nodes.old }
    ensures { IfOk result (λ i. NumberedIf stmt_of nodes.old nodes.new i stmt) }
{
    match stmt {
        Some(stmt) => {
            let id = statement(alloc, stmt.into_inner(), nodes)?;
            Ok(Some(id))
        }
        None => Ok(None),
    }
}

#[cycle(number)]
#[tactic(auto, using(crate::proofs::Forms::options))]
fn catch_part(
    alloc: Global,
    part: Option<Catch>,
    nodes: &mut Items<Node>,
) -> Result<Option<CatchForm>, NoMemory>
    requires { Sound nodes.old }
    ensures { IfOk result (λ form. Catches nodes.old nodes.new form part) }
{
    match part {
        Some(Catch { name, body }) => {
            let name = EsText::new(alloc, name)?;
            let body = statements(alloc, body, nodes)?;
            Ok(Some(CatchForm { name, body }))
        }
        None => Ok(None),
    }
}

/// The nodes of a script, or `NoMemory`. The depth of the calls is that of the script's tree.
pub fn number(alloc: Global, script: Script) -> Result<NodeTable, NoMemory>
    ensures body { IfOk result (λ table. stmts_in table.nodes table.body ≡ script.body) }
    ensures variables { IfOk result (λ table. table.variables ≡ locals [] script.body) }
    ensures within { IfOk result (λ table. table.body < length table.nodes) }
{
    let Script { body } = script;
    let own = own_names(alloc, &body)?;
    let variables = new_names(alloc, &Names::new(alloc), &own.names)?;
    let mut nodes = Items::new(alloc);
    let body = statements(alloc, body, &mut nodes)?;
    Ok(NodeTable::new(nodes, body, variables))
}
