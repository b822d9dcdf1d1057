ghost use Rattle.std.specs.Prelude.{◌≡◌, min, map};
ghost use Rattle.std.specs.Option.{option_map};
ghost use Rattle.es5_tree.specs.Depth as spec;

use crate::tree::{Catch, EsExpr, EsKind, EsStmt, EsStmts, Script};
use sqlite_items::Items;

/// The number of statements and expressions on the longest path of a script, or `u32::MAX` where
/// there are more.
pub fn es_depth(script: &Script) -> u32
    ensures { result ≡ min (spec.script_depth script.now) u32.MAX }
{
    deepest_stmt(&script.body)
}

/// The number of statements and expressions on the longest path of an expression, or `u32::MAX`
/// where there are more.
#[cycle(depth)]
#[tactic(auto, unfolding(crate::specs::Depth::expr_depth, crate::specs::Depth::kind_depth, crate::specs::Depth::stmt_depth, crate::specs::Depth::catch_depth))]
pub fn expr_depth(expr: &EsExpr) -> u32
    ensures { result ≡ min (spec.expr_depth expr.now) u32.MAX }
{
    of_kind(expr.kind.get()).saturating_add(1)
}

// The depth of the deepest part.
#[cycle(depth)]
#[tactic(auto, unfolding(crate::specs::Depth::expr_depth, crate::specs::Depth::kind_depth, crate::specs::Depth::stmt_depth, crate::specs::Depth::catch_depth))]
fn of_kind(kind: &EsKind) -> u32
    ensures { result ≡ min (spec.kind_depth kind.now) u32.MAX }
{
    match kind {
        EsKind::Array(items) => deepest(items),
        EsKind::Object { values, .. } => deepest(values),
        EsKind::Function { body, .. } => deepest_stmt(body),
        EsKind::Member(base, _, _) => expr_depth(base),
        EsKind::Index(base, key, _) => expr_depth(base).max(expr_depth(key)),
        EsKind::Call(callee, args) => expr_depth(callee).max(deepest(args)),
        EsKind::Not(value) | EsKind::Neg(value) | EsKind::Typeof(value) | EsKind::Delete(value) =>
            expr_depth(value),
        EsKind::Binary(_, left, right)
        | EsKind::And(left, right)
        | EsKind::Or(left, right)
        | EsKind::Assign(left, right) => expr_depth(left).max(expr_depth(right)),
        EsKind::Cond(test, yes, no) => expr_depth(test).max(expr_depth(yes)).max(expr_depth(no)),
        EsKind::Num(_)
        | EsKind::Str(_)
        | EsKind::True
        | EsKind::False
        | EsKind::Null
        | EsKind::This
        | EsKind::Name(_) => 0,
    }
}

/// The number of statements and expressions on the longest path of a statement, or `u32::MAX`
/// where there are more.
#[cycle(depth)]
#[tactic(auto, unfolding(crate::specs::Depth::expr_depth, crate::specs::Depth::kind_depth, crate::specs::Depth::stmt_depth, crate::specs::Depth::catch_depth))]
pub fn stmt_depth(stmt: &EsStmt) -> u32
    ensures { result ≡ min (spec.stmt_depth stmt.now) u32.MAX }
{
    let parts = match stmt {
        EsStmt::Var(_, value) => optional(value),
        EsStmt::Expr(value) => expr_depth(value),
        EsStmt::Block(body) => deepest_stmt(body),
        EsStmt::If(test, yes, no) => {
            let otherwise = match no {
                Some(no) => stmt_depth(no.get()),
                None => 0,
            };
            expr_depth(test).max(stmt_depth(yes.get())).max(otherwise)
        }
        EsStmt::While(test, body) => expr_depth(test).max(stmt_depth(body.get())),
        EsStmt::Return(value) => optional(value),
        EsStmt::Break | EsStmt::Continue | EsStmt::Empty => 0,
        EsStmt::Throw(value) => expr_depth(value),
        EsStmt::Try {
            body,
            catch,
            finally,
        } => {
            let caught = match catch {
                Some(catch) => of_catch(catch),
                None => 0,
            };
            let last = match finally {
                Some(finally) => deepest_stmt(finally),
                None => 0,
            };
            deepest_stmt(body).max(caught).max(last)
        }
    };
    parts.saturating_add(1)
}

#[cycle(depth)]
#[tactic(auto, unfolding(crate::specs::Depth::expr_depth, crate::specs::Depth::kind_depth, crate::specs::Depth::stmt_depth, crate::specs::Depth::catch_depth))]
fn of_catch(catch: &Catch) -> u32
    ensures { result ≡ min (spec.catch_depth catch.now) u32.MAX }
{
    deepest_stmt(&catch.body)
}

#[cycle(depth)]
fn optional(expr: &Option<EsExpr>) -> u32
    ensures { result ≡ min (spec.optional (option_map spec.expr_depth expr.now)) u32.MAX }
{
    match expr {
        Some(expr) => expr_depth(expr),
        None => 0,
    }
}

#[cycle(depth)]
fn deepest(exprs: &Items<EsExpr>) -> u32
    ensures { result ≡ min (spec.highest (map spec.expr_depth exprs.now)) u32.MAX }
{
    let mut most = 0;
    for expr in exprs.as_slice() {
        most = most.max(expr_depth(expr));
    }
    most
}

#[cycle(depth)]
fn deepest_stmt(stmts: &EsStmts) -> u32
    ensures { result ≡ min (spec.highest (map spec.stmt_depth stmts.now)) u32.MAX }
{
    let mut most = 0;
    for stmt in stmts.as_slice() {
        most = most.max(stmt_depth(stmt));
    }
    most
}
