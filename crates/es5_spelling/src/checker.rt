//! Whether a script is spellable, by its tree.

ghost use Rattle.std.specs.Prelude.{◌≡◌, ◌↔◌, map, IsTrue};
ghost use Rattle.std.specs.Option.{option_map};
ghost use Rattle.es5_spelling.specs.Spellable as spec;
ghost use Rattle.es5_spelling.specs.Test as test;

use crate::identifiers::{
    are_keys, are_params, is_arguments, is_binding, is_binding_if, is_identifier, is_numeral,
    is_text,
};
use es5_tree::{Catch, EsExpr, EsKind, EsStmt, EsStmts, Script};
use sqlite_items::Boxed;

/// Whether a form is a member or an index.
#[tactic(auto, unfolding(crate::specs::Test::form))]
fn is_member(kind: &EsKind) -> bool
    ensures { result ≡ (test.form kind.now).1.0 }
{
    match kind {
        EsKind::Member(_, _, _) | EsKind::Index(_, _, _) => true,
        EsKind::Num(_)
        | EsKind::Str(_)
        | EsKind::True
        | EsKind::False
        | EsKind::Null
        | EsKind::This
        | EsKind::Name(_)
        | EsKind::Array(_)
        | EsKind::Object { .. }
        | EsKind::Function { .. }
        | EsKind::Call(_, _)
        | EsKind::Not(_)
        | EsKind::Neg(_)
        | EsKind::Typeof(_)
        | EsKind::Delete(_)
        | EsKind::Binary(_, _, _)
        | EsKind::And(_, _)
        | EsKind::Or(_, _)
        | EsKind::Cond(_, _, _)
        | EsKind::Assign(_, _) => false,
    }
}

/// Whether a form can stand before a `=`: a name but `arguments`, a member or an index.
#[tactic(auto, unfolding(crate::specs::Test::form))]
fn is_target(kind: &EsKind) -> bool
    ensures { result ≡ (test.form kind.now).1.1 }
{
    match kind {
        EsKind::Member(_, _, _) | EsKind::Index(_, _, _) => true,
        EsKind::Name(name) => !is_arguments(name),
        EsKind::Num(_)
        | EsKind::Str(_)
        | EsKind::True
        | EsKind::False
        | EsKind::Null
        | EsKind::This
        | EsKind::Array(_)
        | EsKind::Object { .. }
        | EsKind::Function { .. }
        | EsKind::Call(_, _)
        | EsKind::Not(_)
        | EsKind::Neg(_)
        | EsKind::Typeof(_)
        | EsKind::Delete(_)
        | EsKind::Binary(_, _, _)
        | EsKind::And(_, _)
        | EsKind::Or(_, _)
        | EsKind::Cond(_, _, _)
        | EsKind::Assign(_, _) => false,
    }
}

/// Whether a statement ends with an `if` without an `else`.
#[tactic(auto, unfolding(crate::specs::Test::statement))]
fn is_short(stmt: &EsStmt) -> bool
    ensures { result ≡ (test.statement stmt.now).0 }
{
    match stmt {
        EsStmt::If(_, _, Some(second)) => is_short(second.get()),
        EsStmt::If(_, _, None) => true,
        EsStmt::While(_, body) => is_short(body.get()),
        EsStmt::Var(_, _)
        | EsStmt::Expr(_)
        | EsStmt::Block(_)
        | EsStmt::Return(_)
        | EsStmt::Break
        | EsStmt::Continue
        | EsStmt::Throw(_)
        | EsStmt::Try { .. }
        | EsStmt::Empty => false,
    }
}

#[cycle(spellable)]
#[tactic(auto, unfolding(crate::specs::Test::form, crate::specs::Test::expression, crate::specs::Test::statement, crate::specs::Test::caught))]
fn expression(expr: &EsExpr) -> bool
    ensures { result ≡ (test.expression expr.now).0 }
{
    form(expr.kind.get())
}

#[cycle(spellable)]
#[tactic(auto, unfolding(crate::specs::Test::form, crate::specs::Test::expression, crate::specs::Test::statement, crate::specs::Test::caught))]
fn form(kind: &EsKind) -> bool
    ensures { result ≡ (test.form kind.now).0 }
{
    match kind {
        EsKind::Num(value) => is_numeral(*value),
        EsKind::Str(text) => is_text(text),
        EsKind::True | EsKind::False | EsKind::Null | EsKind::This => true,
        EsKind::Name(name) => is_identifier(name),
        EsKind::Array(items) => expressions(items.as_slice()),
        EsKind::Object { keys, values } => are_keys(keys)
            && keys.len() == values.as_slice().len()
            && expressions(values.as_slice()),
        EsKind::Function { name, params, body } => is_binding_if(name)
            && are_params(params)
            && statements(body, true, false),
        EsKind::Member(base, name, _) => expression(base) && is_identifier(name),
        EsKind::Index(base, key, _) => expression(base) && expression(key),
        EsKind::Call(callee, args) => expression(callee) && expressions(args.as_slice()),
        EsKind::Not(value) | EsKind::Neg(value) | EsKind::Typeof(value) => expression(value),
        EsKind::Delete(value) => is_member(value.kind.get()) && expression(value),
        EsKind::Binary(_, left, right) | EsKind::And(left, right) | EsKind::Or(left, right) =>
            expression(left) && expression(right),
        EsKind::Cond(test, first, second) => expression(test)
            && expression(first)
            && expression(second),
        EsKind::Assign(target, value) => is_target(target.kind.get())
            && expression(target)
            && expression(value),
    }
}

#[cycle(spellable)]
fn expressions(exprs: &[EsExpr]) -> bool
    ensures { result ≡ test.all (map test.expression exprs.now) }
{
    for expr in exprs {
        if !expression(expr) {
            return false;
        }
    }
    true
}

#[cycle(spellable)]
fn optional(expr: &Option<EsExpr>) -> bool
    ensures { result ≡ test.optional (option_map test.expression expr.now) }
{
    match expr {
        Some(expr) => expression(expr),
        None => true,
    }
}

// A statement in a function or outside, in a loop of that function or outside.
#[cycle(spellable)]
#[tactic(auto, unfolding(crate::specs::Test::form, crate::specs::Test::expression, crate::specs::Test::statement, crate::specs::Test::caught))]
fn statement(stmt: &EsStmt, in_function: bool, in_loop: bool) -> bool
    ensures { result ≡ (test.statement stmt.now).1 in_function in_loop }
{
    match stmt {
        EsStmt::Var(name, value) => is_binding(name) && optional(value),
        EsStmt::Expr(value) | EsStmt::Throw(value) => expression(value),
        EsStmt::Block(body) => statements(body, in_function, in_loop),
        EsStmt::If(test, first, second) => expression(test)
            && statement(first.get(), in_function, in_loop)
            && otherwise(second, first.get(), in_function, in_loop),
        EsStmt::While(test, body) => expression(test) && statement(body.get(), in_function, true),
        EsStmt::Return(value) => in_function && optional(value),
        EsStmt::Break | EsStmt::Continue => in_loop,
        EsStmt::Try {
            body,
            catch,
            finally,
        } => {
            let last = match finally {
                Some(last) => statements(last, in_function, in_loop),
                None => true,
            };
            (catch.is_some() || finally.is_some())
                && statements(body, in_function, in_loop)
                && caught(catch, in_function, in_loop)
                && last
        }
        EsStmt::Empty => true,
    }
}

// The second part of an `if`, which belongs to no shorter one at the end of the first part.
#[cycle(spellable)]
fn otherwise(
    second: &Option<Boxed<EsStmt>>,
    first: &EsStmt,
    in_function: bool,
    in_loop: bool,
) -> bool
    ensures { result ≡ test.otherwise (test.statement first.now) (option_map test.statement second.now) in_function in_loop }
{
    match second {
        Some(second) => !is_short(first) && statement(second.get(), in_function, in_loop),
        None => true,
    }
}

#[cycle(spellable)]
#[tactic(auto, unfolding(crate::specs::Test::form, crate::specs::Test::expression, crate::specs::Test::statement, crate::specs::Test::caught))]
fn caught(catch: &Option<Catch>, in_function: bool, in_loop: bool) -> bool
    ensures { result ≡ test.caught_if (option_map test.caught catch.now) in_function in_loop }
{
    match catch {
        Some(catch) => is_binding(&catch.name) && statements(&catch.body, in_function, in_loop),
        None => true,
    }
}

#[cycle(spellable)]
fn statements(stmts: &EsStmts, in_function: bool, in_loop: bool) -> bool
    ensures { result ≡ test.all_statements (map test.statement stmts.now) in_function in_loop }
{
    for stmt in stmts.as_slice() {
        if !statement(stmt, in_function, in_loop) {
            return false;
        }
    }
    true
}

/// Whether the script is spellable: whether some text of the profile spells it, but for its sites and
/// places.
#[tactic(auto, using(crate::proofs::Tested::script_tested))]
pub fn is_spellable(script: &Script) -> bool
    ensures { IsTrue result ↔ spec.Spellable script.now }
{
    statements(&script.body, false, false)
}
