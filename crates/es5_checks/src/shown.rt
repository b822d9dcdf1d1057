//! The nodes of a table, each with its form before its parts.

use crate::put;
use es5_code::{ExprForm, NodeId, NodeTable, StmtForm};
use opal_base::{Bytes, Names, Units, units_to_utf8};
use std::alloc::{AllocError, Global};

/// The most levels of a tree that are shown.
const LEVELS: u32 = 9;

fn put_units(alloc: Global, units: &Units, out: &mut Bytes) -> Result<(), AllocError> {
    let Ok(bytes) = units_to_utf8(alloc, units) else {
        return Err(AllocError);
    };
    match out.extend(bytes.as_slice()) {
        Ok(()) => Ok(()),
        Err(_) => Err(AllocError),
    }
}

fn put_names(alloc: Global, names: &Names, out: &mut Bytes) -> Result<(), AllocError> {
    put(out, " [")?;
    for i in 0..names.len() {
        put(out, " ")?;
        put_units(alloc, names.at(i), out)?;
    }
    put(out, " ]")?;
    Ok(())
}

// What stands at a number, each part behind a space; `depth` is that of the tree at most.
#[cycle(put)]
fn put_expr(
    alloc: Global,
    table: &NodeTable,
    i: NodeId,
    depth: u32,
    out: &mut Bytes,
) -> Result<(), AllocError> {
    let Some(node) = table.expr(i) else {
        put(out, " no-expression")?;
        return Ok(());
    };
    if depth == 0 {
        put(out, " too-deep")?;
        return Ok(());
    }
    match &node.form {
        ExprForm::Num(value) => put(out, &format!(in alloc; " {}", value.value())?)?,
        ExprForm::Str(value) => {
            put(out, " '")?;
            put_units(alloc, value.units(), out)?;
            put(out, "'")?;
        }
        ExprForm::True => put(out, " true")?,
        ExprForm::False => put(out, " false")?,
        ExprForm::Null => put(out, " null")?,
        ExprForm::This => put(out, " this")?,
        ExprForm::Name(name) => {
            put(out, " ")?;
            put_units(alloc, name.units(), out)?;
        }
        _ => put_compound(alloc, table, i, depth - 1, out)?,
    }
    Ok(())
}

#[cycle(put)]
fn put_compound(
    alloc: Global,
    table: &NodeTable,
    i: NodeId,
    depth: u32,
    out: &mut Bytes,
) -> Result<(), AllocError> {
    let Some(node) = table.expr(i) else {
        return Ok(());
    };
    match &node.form {
        ExprForm::Array(items) => put_exprs(alloc, table, "array", *items, depth, out)?,
        ExprForm::Object { keys, values } => {
            put_names(alloc, keys, out)?;
            put_exprs(alloc, table, "object", *values, depth, out)?;
        }
        ExprForm::Function(_) => put_function(alloc, table, i, depth, out)?,
        ExprForm::Member(base, name, mark) => {
            put_parts(alloc, table, "member", &[*base], depth, out)?;
            put(out, ".")?;
            put_units(alloc, name.units(), out)?;
            put(out, &format!(in alloc; "@{}:{}", mark.line, mark.col)?)?;
        }
        ExprForm::Index(base, key, mark) => {
            put_parts(alloc, table, "index", &[*base, *key], depth, out)?;
            put(out, &format!(in alloc; "@{}:{}", mark.line, mark.col)?)?;
        }
        ExprForm::Call(callee, args) => {
            put_parts(alloc, table, "callee", &[*callee], depth, out)?;
            put_exprs(alloc, table, "call", *args, depth, out)?;
        }
        ExprForm::Not(value) => put_parts(alloc, table, "not", &[*value], depth, out)?,
        ExprForm::Neg(value) => put_parts(alloc, table, "neg", &[*value], depth, out)?,
        ExprForm::Typeof(value) => put_parts(alloc, table, "typeof", &[*value], depth, out)?,
        ExprForm::Delete(value) => put_parts(alloc, table, "delete", &[*value], depth, out)?,
        ExprForm::Binary(operator, left, right) => {
            let head = format!(in alloc; "{operator:?}")?;
            put_parts(alloc, table, &head, &[*left, *right], depth, out)?;
        }
        ExprForm::And(left, right) => {
            put_parts(alloc, table, "and", &[*left, *right], depth, out)?;
        }
        ExprForm::Or(left, right) => {
            put_parts(alloc, table, "or", &[*left, *right], depth, out)?;
        }
        ExprForm::Cond(test, first, second) => {
            put_parts(alloc, table, "cond", &[*test, *first, *second], depth, out)?;
        }
        ExprForm::Assign(target, value) => {
            put_parts(alloc, table, "assign", &[*target, *value], depth, out)?;
        }
        _ => {}
    }
    Ok(())
}

#[cycle(put)]
fn put_parts(
    alloc: Global,
    table: &NodeTable,
    head: &str,
    parts: &[NodeId],
    depth: u32,
    out: &mut Bytes,
) -> Result<(), AllocError> {
    put(out, " (")?;
    put(out, head)?;
    for part in parts {
        put_expr(alloc, table, *part, depth, out)?;
    }
    put(out, ")")?;
    Ok(())
}

#[cycle(put)]
fn put_exprs(
    alloc: Global,
    table: &NodeTable,
    head: &str,
    exprs: NodeId,
    depth: u32,
    out: &mut Bytes,
) -> Result<(), AllocError> {
    put(out, " (")?;
    put(out, head)?;
    for k in 0..9 {
        if let Some(i) = table.expr_of_list(exprs, k) {
            put_expr(alloc, table, i, depth, out)?;
        }
    }
    put(out, ")")?;
    Ok(())
}

#[cycle(put)]
fn put_function(
    alloc: Global,
    table: &NodeTable,
    i: NodeId,
    depth: u32,
    out: &mut Bytes,
) -> Result<(), AllocError> {
    let Some(function) = table.function(i) else {
        put(out, " no-function")?;
        return Ok(());
    };
    if let Some(name) = &function.name {
        put(out, " ")?;
        put_units(alloc, name.units(), out)?;
    }
    put_names(alloc, &function.params, out)?;
    put_names(alloc, &function.variables, out)?;
    let head = if function.names_arguments {
        "names-arguments"
    } else {
        "function"
    };
    put_stmts(alloc, table, head, function.body, depth, out)
}

#[cycle(put)]
fn put_stmts(
    alloc: Global,
    table: &NodeTable,
    head: &str,
    stmts: NodeId,
    depth: u32,
    out: &mut Bytes,
) -> Result<(), AllocError> {
    put(out, " (")?;
    put(out, head)?;
    for k in 0..9 {
        if let Some(i) = table.stmt_of_list(stmts, k) {
            put_stmt(alloc, table, i, depth, out)?;
        }
    }
    put(out, ")")?;
    Ok(())
}

#[cycle(put)]
fn put_stmt(
    alloc: Global,
    table: &NodeTable,
    i: NodeId,
    depth: u32,
    out: &mut Bytes,
) -> Result<(), AllocError> {
    let Some(form) = table.stmt(i) else {
        put(out, " no-statement")?;
        return Ok(());
    };
    if depth == 0 {
        put(out, " too-deep")?;
        return Ok(());
    }
    match form {
        StmtForm::Var(name, value) => {
            put(out, " var ")?;
            put_units(alloc, name.units(), out)?;
            if let Some(value) = value {
                put_parts(alloc, table, "=", &[*value], depth - 1, out)?;
            }
        }
        StmtForm::Expr(value) => put_expr(alloc, table, *value, depth - 1, out)?,
        StmtForm::Return(Some(value)) => {
            put_parts(alloc, table, "return", &[*value], depth - 1, out)?;
        }
        StmtForm::Return(None) => put(out, " return")?,
        StmtForm::Break => put(out, " break")?,
        StmtForm::Continue => put(out, " continue")?,
        StmtForm::Throw(value) => put_parts(alloc, table, "throw", &[*value], depth - 1, out)?,
        StmtForm::Empty => put(out, " empty")?,
        _ => put_nested(alloc, table, i, depth - 1, out)?,
    }
    Ok(())
}

#[cycle(put)]
fn put_nested(
    alloc: Global,
    table: &NodeTable,
    i: NodeId,
    depth: u32,
    out: &mut Bytes,
) -> Result<(), AllocError> {
    match table.stmt(i) {
        Some(StmtForm::Block(body)) => put_stmts(alloc, table, "block", *body, depth, out)?,
        Some(StmtForm::If(test, first, second)) => {
            put_parts(alloc, table, "if", &[*test], depth, out)?;
            put_stmt(alloc, table, *first, depth, out)?;
            if let Some(second) = second {
                put(out, " else")?;
                put_stmt(alloc, table, *second, depth, out)?;
            }
        }
        Some(StmtForm::While(test, body)) => {
            put_parts(alloc, table, "while", &[*test], depth, out)?;
            put_stmt(alloc, table, *body, depth, out)?;
        }
        Some(
            StmtForm::Try {
                body,
                catch,
                finally,
            },
        ) => {
            put_stmts(alloc, table, "try", *body, depth, out)?;
            if let Some(part) = catch {
                put(out, " ")?;
                put_units(alloc, part.name.units(), out)?;
                put_stmts(alloc, table, "catch", part.body, depth, out)?;
            }
            if let Some(last) = finally {
                put_stmts(alloc, table, "finally", *last, depth, out)?;
            }
        }
        _ => {}
    }
    Ok(())
}

/// The variables of a script, and its statements.
pub fn put_script(alloc: Global, table: &NodeTable, out: &mut Bytes) -> Result<(), AllocError> {
    put_names(alloc, table.variables(), out)?;
    put_stmts(alloc, table, "script", table.body(), LEVELS, out)
}
