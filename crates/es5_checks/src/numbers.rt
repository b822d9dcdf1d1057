//! What stands at each number of a table.

use crate::put;
use es5_code::NodeTable;
use opal_base::Bytes;
use std::alloc::{AllocError, Global};

/// The most parts of a list that are shown.
const MOST: usize = 9;

// A number behind a space, where there is one.
fn put_part(alloc: Global, part: Option<usize>, out: &mut Bytes) -> Result<(), AllocError> {
    match part {
        Some(i) => put(out, &format!(in alloc; " {i}")?),
        None => Ok(()),
    }
}

// What stands at a number: nothing, an expression, a function, a statement, or the parts of a list.
fn put_sort(alloc: Global, table: &NodeTable, i: usize, out: &mut Bytes) -> Result<(), AllocError> {
    put(out, &format!(in alloc; " {i}:")?)?;
    if table.expr(i).is_some() {
        put(out, " expression")?;
    }
    if table.function(i).is_some() {
        put(out, " function")?;
    }
    if table.stmt(i).is_some() {
        put(out, " statement")?;
    }
    for k in 0..MOST {
        put_part(alloc, table.stmt_of_list(i, k), out)?;
        put_part(alloc, table.expr_of_list(i, k), out)?;
    }
    Ok(())
}

/// What stands at each number up to that of the script's statements, which is the last, and behind it.
pub fn put_numbers(alloc: Global, table: &NodeTable, out: &mut Bytes) -> Result<(), AllocError> {
    let last = table.body();
    for i in 0..last {
        put_sort(alloc, table, i, out)?;
    }
    put_sort(alloc, table, last, out)?;
    put_sort(alloc, table, last.saturating_add(1), out)
}
