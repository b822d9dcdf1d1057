//! The depth of a script.

use es5_tree::{EsExpr, EsKind, EsStmt, EsStmts, Script, es_depth};
use opal_base::Pos;
use sqlite_items::Boxed;
use std::alloc::Global;
use std::process::Abort;
use std::test::Fail;

fn expr(alloc: Global, kind: EsKind) -> Result<EsExpr, Fail> {
    Ok(EsExpr {
        kind: Boxed::new(alloc, kind)?,
        origin: None,
        pos: Pos { line: 0, col: 0 },
    })
}

// `while (this) { ; !this; }`: the second statement of the body is on the longest path.
#[test]
fn nodes_on_the_longest_path(rt: HostRuntime) -> Result<(), Fail> {
    let alloc = rt.alloc();
    let mut body = EsStmts::new(alloc);
    body.push(EsStmt::Empty)?;
    let value = expr(alloc, EsKind::This)?;
    body.push(EsStmt::Expr(expr(alloc, EsKind::Not(value))?))?;
    let test = expr(alloc, EsKind::This)?;
    let block = Boxed::new(alloc, EsStmt::Block(body))?;
    let mut script = Script {
        body: EsStmts::new(alloc),
    };
    assert_eq!(rt; es_depth(&script), 0);
    script.body.push(EsStmt::While(test, block))?;
    assert_eq!(rt; es_depth(&script), 5);
    Ok(())
}
