//! Scopes as text.

use crate::line::{Done, Line};
use crate::tree::tree;
use opal_base::Names;
use ruby_locals::around::no_targets;
use ruby_locals::seen::start;
use ruby_meaning::{Node, Program, Resolved, Scope, Scopes, Seen, Stop};
use ruby_scope::{resolve, walk_node};
use std::alloc::Global;

/// What scope says of a program, where forms that aren't built yet are taken too.
pub fn scoped(alloc: Global, program: &Program) -> Result<String, Stop> {
    let mut seen = start(alloc);
    let body = walk_node(alloc, &mut seen, no_targets(), &program.body)?;
    match seen.refusal {
        Some(refusal) => Err(Stop::Refused {
            pos: refusal.pos,
            construct: refusal.construct,
        }),
        None => of_seen(alloc, seen, &body),
    }
}

fn of_seen(alloc: Global, seen: Seen, body: &Node) -> Result<String, Stop> {
    let Seen {
        own,
        named,
        scopes,
        calls,
        ..
    } = seen;
    let file = Scope {
        own: own.into_names(),
        outer: named.into_names(),
    };
    let mut line = Line::new(alloc, false);
    scope(&mut line, &file)?;
    all(&mut line, &scopes, &calls.into_names(), body)?;
    Ok(line.into_text())
}

/// What scope says of a program.
pub fn resolved(alloc: Global, program: Program) -> Result<String, Stop> {
    let Resolved {
        program,
        scopes,
        calls,
        ..
    } = resolve(alloc, program)?;
    let mut line = Line::new(alloc, false);
    all(&mut line, &scopes, &calls, &program.body)?;
    Ok(line.into_text())
}

// Scopes, the names that are called and the tree.
fn all(line: &mut Line, scopes: &Scopes, calls: &Names, body: &Node) -> Done {
    for one in scopes.as_slice() {
        scope(line, one)?;
    }
    line.put("calls")?;
    line.words(calls)?;
    line.put("; ")?;
    tree(line, body)
}

// The names of a scope, its own and those of outer ones.
fn scope(line: &mut Line, scope: &Scope) -> Done {
    line.put("own")?;
    line.words(&scope.own)?;
    line.put(" outer")?;
    line.words(&scope.outer)?;
    line.put("; ")
}
