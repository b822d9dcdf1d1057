//! From a program to its scopes or its first refusal.

ghost use Rattle.std.specs.Prelude.{◌≡◌, [], ◌∷◌, ◌++◌, IfOk, IfErr};
ghost use Rattle.ruby_meaning.specs.Scoping.Scopes.{refusal_of, scopes_of, Scoped};
ghost use Rattle.ruby_scope.specs.Answer.{Stops};

use crate::walk::walk_node;
use opal_base::NoMemory;
use ruby_locals::around::no_targets;
use ruby_locals::seen::start;
use ruby_meaning::{Construct, Program, Refusal, Resolved, Scope, Scopes, Seen, Stop};
use sqlite_items::Items;
use std::alloc::Global;

// The refusal; a form that isn't built is refused where nothing else is.
fn refusal_of(seen: &Seen) -> Option<Refusal>
    ensures { result ≡ refusal_of seen.now }
{
    match (seen.refusal, seen.unbuilt) {
        (Some(refusal), _) => Some(refusal),
        (None, Some(pos)) => Some(Refusal {
            pos,
            construct: Construct::NotYet,
        }),
        (None, None) => None,
    }
}

/// The program with its names resolved, its scopes in the order of the text and the names that its
/// calls look up, each once in the order of the nodes; or its first refusal by the rules on locals,
/// jumps and requires, but for whether a `require_relative` goes above the base. Where there is
/// none, the first node in the text whose form isn't built yet is refused. `sites` is empty.
#[tactic(auto, unfolding(ruby_meaning::specs::Scoping::Scopes::own_scope_fault))]
pub fn resolve(alloc: Global, program: Program) -> Result<Resolved, Stop>
    ensures scoped { IfOk result (λ resolved. Scoped program resolved) }
    ensures refused { IfErr result (λ stop. Stops program stop) }
{
    let mut seen = start(alloc);
    let body = walk_node(alloc, &mut seen, no_targets(), &program.body)?;
    if let Some(Refusal { pos, construct }) = refusal_of(&seen) {
        return Err(Stop::Refused { pos, construct });
    }
    let Seen {
        own,
        named,
        scopes: within,
        calls,
        ..
    } = seen;
    let mut scopes = Items::new(alloc);
    scopes.push(Scope {
        own: own.into_names(),
        outer: named.into_names(),
    })?;
    scopes.append(within)?;
    Ok(Resolved {
        program: Program { body },
        scopes,
        calls: calls.into_names(),
        sites: Items::new(alloc),
    })
}
