//! The start and the end of a scope. Lists of names are moved and never copied, so what these calls
//! take doesn't grow with the number of names.

ghost use Rattle.std.specs.Prelude.{◌≡◌, [], ◌∷◌, ◌++◌, OnOk, IfOk};
ghost use Rattle.ruby_meaning.specs.Scoping.Seen.{opened, block_closed, body_closed};

use opal_base::NoMemory;
use ruby_meaning::{NameList, Scope, Scopes, Seen};
use sqlite_items::Items;
use std::alloc::Global;
use std::mem::replace;

/// What is put back behind a block: what was seen before it but for its locals.
#[derive(Drop)]
pub struct Kept {
    pub params: NameList,
    pub named: NameList,
    pub scopes: Scopes,
}

/// What is put back behind a body that sees no scope around it.
#[derive(Drop)]
pub struct KeptAll {
    pub own: NameList,
    pub outer: Items<NameList>,
    pub kept: Kept,
}

fn keep(alloc: Global, seen: &mut Seen) -> Kept
    ensures params { result.params ≡ seen.old.params }
    ensures named { result.named ≡ seen.old.named }
    ensures scopes { result.scopes ≡ seen.old.scopes }
    ensures seen { seen.new ≡ record seen.old { params = []; named = []; scopes = [] } }
{
    Kept {
        params: replace(&mut seen.params, NameList::new(alloc)),
        named: replace(&mut seen.named, NameList::new(alloc)),
        scopes: replace(&mut seen.scopes, Items::new(alloc)),
    }
}

// The scope stands behind those before it, and those within it behind it.
fn add_scope(alloc: Global, seen: &mut Seen, own: NameList, kept: Kept) -> Result<(), NoMemory>
    ensures { OnOk result (seen.new ≡ record seen.old {
      own = own;
      params = kept.params;
      named = kept.named;
      scopes = kept.scopes ++ record { own = seen.old.own; outer = seen.old.named } ∷ seen.old.scopes;
    }) }
{
    let Kept {
        params,
        named,
        mut scopes,
    } = kept;
    let inner = replace(&mut seen.own, own);
    let outer = replace(&mut seen.named, named);
    let within = replace(&mut seen.scopes, Items::new(alloc));
    let scope = Scope {
        own: inner.into_names(),
        outer: outer.into_names(),
    };
    match scopes.push(scope) {
        Ok(()) => {}
        Err(_) => return Err(NoMemory),
    }
    match scopes.append(within) {
        Ok(()) => {}
        Err(_) => return Err(NoMemory),
    }
    seen.params = params;
    seen.scopes = scopes;
    Ok(())
}

/// The start of a block or a lambda.
#[tactic(auto, unfolding(ruby_meaning::specs::Scoping::Seen::opened))]
pub fn open_block(alloc: Global, seen: &mut Seen) -> Result<Kept, NoMemory>
    ensures seen { OnOk result (seen.new ≡ opened (seen.old.outer ++ seen.old.own ∷ []) seen.old) }
    ensures params { IfOk result (λ kept. kept.params ≡ seen.old.params) }
    ensures named { IfOk result (λ kept. kept.named ≡ seen.old.named) }
    ensures scopes { IfOk result (λ kept. kept.scopes ≡ seen.old.scopes) }
{
    let kept = keep(alloc, seen);
    let own = replace(&mut seen.own, NameList::new(alloc));
    match seen.outer.push(own) {
        Ok(()) => Ok(kept),
        Err(_) => Err(NoMemory),
    }
}

/// The end of a block or a lambda.
#[tactic(auto, using(crate::proofs::Stack::innermost_is, crate::proofs::Stack::outer_ones_are), unfolding(ruby_meaning::specs::Scoping::Seen::block_closed))]
pub fn close_block(alloc: Global, seen: &mut Seen, kept: Kept) -> Result<(), NoMemory>
    ensures { OnOk result (seen.new ≡ block_closed kept.params kept.named kept.scopes seen.old) }
{
    let own = match seen.outer.pop() {
        Some(own) => own,
        None => NameList::new(alloc),
    };
    add_scope(alloc, seen, own, kept)
}

/// The start of a `def`, a class or a module.
#[tactic(auto, unfolding(ruby_meaning::specs::Scoping::Seen::opened))]
pub fn open_body(alloc: Global, seen: &mut Seen) -> KeptAll
    ensures seen { seen.new ≡ opened [] seen.old }
    ensures own { result.own ≡ seen.old.own }
    ensures outer { result.outer ≡ seen.old.outer }
    ensures params { result.kept.params ≡ seen.old.params }
    ensures named { result.kept.named ≡ seen.old.named }
    ensures scopes { result.kept.scopes ≡ seen.old.scopes }
{
    KeptAll {
        kept: keep(alloc, seen),
        own: replace(&mut seen.own, NameList::new(alloc)),
        outer: replace(&mut seen.outer, Items::new(alloc)),
    }
}

/// The end of a `def`, a class or a module.
#[tactic(auto, unfolding(ruby_meaning::specs::Scoping::Seen::body_closed))]
pub fn close_body(alloc: Global, seen: &mut Seen, all: KeptAll) -> Result<(), NoMemory>
    ensures { OnOk result (seen.new ≡ body_closed all.own all.kept.params all.kept.named all.outer all.kept.scopes seen.old) }
{
    let KeptAll { own, outer, kept } = all;
    add_scope(alloc, seen, own, kept)?;
    seen.outer = outer;
    Ok(())
}
