//! What stands before a place of the text.

ghost use Rattle.std.specs.Prelude.{◌≡◌, [], ◌∷◌, ◌++◌, OnOk, IfOk, Some, None};
ghost use Rattle.ruby_meaning.specs.Scoping.Seen as spec;
ghost use Rattle.ruby_meaning.specs.Scoping.Scopes.{start};
ghost use Rattle.ruby_meaning.specs.Scoping.Walk.{rescued};

use opal_base::{NoMemory, Pos, Units};
use ruby_meaning::{Construct, NameList, Refusal, Scopes, Seen};
use sqlite_items::Items;
use std::alloc::Global;

/// Whether a place of the text stands before another one.
pub fn stands_before(p: Pos, q: Pos) -> bool
    ensures { result ≡ spec.stands_before p q }
{
    p.line < q.line || p.line == q.line && p.col < q.col
}

/// Nothing: the start of a file.
pub fn start(alloc: Global) -> Seen
    ensures { result ≡ start }
{
    Seen {
        own: NameList::new(alloc),
        params: NameList::new(alloc),
        named: NameList::new(alloc),
        outer: Items::new(alloc),
        scopes: Items::new(alloc),
        calls: NameList::new(alloc),
        refusal: None,
        unbuilt: None,
    }
}

/// Notes a refusal, where it is one.
#[tactic(auto, unfolding(ruby_meaning::specs::Scoping::Seen::refuse_if))]
pub fn refuse_if(seen: &mut Seen, refused: bool, pos: Pos, construct: Construct)
    ensures { seen.new ≡ spec.refuse_if refused pos construct seen.old }
{
    if refused {
        match seen.refusal {
            Some(first) if !stands_before(pos, first.pos) => {}
            _ => seen.refusal = Some(Refusal { pos, construct }),
        }
    }
}

/// Notes the start of a node whose form isn't built yet.
#[tactic(auto, unfolding(ruby_meaning::specs::Scoping::Seen::unbuilt_at))]
pub fn unbuilt_at(seen: &mut Seen, pos: Pos)
    ensures { seen.new ≡ spec.unbuilt_at pos seen.old }
{
    match seen.unbuilt {
        Some(first) if !stands_before(pos, first) => {}
        _ => seen.unbuilt = Some(pos),
    }
}

fn is_outside(outer: &Items<NameList>, name: &Units) -> bool
    ensures { result ≡ spec.outside outer.now name.now }
{
    outer
        .as_slice()
        .iter()
        .any(|names| names.contains(name.as_slice()))
}

/// Whether the name is a local.
#[tactic(auto, unfolding(ruby_meaning::specs::Scoping::Seen::is_local))]
pub(crate) fn is_local(seen: &Seen, name: &Units) -> bool
    ensures { result ≡ spec.is_local seen.now name.now }
{
    seen.own.contains(name.as_slice()) || is_outside(&seen.outer, name)
}

/// Names a local, which may be a new one.
#[tactic(auto, unfolding(ruby_meaning::specs::Scoping::Seen::name_local))]
pub fn name_local(seen: &mut Seen, name: &Units) -> Result<(), NoMemory>
    ensures { OnOk result (seen.new ≡ spec.name_local name.now seen.old) }
{
    if seen.own.contains(name.as_slice()) {
        Ok(())
    } else if is_outside(&seen.outer, name) {
        seen.named.insert(name)
    } else {
        seen.own.insert(name)
    }
}

fn is_underscored(name: &[u16]) -> bool
    ensures { result ≡ spec.is_underscored name.now }
{
    match name {
        [] => false,
        [first, ..] => *first == 95,
    }
}

/// Takes a parameter into the scope.
#[tactic(auto, unfolding(ruby_meaning::specs::Scoping::Seen::parameter))]
pub fn parameter(seen: &mut Seen, mark: Pos, name: &Units) -> Result<(), NoMemory>
    ensures { OnOk result (seen.new ≡ spec.parameter mark name.now seen.old) }
{
    let units = name.as_slice();
    let repeated = !is_underscored(units) && seen.params.contains(units);
    refuse_if(seen, repeated, mark, Construct::Syntax);
    seen.own.insert(name)?;
    seen.params.insert(name)
}

/// Notes the name that a call looks up.
#[tactic(auto, unfolding(ruby_meaning::specs::Scoping::Seen::called))]
pub(crate) fn called(seen: &mut Seen, name: &Units) -> Result<(), NoMemory>
    ensures { OnOk result (seen.new ≡ spec.called name.now seen.old) }
{
    seen.calls.insert(name)
}

/// Names the local that a rescue clause sets, where it sets one.
#[tactic(auto, unfolding(ruby_meaning::specs::Scoping::Walk::rescued))]
pub fn name_rescued(seen: &mut Seen, name: &Option<Units>) -> Result<(), NoMemory>
    ensures { OnOk result (seen.new ≡ rescued name.now seen.old) }
{
    match name {
        Some(name) => name_local(seen, name),
        None => Ok(()),
    }
}
