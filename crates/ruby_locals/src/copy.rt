//! Copies of what a node holds besides its parts.

ghost use Rattle.std.specs.Prelude.{◌≡◌, ◌∷◌, [], ◌++◌, OnOk, IfOk};

use opal_base::{Names, NoMemory, Units};
use ruby_meaning::{Kind, Node, Rest, Slot};
use sqlite_items::{Boxed, Items};
use std::alloc::Global;

/// A node as a part of another one.
pub fn boxed(alloc: Global, node: Node) -> Result<Boxed<Node>, NoMemory>
    ensures { IfOk result (λ part. part ≡ node) }
{
    match Boxed::new(alloc, node) {
        Ok(part) => Ok(part),
        Err(_) => Err(NoMemory),
    }
}

/// A node of this form that stands where another stands.
pub fn node_like(alloc: Global, kind: Kind, other: &Node) -> Result<Node, NoMemory>
    ensures { IfOk result (λ node. node ≡ record { kind = kind; span = other.now.span; mark = other.now.mark }) }
{
    match Boxed::new(alloc, kind) {
        Ok(kind) => Ok(Node {
            kind,
            span: other.span,
            mark: other.mark,
        }),
        Err(_) => Err(NoMemory),
    }
}

/// Puts a node at the end.
pub fn push(nodes: &mut Items<Node>, node: Node) -> Result<(), NoMemory>
    ensures { OnOk result (nodes.new ≡ nodes.old ++ node ∷ []) }
{
    match nodes.push(node) {
        Ok(()) => Ok(()),
        Err(_) => Err(NoMemory),
    }
}

/// The same name, where there is one.
pub fn copy_name(name: &Option<Units>) -> Result<Option<Units>, NoMemory>
    ensures { IfOk result (λ copy. copy ≡ name.now) }
{
    match name {
        Some(name) => Ok(Some(name.try_clone()?)),
        None => Ok(None),
    }
}

/// The same names.
#[tactic(auto, using(crate::proofs::Copies::moved))]
pub fn copy_names(alloc: Global, names: &Names) -> Result<Names, NoMemory>
    ensures { IfOk result (λ copy. copy ≡ names.now) }
{
    let mut copy = Names::new(alloc);
    for i in 0..names.len() {
        copy.push(names.at(i).try_clone()?)?;
    }
    Ok(copy)
}

fn copy_slot(alloc: Global, slot: &Slot) -> Result<Slot, NoMemory>
    ensures { IfOk result (λ copy. copy ≡ slot.now) }
{
    match slot {
        Slot::Name(name) => Ok(Slot::Name(name.try_clone()?)),
        Slot::Names(names) => Ok(Slot::Names(copy_names(alloc, names)?)),
    }
}

/// The same parameters, each a name or names in brackets.
pub fn copy_slots(alloc: Global, slots: &Items<Slot>) -> Result<Items<Slot>, NoMemory>
    ensures { IfOk result (λ copy. copy ≡ slots.now) }
{
    let mut copy = Items::new(alloc);
    for slot in slots.as_slice() {
        match copy.push(copy_slot(alloc, slot)?) {
            Ok(()) => {}
            Err(_) => return Err(NoMemory),
        }
    }
    Ok(copy)
}

/// The same parameter for the arguments that are left.
pub fn copy_rest(rest: &Rest) -> Result<Rest, NoMemory>
    ensures { IfOk result (λ copy. copy ≡ rest.now) }
{
    match rest {
        Rest::None => Ok(Rest::None),
        Rest::Unnamed => Ok(Rest::Unnamed),
        Rest::Named(name) => Ok(Rest::Named(name.try_clone()?)),
    }
}
