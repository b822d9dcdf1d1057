//! What the forms other than calls say before their parts do.

ghost use Rattle.std.specs.Prelude.{◌≡◌, ◌&&◌, OnOk, None};
ghost use Rattle.ruby_meaning.specs.Scoping.Walk as spec;
ghost use Rattle.ruby_meaning.specs.Scoping.Seen.{called, refuse_if};
ghost use Rattle.ruby_meaning.specs.declared.construct.Construct.TheVariants as construct;

use crate::around::is_target;
use crate::call::{operator_name, setter};
use crate::seen::{called, refuse_if};
use crate::shape::is_here;
use crate::word::names_thread;
use opal_base::{NoMemory, Pos, Units};
use ruby_meaning::{Around, Base, Construct, Operator, Seen};
use std::alloc::Global;

/// A constant: that of a thread is refused without a base, and an assignment in a `def` too.
pub fn note_constant(seen: &mut Seen, around: Around, mark: Pos, base: &Base, name: &Units)
    ensures { seen.new ≡ refuse_if (spec.is_target around.role && around.in_def) mark construct.DynamicConstant (refuse_if ((spec.base_part None base.now).is_here && spec.is_thread name.now) mark construct.ThreadOrFiber seen.old) }
{
    let threaded = is_here(base) && names_thread(name.as_slice());
    let assigned = is_target(around.role) && around.in_def;
    refuse_if(seen, threaded, mark, Construct::ThreadOrFiber);
    refuse_if(seen, assigned, mark, Construct::DynamicConstant);
}

/// An assignment to what a method reads: it calls the method that sets.
pub fn note_set(seen: &mut Seen, name: &Units) -> Result<(), NoMemory>
    ensures { OnOk result (seen.new ≡ called (spec.setter name.now) seen.old) }
{
    called(seen, &setter(name)?)
}

/// An assignment by an operator to what a method reads: it calls the method that reads, the one
/// that sets and that of the operator.
#[tactic(auto, unfolding(ruby_meaning::specs::Scoping::Walk::called_if_any))]
pub fn note_operator_set(
    alloc: Global,
    seen: &mut Seen,
    name: &Units,
    op: Operator,
) -> Result<(), NoMemory>
    ensures { OnOk result (seen.new ≡ spec.called_if_any (spec.operator_name op) (called (spec.setter name.now) (called name.now seen.old))) }
{
    called(seen, name)?;
    note_set(seen, name)?;
    match operator_name(alloc, op)? {
        Some(name) => called(seen, &name),
        None => Ok(()),
    }
}
