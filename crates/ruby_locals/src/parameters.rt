//! The names of parameters, in the order of the text.

ghost use Rattle.std.specs.Prelude.{◌≡◌, drop, OnOk};
ghost use Rattle.ruby_meaning.specs.Scoping.Walk as spec;

use crate::seen::parameter;
use opal_base::{Names, NoMemory, Pos, Units};
use ruby_meaning::{Rest, Seen, Slot};
use sqlite_items::Items;

/// The names from an index on.
#[tactic(auto, using(ruby_meaning::proofs::Scoping::Lists::drop_at))]
pub fn names_from(seen: &mut Seen, mark: Pos, names: &Names, first: usize) -> Result<(), NoMemory>
    ensures { OnOk result (seen.new ≡ spec.names_in_turn mark (drop first names.now) seen.old) }
{
    for i in first..names.len() {
        parameter(seen, mark, names.at(i))?;
    }
    Ok(())
}

fn one_slot(seen: &mut Seen, mark: Pos, slot: &Slot) -> Result<(), NoMemory>
    ensures { OnOk result (seen.new ≡ spec.one_slot mark slot.now seen.old) }
{
    match slot {
        Slot::Name(name) => parameter(seen, mark, name),
        Slot::Names(names) => names_from(seen, mark, names, 0),
    }
}

/// The parameters that take one argument each.
pub fn slots(seen: &mut Seen, mark: Pos, slots: &Items<Slot>) -> Result<(), NoMemory>
    ensures { OnOk result (seen.new ≡ spec.slots mark slots.now seen.old) }
{
    for slot in slots.as_slice() {
        one_slot(seen, mark, slot)?;
    }
    Ok(())
}

/// The parameter that takes the arguments that are left.
pub fn rest_name(seen: &mut Seen, mark: Pos, rest: &Rest) -> Result<(), NoMemory>
    ensures { OnOk result (seen.new ≡ spec.rest_name mark rest.now seen.old) }
{
    match rest {
        Rest::Named(name) => parameter(seen, mark, name),
        Rest::None | Rest::Unnamed => Ok(()),
    }
}

/// The parameter that takes the block.
pub fn block_name(seen: &mut Seen, mark: Pos, block: &Option<Units>) -> Result<(), NoMemory>
    ensures { OnOk result (seen.new ≡ spec.block_name mark block.now seen.old) }
{
    match block {
        Some(name) => parameter(seen, mark, name),
        None => Ok(()),
    }
}
