//! Objects, the code of functions, and activation records.

ghost use Rattle.std.specs.Prelude.{◌≡◌, ◌↔◌, ◌+◌, ◌<◌, length, IsTrue};
ghost use Rattle.std.specs.Option.{option_copied};
ghost use Rattle.es5_tree.specs.Values.{find_own};
ghost use Rattle.es5_tree.specs.Intrinsics.Valid.{Names};
ghost use Rattle.es5_evaluation.specs.Run.{at_first};
ghost use Rattle.es5_evaluation.specs.State.{binds, has_variable, value_in};
ghost use Rattle.es5_objects.specs.Values.{value_if, value_of};
ghost use Rattle.es5_store.specs.Store.{IsFull, Sound, record_of};

use es5_code::NodeId;
use es5_host::{Bindings, Lines};
use es5_objects::{EsValue, ObjHeap};
use opal_base::Units;

/// An activation record (10.2.1): its variables, the names in it that can't be written, and the
/// number of the record around it.
#[derive(Drop)]
pub struct Record {
    pub variables: Bindings,
    pub constants: Bindings,
    pub outer: Option<usize>,
}

/// The state of a run. Objects and records are numbered each in their order.
#[derive(Drop)]
pub struct Store {
    pub heap: ObjHeap,
    /// The functions whose code was kept, by the numbers of their nodes.
    pub codes: Vec<NodeId>,
    pub records: Vec<Record>,
    pub lines: Lines,
    /// How many cells the run may make: objects and records beside those that stand at its start.
    pub limit: u32,
}

/// The objects and records that stand at the start: the intrinsic objects, the record of the globals
/// and that of the script.
const AT_FIRST: u64 = 31;

impl Store {
    /// Whether no cell is left.
    pub fn is_full(&self) -> bool
        requires { Sound self.now }
        ensures { IsTrue result ↔ IsFull self.now }
    {
        let all = u64::from(self.heap.len()) + self.records.len() as u64;
        all >= AT_FIRST && all - AT_FIRST >= u64::from(self.limit)
    }

    /// Whether there are more cells than the run may make.
    pub fn is_over(&self) -> bool
        ensures { IsTrue result ↔ (self.now.limit + at_first < length self.now.heap.cells + length self.now.records.items) }
    {
        let most = AT_FIRST + u64::from(self.limit);
        let records = self.records.len() as u64;
        records > most || u64::from(self.heap.len()) > most - records
    }
}

/// Whether a value names an object that is there, or none.
pub fn is_named(heap: &ObjHeap, value: &EsValue) -> bool
    ensures { IsTrue result → Names (length heap.now.cells) (value_of value.now) }
{
    match value {
        EsValue::Obj(o) => *o < heap.len(),
        EsValue::Undefined => true,
        EsValue::Null => true,
        EsValue::Bool(_) => true,
        EsValue::Num(_) => true,
        EsValue::Str(_) => true,
    }
}

#[tactic(auto, using(crate::proofs::Records::found_value, crate::proofs::Records::missing_value))]
/// The value of a name, where it has one here.
pub fn find<'a>(bindings: &'a Bindings, name: &Units) -> Option<&'a EsValue>
    ensures { value_if (option_copied result) ≡ find_own bindings.now name.now }
{
    match bindings.find(name) {
        Some(i) => Some(bindings.value(i)),
        None => None,
    }
}

impl Record {
    /// Whether it has a variable of this name.
    pub fn has_variable(&self, name: &Units) -> bool
        ensures { result ≡ has_variable (record_of self.now) name.now }
    {
        find(&self.variables, name).is_some()
    }

    /// Whether the name is bound here.
    pub fn binds(&self, name: &Units) -> bool
        ensures { result ≡ binds (record_of self.now) name.now }
    {
        find(&self.variables, name).is_some() || find(&self.constants, name).is_some()
    }

    /// The value of a name that is bound here.
    pub fn value(&self, name: &Units) -> Option<&EsValue>
        ensures { value_if (option_copied result) ≡ value_in (record_of self.now) name.now }
    {
        match find(&self.variables, name) {
            Some(value) => Some(value),
            None => find(&self.constants, name),
        }
    }
}
