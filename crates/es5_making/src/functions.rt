//! Functions (ECMA-262 5.1, section 13).

ghost use Rattle.std.specs.Prelude.{◌≡◌, [], ◌∷◌, ◌++◌, List, OnOk};
ghost use Rattle.es5_evaluation.specs.Task.{Scope};
ghost use Rattle.es5_evaluation.specs.Evaluate.{make_function};
ghost use Rattle.es5_code.specs.declared.node.Node.{Node};
ghost use Rattle.es5_code.specs.Trees.{code_in};
ghost use Rattle.es5_store.specs.Store.{Sound};
ghost use Rattle.es5_store.specs.Steps.{Quiet};

use crate::objects::{FUNCTION_PROTOTYPE, GREATEST, new_object};
use es5_code::NodeId;
use es5_objects::{CellKind, EsValue};
use es5_pending::Completion;
use es5_store::{Effect, Halt, Store};
use opal_base::NoMemory;

// Puts the number of a function's node at the end.
fn keep(codes: &mut Vec<NodeId>, node: NodeId) -> Result<(), NoMemory>
    ensures { OnOk result (codes.new.items ≡ codes.old.items ++ node ∷ []) }
{
    match codes.push(node) {
        Ok(()) => Ok(()),
        Err(_) => Err(NoMemory),
    }
}

/// The value of a function expression in a record: its code is kept, and a new object has the number
/// of its code and of the record (13.2).
pub fn make_function(store: &mut Store, node: NodeId, r: usize) -> Result<Effect, Halt>
    requires sound { Sound store.old }
    ensures sound { OnOk result (Sound store.new) }
    ensures limit { store.new.limit ≡ store.old.limit }
    ensures does { (T : List Node) (ρ : Scope) → Quiet result T ρ (make_function (code_in T node) r) store.old store.new }
{
    if store.is_full() {
        return Err(Halt::CellsFull);
    }
    let code = store.codes.len();
    if code > GREATEST || r > GREATEST {
        return Err(Halt::NoMemory);
    }
    let kind = CellKind::Function {
        code: code as u32,
        scope: r as u32,
    };
    match keep(&mut store.codes, node) {
        Ok(()) => {}
        Err(_) => return Err(Halt::NoMemory),
    }
    match new_object(&mut store.heap, FUNCTION_PROTOTYPE, kind) {
        Ok(o) => Ok(Effect::Ended(Completion::Normal(EsValue::Obj(o)))),
        Err(_) => Err(Halt::NoMemory),
    }
}
