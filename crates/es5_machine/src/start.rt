//! The state before the first node of a script.

ghost use Rattle.std.specs.Prelude.{◌≡◌, List, [], ◌∷◌, None, Some, IfOk};
ghost use Rattle.es5_code.specs.declared.node.Node.{Node};
ghost use Rattle.es5_code.specs.Trees.{stmts_in};
ghost use Rattle.es5_evaluation.specs.Evaluate.{all};
ghost use Rattle.es5_evaluation.specs.Declared.{locals};
ghost use Rattle.es5_evaluation.specs.Run.{first_state, script_scope};
ghost use Rattle.es5_evaluation.specs.Task as task;
ghost use Rattle.es5_pending.specs.Meaning.{task_of};
ghost use Rattle.es5_execution.specs.Progress.{rest_task};
ghost use Rattle.es5_execution.specs.Scopes.{scope_of};
ghost use Rattle.es5_store.specs.Store.{Sound, records_of, state_in};
ghost use Rattle.es5_machine.specs.Progress.{script_in};

use es5_code::NodeTable;
use es5_execution::{Pending, Rest, Scope};
use es5_host::{Bindings, INTRINSICS, Lines, intrinsics, intrinsics_stand};
use es5_making::declare;
use es5_objects::{EsValue, ObjHeap};
use es5_pending::{Action, Stack, sequence};
use es5_store::{Record, Store};
use opal_base::{NoMemory, Units};
use std::alloc::Global;

// The record of the globals, and that of the script inside it.
fn records(alloc: Global, globals: Bindings, own: Bindings) -> Result<Vec<Record>, NoMemory>
    ensures { IfOk result (λ records. records_of records.items ≡ record { variables = []; constants = globals; outer = None } ∷ record { variables = own; constants = []; outer = Some 0 } ∷ []) }
{
    let mut records = Vec::new(alloc);
    let outer = Record {
        variables: Bindings::new(alloc),
        constants: globals,
        outer: None,
    };
    let inner = Record {
        variables: own,
        constants: Bindings::new(alloc),
        outer: Some(0),
    };
    match records.push(outer) {
        Ok(()) => {}
        Err(_) => return Err(NoMemory),
    }
    match records.push(inner) {
        Ok(()) => Ok(records),
        Err(_) => Err(NoMemory),
    }
}

/// The objects and records that stand before a script begins, in a heap of so many cells more.
pub fn first_store(
    alloc: Global,
    table: &NodeTable,
    input: Units,
    cells: u32,
) -> Result<Store, NoMemory>
    requires { table.now.variables ≡ locals [] (stmts_in table.now.nodes table.now.body) }
    ensures state { IfOk result (λ store. state_in table.now.nodes store [] ≡ first_state (script_in table.now) input) }
    ensures sound { IfOk result Sound }
    ensures limit { IfOk result (λ store. store.limit ≡ cells) }
{
    intrinsics_stand();
    let capacity = match cells.checked_add(INTRINSICS) {
        Some(capacity) => capacity,
        None => return Err(NoMemory),
    };
    let mut heap = ObjHeap::new(alloc, capacity)?;
    let globals = intrinsics(alloc, &mut heap)?;
    let mut own = Bindings::new(alloc);
    declare(&mut own, table.variables(), 0)?;
    let records = records(alloc, globals, own)?;
    Ok(Store {
        heap,
        codes: Vec::new(alloc),
        records,
        lines: Lines::new(input),
        limit: cells,
    })
}

#[tactic(auto, using(crate::proofs::First::one_behind), unfolding(es5_pending::specs::Meaning::task_of))]
// What is left to do of an action that begins a node or nothing, where no frame waits.
fn opened(stack: &mut Stack, action: Action) -> Result<Rest, NoMemory>
    requires { stack.old ≡ [] }
    ensures { (T : List Node) (ρ : task.Scope) → IfOk result (λ rest. rest_task T ρ stack.new rest ≡ task_of T ρ action) }
{
    match action {
        Action::Answer(completion) => Ok(Rest::Ended(completion)),
        Action::BeginUnder(begins, frame) => {
            stack.push(frame)?;
            Ok(Rest::Begins(begins))
        }
        _ => Err(NoMemory),
    }
}

/// What is left to do before the first node of a script begins.
pub fn first_rest(alloc: Global, table: &NodeTable) -> Result<(Pending, Rest), NoMemory>
    ensures { IfOk result (λ r. rest_task table.now.nodes (scope_of r.0.scope) r.0.stack r.1 ≡ all (stmts_in table.now.nodes table.now.body) script_scope) }
{
    let scope = Scope {
        this: EsValue::Undefined,
        innermost: 1,
    };
    let mut stack = Stack::new(alloc);
    let rest = opened(&mut stack, sequence(table, table.body(), 0))?;
    Ok((Pending { stack, scope }, rest))
}
