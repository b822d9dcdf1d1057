//! Calls of the functions of a script (ECMA-262 5.1, sections 10.4.3 and 13.2.1).

ghost use Rattle.std.specs.Prelude.{◌≡◌, List, is_some, map, slice_get, true, OnOk};
ghost use Rattle.es5_evaluation.specs.State.{code_at};
ghost use Rattle.es5_evaluation.specs.Task.{Scope};
ghost use Rattle.es5_evaluation.specs.Evaluate.{activation, enter, entered, run_body};
ghost use Rattle.es5_objects.specs.Values.{value_of};
ghost use Rattle.es5_code.specs.declared.node.Node.{Node};
ghost use Rattle.es5_code.specs.Sound.{Declares};
ghost use Rattle.es5_code.specs.Trees.{code_in, code_of, stmts_in};
ghost use Rattle.es5_store.specs.Store.{Sound};
ghost use Rattle.es5_store.specs.Steps.{Quiet};
ghost use Rattle.es5_making.specs.Calls.{arguments_bound};

use crate::activations::activation;
use crate::arguments::new_arguments;
use crate::records::add_record;
use es5_code::{FunctionForm, NodeId, NodeTable};
use es5_host::EsValues;
use es5_objects::EsValue;
use es5_store::{Effect, Halt, Store};
use std::alloc::Global;

// Makes the record of a call. The statements are what is left to do.
fn enter_record(
    alloc: Global,
    store: &mut Store,
    function: &FunctionForm,
    f: u32,
    outer: usize,
    this: EsValue,
    args: &EsValues,
    arguments: Option<u32>,
) -> Result<Effect, Halt>
    requires sound { Sound store.old }
    requires names { function.now.names_arguments ≡ is_some arguments }
    ensures sound { OnOk result (Sound store.new) }
    ensures limit { store.new.limit ≡ store.old.limit }
    ensures does { (T : List Node) (ρ : Scope) → Declares T function.now → Quiet result T ρ (run_body (stmts_in T function.now.body) (value_of this) (activation (code_of T function.now) f outer args.now (arguments_bound arguments))) store.old store.new }
{
    if store.is_full() {
        return Err(Halt::CellsFull);
    }
    let made = match activation(alloc, function, f, outer, args, arguments) {
        Ok(made) => made,
        Err(_) => return Err(Halt::NoMemory),
    };
    match add_record(&mut store.records, made) {
        Ok(innermost) => Ok(Effect::Called {
            body: function.body,
            this,
            innermost,
        }),
        Err(_) => Err(Halt::NoMemory),
    }
}

// The call of a function that names `arguments`: first its object is made.
fn enter_listed(
    alloc: Global,
    store: &mut Store,
    function: &FunctionForm,
    f: u32,
    outer: usize,
    this: EsValue,
    args: &EsValues,
) -> Result<Effect, Halt>
    requires sound { Sound store.old }
    requires names { function.now.names_arguments ≡ true }
    ensures sound { OnOk result (Sound store.new) }
    ensures limit { store.new.limit ≡ store.old.limit }
    ensures does { (T : List Node) (ρ : Scope) → Declares T function.now → Quiet result T ρ (entered true (code_of T function.now) f outer (value_of this) args.now) store.old store.new }
{
    if store.is_full() {
        return Err(Halt::CellsFull);
    }
    match new_arguments(alloc, &mut store.heap, args) {
        Ok(o) => enter_record(alloc, store, function, f, outer, this, args, Some(o)),
        Err(_) => Err(Halt::NoMemory),
    }
}

// The node of the function whose code has this number.
fn node_of(codes: &[NodeId], code: usize) -> Option<NodeId>
    ensures { result ≡ slice_get codes.now code }
{
    codes.get(code).copied()
}

/// Calls a function of the script, by its number and that of its code: the arguments object is made
/// where the code names it, then the record, inside the one in which the function was made. The
/// statements are what is left to do.
pub fn enter(
    alloc: Global,
    store: &mut Store,
    table: &NodeTable,
    code: usize,
    f: u32,
    outer: usize,
    this: EsValue,
    args: &EsValues,
) -> Result<Effect, Halt>
    requires sound { Sound store.old }
    ensures sound { OnOk result (Sound store.new) }
    ensures limit { store.new.limit ≡ store.old.limit }
    ensures does { (ρ : Scope) → Quiet result table.now.nodes ρ (enter (code_at (map (code_in table.now.nodes) store.old.codes.items) code) f outer (value_of this) args.now) store.old store.new }
{
    let Some(node) = node_of(&store.codes, code) else {
        return Err(Halt::NoMemory);
    };
    let Some(function) = table.function(node) else {
        return Err(Halt::NoMemory);
    };
    if function.names_arguments {
        enter_listed(alloc, store, function, f, outer, this, args)
    } else {
        enter_record(alloc, store, function, f, outer, this, args, None)
    }
}
