//! Calls of functions (ECMA-262 5.1, sections 11.2.3, 13.2.1, 15.3.4.3 and 15.3.4.4).

ghost use Rattle.std.specs.Prelude.{◌≡◌, ◌↔◌, ℕ, ◌+◌, ◌<◌, ◌≤◌, List, length, slice_get, IfErr, IsTrue, OnOk};
ghost use Rattle.es5_tree.specs.Values.{Obj};
ghost use Rattle.es5_tree.specs.Intrinsics.Rows.{row};
ghost use Rattle.es5_evaluation.specs.Task.{Scope};
ghost use Rattle.es5_evaluation.specs.Evaluate.{Call, host_functions, invoke, invoke_by, not_a_function, passed, row_task};
ghost use Rattle.es5_objects.specs.Values.{value_of};
ghost use Rattle.es5_host.specs.Values.{fn_of};
ghost use Rattle.es5_code.specs.declared.node.Node.{Node};
ghost use Rattle.es5_store.specs.Store.{Sound};
ghost use Rattle.es5_store.specs.Steps.{Acted, HaltCaused, Quiet};
ghost use Rattle.es5_making.specs.Invocations.{ActedBy};
ghost use Rattle.std.specs.declared.option.Option.{Option};

use crate::arrays::are_named;
use crate::calls::enter;
use es5_code::NodeTable;
use es5_host::{EsValues, HostAnswer, HostFn, OutKind, host_call, host_fn};
use es5_objects::{CellKind, EsValue};
use es5_pending::Completion;
use es5_store::{Effect, Halt, Store, is_named, raise, type_error};
use opal_base::{Pos, Sink};
use std::alloc::Global;

/// What comes of a call.
#[derive(Drop)]
pub(crate) enum Invoked {
    /// It is done.
    Done(Effect),
    /// An intrinsic function calls another function, by its number.
    Passed {
        callee: u32,
        this: EsValue,
        args: EsValues,
    },
}

// Throws a TypeError, since what is called is no function.
fn no_function(alloc: Global, store: &mut Store) -> Result<Effect, Halt>
    requires sound { Sound store.old }
    ensures sound { OnOk result (Sound store.new) }
    ensures limit { store.new.limit ≡ store.old.limit }
    ensures does { (T : List Node) (ρ : Scope) (told : Option (List ℕ)) → Acted result T ρ not_a_function store.old store.new told told }
    ensures cause { (n : ℕ) → IfErr result (λ h. HaltCaused h n n) }
{
    type_error(alloc, store, b"not a function")
}

// The same where a call may come to another one.
fn refused(alloc: Global, store: &mut Store) -> Result<Invoked, Halt>
    requires sound { Sound store.old }
    ensures sound { OnOk result (Sound store.new) }
    ensures limit { store.new.limit ≡ store.old.limit }
    ensures does { (call : Call) (T : List Node) (ρ : Scope) (told : Option (List ℕ)) → ActedBy result call T ρ not_a_function store.old store.new told told }
    ensures cause { (n : ℕ) → IfErr result (λ h. HaltCaused h n n) }
{
    match no_function(alloc, store) {
        Ok(effect) => Ok(Invoked::Done(effect)),
        Err(halt) => Err(halt),
    }
}

// Calls an intrinsic function.
fn call_host<S: Sink>(
    alloc: Global,
    store: &mut Store,
    which: HostFn,
    this: &EsValue,
    args: &EsValues,
    pos: Pos,
    sink: &mut S,
) -> Result<Invoked, Halt>
    requires sound { Sound store.old }
    ensures sound { OnOk result (Sound store.new) }
    ensures limit { store.new.limit ≡ store.old.limit }
    ensures does { (call : Call) (T : List Node) (ρ : Scope) → ActedBy result call T ρ (row_task call pos (row (fn_of which) store.old.heap.cells store.old.lines (value_of this.now) args.now)) store.old store.new (S.told sink.old) (S.told sink.new) }
    ensures later { S.faults sink.old ≤ S.faults sink.new }
    ensures cause { IfErr result (λ h. HaltCaused h (S.faults sink.old) (S.faults sink.new)) }
{
    if !is_named(&store.heap, this) || !are_named(&store.heap, args) {
        return Err(Halt::NoMemory);
    }
    match host_call(
        alloc,
        &mut store.heap,
        which,
        this,
        args,
        &mut store.lines,
        sink,
    ) {
        HostAnswer::Value(value) => {
            if store.is_over() {
                return Err(Halt::CellsFull);
            }
            Ok(Invoked::Done(Effect::Ended(Completion::Normal(value))))
        }
        HostAnswer::Throw { name: _, message } => match raise(alloc, store, b"TypeError", message) {
            Ok(effect) => Ok(Invoked::Done(effect)),
            Err(halt) => Err(halt),
        },
        HostAnswer::Invoke { callee, this, args } => Ok(Invoked::Passed { callee, this, args }),
        HostAnswer::Outside(kind) => Ok(Invoked::Done(Effect::Left(kind, pos))),
        HostAnswer::CellsFull => Err(Halt::CellsFull),
        HostAnswer::WriteFault => Err(Halt::WriteFault),
        HostAnswer::NoMemory => Err(Halt::NoMemory),
    }
}

// Calls a function by its number. Another function that it calls, where it is an intrinsic one, isn't
// called yet.
fn invoke_once<S: Sink>(
    alloc: Global,
    store: &mut Store,
    table: &NodeTable,
    f: u32,
    this: EsValue,
    args: &EsValues,
    pos: Pos,
    sink: &mut S,
) -> Result<Invoked, Halt>
    requires sound { Sound store.old }
    ensures sound { OnOk result (Sound store.new) }
    ensures limit { store.new.limit ≡ store.old.limit }
    ensures does { (call : Call) (ρ : Scope) → ActedBy result call table.now.nodes ρ (invoke_by call pos f (value_of this) args.now) store.old store.new (S.told sink.old) (S.told sink.new) }
    ensures later { S.faults sink.old ≤ S.faults sink.new }
    ensures cause { IfErr result (λ h. HaltCaused h (S.faults sink.old) (S.faults sink.new)) }
{
    if f >= store.heap.len() {
        return Err(Halt::NoMemory);
    }
    match store.heap.kind(f) {
        CellKind::Object => refused(alloc, store),
        CellKind::Array => refused(alloc, store),
        CellKind::Arguments => refused(alloc, store),
        CellKind::Record { outer: _ } => refused(alloc, store),
        CellKind::Function { code, scope } => {
            match enter(
                alloc,
                store,
                table,
                code as usize,
                f,
                scope as usize,
                this,
                args,
            ) {
                Ok(effect) => Ok(Invoked::Done(effect)),
                Err(halt) => Err(halt),
            }
        }
        CellKind::Host(number) => match host_fn(number) {
            Some(which) => call_host(alloc, store, which, &this, args, pos, sink),
            None => refused(alloc, store),
        },
    }
}

// Calls a function that an intrinsic one calls. It is no function that calls another one.
fn invoke_passed<S: Sink>(
    alloc: Global,
    store: &mut Store,
    table: &NodeTable,
    f: u32,
    this: EsValue,
    args: &EsValues,
    pos: Pos,
    sink: &mut S,
) -> Result<Effect, Halt>
    requires sound { Sound store.old }
    ensures sound { OnOk result (Sound store.new) }
    ensures limit { store.new.limit ≡ store.old.limit }
    ensures does { (ρ : Scope) → Acted result table.now.nodes ρ (passed pos f (value_of this) args.now) store.old store.new (S.told sink.old) (S.told sink.new) }
    ensures later { S.faults sink.old ≤ S.faults sink.new }
    ensures cause { IfErr result (λ h. HaltCaused h (S.faults sink.old) (S.faults sink.new)) }
{
    match invoke_once(alloc, store, table, f, this, args, pos, sink) {
        Ok(Invoked::Done(effect)) => Ok(effect),
        Ok(
            Invoked::Passed {
                callee: _,
                this: _,
                args: _,
            },
        ) => Ok(Effect::Left(OutKind::Host, pos)),
        Err(halt) => Err(halt),
    }
}

// Calls a function by its number.
fn invoke_function<S: Sink>(
    alloc: Global,
    store: &mut Store,
    table: &NodeTable,
    f: u32,
    this: EsValue,
    args: &EsValues,
    pos: Pos,
    sink: &mut S,
) -> Result<Effect, Halt>
    requires sound { Sound store.old }
    ensures sound { OnOk result (Sound store.new) }
    ensures limit { store.new.limit ≡ store.old.limit }
    ensures does { (ρ : Scope) → Acted result table.now.nodes ρ (invoke pos (Obj f) (value_of this) args.now) store.old store.new (S.told sink.old) (S.told sink.new) }
    ensures later { S.faults sink.old ≤ S.faults sink.new }
    ensures cause { IfErr result (λ h. HaltCaused h (S.faults sink.old) (S.faults sink.new)) }
{
    match invoke_once(alloc, store, table, f, this, args, pos, sink) {
        Ok(Invoked::Done(effect)) => Ok(effect),
        Ok(Invoked::Passed { callee, this, args }) => {
            invoke_passed(alloc, store, table, callee, this, &args, pos, sink)
        }
        Err(halt) => Err(halt),
    }
}

/// Calls a value with a `this` and arguments (11.2.3): a function of the script, of which the
/// statements are left to do, or an intrinsic one. A function that `call` or `apply` calls is called
/// too. A value that is no function throws a TypeError.
pub fn invoke<S: Sink>(
    alloc: Global,
    store: &mut Store,
    table: &NodeTable,
    function: &EsValue,
    this: EsValue,
    args: EsValues,
    pos: Pos,
    sink: &mut S,
) -> Result<Effect, Halt>
    requires sound { Sound store.old }
    ensures sound { OnOk result (Sound store.new) }
    ensures limit { store.new.limit ≡ store.old.limit }
    ensures does { (ρ : Scope) → Acted result table.now.nodes ρ (invoke pos (value_of function.now) (value_of this) args) store.old store.new (S.told sink.old) (S.told sink.new) }
    ensures later { S.faults sink.old ≤ S.faults sink.new }
    ensures cause { IfErr result (λ h. HaltCaused h (S.faults sink.old) (S.faults sink.new)) }
{
    match function {
        EsValue::Obj(f) => invoke_function(alloc, store, table, *f, this, &args, pos, sink),
        EsValue::Undefined => no_function(alloc, store),
        EsValue::Null => no_function(alloc, store),
        EsValue::Bool(_) => no_function(alloc, store),
        EsValue::Num(_) => no_function(alloc, store),
        EsValue::Str(_) => no_function(alloc, store),
    }
}
