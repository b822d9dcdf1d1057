//! Acts, one by one.

ghost use Rattle.std.specs.Prelude.{◌≡◌, ◌≤◌, codes, IfErr, OnOk};
ghost use Rattle.es5_evaluation.specs.Task as task;
ghost use Rattle.es5_pending.specs.Meaning.{act_task, fault_message};
ghost use Rattle.es5_store.specs.Store.{Sound};
ghost use Rattle.es5_store.specs.Steps.{Acted, HaltCaused, Quiet};
ghost use Rattle.es5_execution.specs.Scopes.{scope_of};

use crate::scope::Scope;
use es5_code::{ExprForm, ExprNode, NodeId, NodeTable};
use es5_host::EsValues;
use es5_making::{catch, invoke, make_array, make_function, make_object};
use es5_pending::{Act, Completion, Fault};
use es5_steps::{
    delete_property, read_name, read_property, type_of, type_of_name, write_name, write_property,
};
use es5_store::{Effect, Halt, Store, type_error};
use opal_base::Sink;
use std::alloc::Global;

// The message of an error.
fn message(fault: Fault) -> &'static [u8]
    ensures { result.now ≡ fault_message fault }
{
    match fault {
        Fault::NoProperties => b"no properties",
        Fault::NotWritable => b"not writable",
        Fault::NotDeletable => b"not deletable",
    }
}

#[tactic(auto, unfolding(es5_pending::specs::Meaning::act_task, es5_code::specs::Trees::shape))]
// The object of an object expression.
fn object(store: &mut Store, table: &NodeTable, i: NodeId, values: EsValues) -> Result<Effect, Halt>
    requires sound { Sound store.old }
    ensures sound { OnOk result (Sound store.new) }
    ensures limit { store.new.limit ≡ store.old.limit }
    ensures does { (ρ : task.Scope) → Quiet result table.now.nodes ρ (act_task table.now.nodes ρ (Act.MakeObject i values)) store.old store.new }
{
    match table.expr(i) {
        Some(
            ExprNode {
                form: ExprForm::Object { keys, .. },
                ..
            },
        ) => make_object(store, keys, values),
        _ => Err(Halt::NoMemory),
    }
}

#[tactic(auto, unfolding(es5_pending::specs::Meaning::act_task))]
// An act that doesn't call the host.
fn quiet(
    alloc: Global,
    table: &NodeTable,
    store: &mut Store,
    scope: &Scope,
    act: Act,
) -> Result<Effect, Halt>
    requires sound { Sound store.old }
    ensures sound { OnOk result (Sound store.new) }
    ensures limit { store.new.limit ≡ store.old.limit }
    ensures does { Quiet result table.now.nodes (scope_of scope.now) (act_task table.now.nodes (scope_of scope.now) act) store.old store.new }
{
    match act {
        Act::This => match scope.this.share() {
            Ok(this) => Ok(Effect::Ended(Completion::Normal(this))),
            Err(_) => Err(Halt::NoMemory),
        },
        Act::ReadName(name) => read_name(alloc, store, scope.innermost, &name),
        Act::WriteName(name, value) => write_name(alloc, store, scope.innermost, &name, value),
        Act::TypeofName(name) => type_of_name(alloc, store, scope.innermost, &name),
        Act::Typeof(value) => type_of(alloc, store, &value),
        Act::ReadProperty(base, name) => read_property(alloc, store, &base, &name),
        Act::WriteProperty {
            base,
            name,
            value,
            pos,
        } => write_property(alloc, store, &base, &name, value, pos),
        Act::DeleteProperty(base, name) => delete_property(alloc, store, &base, &name),
        Act::Raise(fault) => type_error(alloc, store, message(fault)),
        Act::MakeArray(values) => make_array(alloc, store, values),
        Act::MakeObject(i, values) => object(store, table, i, values),
        Act::MakeFunction(i) => make_function(store, i, scope.innermost),
        Act::Catch { handler, value } => catch(
            alloc,
            store,
            handler.name.units(),
            handler.body,
            scope.innermost,
            value,
        ),
        Act::Invoke { .. } => Err(Halt::NoMemory),
    }
}

#[tactic(auto, using(crate::proofs::Moving::quiet_acts), unfolding(es5_pending::specs::Meaning::act_task))]
/// Does an act, in a scope. After an error nothing is said of the store.
pub fn act<S: Sink>(
    alloc: Global,
    table: &NodeTable,
    store: &mut Store,
    scope: &Scope,
    act: Act,
    sink: &mut S,
) -> Result<Effect, Halt>
    requires sound { Sound store.old }
    ensures sound { OnOk result (Sound store.new) }
    ensures limit { store.new.limit ≡ store.old.limit }
    ensures does { Acted result table.now.nodes (scope_of scope.now) (act_task table.now.nodes (scope_of scope.now) act) store.old store.new (S.told sink.old) (S.told sink.new) }
    ensures later { S.faults sink.old ≤ S.faults sink.new }
    ensures cause { IfErr result (λ h. HaltCaused h (S.faults sink.old) (S.faults sink.new)) }
{
    match act {
        Act::Invoke {
            function,
            this,
            args,
            pos,
        } => invoke(alloc, store, table, &function, this, args, pos, sink),
        act => quiet(alloc, table, store, scope, act),
    }
}
