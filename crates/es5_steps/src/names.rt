//! Names (ECMA-262 5.1, sections 8.7.1, 8.7.2 and 10.2.2.1).

ghost use Rattle.std.specs.Prelude.{◌≡◌, ◌<◌, List, codes, length, slice_set, IfSome, OnOk, IfOk};
ghost use Rattle.es5_evaluation.specs.State.{binding, record_at, value_in};
ghost use Rattle.es5_evaluation.specs.Task.{Scope};
ghost use Rattle.es5_evaluation.specs.Task as task;
ghost use Rattle.es5_evaluation.specs.Evaluate.{read_name, type_of, type_of_place, write_in, write_name};
ghost use Rattle.es5_host.specs.Bindings.{place_of, with_value_at};
ghost use Rattle.es5_steps.specs.Values.{with_value};
ghost use Rattle.es5_evaluation.specs.Values.{or_undefined};
ghost use Rattle.std.specs.Option.{option_copied};
ghost use Rattle.es5_objects.specs.Values.{value_if, value_of};
ghost use Rattle.es5_code.specs.declared.node.Node.{Node};
ghost use Rattle.es5_store.specs.Store.{Sound, records_of};
ghost use Rattle.es5_store.specs.Steps.{Quiet};

use es5_objects::{EsText, EsValue};
use es5_operators::type_name;
use es5_pending::Completion;
use es5_store::{Effect, Halt, Record, Store, find, not_defined, type_error};
use es5_tree::word_units;
use opal_base::{NoMemory, Units};
use std::alloc::Global;

/// The innermost record that binds a name, seen from a record.
fn binding(records: &[Record], r: usize, name: &Units) -> Option<usize>
    ensures binding { result ≡ binding (records_of records.now) r name.now }
    ensures within { IfSome result (λ a. a < length records.now) }
{
    let mut at = r;
    for turn in 0..records.len() {
        if records.len() <= at {
            return None;
        }
        let record = &records[at];
        if record.binds(name) {
            return Some(at);
        }
        match record.outer {
            Some(outer) => at = outer,
            None => return None,
        }
    }
    None
}

// The value, or undefined.
fn or_undefined(value: Option<&EsValue>) -> Result<EsValue, NoMemory>
    ensures { IfOk result (λ v. value_of v ≡ or_undefined (value_if (option_copied value.entry))) }
{
    match value {
        Some(value) => value.share(),
        None => Ok(EsValue::Undefined),
    }
}

// The value of a name in the record that binds it.
fn bound_value(records: &[Record], a: usize, name: &Units) -> Result<EsValue, NoMemory>
    requires { a < length records.now }
    ensures { IfOk result (λ v. value_of v ≡ or_undefined (value_in (record_at (records_of records.now) a) name.now)) }
{
    let record = &records[a];
    or_undefined(record.value(name))
}

// What the type of a name without a binding is called.
fn undefined_name(alloc: Global) -> Result<EsText, NoMemory>
    ensures { IfOk result (λ text. text ≡ codes "undefined") }
{
    EsText::new(alloc, word_units(alloc, b"undefined")?)
}

#[tactic(auto, using(es5_store::proofs::Walks::no_memory, crate::proofs::NameSteps::name_missing, crate::proofs::NameSteps::name_found))]
/// The value of a name (8.7.1).
pub fn read_name(alloc: Global, store: &mut Store, r: usize, name: &EsText) -> Result<Effect, Halt>
    requires sound { Sound store.old }
    ensures sound { OnOk result (Sound store.new) }
    ensures limit { store.new.limit ≡ store.old.limit }
    ensures does { (T : List Node) (ρ : Scope) → Quiet result T ρ (read_name r name.now) store.old store.new }
{
    match binding(&store.records, r, name.units()) {
        None => not_defined(alloc, store, name.units()),
        Some(a) => match bound_value(&store.records, a, name.units()) {
            Ok(value) => Ok(Effect::Ended(Completion::Normal(value))),
            Err(_) => Err(Halt::NoMemory),
        },
    }
}

#[tactic(auto, using(es5_store::proofs::Walks::no_memory, crate::proofs::NameSteps::type_missing, crate::proofs::NameSteps::type_found))]
/// What the type of a name's value is called; a name without a binding is no error (11.4.3).
pub fn type_of_name(
    alloc: Global,
    store: &mut Store,
    r: usize,
    name: &EsText,
) -> Result<Effect, Halt>
    requires sound { Sound store.old }
    ensures sound { OnOk result (Sound store.new) }
    ensures limit { store.new.limit ≡ store.old.limit }
    ensures does { (T : List Node) (ρ : Scope) → Quiet result T ρ (type_of_place r (task.Variable name.now)) store.old store.new }
{
    match binding(&store.records, r, name.units()) {
        None => match undefined_name(alloc) {
            Ok(text) => Ok(Effect::Ended(Completion::Normal(EsValue::Str(text)))),
            Err(_) => Err(Halt::NoMemory),
        },
        Some(a) => match bound_value(&store.records, a, name.units()) {
            Ok(value) => type_of(alloc, store, &value),
            Err(_) => Err(Halt::NoMemory),
        },
    }
}

#[tactic(auto, using(es5_store::proofs::Walks::no_memory, crate::proofs::NameSteps::type_told))]
/// What the type of a value is called (11.4.3).
pub fn type_of(alloc: Global, store: &mut Store, value: &EsValue) -> Result<Effect, Halt>
    requires sound { Sound store.old }
    ensures sound { OnOk result (Sound store.new) }
    ensures limit { store.new.limit ≡ store.old.limit }
    ensures does { (T : List Node) (ρ : Scope) → Quiet result T ρ (type_of (value_of value.now)) store.old store.new }
{
    match type_name(alloc, &store.heap, value) {
        Ok(text) => Ok(Effect::Ended(Completion::Normal(EsValue::Str(text)))),
        Err(_) => Err(Halt::NoMemory),
    }
}

// Changes the value of a variable.
fn assign(records: &mut [Record], a: usize, i: usize, value: EsValue)
    requires record { a < length records.old }
    requires variable { i < length (record_at (records_of records.old) a).variables }
    ensures changed { records_of records.new ≡ slice_set (records_of records.old) a (with_value (record_at (records_of records.old) a) i (value_of value)) }
    ensures count { length records.new ≡ length records.old }
{
    let record = &mut records[a];
    record.variables.set(i, value);
}

// Writes a name in the record that binds it (8.7.2).
fn write_in(
    alloc: Global,
    store: &mut Store,
    a: usize,
    name: &Units,
    value: EsValue,
) -> Result<Effect, Halt>
    requires sound { Sound store.old }
    requires record { a < length store.old.records.items }
    ensures sound { OnOk result (Sound store.new) }
    ensures limit { store.new.limit ≡ store.old.limit }
    ensures does { (T : List Node) (ρ : Scope) → Quiet result T ρ (write_in a (record_at (records_of store.old.records.items) a) name.now (value_of value)) store.old store.new }
{
    let place = variable(&store.records, a, name);
    match place {
        None => type_error(alloc, store, b"not writable"),
        Some(i) => match value.share() {
            Ok(written) => {
                assign(&mut store.records, a, i, written);
                Ok(Effect::Ended(Completion::Normal(value)))
            }
            Err(_) => Err(Halt::NoMemory),
        },
    }
}

// The place of a variable in a record.
fn variable(records: &[Record], a: usize, name: &Units) -> Option<usize>
    requires { a < length records.now }
    ensures place { result ≡ place_of (record_at (records_of records.now) a).variables name.now }
    ensures within { IfSome result (λ i. i < length (record_at (records_of records.now) a).variables) }
{
    let record = &records[a];
    record.variables.find(name)
}

#[tactic(auto, using(es5_store::proofs::Walks::no_memory, crate::proofs::NameSteps::write_missing, crate::proofs::NameSteps::write_bound_in))]
/// Writes a variable (8.7.2). A name that can't be written throws a TypeError.
pub fn write_name(
    alloc: Global,
    store: &mut Store,
    r: usize,
    name: &EsText,
    value: EsValue,
) -> Result<Effect, Halt>
    requires sound { Sound store.old }
    ensures sound { OnOk result (Sound store.new) }
    ensures limit { store.new.limit ≡ store.old.limit }
    ensures does { (T : List Node) (ρ : Scope) → Quiet result T ρ (write_name r name.now (value_of value)) store.old store.new }
{
    match binding(&store.records, r, name.units()) {
        None => not_defined(alloc, store, name.units()),
        Some(a) => write_in(alloc, store, a, name.units(), value),
    }
}
