//! New activation records (ECMA-262 5.1, sections 10.2 and 12.14).

ghost use Rattle.std.specs.Prelude.{◌≡◌, [], ◌∷◌, ◌++◌, List, length, IfOk, OnOk};
ghost use Rattle.es5_tree.specs.declared.tree.Catch.{roll-Catch};
ghost use Rattle.es5_evaluation.specs.Task.{Scope};
ghost use Rattle.es5_evaluation.specs.Evaluate.{caught_by};
ghost use Rattle.es5_objects.specs.Values.{value_of};
ghost use Rattle.es5_code.specs.declared.node.Node.{Node};
ghost use Rattle.es5_code.specs.Trees.{stmts_in};
ghost use Rattle.es5_store.specs.Store.{IsFull, Sound};
ghost use Rattle.es5_store.specs.Steps.{Quiet};

use es5_code::NodeId;
use es5_host::Bindings;
use es5_objects::EsValue;
use es5_store::{Effect, Halt, Record, Store};
use opal_base::{NoMemory, Units};
use std::alloc::Global;

/// Puts a record at the end, which there is room for, and answers its number.
pub(crate) fn add_record(records: &mut Vec<Record>, made: Record) -> Result<usize, NoMemory>
    ensures number { IfOk result (λ r. r ≡ length records.old.items) }
    ensures added { OnOk result (records.new.items ≡ records.old.items ++ made ∷ []) }
{
    let r = records.len();
    match records.push(made) {
        Ok(()) => Ok(r),
        Err(_) => Err(NoMemory),
    }
}

/// One name with its value.
pub(crate) fn one_binding(alloc: Global, name: &Units, value: EsValue) -> Result<Bindings, NoMemory>
    ensures { IfOk result (λ bindings. bindings ≡ (name.now, value_of value) ∷ []) }
{
    let mut bindings = Bindings::new(alloc);
    let name = name.try_clone()?;
    bindings.push(name, value)?;
    Ok(bindings)
}

/// Begins the part of a `try` that takes what was thrown: a record inside the innermost one has the
/// value under the part's name (12.14). The statements are what is left to do.
pub fn catch(
    alloc: Global,
    store: &mut Store,
    name: &Units,
    body: NodeId,
    r: usize,
    value: EsValue,
) -> Result<Effect, Halt>
    requires sound { Sound store.old }
    ensures sound { OnOk result (Sound store.new) }
    ensures limit { store.new.limit ≡ store.old.limit }
    ensures does { (T : List Node) (ρ : Scope) → ρ.innermost ≡ r → Quiet result T ρ (caught_by (roll-Catch (record { name = name.now; body = stmts_in T body })) ρ (value_of value)) store.old store.new }
{
    if store.is_full() {
        return Err(Halt::CellsFull);
    }
    let variables = match one_binding(alloc, name, value) {
        Ok(variables) => variables,
        Err(_) => return Err(Halt::NoMemory),
    };
    let made = Record {
        variables,
        constants: Bindings::new(alloc),
        outer: Some(r),
    };
    match add_record(&mut store.records, made) {
        Ok(innermost) => Ok(Effect::Caught { body, innermost }),
        Err(_) => Err(Halt::NoMemory),
    }
}
