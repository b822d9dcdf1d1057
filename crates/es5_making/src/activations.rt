//! The activation records of calls (ECMA-262 5.1, section 10.5).

ghost use Rattle.std.specs.Prelude.{◌≡◌, [], ◌∷◌, ◌++◌, List, drop, is_some, IfOk, OnOk};
ghost use Rattle.es5_evaluation.specs.Evaluate.{activation, bound_params, own_name, undefined_variables};
ghost use Rattle.es5_objects.specs.Values.{value_of};
ghost use Rattle.es5_code.specs.declared.node.Node.{Node};
ghost use Rattle.es5_code.specs.Sound.{Declares};
ghost use Rattle.es5_code.specs.Trees.{code_of};
ghost use Rattle.es5_store.specs.Store.{record_of};
ghost use Rattle.es5_making.specs.Calls.{argument_at, arguments_bound};

use crate::records::one_binding;
use es5_code::FunctionForm;
use es5_host::{Bindings, EsValues};
use es5_objects::{EsText, EsValue};
use es5_store::Record;
use es5_tree::word_units;
use opal_base::{Names, NoMemory, Units};
use std::alloc::Global;

// The argument at an index from 0, or undefined where there is none.
fn argument(args: &EsValues, i: usize) -> Result<EsValue, NoMemory>
    ensures { IfOk result (λ v. value_of v ≡ argument_at args.now i) }
{
    if i < args.len() {
        args.at(i).share()
    } else {
        Ok(EsValue::Undefined)
    }
}

// Puts a name with its value at the end.
fn bind(bindings: &mut Bindings, name: &Units, value: EsValue) -> Result<(), NoMemory>
    ensures { OnOk result (bindings.new ≡ bindings.old ++ (name.now, value_of value) ∷ []) }
{
    bindings.push(name.try_clone()?, value)
}

// The parameters with their arguments.
fn parameters(alloc: Global, params: &Names, args: &EsValues) -> Result<Bindings, NoMemory>
    ensures { IfOk result (λ bindings. bindings ≡ bound_params params.now args.now) }
{
    let mut bindings = Bindings::new(alloc);
    for i in 0..params.len() {
        let value = argument(args, i)?;
        bind(&mut bindings, params.at(i), value)?;
    }
    Ok(bindings)
}

// Puts `arguments` at the end, where there is its object.
fn bind_arguments(
    alloc: Global,
    bindings: &mut Bindings,
    arguments: Option<u32>,
) -> Result<(), NoMemory>
    ensures { OnOk result (bindings.new ≡ bindings.old ++ arguments_bound arguments) }
{
    match arguments {
        Some(o) => bindings.push(word_units(alloc, b"arguments")?, EsValue::Obj(o)),
        None => Ok(()),
    }
}

/// Puts the names from an index on at the end, without values (10.5).
pub fn declare(bindings: &mut Bindings, names: &Names, from: usize) -> Result<(), NoMemory>
    ensures { OnOk result (bindings.new ≡ bindings.old ++ undefined_variables (drop from names.now)) }
{
    for i in from..names.len() {
        bind(bindings, names.at(i), EsValue::Undefined)?;
    }
    Ok(())
}

// A function's own name, which can't be written.
fn own_name(alloc: Global, name: &Option<EsText>, f: u32) -> Result<Bindings, NoMemory>
    ensures { IfOk result (λ bindings. bindings ≡ own_name name.now f) }
{
    match name {
        Some(name) => one_binding(alloc, name.units(), EsValue::Obj(f)),
        None => Ok(Bindings::new(alloc)),
    }
}

/// The record of a call of a function, whose number is f: its parameters, `arguments` where its code
/// names it, and its other variables.
pub(crate) fn activation(
    alloc: Global,
    function: &FunctionForm,
    f: u32,
    outer: usize,
    args: &EsValues,
    arguments: Option<u32>,
) -> Result<Record, NoMemory>
    requires { function.now.names_arguments ≡ is_some arguments }
    ensures { IfOk result (λ r. (T : List Node) → Declares T function.now → record_of r ≡ activation (code_of T function.now) f outer args.now (arguments_bound arguments)) }
{
    let mut variables = parameters(alloc, &function.params, args)?;
    bind_arguments(alloc, &mut variables, arguments)?;
    let known = variables.len();
    declare(&mut variables, &function.variables, known)?;
    let constants = own_name(alloc, &function.name, f)?;
    Ok(Record {
        variables,
        constants,
        outer: Some(outer),
    })
}
