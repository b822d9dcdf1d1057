//! Places and properties (ECMA-262 5.1, sections 8.7, 11.2.1, 11.2.3 and 11.4).

ghost use Rattle.std.specs.Prelude.{◌≡◌, List, IfOk};
ghost use Rattle.es5_evaluation.specs.Evaluate.{access, access_at, call_place, call_with, delete_place, type_of_place, write_place};
ghost use Rattle.es5_objects.specs.Values.{value_of};
ghost use Rattle.es5_code.specs.declared.node.Node.{Node};
ghost use Rattle.es5_code.specs.Trees.{exprs_in};
ghost use Rattle.es5_pending.specs.Meaning.{Does, place_of, wanted_of};

use crate::action::{Act, Action, Fault};
use crate::behind::gives;
use crate::frame::{CallFrame, Completion, Frame, Gathering, OperatorFrame, Place, Wanted};
use crate::lists::gather;
use es5_code::{NodeId, NodeTable};
use es5_host::{EsValues, OutKind};
use es5_objects::{EsText, EsValue};
use es5_operators::{holder_of, key_of};
use opal_base::{NoMemory, Pos};
use std::alloc::Global;

/// A property of a value, or its place.
#[tactic(auto, unfolding(crate::specs::Meaning::task_of, crate::specs::Meaning::act_task, es5_evaluation::specs::Evaluate::access))]
pub fn access(wanted: Wanted, base: EsValue, name: EsText) -> Action
    ensures { (T : List Node) → Does T result (λ ρ. access (wanted_of wanted) (value_of base) name) }
{
    match wanted {
        Wanted::Value => Action::Act(Act::ReadProperty(base, name)),
        Wanted::Place => match holder_of(&base) {
            Some(_) => Action::Answer(Completion::Refers(Place::Property(base, name))),
            None => Action::Act(Act::Raise(Fault::NoProperties)),
        },
    }
}

/// A property by a key.
#[tactic(auto, unfolding(crate::specs::Meaning::task_of, crate::specs::Meaning::act_task, es5_evaluation::specs::Evaluate::access_at))]
pub fn access_at(
    alloc: Global,
    wanted: Wanted,
    base: EsValue,
    key: &EsValue,
    pos: Pos,
) -> Result<Action, NoMemory>
    ensures { IfOk result (λ a. (T : List Node) → Does T a (λ ρ. access_at pos (wanted_of wanted) (value_of base) (value_of key.now))) }
{
    if holder_of(&base).is_none() {
        return Ok(Action::Act(Act::Raise(Fault::NoProperties)));
    }
    match key_of(alloc, key)? {
        Some(name) => Ok(access(wanted, base, name)),
        None => Ok(Action::Leave(OutKind::Conversion, pos)),
    }
}

/// A call of a value with a `this`: the arguments are evaluated first.
pub fn call_with(
    alloc: Global,
    table: &NodeTable,
    args: NodeId,
    this: EsValue,
    function: EsValue,
    pos: Pos,
) -> Action
    ensures { Does table.now.nodes result (λ ρ. call_with pos (exprs_in table.now.nodes args) ρ (value_of this) (value_of function)) }
{
    let arguments = Gathering::Arguments {
        function,
        this,
        pos,
    };
    gather(table, arguments, args, 0, EsValues::new(alloc))
}

/// A call of what a place holds.
#[tactic(auto, unfolding(crate::specs::Meaning::task_of, crate::specs::Meaning::resume, crate::specs::Meaning::act_task, es5_evaluation::specs::Evaluate::read_place))]
pub fn call_place(place: Place, args: NodeId, pos: Pos) -> Result<Action, NoMemory>
    ensures { IfOk result (λ a. (T : List Node) → Does T a (λ ρ. call_place pos (exprs_in T args) ρ (place_of place))) }
{
    match place {
        Place::Variable(name) => Ok(Action::ActUnder(
            Act::ReadName(name),
            Frame::Call(CallFrame::Function {
                this: EsValue::Undefined,
                args,
                pos,
            }),
        )),
        Place::Property(base, name) => {
            let this = base.share()?;
            Ok(Action::ActUnder(
                Act::ReadProperty(base, name),
                Frame::Call(CallFrame::Function { this, args, pos }),
            ))
        }
    }
}

/// What the type of a place's value is called.
#[tactic(auto, unfolding(crate::specs::Meaning::task_of, crate::specs::Meaning::resume, crate::specs::Meaning::act_task, es5_evaluation::specs::Evaluate::type_of_place))]
pub fn type_of_place(place: Place) -> Action
    ensures { (T : List Node) → Does T result (λ ρ. type_of_place ρ.innermost (place_of place)) }
{
    match place {
        Place::Variable(name) => Action::Act(Act::TypeofName(name)),
        Place::Property(base, name) => {
            Action::ActUnder(
                Act::ReadProperty(base, name),
                Frame::Operator(OperatorFrame::TypeofValue),
            )
        }
    }
}

/// A place is deleted.
#[tactic(auto, unfolding(crate::specs::Meaning::task_of, crate::specs::Meaning::act_task, es5_evaluation::specs::Evaluate::delete_place))]
pub fn delete_place(place: Place) -> Action
    ensures { (T : List Node) → Does T result (λ ρ. delete_place (place_of place)) }
{
    match place {
        Place::Variable(_) => gives(EsValue::Bool(true)),
        Place::Property(base, name) => Action::Act(Act::DeleteProperty(base, name)),
    }
}

/// A value is written to a place.
#[tactic(auto, unfolding(crate::specs::Meaning::task_of, crate::specs::Meaning::act_task, es5_evaluation::specs::Evaluate::write_place))]
pub fn write_place(place: Place, value: EsValue, pos: Pos) -> Action
    ensures { (T : List Node) → Does T result (λ ρ. write_place pos ρ.innermost (place_of place) (value_of value)) }
{
    match place {
        Place::Variable(name) => Action::Act(Act::WriteName(name, value)),
        Place::Property(base, name) => Action::Act(Act::WriteProperty {
            base,
            name,
            value,
            pos,
        }),
    }
}
