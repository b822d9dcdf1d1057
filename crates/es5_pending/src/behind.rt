//! What several nodes end with.

ghost use Rattle.std.specs.Prelude.{◌≡◌, List};
ghost use Rattle.es5_evaluation.specs.Task.{Done, Scope};
ghost use Rattle.es5_evaluation.specs.Evaluate.{at_last, gives, nothing, operated};
ghost use Rattle.es5_objects.specs.Values.{value_of};
ghost use Rattle.es5_operators.specs.Operated.{result_of};
ghost use Rattle.es5_code.specs.declared.node.Node.{Node};
ghost use Rattle.es5_pending.specs.Meaning.{Does, IsPart, body_of, completion_of};

use crate::action::Action;
use crate::frame::{Completion, Frame, Place, TryFrame};
use es5_code::NodeId;
use es5_objects::EsValue;
use es5_operators::Operated;
use opal_base::Pos;

/// A value.
pub fn gives(value: EsValue) -> Action
    ensures { (T : List Node) → Does T result (λ ρ. gives (value_of value)) }
{
    Action::Answer(Completion::Normal(value))
}

/// Nothing more is done.
pub fn nothing() -> Action
    ensures { (T : List Node) → Does T result (λ ρ. Done nothing) }
{
    Action::Answer(Completion::Normal(EsValue::Undefined))
}

/// What an operator answered.
pub fn operated(answer: Operated, pos: Pos) -> Action
    ensures { (T : List Node) → Does T result (λ ρ. operated pos (result_of answer)) }
{
    match answer {
        Operated::Is(value) => gives(value),
        Operated::Outside(kind) => Action::Leave(kind, pos),
    }
}

/// The last part of a `try` behind the parts before it, which ended so.
pub fn at_last(finally: Option<NodeId>, completion: Completion) -> Action
    ensures { (T : List Node) → Does T result (λ ρ. at_last (body_of T finally) ρ (completion_of completion)) }
{
    match finally {
        None => Action::Answer(completion),
        Some(list) => Action::SequenceUnder(list, Frame::Try(TryFrame::Last(completion))),
    }
}

/// How a part ended: with a value, with a place, or abruptly.
#[derive(Drop)]
pub enum Part {
    Value(EsValue),
    Place(Place),
    Abrupt(Completion),
}

/// A completion as that of a part.
pub fn as_part(completion: Completion) -> Part
    ensures { IsPart (completion_of completion) result }
{
    match completion {
        Completion::Normal(value) => Part::Value(value),
        Completion::Refers(place) => Part::Place(place),
        Completion::Return(value) => Part::Abrupt(Completion::Return(value)),
        Completion::Throw(value) => Part::Abrupt(Completion::Throw(value)),
        Completion::Break => Part::Abrupt(Completion::Break),
        Completion::Continue => Part::Abrupt(Completion::Continue),
    }
}
