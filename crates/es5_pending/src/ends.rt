//! What a frame does with the end of a node.

ghost use Rattle.std.specs.Prelude.{◌≡◌, List, IfOk};
ghost use Rattle.es5_evaluation.specs.Task.{Normal, Refers};
ghost use Rattle.es5_evaluation.specs.Evaluate.{left};
ghost use Rattle.es5_objects.specs.Values.{value_of};
ghost use Rattle.es5_code.specs.declared.node.Node.{Node};
ghost use Rattle.es5_pending.specs.Meaning.{Does, access_rest, call_rest, completion_of, operator_rest, place_of, resume, scope_rest, statement_rest, try_rest};

use crate::action::{Act, Action, Begins, Fault};
use crate::behind::{Part, as_part, at_last, gives, nothing, operated};
use crate::frame::{
    AccessFrame, CallFrame, Completion, Frame, Handler, OperatorFrame, Place, ScopeFrame,
    StatementFrame, TryFrame,
};
use crate::lists::{gather, sequence};
use crate::places::{
    access, access_at, call_place, call_with, delete_place, type_of_place, write_place,
};
use es5_code::{NodeId, NodeTable};
use es5_objects::EsValue;
use es5_operators::{binary, negated, truthy};
use opal_base::NoMemory;
use std::alloc::Global;

/// What a frame does with a completion.
pub fn after(
    alloc: Global,
    table: &NodeTable,
    frame: Frame,
    completion: Completion,
) -> Result<Action, NoMemory>
    ensures { IfOk result (λ a. Does table.now.nodes a (λ ρ. resume table.now.nodes ρ frame (completion_of completion))) }
{
    match frame {
        Frame::Access(frame) => after_access(alloc, frame, completion),
        Frame::Call(frame) => after_call(alloc, table, frame, completion),
        Frame::Operator(frame) => after_operator(alloc, frame, completion),
        Frame::Statement(frame) => Ok(after_statement(table, frame, completion)),
        Frame::Try(frame) => Ok(after_try(frame, completion)),
        Frame::Scope(frame) => Ok(after_scope(frame, completion)),
    }
}

// A part of a member or an index.
fn after_access(
    alloc: Global,
    frame: AccessFrame,
    completion: Completion,
) -> Result<Action, NoMemory>
    ensures { IfOk result (λ a. (T : List Node) → Does T a (λ ρ. access_rest ρ T frame (completion_of completion))) }
{
    match as_part(completion) {
        Part::Value(value) => accessed(alloc, frame, value),
        Part::Place(place) => Ok(Action::Answer(Completion::Refers(place))),
        Part::Abrupt(completion) => Ok(Action::Answer(completion)),
    }
}

// The value of a part of a member or an index.
fn accessed(alloc: Global, frame: AccessFrame, value: EsValue) -> Result<Action, NoMemory>
    ensures { IfOk result (λ a. (T : List Node) → Does T a (λ ρ. access_rest ρ T frame (Normal (value_of value)))) }
{
    match frame {
        AccessFrame::Member(name, wanted) => Ok(access(wanted, value, name)),
        AccessFrame::Base { key, pos, wanted } => Ok(Action::BeginUnder(
            Begins::Evaluate(key),
            Frame::Access(AccessFrame::Key {
                base: value,
                pos,
                wanted,
            }),
        )),
        AccessFrame::Key { base, pos, wanted } => access_at(alloc, wanted, base, &value, pos),
    }
}

// A part of a call, or of a list of expressions.
fn after_call(
    alloc: Global,
    table: &NodeTable,
    frame: CallFrame,
    completion: Completion,
) -> Result<Action, NoMemory>
    ensures { IfOk result (λ a. Does table.now.nodes a (λ ρ. call_rest ρ table.now.nodes frame (completion_of completion))) }
{
    match as_part(completion) {
        Part::Value(value) => called(alloc, table, frame, value),
        Part::Place(place) => called_at(frame, place),
        Part::Abrupt(completion) => Ok(Action::Answer(completion)),
    }
}

// The value of a part of a call or of a list.
fn called(
    alloc: Global,
    table: &NodeTable,
    frame: CallFrame,
    value: EsValue,
) -> Result<Action, NoMemory>
    ensures { IfOk result (λ a. Does table.now.nodes a (λ ρ. call_rest ρ table.now.nodes frame (Normal (value_of value)))) }
{
    match frame {
        CallFrame::Callee { args, pos } => {
            Ok(call_with(alloc, table, args, EsValue::Undefined, value, pos))
        }
        CallFrame::Function { this, args, pos } => {
            Ok(call_with(alloc, table, args, this, value, pos))
        }
        CallFrame::Gather {
            gathering,
            list,
            next,
            mut values,
        } => {
            values.push(value)?;
            Ok(gather(table, gathering, list, next, values))
        }
    }
}

// The place of a callee; a place where a value was asked for is the end of the whole.
fn called_at(frame: CallFrame, place: Place) -> Result<Action, NoMemory>
    ensures { IfOk result (λ a. (T : List Node) → Does T a (λ ρ. call_rest ρ T frame (Refers (place_of place)))) }
{
    match frame {
        CallFrame::Callee { args, pos } => call_place(place, args, pos),
        CallFrame::Function { .. } => Ok(Action::Answer(Completion::Refers(place))),
        CallFrame::Gather { .. } => Ok(Action::Answer(Completion::Refers(place))),
    }
}

// An operand.
fn after_operator(
    alloc: Global,
    frame: OperatorFrame,
    completion: Completion,
) -> Result<Action, NoMemory>
    ensures { IfOk result (λ a. (T : List Node) → Does T a (λ ρ. operator_rest ρ T frame (completion_of completion))) }
{
    match as_part(completion) {
        Part::Value(value) => operand(alloc, frame, value),
        Part::Place(place) => Ok(operand_at(frame, place)),
        Part::Abrupt(completion) => Ok(Action::Answer(completion)),
    }
}

// The value of an operand.
fn operand(alloc: Global, frame: OperatorFrame, value: EsValue) -> Result<Action, NoMemory>
    ensures { IfOk result (λ a. (T : List Node) → Does T a (λ ρ. operator_rest ρ T frame (Normal (value_of value)))) }
{
    Ok(match frame {
        OperatorFrame::Not => gives(EsValue::Bool(!truthy(&value))),
        OperatorFrame::Neg(pos) => operated(negated(&value), pos),
        OperatorFrame::Typeof => Action::Act(Act::Typeof(value)),
        OperatorFrame::TypeofValue => Action::Act(Act::Typeof(value)),
        OperatorFrame::Delete => gives(EsValue::Bool(true)),
        OperatorFrame::Left {
            operator,
            right,
            pos,
        } => Action::BeginUnder(
            Begins::Evaluate(right),
            Frame::Operator(OperatorFrame::Right {
                operator,
                left: value,
                pos,
            }),
        ),
        OperatorFrame::Right {
            operator,
            left,
            pos,
        } => operated(binary(alloc, operator, &left, &value)?, pos),
        OperatorFrame::And(right) => and_then(value, right),
        OperatorFrame::Or(right) => or_else(value, right),
        OperatorFrame::Cond(first, second) => chosen(&value, first, second),
        OperatorFrame::Target { .. } => Action::Act(Act::Raise(Fault::NotWritable)),
        OperatorFrame::Assign { place, pos } => write_place(place, value, pos),
    })
}

// The right side of `&&`, or the value of the left one (11.11).
fn and_then(value: EsValue, right: NodeId) -> Action
    ensures { (T : List Node) → Does T result (λ ρ. operator_rest ρ T (OperatorFrame.And right) (Normal (value_of value))) }
{
    if truthy(&value) {
        Action::Begin(Begins::Evaluate(right))
    } else {
        gives(value)
    }
}

// The value of the left side of `||`, or the right side (11.11).
fn or_else(value: EsValue, right: NodeId) -> Action
    ensures { (T : List Node) → Does T result (λ ρ. operator_rest ρ T (OperatorFrame.Or right) (Normal (value_of value))) }
{
    if truthy(&value) {
        gives(value)
    } else {
        Action::Begin(Begins::Evaluate(right))
    }
}

// One of two expressions (11.12).
fn chosen(value: &EsValue, first: NodeId, second: NodeId) -> Action
    ensures { (T : List Node) → Does T result (λ ρ. operator_rest ρ T (OperatorFrame.Cond first second) (Normal (value_of value.now))) }
{
    if truthy(value) {
        Action::Begin(Begins::Evaluate(first))
    } else {
        Action::Begin(Begins::Evaluate(second))
    }
}

// The place of an operand.
fn operand_at(frame: OperatorFrame, place: Place) -> Action
    ensures { (T : List Node) → Does T result (λ ρ. operator_rest ρ T frame (Refers (place_of place))) }
{
    match frame {
        OperatorFrame::Typeof => type_of_place(place),
        OperatorFrame::Delete => delete_place(place),
        OperatorFrame::Target { value, pos } => Action::BeginUnder(
            Begins::Evaluate(value),
            Frame::Operator(OperatorFrame::Assign { place, pos }),
        ),
        _ => Action::Answer(Completion::Refers(place)),
    }
}

// A part of a statement.
fn after_statement(table: &NodeTable, frame: StatementFrame, completion: Completion) -> Action
    ensures { Does table.now.nodes result (λ ρ. statement_rest ρ table.now.nodes frame (completion_of completion)) }
{
    match frame {
        StatementFrame::Loop(test, body) => after_body(test, body, completion),
        frame => match as_part(completion) {
            Part::Value(value) => part_of_statement(table, frame, value),
            Part::Place(place) => Action::Answer(Completion::Refers(place)),
            Part::Abrupt(completion) => Action::Answer(completion),
        },
    }
}

// The body of a loop (12.6.2).
fn after_body(test: NodeId, body: NodeId, completion: Completion) -> Action
    ensures { (T : List Node) → Does T result (λ ρ. statement_rest ρ T (StatementFrame.Loop test body) (completion_of completion)) }
{
    match completion {
        Completion::Normal(_) => Action::Begin(Begins::Turn(test, body)),
        Completion::Continue => Action::Begin(Begins::Turn(test, body)),
        Completion::Break => nothing(),
        Completion::Refers(place) => Action::Answer(Completion::Refers(place)),
        Completion::Return(value) => Action::Answer(Completion::Return(value)),
        Completion::Throw(value) => Action::Answer(Completion::Throw(value)),
    }
}

// The value of a part of a statement.
fn part_of_statement(table: &NodeTable, frame: StatementFrame, value: EsValue) -> Action
    ensures { Does table.now.nodes result (λ ρ. statement_rest ρ table.now.nodes frame (Normal (value_of value))) }
{
    match frame {
        StatementFrame::Variable(name) => Action::Act(Act::WriteName(name, value)),
        StatementFrame::If(first, second) => branch(&value, first, second),
        StatementFrame::Test(test, body) => turn(&value, test, body),
        StatementFrame::Loop(test, body) => Action::Begin(Begins::Turn(test, body)),
        StatementFrame::Return => Action::Answer(Completion::Return(value)),
        StatementFrame::Throw => Action::Answer(Completion::Throw(value)),
        StatementFrame::Sequence { list, next } => sequence(table, list, next),
    }
}

// One of two statements (12.5).
fn branch(value: &EsValue, first: NodeId, second: Option<NodeId>) -> Action
    ensures { (T : List Node) → Does T result (λ ρ. statement_rest ρ T (StatementFrame.If first second) (Normal (value_of value.now))) }
{
    if truthy(value) {
        return Action::Begin(Begins::Execute(first));
    }
    match second {
        Some(second) => Action::Begin(Begins::Execute(second)),
        None => nothing(),
    }
}

// The body of a loop behind its test (12.6.2).
fn turn(value: &EsValue, test: NodeId, body: NodeId) -> Action
    ensures { (T : List Node) → Does T result (λ ρ. statement_rest ρ T (StatementFrame.Test test body) (Normal (value_of value.now))) }
{
    if truthy(value) {
        Action::BeginUnder(
            Begins::Execute(body),
            Frame::Statement(StatementFrame::Loop(test, body)),
        )
    } else {
        nothing()
    }
}

// A part of a `try` statement (12.14).
fn after_try(frame: TryFrame, completion: Completion) -> Action
    ensures { (T : List Node) → Does T result (λ ρ. try_rest ρ T frame (completion_of completion)) }
{
    match frame {
        TryFrame::First { handler, finally } => after_first(handler, finally, completion),
        TryFrame::Finally(finally) => at_last(finally, completion),
        TryFrame::Last(before) => after_last(before, completion),
    }
}

// The first part of a `try` statement.
fn after_first(handler: Option<Handler>, finally: Option<NodeId>, completion: Completion) -> Action
    ensures { (T : List Node) → Does T result (λ ρ. try_rest ρ T (TryFrame.First handler finally) (completion_of completion)) }
{
    let Some(handler) = handler else {
        return at_last(finally, completion);
    };
    match completion {
        Completion::Throw(value) => Action::ActUnder(
            Act::Catch { handler, value },
            Frame::Try(TryFrame::Finally(finally)),
        ),
        Completion::Normal(value) => at_last(finally, Completion::Normal(value)),
        Completion::Refers(place) => at_last(finally, Completion::Refers(place)),
        Completion::Return(value) => at_last(finally, Completion::Return(value)),
        Completion::Break => at_last(finally, Completion::Break),
        Completion::Continue => at_last(finally, Completion::Continue),
    }
}

// The last part of a `try` statement: the completion before it stands, but where it ends abruptly.
fn after_last(before: Completion, completion: Completion) -> Action
    ensures { (T : List Node) → Does T result (λ ρ. try_rest ρ T (TryFrame.Last before) (completion_of completion)) }
{
    match completion {
        Completion::Normal(_) => Action::Answer(before),
        completion => Action::Answer(completion),
    }
}

// The end of a scope: what a function answers (13.2.1), or the end of the part of a `try` that took
// what was thrown.
fn after_scope(frame: ScopeFrame, completion: Completion) -> Action
    ensures { (T : List Node) → Does T result (λ ρ. scope_rest frame (completion_of completion)) }
{
    match frame {
        ScopeFrame::Body { .. } => left(completion),
        ScopeFrame::Handler { .. } => Action::Answer(completion),
    }
}

// What a function answers whose body ended so (13.2.1).
fn left(completion: Completion) -> Action
    ensures { (T : List Node) → Does T result (λ ρ. left (completion_of completion)) }
{
    match completion {
        Completion::Return(value) => gives(value),
        Completion::Throw(value) => Action::Answer(Completion::Throw(value)),
        Completion::Normal(_) => nothing(),
        Completion::Refers(_) => nothing(),
        Completion::Break => nothing(),
        Completion::Continue => nothing(),
    }
}
