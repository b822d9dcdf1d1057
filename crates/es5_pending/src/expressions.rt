//! Expressions that begin (ECMA-262 5.1, section 11).

ghost use Rattle.std.specs.Prelude.{◌≡◌, IfOk};
ghost use Rattle.es5_evaluation.specs.Evaluate.{eval_node, layer, refer_node};
ghost use Rattle.es5_code.specs.Trees.{code_in, expr_in, function_of, shape, trees};
ghost use Rattle.es5_pending.specs.Meaning.{Does, keys_in};

use crate::action::{Act, Action, Begins};
use crate::behind::gives;
use crate::frame::{
    AccessFrame, CallFrame, Completion, Frame, Gathering, OperatorFrame, Place, Wanted,
};
use crate::lists::gather;
use es5_code::{ExprForm, ExprNode, NodeId, NodeTable};
use es5_host::EsValues;
use es5_objects::EsValue;
use opal_base::{NoMemory, Pos};
use std::alloc::Global;

/// An expression begins, for its value.
pub fn evaluate(alloc: Global, table: &NodeTable, i: NodeId) -> Result<Action, NoMemory>
    ensures { IfOk result (λ a. Does table.now.nodes a (λ ρ. eval_node (layer (expr_in table.now.nodes i)) (expr_in table.now.nodes i).pos ρ)) }
{
    match table.expr(i) {
        Some(node) => evaluate_form(alloc, table, i, &node.form, node.pos),
        None => Ok(gives(EsValue::Null)),
    }
}

/// An expression begins, for its place.
pub fn refer(alloc: Global, table: &NodeTable, i: NodeId) -> Result<Action, NoMemory>
    ensures { IfOk result (λ a. Does table.now.nodes a (λ ρ. refer_node (layer (expr_in table.now.nodes i)) (expr_in table.now.nodes i).pos ρ)) }
{
    match table.expr(i) {
        Some(node) => refer_form(alloc, table, i, &node.form, node.pos),
        None => Ok(gives(EsValue::Null)),
    }
}

#[tactic(auto, unfolding(crate::specs::Meaning::task_of, crate::specs::Meaning::resume, crate::specs::Meaning::act_task, crate::specs::Meaning::request_of, es5_code::specs::Trees::shape, es5_evaluation::specs::Evaluate::eval_node))]
// An expression of a form.
fn evaluate_form(
    alloc: Global,
    table: &NodeTable,
    i: NodeId,
    form: &ExprForm,
    pos: Pos,
) -> Result<Action, NoMemory>
    requires code { code_in table.now.nodes i ≡ function_of table.now.nodes form.now }
    requires layer { layer (expr_in table.now.nodes i) ≡ shape (trees table.now.nodes) form.now }
    ensures { IfOk result (λ a. Does table.now.nodes a (λ ρ. eval_node (shape (trees table.now.nodes) form.now) pos ρ)) }
{
    Ok(match form {
        ExprForm::Num(n) => gives(EsValue::Num(*n)),
        ExprForm::Str(text) => gives(EsValue::Str(text.share()?)),
        ExprForm::True => gives(EsValue::Bool(true)),
        ExprForm::False => gives(EsValue::Bool(false)),
        ExprForm::Null => gives(EsValue::Null),
        ExprForm::This => Action::Act(Act::This),
        ExprForm::Name(name) => Action::Act(Act::ReadName(name.share()?)),
        ExprForm::Array(items) => gather(
            table,
            Gathering::Elements,
            *items,
            0,
            EsValues::new(alloc),
        ),
        ExprForm::Object { values, .. } => {
            gather(
                table,
                Gathering::Properties(i),
                *values,
                0,
                EsValues::new(alloc),
            )
        }
        ExprForm::Function(_) => Action::Act(Act::MakeFunction(i)),
        ExprForm::Member(base, name, _) => Action::BeginUnder(
            Begins::Evaluate(*base),
            Frame::Access(AccessFrame::Member(name.share()?, Wanted::Value)),
        ),
        ExprForm::Index(base, key, _) => index(*base, *key, pos, Wanted::Value),
        ExprForm::Call(callee, args) => Action::BeginUnder(
            Begins::Refer(*callee),
            Frame::Call(CallFrame::Callee { args: *args, pos }),
        ),
        ExprForm::Not(e) => operand(*e, OperatorFrame::Not),
        ExprForm::Neg(e) => operand(*e, OperatorFrame::Neg(pos)),
        ExprForm::Typeof(e) => operand_at(*e, OperatorFrame::Typeof),
        ExprForm::Delete(e) => operand_at(*e, OperatorFrame::Delete),
        ExprForm::Binary(operator, left, right) => operand(
            *left,
            OperatorFrame::Left {
                operator: *operator,
                right: *right,
                pos,
            },
        ),
        ExprForm::And(left, right) => operand(*left, OperatorFrame::And(*right)),
        ExprForm::Or(left, right) => operand(*left, OperatorFrame::Or(*right)),
        ExprForm::Cond(test, first, second) => operand(*test, OperatorFrame::Cond(*first, *second)),
        ExprForm::Assign(target, value) => {
            operand_at(*target, OperatorFrame::Target { value: *value, pos })
        }
    })
}

// An operand begins.
fn operand(e: NodeId, frame: OperatorFrame) -> Action
    ensures { result ≡ Action.BeginUnder (Begins.Evaluate e) (Frame.Operator frame) }
{
    Action::BeginUnder(Begins::Evaluate(e), Frame::Operator(frame))
}

// An operand begins, for its place.
fn operand_at(e: NodeId, frame: OperatorFrame) -> Action
    ensures { result ≡ Action.BeginUnder (Begins.Refer e) (Frame.Operator frame) }
{
    Action::BeginUnder(Begins::Refer(e), Frame::Operator(frame))
}

// The base of an index begins.
fn index(base: NodeId, key: NodeId, pos: Pos, wanted: Wanted) -> Action
    ensures { result ≡ Action.BeginUnder (Begins.Evaluate base) (Frame.Access (AccessFrame.Base key pos wanted)) }
{
    Action::BeginUnder(
        Begins::Evaluate(base),
        Frame::Access(AccessFrame::Base { key, pos, wanted }),
    )
}

#[tactic(auto, unfolding(crate::specs::Meaning::task_of, crate::specs::Meaning::resume, crate::specs::Meaning::act_task, crate::specs::Meaning::request_of, es5_code::specs::Trees::shape, es5_evaluation::specs::Evaluate::refer_node))]
// An expression of a form, for its place.
fn refer_form(
    alloc: Global,
    table: &NodeTable,
    i: NodeId,
    form: &ExprForm,
    pos: Pos,
) -> Result<Action, NoMemory>
    requires code { code_in table.now.nodes i ≡ function_of table.now.nodes form.now }
    requires layer { layer (expr_in table.now.nodes i) ≡ shape (trees table.now.nodes) form.now }
    ensures { IfOk result (λ a. Does table.now.nodes a (λ ρ. refer_node (shape (trees table.now.nodes) form.now) pos ρ)) }
{
    match form {
        ExprForm::Name(name) => Ok(Action::Answer(Completion::Refers(Place::Variable(
            name.share()?,
        )))),
        ExprForm::Member(base, name, _) => Ok(Action::BeginUnder(
            Begins::Evaluate(*base),
            Frame::Access(AccessFrame::Member(name.share()?, Wanted::Place)),
        )),
        ExprForm::Index(base, key, _) => Ok(index(*base, *key, pos, Wanted::Place)),
        _ => evaluate_form(alloc, table, i, form, pos),
    }
}
