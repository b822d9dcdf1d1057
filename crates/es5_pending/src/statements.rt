//! Statements that begin (ECMA-262 5.1, section 12).

ghost use Rattle.std.specs.Prelude.{◌≡◌, List, IfOk, option_map};
ghost use Rattle.es5_tree.specs.declared.tree.EsStmt.{out-EsStmt};
ghost use Rattle.es5_evaluation.specs.Evaluate.{exec_node};
ghost use Rattle.es5_code.specs.Trees.{catch_shape, stmt_in, stmt_shape, trees};
ghost use Rattle.es5_code.specs.declared.node.Node.{Node};
ghost use Rattle.es5_pending.specs.Meaning.{Does, handler_of};

use crate::action::{Action, Begins};
use crate::behind::nothing;
use crate::frame::{Completion, Frame, Handler, StatementFrame, TryFrame};
use crate::lists::sequence;
use es5_code::{CatchForm, NodeId, NodeTable, StmtForm};
use es5_objects::EsValue;
use opal_base::NoMemory;

/// A statement begins.
pub fn execute(table: &NodeTable, i: NodeId) -> Result<Action, NoMemory>
    ensures { IfOk result (λ a. Does table.now.nodes a (λ ρ. exec_node (out-EsStmt (stmt_in table.now.nodes i)) ρ)) }
{
    match table.stmt(i) {
        Some(form) => execute_form(table, form),
        None => Ok(nothing()),
    }
}

// The value of a statement begins.
fn value(e: NodeId, frame: StatementFrame) -> Action
    ensures { result ≡ Action.BeginUnder (Begins.Evaluate e) (Frame.Statement frame) }
{
    Action::BeginUnder(Begins::Evaluate(e), Frame::Statement(frame))
}

#[tactic(auto, unfolding(crate::specs::Meaning::task_of, crate::specs::Meaning::resume, crate::specs::Meaning::act_task, crate::specs::Meaning::request_of, es5_code::specs::Trees::stmt_shape, es5_evaluation::specs::Evaluate::exec_node))]
// A statement of a form.
fn execute_form(table: &NodeTable, form: &StmtForm) -> Result<Action, NoMemory>
    ensures { IfOk result (λ a. Does table.now.nodes a (λ ρ. exec_node (stmt_shape (trees table.now.nodes) form.now) ρ)) }
{
    Ok(match form {
        StmtForm::Var(_, None) => nothing(),
        StmtForm::Var(name, Some(e)) => value(*e, StatementFrame::Variable(name.share()?)),
        StmtForm::Expr(e) => Action::Begin(Begins::Evaluate(*e)),
        StmtForm::Block(list) => sequence(table, *list, 0),
        StmtForm::If(test, first, second) => value(*test, StatementFrame::If(*first, *second)),
        StmtForm::While(test, body) => value(*test, StatementFrame::Test(*test, *body)),
        StmtForm::Return(None) => Action::Answer(Completion::Return(EsValue::Undefined)),
        StmtForm::Return(Some(e)) => value(*e, StatementFrame::Return),
        StmtForm::Break => Action::Answer(Completion::Break),
        StmtForm::Continue => Action::Answer(Completion::Continue),
        StmtForm::Throw(e) => value(*e, StatementFrame::Throw),
        StmtForm::Try {
            body,
            catch,
            finally,
        } => Action::SequenceUnder(
            *body,
            Frame::Try(TryFrame::First {
                handler: handler(catch)?,
                finally: *finally,
            }),
        ),
        StmtForm::Empty => nothing(),
    })
}

// The part of a `try` that takes what was thrown.
fn handler(catch: &Option<CatchForm>) -> Result<Option<Handler>, NoMemory>
    ensures { IfOk result (λ h. (T : List Node) → handler_of T h ≡ option_map (catch_shape (trees T)) catch.now) }
{
    match catch {
        None => Ok(None),
        Some(catch) => Ok(Some(Handler {
            name: catch.name.share()?,
            body: catch.body,
        })),
    }
}
