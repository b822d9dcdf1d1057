//! Lists of statements and of expressions, one after the other (ECMA-262 5.1, sections 11.1.4, 11.2.4
//! and 12.1).

ghost use Rattle.std.specs.Prelude.{◌≡◌, List, drop};
ghost use Rattle.es5_evaluation.specs.Task.{Scope};
ghost use Rattle.es5_evaluation.specs.Evaluate.{all, gather};
ghost use Rattle.es5_code.specs.Trees.{exprs_in, stmts_in};
ghost use Rattle.es5_code.specs.declared.node.Node.{Node};
ghost use Rattle.es5_pending.specs.Meaning.{Does, act_task, gathered};

use crate::action::{Act, Action, Begins};
use crate::behind::nothing;
use crate::frame::{CallFrame, Frame, Gathering, StatementFrame};
use es5_code::{NodeId, NodeTable};
use es5_host::EsValues;

#[tactic(auto, unfolding(crate::specs::Meaning::task_of, crate::specs::Meaning::resume, crate::specs::Meaning::act_task, crate::specs::Meaning::request_of, es5_evaluation::specs::Evaluate::all))]
/// The statements of a list from a place on.
pub fn sequence(table: &NodeTable, list: NodeId, next: usize) -> Action
    ensures { Does table.now.nodes result (λ ρ. all (drop next (stmts_in table.now.nodes list)) ρ) }
{
    match table.stmt_of_list(list, next) {
        Some(statement) => Action::BeginUnder(
            Begins::Execute(statement),
            Frame::Statement(StatementFrame::Sequence {
                list,
                next: next + 1,
            }),
        ),
        None => nothing(),
    }
}

// All values of a list are there.
fn complete(gathering: Gathering, values: EsValues) -> Act
    ensures { (T : List Node) (ρ : Scope) → act_task T ρ result ≡ gathered T gathering values }
{
    match gathering {
        Gathering::Arguments {
            function,
            this,
            pos,
        } => Act::Invoke {
            function,
            this,
            args: values,
            pos,
        },
        Gathering::Elements => Act::MakeArray(values),
        Gathering::Properties(object) => Act::MakeObject(object, values),
    }
}

#[tactic(auto, unfolding(crate::specs::Meaning::task_of, crate::specs::Meaning::resume, crate::specs::Meaning::act_task, crate::specs::Meaning::request_of, es5_evaluation::specs::Evaluate::gather))]
/// The expressions of a list from a place on, behind these values.
pub fn gather(
    table: &NodeTable,
    gathering: Gathering,
    list: NodeId,
    next: usize,
    values: EsValues,
) -> Action
    ensures { Does table.now.nodes result (λ ρ. gather (drop next (exprs_in table.now.nodes list)) ρ values (gathered table.now.nodes gathering)) }
{
    match table.expr_of_list(list, next) {
        Some(expression) => Action::BeginUnder(
            Begins::Evaluate(expression),
            Frame::Call(CallFrame::Gather {
                gathering,
                list,
                next: next + 1,
                values,
            }),
        ),
        None => Action::Act(complete(gathering, values)),
    }
}
