//! What is pending in a run, and what is done first when a node begins or ends (ECMA-262 5.1, sections
//! 11 to 13). Nothing here changes a state.
#![tactic(auto, unfolding(crate::specs::Meaning::task_of, crate::specs::Meaning::resume, crate::specs::Meaning::act_task, crate::specs::Meaning::request_of))]

mod action;
mod behind;
mod ends;
mod expressions;
mod frame;
mod lists;
mod places;
mod stack;
mod statements;

pub use action::{Act, Action, Begins, Fault};
pub use ends::after;
pub use expressions::{evaluate, refer};
pub use frame::{
    AccessFrame, CallFrame, Completion, Frame, Gathering, Handler, OperatorFrame, Place,
    ScopeFrame, StatementFrame, TryFrame, Wanted,
};
pub use lists::sequence;
pub use stack::Stack;
pub use statements::execute;
