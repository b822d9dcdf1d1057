//! The nodes of a script, numbered in a table: what is pending in a run, and each function, names a
//! node by its number.
#![tactic(auto)]

mod node;
mod numbering;
mod own;
mod table;

pub use node::{CatchForm, ExprForm, ExprNode, FunctionForm, Node, NodeId, StmtForm};
pub use numbering::number;
pub use table::NodeTable;
