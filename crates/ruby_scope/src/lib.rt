//! The locals, jumps and requires of a Ruby program.
#![tactic(auto)]

mod pass;
mod walk;

pub use pass::resolve;
pub use walk::walk_node;
