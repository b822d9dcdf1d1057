//! What the walk over a Ruby program asks and notes at a place: what stands around it, which names
//! are locals there, what a form says before its parts do, and copies of what a node holds.
//!
//! A call answers `NoMemory` where no memory is found; what is noted by then counts for nothing.
#![tactic(auto)]

pub mod around;
pub mod call;
pub mod copy;
pub mod form;
pub mod leaf;
pub mod parameters;
mod path;
pub mod scope;
pub mod seen;
pub mod shape;
mod word;
