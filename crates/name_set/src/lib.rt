//! Sets of names, in which a name is found by an index.
#![tactic(auto)]

mod set;

pub use set::NameSet;
