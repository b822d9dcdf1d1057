//! A tie between places: the locals that Ruby's evaluation finds in a text are those that scope lists.
#![tactic(auto)]

mod laws;

pub use laws::own_locals;
