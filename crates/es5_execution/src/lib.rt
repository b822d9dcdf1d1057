//! The execution of what is pending, between two nodes (ECMA-262 5.1, sections 8 to 13).
#![tactic(auto)]

mod act;
mod pending;
mod scope;

pub use pending::{Pending, Rest};
pub use scope::Scope;
