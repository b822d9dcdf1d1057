//! The state of a run: objects, the code of functions and activation records, and the errors that are
//! thrown in it (ECMA-262 5.1, sections 8, 10 and 15.11).
#![tactic(auto, using(crate::proofs::Walks::no_memory))]

mod effect;
mod errors;
mod store;

pub use effect::{Effect, Halt};
pub use errors::{not_defined, raise, type_error};
pub use store::{Record, Store, find, is_named};
