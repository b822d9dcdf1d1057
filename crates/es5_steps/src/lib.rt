//! What is done with names and properties in a run (ECMA-262 5.1, sections 8.7, 8.12 and 10.2).
#![tactic(auto, using(es5_store::proofs::Walks::no_memory))]

mod names;
mod properties;

pub use names::{read_name, type_of, type_of_name, write_name};
pub use properties::{delete_property, read_property, write_property};
