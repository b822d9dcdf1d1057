//! Objects, functions and calls of a run (ECMA-262 5.1, sections 10, 11.1, 11.2.3, 12.14 and 13).
#![tactic(auto, using(es5_store::proofs::Walks::no_memory))]

mod activations;
mod arguments;
mod arrays;
mod calls;
mod functions;
mod invocations;
mod objects;
mod properties;
mod records;

pub use activations::declare;
pub use arrays::make_array;
pub use calls::enter;
pub use functions::make_function;
pub use invocations::invoke;
pub use properties::make_object;
pub use records::catch;
