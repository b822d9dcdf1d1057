//! What parsers by recursive descent over a table of crate grammar have in common: why a part isn't
//! read, and the contract of a function that reads one.
#![tactic(auto)]

mod fail;
mod sets;

pub use fail::Fail;
pub use sets::either;
