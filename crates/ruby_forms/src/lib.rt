//! Forms that begin with a keyword and end with `end`.
#![tactic(auto)]

mod bodies;
mod cases;
mod clauses;
mod conditionals;
mod keywords;
mod loops;
mod methods;
mod modules;

pub use conditionals::otherwise;
pub use keywords::keyword_form;
pub use methods::{MethodName, full_name, read_method_name};
