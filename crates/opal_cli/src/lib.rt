//! The program: words, files, input, out and err.
#![tactic(auto)]

mod call;
mod check;
mod compile;
mod exec;
mod execute;
mod input;
mod laws;
mod outcome;
mod report;
mod run;
mod script;
mod status;
mod translate;
mod words;

pub use call::opal;
pub use laws::{agreement, one_answer};
pub use status::Status;
pub use words::{Budget, Command, read_words};
