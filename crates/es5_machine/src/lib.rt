//! The bounded machine that runs scripts of the ECMAScript profile.
#![tactic(auto)]

mod end;
mod ending;
mod machine;
mod start;

pub use end::RunEnd;
pub use machine::Machine;
