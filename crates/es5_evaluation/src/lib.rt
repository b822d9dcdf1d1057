//! The evaluation of scripts (ECMA-262 5.1, sections 8 to 14, in the profile): definitions and laws.
#![tactic(auto)]

mod laws;

pub use laws::{cells_grow, runs, tasks_in_turn};
