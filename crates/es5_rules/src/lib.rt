//! Rules for runs of scripts: one judgement, by which a task becomes another one, and a rule for each form (ECMA-262 5.1, sections 8
//! to 14, in the profile).
#![tactic(auto)]

mod laws;

pub use laws::{moments_in_turn, seen_in_parts};
