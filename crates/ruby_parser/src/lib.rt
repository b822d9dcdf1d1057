//! From tokens to the program that they spell.
#![tactic(auto)]

mod parts;
mod pass;
mod read;
mod refusal;
mod statements;

pub use pass::parse;
