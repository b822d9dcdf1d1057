//! Scripts from their tokens (ECMA-262 5.1, sections 11 to 14).
#![tactic(auto)]

mod access;
mod array;
mod assignment;
mod blocks;
mod brackets;
mod dispatch;
mod function;
mod levels;
mod names;
mod object;
mod operators;
mod primary;
mod read;
mod script;
mod statements;

pub use script::{parse_script, read_script};
