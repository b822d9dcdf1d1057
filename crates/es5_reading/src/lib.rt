//! The tokens of a script as its parser sees them, and the expressions and statements that it makes of
//! them (ECMA-262 5.1, sections 11 to 14).
#![tactic(auto)]

pub mod making;
pub mod parts;
pub mod terminal;
pub mod tokens;
