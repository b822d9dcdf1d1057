//! The tokens of scripts (ECMA-262 5.1, section 7).
#![tactic(auto)]

mod class;
mod comment;
mod escape;
mod lex;
mod literal;
mod numeral;
mod piece;
mod restriction;
mod sign;

pub use lex::es_lex;
