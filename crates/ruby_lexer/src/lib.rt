//! The tokens of a Ruby text.
#![tactic(auto)]

mod pass;
mod payload;
mod spot;
mod stand;

pub use pass::lex;
