//! Ruby's side: the tree of a program, and what it means.
#![tactic(auto)]

mod bundle;
mod construct;
mod form;
mod grammar_laws;
mod laws;
mod open_texts;
mod production;
mod scope;
mod scope_laws;
mod spot;
mod table;
mod token;
mod token_laws;
mod tree;
mod tree_depth;
mod value;

pub use bundle::Bundle;
pub use construct::{Construct, Stop};
pub use form::{
    Bracket, Class, Ending, Form, MethodPlace, Mode, Opener, Place, Reserved, Spelling, Stand,
};
pub use grammar_laws::{beginnings_are_fronts, one_program, one_token_tells};
pub use laws::{one_load, only_puts};
pub use open_texts::OpenTexts;
pub use production::{Part, Production, Sign, Stage};
pub use scope::{
    Around, NameList, Refusal, Resolved, Role, Scope, Scopes, Seen, Site, SiteKind, Sites,
};
pub use scope_laws::one_scoping;
pub use spot::Spot;
pub use table::{BLOCK_BEGIN, BLOCK_END, END_LINE, MARKS, METHOD_MARKS, RESERVED};
pub use token::{Mark, Token, TokenKind, Tokens, Word};
pub use token_laws::{longest_sign, one_lexing, quoted_reads, tokens_placed};
pub use tree::{
    Base, JumpKind, Kind, Literal, ModuleForm, Node, Nodes, Operator, Params, Program, Rest, Slot,
    Slots,
};
pub use tree_depth::depth;
pub use value::Value;
