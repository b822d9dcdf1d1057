//! Scripts of the ECMAScript profile: their tree, and what it means.
#![tactic(auto)]

mod grammar_laws;
mod laws;
mod lexing;
mod object_laws;
mod reserved;
mod safe_int;
mod sign;
mod terminal;
mod token;
mod tree;
mod tree_depth;
mod word;

pub use grammar_laws::{
    beginnings_are_fronts, bytes_spell_one, one_token_tells, script_or_place, tokens_spell_one,
};
pub use laws::{
    decimal_numerals, longest_sign, one_list_of_tokens, tokens_in_order, written_tokens,
};
pub use lexing::{Class, Restriction};
pub use object_laws::{
    chains_are_whole, indices_are_spelled, keys_are_names, properties_change_apart,
    rising_is_sorted,
};
pub use reserved::is_reserved;
pub use safe_int::SafeInt;
pub use sign::{SIGNS, Sign};
pub use terminal::{KEYWORDS, Keyword, Level, Terminal};
pub use token::{EsMark, EsStop, EsToken, EsTokenKind, EsTokens};
pub use tree::{Catch, EsExpr, EsKind, EsStmt, EsStmts, Operator, Script};
pub use tree_depth::{es_depth, expr_depth, stmt_depth};
pub use word::{is_word, word_units};
