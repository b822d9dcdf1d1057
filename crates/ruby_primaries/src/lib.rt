//! Literals, calls with their arguments and blocks, and jumps.
#![tactic(auto)]

mod calls;
mod jumps;
mod passed;
mod primary;

pub use calls::{
    BlockParts, Closed, Tail, block_beside, brace_parts, do_below, do_parts, paren, paren_tail,
    read_closed, read_tail, sees_block,
};
pub use jumps::{JUMPS, jump};
pub use passed::{Passed, closing, has_pass, is_empty, parts_of};
pub use primary::{
    array, gvar_value, hash_value, integer_value, interpolated, ivar_value, label_key_below,
    parenthesized, text, top_constant, word_list, word_value,
};
