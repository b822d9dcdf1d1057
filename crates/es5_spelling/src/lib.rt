//! Which scripts are spellable, and that the printed text of such a script spells it.
#![tactic(auto)]

mod checker;
mod identifiers;
mod laws;

pub use checker::is_spellable;
pub use laws::{
    nodes_within_bytes, nodes_within_tokens, printed_is_spelled, same_bytes_same_text,
    spelled_is_spellable,
};
