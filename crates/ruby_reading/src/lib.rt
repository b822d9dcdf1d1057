//! What the parts of the parser share: tokens ahead, what a rule gives, nodes and their places, and the frame that reads a name one level below.
#![tactic(auto)]

mod args;
mod begins;
mod class;
mod cursor;
mod making;
mod names;
mod node_lists;
mod sight;
mod value;

pub use args::Args;
pub use begins::{
    MODIFIERS, NAMES, NEWLINES, OPERATORS, ROUND, SEPARATORS, SQUARE, STARS, VALUES, WORD_LISTS,
    begins_argument, begins_statement, begins_value,
};
pub use cursor::{Cursor, Sight};
pub use making::{
    ascii, boxed_if, filled, fits, from_token, integer, method_name, node, nodes, nothing, span_of,
    start, to_end, tokens, units,
};
pub use names::{Parser, Tree};
pub use node_lists::{has_items, is_none};
pub use sight::sights;
pub use value::{Body, Reading, Value, Written};
