//! The forms of Ruby's tokens: which one begins at a place, and how far it goes.
#![tactic(auto)]

mod before;
mod escapes;
mod lists;
mod numbers;
mod runs;
mod signs;
mod texts;
mod units;
mod words;

pub use before::{begins_list, begins_symbol, joins, method_place};
pub use escapes::{char_len, escaped_len, is_simple_escape, is_single_escape, scalar};
pub use lists::{in_list, list, opens_list};
pub use numbers::{is_negative, number, number_value};
pub use runs::run;
pub use signs::{method_signed, signed, symbol};
pub use texts::{in_text, quoted, raw_text};
pub use units::{begins, blank_len, hex_value, is_digit, line_len, newline_len, starts_name, unit};
pub use words::{gvar, ivar, word};
