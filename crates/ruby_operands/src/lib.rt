//! Values, what stands behind them, and operators.
#![tactic(auto)]

mod levels;
mod suffixes;
mod values;

pub use levels::{
    Joint, and_level, comparison_level, equality_level, minus_level, not_level, operators,
    or_level, power_level, product_level, shift_level, sum_level, ternary,
};
pub use suffixes::post;
