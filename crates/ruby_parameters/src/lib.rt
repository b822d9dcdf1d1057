//! Parameters of methods, blocks and lambdas, and lists of values.
#![tactic(auto)]

mod hash;
mod lists;
mod parameters;

pub use hash::{arguments_of, first_span, items_of};
pub use lists::{last_span, list_behind, splat, splat_list};
pub use parameters::{
    block_parameters, ends_in_sign, no_parameters, skip, some_parameters, variable_name,
};
