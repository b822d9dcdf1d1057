//! Assignments, commands, their arguments, right sides, and expressions.
#![tactic(auto)]

mod argument_lists;
mod assignment;
mod command;
mod expressions;
mod sides;
mod targets;

pub use argument_lists::{arguments, arguments_of_command, pairs};
pub use assignment::{argument, is_place};
pub use expressions::{expression, not_expression};
pub use sides::{nested_value_here, one_value_here, right_side};
pub use targets::{more_targets, multi_set, star_target_below, target_node};
