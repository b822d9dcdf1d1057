//! Operators on values, and what values have of themselves (ECMA-262 5.1, sections 8, 9 and 11, in
//! the profile).
#![tactic(auto)]

mod kind;
mod number;
mod operated;
mod operator;
mod property;
mod text;
mod value;

pub use kind::type_name;
pub use number::negated;
pub use operated::Operated;
pub use operator::binary;
pub use property::{holder_of, key_of, own_of_primitive};
pub use value::truthy;
