//! The text of a script, and the places of its sites in it.
#![tactic(auto)]

mod forms;
mod laws;
mod level;
mod literals;
mod page;
mod place;
mod script;

pub use laws::joined_texts;
pub use place::{Place, Places};
pub use script::{PrintStop, Printed, print};
