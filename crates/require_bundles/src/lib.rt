//! From files to the programs that are compiled together.
#![tactic(auto)]

mod bundle;

pub use bundle::{LoadFault, load};
