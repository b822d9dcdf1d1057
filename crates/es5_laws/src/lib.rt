//! Laws of the runs of scripts: what a script that writes texts does, and that sites and places play no part.
#![tactic(auto)]

mod laws;

pub use laws::{one_write_takes_five, same_depth, sites_dont_matter, writes_in_turn};
