//! The two meanings, Ruby's and the script's, and the judgement between them.
#![tactic(auto)]

mod laws;

pub use laws::{agreement, block_call, method_call, small_simulates, token_jump};
