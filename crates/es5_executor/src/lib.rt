//! A symbolic executor: what the code of a function of a script does, as a type that computes, with runs of functions as models.
#![tactic(auto)]

mod laws;

pub use laws::{
    apply_runs, call_runs, catch_runs, define_runs, delete_runs, error_runs, floor_facts,
    item_runs, link_runs, list_runs, lookup_runs, make_runs, quotient_runs, sequence, start_stands,
    sum_runs, text_runs, try_runs, variable_runs, write_runs,
};
