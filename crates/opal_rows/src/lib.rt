//! Tests of what no clause says: each public call once with ample memory, and what the program writes,
//! over objects in memory; and files of the machine as they are read.
#![tactic(auto)]

#[cfg(test)]
mod calls;
#[cfg(test)]
mod depths;
#[cfg(test)]
mod machine;
#[cfg(test)]
mod outside;
