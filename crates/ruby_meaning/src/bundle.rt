use crate::scope::Resolved;

/// The programs that are compiled together, each with its names resolved: the main file.
#[derive(Drop)]
pub struct Bundle {
    pub main: Resolved,
}
