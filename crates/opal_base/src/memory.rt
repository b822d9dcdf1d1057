//! Sources, sinks and files in memory.

mod failures;
mod file_table;
mod files;
mod reading;
mod sink;
mod source;

pub use files::{MemFiles, SureFiles};
pub use sink::{MemSink, NullSink};
pub use source::{MemSource, SureSource};
