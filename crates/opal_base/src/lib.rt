//! Units, places, and the outside: what a program reads and writes.
#![tactic(auto)]

mod bytes;
mod fault;
mod files;
mod laws;
mod memory;
mod names;
mod place;
mod sink;
mod source;
mod system;
mod units;
mod utf8;

pub use bytes::Bytes;
pub use fault::{Failed, FileFault, NoMemory, SourceFault};
pub use files::Files;
pub use laws::{
    decoded_fits, decoded_or_not, one_offset, one_text, places_go_on, text_printed_back,
};
pub use memory::{MemFiles, MemSink, MemSource, NullSink, SureFiles, SureSource};
pub use names::Names;
pub use place::{Pos, Span, line_col};
pub use sink::{Sink, write_all};
pub use source::{Source, read_all};
pub use system::{StdFiles, StdSink, StdSource};
pub use units::Units;
pub use utf8::{DecodeFault, units_to_utf8, utf8_to_units};
