//! Objects of a script: own properties, links, and the heap that holds them (ECMA-262 5.1, sections
//! 8.6, 8.12 and 15.4).
#![tactic(auto)]

mod cell;
mod heap;
mod index;
mod keys;
mod kind;
mod length;
mod list;
mod properties;
mod text;
mod value;

pub use heap::{Cycle, Full, ObjHeap};
pub use index::{decimal, index_of, is_length, push_decimal};
pub use kind::CellKind;
pub use text::EsText;
pub use value::EsValue;
