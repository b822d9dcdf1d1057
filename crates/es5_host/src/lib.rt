//! The intrinsic objects of scripts, and what a call of each intrinsic function does (ECMA-262 5.1,
//! section 15, in the profile).
#![tactic(auto)]

mod answer;
mod argument;
mod array;
mod bindings;
mod dispatch;
mod element;
mod function;
mod host;
mod laws;
mod lines;
mod made;
mod object;
mod present;
mod text;
mod values;

pub use answer::{HostAnswer, HostFn, OutKind, host_fn};
pub use array::{is_array, keys, push, slice};
pub use bindings::{Binding, Bindings, Globals};
pub use dispatch::host_call;
pub use element::{fill, make_array};
pub use function::{apply, call};
pub use host::{line, write};
pub use laws::{heaps_stay_valid, intrinsics_stand, places_tell_values, read_values_are_named};
pub use lines::Lines;
pub use made::{INTRINSICS, intrinsics};
pub use object::{create, get_prototype_of, has_own_property, set_prototype_of};
pub use text::{char_code_at, from_char_code, index_of, substring};
pub use values::EsValues;
