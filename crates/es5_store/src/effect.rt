//! What comes of what was done.

ghost use Rattle.std.specs.Prelude.{◌≡◌};

use es5_code::NodeId;
use es5_host::OutKind;
use es5_objects::EsValue;
use es5_pending::Completion;
use opal_base::{NoMemory, Pos};

/// What is left to do.
#[derive(Drop)]
pub enum Effect {
    /// Nothing: this is the completion.
    Ended(Completion),
    /// The profile was left.
    Left(OutKind, Pos),
    /// The statements of a function, in the record that was made for the call.
    Called {
        body: NodeId,
        this: EsValue,
        innermost: usize,
    },
    /// The statements of the part of a `try` that takes what was thrown, in its record.
    Caught {
        body: NodeId,
        innermost: usize,
    },
}

/// Why a run stops before its end.
#[derive(Clone, Copy, Debug, PartialEq, Eq, Drop)]
pub enum Halt {
    /// No cell is left.
    CellsFull,
    /// The sink failed.
    WriteFault,
    /// No memory was found.
    NoMemory,
}

impl From<NoMemory> for Halt {
    fn from(_: NoMemory) -> Halt
        ensures { result ≡ Halt.NoMemory }
    {
        Halt::NoMemory
    }
}
