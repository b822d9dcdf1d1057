use es5_host::OutKind;
use opal_base::{Pos, Units};

/// How a run of the machine ends.
#[derive(Drop)]
pub enum RunEnd {
    /// The script came to its end.
    Finished,
    /// Nothing caught a throw. The texts are the own properties `name` and `message` of the thrown
    /// object, or `Error` and the empty text where they aren't texts.
    Uncaught { name: Units, message: Units },
    /// The script left the profile at the place of an expression.
    Outside { kind: OutKind, pos: Pos },
    /// The steps are used up, and the script goes on.
    OutOfSteps,
    /// A step would have made one cell more than the limit.
    CellsFull,
    /// The sink failed.
    WriteFault,
    /// No memory was found.
    NoMemory,
}
