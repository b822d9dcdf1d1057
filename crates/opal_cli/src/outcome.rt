use es5_host::OutKind;
use opal_base::{Pos, Units};
use ruby_meaning::Construct;

/// How a call ends, with what its line on err names.
#[derive(Drop)]
pub enum Outcome<'a> {
    Done,
    /// The name and the message of the exception.
    Uncaught(Units, Units),
    Usage,
    Refused(&'a str, Pos, Construct),
    Missing(&'a str),
    ReadFault,
    WriteFault,
    /// The place in the script.
    Outside(OutKind, Pos),
    /// The budget of steps.
    OutOfSteps(u64),
    /// The budget of cells.
    CellsFull(u32),
    NotScript(&'a str, Pos),
    /// The offset in the input.
    BadInput(usize),
    NoMemory,
    TooLong,
}
