ghost use Rattle.std.specs.Prelude.{◌≡◌, ◌≤◌, [], IfOk, IfErr, IfSome};
ghost use Rattle.opal_base.specs.Outside.{Rose};
ghost use Rattle.opal_cli.specs.Execution.{IsInputOf, IsNoInput};

use opal_base::{DecodeFault, Source, SourceFault, Units, read_all, utf8_to_units};
use std::alloc::Global;

/// The longest input, in bytes.
const MOST_BYTES: usize = 16_777_216;

/// Why an input was not read.
#[derive(Clone, Copy, Debug, PartialEq, Eq)]
pub enum InputFault {
    NoMemory,
    ReadFault,
    /// The input is no UTF-8 behind the offset, or longer than an input may be.
    BadInput { offset: usize },
}

/// The text of the input, which is read to its end.
pub fn read_input<I: Source>(alloc: Global, input: &mut I) -> Result<Units, InputFault>
    ensures text { IfOk result (λ text. IsInputOf (I.left input.old) text) }
    ensures ended { IfOk result (λ text. IfSome (I.left input.new) (λ rest. rest ≡ [])) }
    ensures fault { IfErr result (IsNoInput (I.left input.old) (I.faults input.old) (I.faults input.new)) }
    ensures later { I.faults input.old ≤ I.faults input.new }
{
    let bytes = match read_all(alloc, input, MOST_BYTES) {
        Ok(bytes) => bytes,
        Err(SourceFault::Failed) => return Err(InputFault::ReadFault),
        Err(SourceFault::NoMemory) => return Err(InputFault::NoMemory),
    };
    if bytes.len() > MOST_BYTES {
        return Err(InputFault::BadInput { offset: MOST_BYTES });
    }
    match utf8_to_units(alloc, &bytes) {
        Ok(text) => Ok(text),
        Err(DecodeFault::BadByte { offset }) => Err(InputFault::BadInput { offset }),
        Err(DecodeFault::NoMemory) => Err(InputFault::NoMemory),
    }
}
