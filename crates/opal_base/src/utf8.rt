ghost use Rattle.std.specs.Prelude.{◌≡◌, ◌≤◌, length, IfOk, IfErr};
ghost use Rattle.opal_base.specs.Text.{IsDecoded, IsDecodeFault, utf8_of};

use crate::bytes::Bytes;
use crate::fault::NoMemory;
use crate::units::Units;
use std::alloc::{AllocError, Global};

/// Why bytes were not decoded.
#[derive(Clone, Copy, Debug, PartialEq, Eq)]
pub enum DecodeFault {
    /// No memory was found.
    NoMemory,
    /// The bytes are no UTF-8; the offset is the length in bytes of their longest front that is.
    BadByte { offset: usize },
}

/// The 16-bit units of a text in UTF-8 (RFC 3629: no overlong form, no surrogate, nothing above
/// 10ffff). `BadByte` exactly where the bytes are no UTF-8.
#[tactic(auto, using(crate::proofs::Decoding::decoded_shorter))]
pub fn utf8_to_units(alloc: Global, bytes: &[u8]) -> Result<Units, DecodeFault>
    ensures decoded { IfOk result (IsDecoded bytes.now) }
    ensures shorter { IfOk result (λ units. length units ≤ length bytes.now) }
    ensures fault { IfErr result (IsDecodeFault bytes.now) }
{
    match str::from_utf8(bytes) {
        Ok(text) => match units_of(alloc, text) {
            Ok(units) => Ok(units),
            Err(_) => Err(DecodeFault::NoMemory),
        },
        Err(error) => Err(DecodeFault::BadByte {
            offset: error.valid_up_to(),
        }),
    }
}

// The units of a text, character by character.
fn units_of(alloc: Global, text: &str) -> Result<Units, AllocError>
    ensures { IfOk result (IsDecoded text.now) }
{
    let mut units = Vec::new(alloc);
    for c in text.chars() {
        let mut pair = [0; 2];
        units.extend_from_slice(c.encode_utf16(&mut pair))?;
    }
    Ok(Units::from_vec(units))
}

/// The UTF-8 of a text, with the bytes ef bf bd for each surrogate without a partner, or `NoMemory`.
pub fn units_to_utf8(alloc: Global, units: &Units) -> Result<Bytes, NoMemory>
    ensures { IfOk result (λ bytes. bytes ≡ utf8_of units.now) }
{
    match String::from_utf16_lossy(alloc, units.as_slice()) {
        Ok(text) => Ok(Bytes::from_vec(text.into_bytes())),
        Err(_) => Err(NoMemory),
    }
}
