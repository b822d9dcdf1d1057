ghost use Rattle.std.specs.Prelude.{◌≡◌, ℕ, ◌+◌, ◌≤◌, ◌<◌, ◌^◌, List, length, IfOk, IfSome, IsErrOf, OnErr, []};
ghost use Rattle.std.specs.declared.option.Option.{Option};
ghost use Rattle.opal_base.specs.Outside.{HasCause, Delivers, Rose, preceded};

use crate::fault::{Failed, SourceFault};
use std::alloc::Global;

/// What gives bytes.
pub trait Source {
    /// The bytes left, where the object tells them.
    ghost left: { Self → Option (List ℕ) };

    /// How often it has failed.
    ghost faults: { Self → ℕ };

    /// Puts the first bytes left at the start of the buffer and takes them away; 0 for a buffer
    /// that isn't empty is the end. Where it fails, none are taken away.
    fn read(&mut self, buf: &mut [u8]) -> Result<usize, Failed>
        ensures delivers { IfOk result (Delivers (left self.old) (left self.new) buf.new) }
        ensures kept { OnErr result (left self.new ≡ left self.old) }
        ensures cause { HasCause (faults self.old) (faults self.new) result };
}

/// Reads a source to its end, or until it has given one byte more than `most`.
pub fn read_all<S: Source>(
    alloc: Global,
    source: &mut S,
    most: usize,
) -> Result<Vec<u8>, SourceFault>
    requires { most < 2 ^ 32 }
    ensures read { IfOk result (λ bytes. S.left source.old ≡ preceded bytes.items (S.left source.new)) }
    ensures ended { IfOk result (λ bytes. length bytes.items ≤ most → IfSome (S.left source.new) (λ rest. rest ≡ [])) }
    ensures bound { IfOk result (λ bytes. length bytes.items ≤ most + 1) }
    ensures failed { IsErrOf result SourceFault.Failed → Rose (S.faults source.old) (S.faults source.new) }
    ensures later { S.faults source.old ≤ S.faults source.new }
{
    let mut bytes = Vec::new(alloc);
    let mut buffer = [0; 4096];
    'chunks: while bytes.len() <= most {
        let room = (most + 1 - bytes.len()).min(buffer.len());
        let count = match source.read(&mut buffer[..room]) {
            Ok(count) => count,
            Err(_) => return Err(SourceFault::Failed),
        };
        if count == 0 {
            return Ok(bytes);
        }
        if bytes.extend_from_slice(&buffer[..count]).is_err() {
            return Err(SourceFault::NoMemory);
        }
    }
    Ok(bytes)
}
