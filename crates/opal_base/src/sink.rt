ghost use Rattle.std.specs.Prelude.{◌≡◌, ℕ, ◌<◌, ◌≤◌, List, length, take, IfOk, OnOk, OnErr};
ghost use Rattle.std.specs.declared.option.Option.{Option};
ghost use Rattle.opal_base.specs.Outside.{Rose, HasCause, appended, TookFront};

use crate::fault::Failed;

/// What takes bytes.
pub trait Sink {
    /// The bytes taken so far, where the object tells them.
    ghost told: { Self → Option (List ℕ) };

    /// How often it has failed.
    ghost faults: { Self → ℕ };

    /// Takes the first bytes of the piece, as many as it answers. Where it fails, it may have
    /// taken some. Taking nothing of a piece that isn't empty is counted as a fault.
    fn write(&mut self, bytes: &[u8]) -> Result<usize, Failed>
        ensures bound { IfOk result (λ count. count ≤ length bytes.now) }
        ensures took { IfOk result (λ count. told self.new ≡ appended (told self.old) (take count bytes.now)) }
        ensures front { OnErr result (TookFront (told self.old) (told self.new) bytes.now) }
        ensures cause { HasCause (faults self.old) (faults self.new) result }
        ensures nothing { IfOk result (λ count. count ≡ 0 → 0 < length bytes.now → Rose (faults self.old) (faults self.new)) };
}

/// Hands all the bytes to the sink, in as many pieces as it wants. `Failed` where a write failed or
/// took nothing; then the sink has taken the first of the bytes, or none.
pub fn write_all<S: Sink>(sink: &mut S, bytes: &[u8]) -> Result<(), Failed>
    ensures took { OnOk result (S.told sink.new ≡ appended (S.told sink.old) bytes.now) }
    ensures front { TookFront (S.told sink.old) (S.told sink.new) bytes.now }
    ensures cause { HasCause (S.faults sink.old) (S.faults sink.new) result }
{
    let mut at = 0;
    while at < bytes.len() {
        match sink.write(&bytes[at..]) {
            Ok(count) => {
                if count == 0 {
                    return Err(Failed);
                }
                at += count;
            }
            Err(_) => return Err(Failed),
        }
    }
    Ok(())
}
