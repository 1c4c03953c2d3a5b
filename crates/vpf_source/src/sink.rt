//! A sink of bytes.

ghost use Rattle.std.specs.Prelude.{◌≡◌, ◌≤◌, ◌<◌, List, ℕ, Option, IsErrOf, IfOk, OnOk, OnErr, length};
ghost use Rattle.std.specs.Io.KnownBytes.{Appends, WriteAppends};
ghost use Rattle.vpf_source.specs.Causes.{Rose, Stood};
ghost use Rattle.vpf_source.specs.Writing.{AppendsPrefix, TellsAsBefore};

use crate::error::DeviceError;

/// Takes bytes in order. Like a tree, a sink may tell its bytes to contracts, or tell nothing.
pub trait Sink {
    /// The bytes so far, where the sink tells them.
    ghost written: { Self → Option (List ℕ) };

    /// How many calls have failed so far. It never falls, and a call that does not fail leaves it as it was.
    ghost faults: { Self → ℕ };

    /// Appends a prefix of the piece, and says how many bytes long that is: at least one where the piece is not empty.
    ///
    /// After an error nothing was appended. `Failed` comes exactly where the count of faults rises in this call.
    fn write(&mut self, piece: &[u8]) -> Result<usize, DeviceError>
        ensures within { IfOk result (λ n. n ≤ length piece.now) }
        ensures progress { 0 < length piece.now → IfOk result (λ n. 0 < n) }
        ensures bytes { WriteAppends (written self.old) (written self.new) result piece.now }
        ensures tells { TellsAsBefore (written self.old) (written self.new) }
        ensures later { faults self.old ≤ faults self.new }
        ensures failed { IsErrOf result DeviceError.Failed → Rose (faults self.old) (faults self.new) }
        ensures stood { ¬ IsErrOf result DeviceError.Failed → Stood (faults self.old) (faults self.new) };
}

/// Appends all bytes, in as many writes as the sink needs.
///
/// After an error a prefix of them was appended. `Failed` comes exactly where the sink's count of faults rises in this call.
pub fn put_all<O: Sink>(sink: &mut O, bytes: &[u8]) -> Result<(), DeviceError>
    ensures all { OnOk result (Appends (O.written sink.old) (O.written sink.new) bytes.now) }
    ensures prefix { OnErr result (AppendsPrefix (O.written sink.old) (O.written sink.new) bytes.now) }
    ensures tells { TellsAsBefore (O.written sink.old) (O.written sink.new) }
    ensures later { O.faults sink.old ≤ O.faults sink.new }
    ensures failed { IsErrOf result DeviceError.Failed → Rose (O.faults sink.old) (O.faults sink.new) }
    ensures stood { ¬ IsErrOf result DeviceError.Failed → Stood (O.faults sink.old) (O.faults sink.new) }
{
    let mut done = 0;
    while done < bytes.len() {
        done += sink.write(&bytes[done..])?;
    }
    Ok(())
}
