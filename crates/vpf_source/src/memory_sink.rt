//! A sink in memory, which fails where it is told to.

ghost use Rattle.std.specs.Prelude.{◌≡◌, ◌≤◌, ◌<◌, [], Some, length, min, IsTrue, IsErrOf, IfOk, ◌↔◌};
ghost use Rattle.std.specs.Io.KnownBytes.{WriteAppends};
ghost use Rattle.vpf_source.specs.Inner.Calls.{after_call, next_fails, no_calls};
ghost use Rattle.vpf_source.specs.Causes.{Rose, Stood};

use crate::calls::CallLog;
use crate::error::DeviceError;
use crate::sink::Sink;
use std::alloc::Global;

/// Bytes in memory, taken in pieces of at most a given number of bytes. Chosen writes fail.
///
/// Its writes are numbered from 1, and the number stands still at its last value, `u64::MAX`.
#[derive(Debug, Drop)]
pub struct MemSink {
    piece: u32,
    calls: CallLog,
    bytes: Vec<u8>,
    ghost some: { 1 ≤ piece },
}

impl MemSink {
    ghost use Rattle.vpf_source.specs.Inner.Held.{sink_calls, sink_piece};

    /// A sink with no byte. A write takes at most `piece` bytes, and the writes whose numbers stand in `fail` fail.
    pub fn new(alloc: Global, piece: u32, fail: Vec<u64>) -> Self
        requires { 1 ≤ piece }
        ensures written { ⟦<MemSink as Sink>⟧.written result ≡ Some [] }
        ensures faults { ⟦<MemSink as Sink>⟧.faults result ≡ 0 }
        ensures piece { sink_piece result ≡ piece }
        ensures calls { sink_calls result ≡ no_calls fail.items }
    {
        MemSink {
            piece,
            calls: CallLog::new(fail),
            bytes: Vec::new(alloc),
        }
    }

    /// The bytes so far.
    pub fn bytes(&self) -> &[u8]
        ensures { Some result.now ≡ ⟦<MemSink as Sink>⟧.written self.now }
    {
        &self.bytes
    }
}

impl Sink for MemSink {
    ghost use Rattle.vpf_source.specs.Inner.Held.{sink_bytes, sink_calls, sink_piece};

    ghost written = { λ sink. Some (sink_bytes sink) };

    ghost faults = { λ sink. (sink_calls sink).faults };

    fn write(&mut self, piece: &[u8]) -> Result<usize, DeviceError>
        ensures within { IfOk result (λ n. n ≤ length piece.now) }
        ensures progress { 0 < length piece.now → IfOk result (λ n. 0 < n) }
        ensures bytes { WriteAppends (Some (sink_bytes self.old)) (Some (sink_bytes self.new)) result piece.now }
        ensures later { (sink_calls self.old).faults ≤ (sink_calls self.new).faults }
        ensures failed { IsErrOf result DeviceError.Failed → Rose (sink_calls self.old).faults (sink_calls self.new).faults }
        ensures stood { ¬ IsErrOf result DeviceError.Failed → Stood (sink_calls self.old).faults (sink_calls self.new).faults }

        ensures fails { IsErrOf result DeviceError.Failed ↔ IsTrue (next_fails (sink_calls self.old)) }
        ensures calls { sink_calls self.new ≡ after_call (sink_calls self.old) }
        ensures piece { sink_piece self.new ≡ sink_piece self.old }
        ensures count { IfOk result (λ n. n ≡ min (length piece.now) (sink_piece self.old)) }
    {
        self.calls.begin()?;
        let count = piece.len().min(self.piece as usize);
        self.bytes.extend_from_slice(&piece[..count])?;
        Ok(count)
    }
}
