//! A tree and a sink in memory, which give and take pieces and keep what is made. They tell contracts nothing of what they hold.

ghost use Rattle.std.specs.Prelude.{◌≤◌, ◌<◌, None, length};

use crate::touching::Touches;
use std::alloc::{AllocError, Global};
use vpf_notation::{Case, Files};
use vpf_source::{DeviceError, Failed, Sink, Tree};

/// Files in memory, read in pieces of at most a given number of bytes.
#[derive(Drop)]
pub struct CaseTree {
    alloc: Global,
    piece: usize,
    files: Files,
    touches: Touches,
    ghost some: { 1 ≤ piece },
}

impl CaseTree {
    /// The files that stand before a case.
    pub fn new(alloc: Global, piece: usize, case: &Case) -> Result<Self, AllocError> {
        let mut files = Files::new(alloc);
        files.put_all(&case.files)?;
        Ok(CaseTree {
            alloc,
            piece: piece.max(1),
            files,
            touches: Touches::new(alloc),
        })
    }

    /// A run begins: what those before asked for is forgotten.
    pub fn begin(&mut self) {
        self.touches = Touches::new(self.alloc);
    }

    /// The first file that is there of which the run asked twice for the size, or for a byte.
    pub fn asked_twice(&self) -> Option<&str> {
        self.touches.again()
    }

    /// The files as they stand now.
    pub fn files(&self) -> &Files {
        &self.files
    }
}

/// Copies at most `piece` bytes from the offset on into the front of the buffer, and says how many.
fn read_piece(bytes: &[u8], at: u64, piece: usize, buf: &mut [u8]) -> usize
    ensures { result ≤ length buf.new }
{
    if at >= bytes.len() as u64 {
        return 0;
    }
    let left = &bytes[at as usize..];
    let count = left.len().min(piece).min(buf.len());
    buf[..count].copy_from_slice(&left[..count]);
    count
}

impl Tree for CaseTree {
    ghost files = { λ _. None };

    ghost faults = { λ _. 0 };

    fn size(&mut self, name: &str) -> Result<Option<u64>, Failed> {
        let Some(bytes) = self.files.get(name) else {
            return Ok(None);
        };
        let size = bytes.len() as u64;
        let _noted = self.touches.size(name);
        Ok(Some(size))
    }

    fn read_at(&mut self, name: &str, at: u64, buf: &mut [u8]) -> Result<usize, Failed> {
        let count = match self.files.get(name) {
            Some(bytes) => read_piece(bytes, at, self.piece, buf),
            None => 0,
        };
        let _noted = self.touches.read(name, at, count);
        Ok(count)
    }

    fn make(&mut self, name: &str, bytes: &[u8]) -> Result<(), DeviceError> {
        let bytes = Vec::from_slice(self.alloc, bytes)?;
        Ok(self.files.put(name, bytes)?)
    }

    ghost of_bytes = { λ _. tt };
}

/// Bytes in memory, taken in pieces of at most a given number of bytes.
#[derive(Drop)]
pub struct CaseSink {
    piece: usize,
    bytes: Vec<u8>,
    ghost some: { 1 ≤ piece },
}

impl CaseSink {
    /// No byte yet.
    pub fn new(alloc: Global, piece: usize) -> Self {
        CaseSink {
            piece: piece.max(1),
            bytes: Vec::new(alloc),
        }
    }

    /// The bytes so far.
    pub fn bytes(&self) -> &[u8] {
        &self.bytes
    }
}

impl Sink for CaseSink {
    ghost written = { λ _. None };

    ghost faults = { λ _. 0 };

    fn write(&mut self, piece: &[u8]) -> Result<usize, DeviceError> {
        let count = piece.len().min(self.piece);
        self.bytes.extend_from_slice(&piece[..count])?;
        Ok(count)
    }
}
