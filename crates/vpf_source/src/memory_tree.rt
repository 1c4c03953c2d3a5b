//! A tree in memory, which fails where it is told to.

ghost use Rattle.std.proofs.Props.{props};
ghost use Rattle.std.specs.Prelude.{◌≡◌, ◌≤◌, ◌<◌, ◌-◌, Some, length, drop, min, IsErr, IsErrOf, IsTrue, IfOk, OnOk, OnErr, ◌↔◌};
ghost use Rattle.std.specs.Option.{option_copied};
ghost use Rattle.std.specs.BTreeMap.{get_by_text};
ghost use Rattle.std.specs.Io.{ReadsAtMost};
ghost use Rattle.vpf_source.specs.Inner.Calls.{after_call, next_fails, no_calls};
ghost use Rattle.vpf_source.specs.Causes.{Rose, Stood};
ghost use Rattle.vpf_source.specs.Files.{HoldsBytes, ReadsFrom, ReadsFile, SameElsewhere, TellsSize, bytes_of, no_files, with_file};

use crate::calls::CallLog;
use crate::error::{DeviceError, Failed};
use crate::file::Bytes;
use crate::tree::Tree;
use std::alloc::{AllocError, Global};
use std::collections::BTreeMap;

/// Files in memory, read in pieces of at most a given number of bytes. Chosen calls fail.
///
/// Its calls are numbered from 1 over all kinds, and the number stands still at its last value, `u64::MAX`.
#[derive(Debug, Drop)]
pub struct MemTree {
    alloc: Global,
    piece: u32,
    calls: CallLog,
    files: BTreeMap<String, Bytes>,
    ghost some: { 1 ≤ piece },
    ghost of_bytes: { HoldsBytes (get_by_text files) } by { Prim.hlevel props },
}

impl MemTree {
    ghost use Rattle.vpf_source.specs.Inner.Held.{tree_calls, tree_files, tree_piece};
    ghost use Rattle.vpf_source.specs.Inner.Halves.{MayHold, first_half};

    /// A tree with no file. A read gives at most `piece` bytes, and the calls whose numbers stand in `fail` fail.
    pub fn new(alloc: Global, piece: u32, fail: Vec<u64>) -> Self
        requires { 1 ≤ piece }
        ensures files { ⟦<MemTree as Tree>⟧.files result ≡ Some no_files }
        ensures faults { ⟦<MemTree as Tree>⟧.faults result ≡ 0 }
        ensures piece { tree_piece result ≡ piece }
        ensures calls { tree_calls result ≡ no_calls fail.items }
    {
        MemTree {
            alloc,
            piece,
            calls: CallLog::new(fail),
            files: BTreeMap::new(alloc),
        }
    }

    /// Makes a file hold these bytes, in place of what it held before. It is no call that is counted.
    ///
    /// After an error the tree is unchanged.
    pub fn put(&mut self, name: &str, bytes: &[u8]) -> Result<(), AllocError>
        ensures ok { OnOk result (⟦<MemTree as Tree>⟧.files self.new ≡ with_file (⟦<MemTree as Tree>⟧.files self.old) name.now bytes.now) }
        ensures err { OnErr result (⟦<MemTree as Tree>⟧.files self.new ≡ ⟦<MemTree as Tree>⟧.files self.old) }
        ensures faults { ⟦<MemTree as Tree>⟧.faults self.new ≡ ⟦<MemTree as Tree>⟧.faults self.old }
        ensures piece { tree_piece self.new ≡ tree_piece self.old }
        ensures calls { tree_calls self.new ≡ tree_calls self.old }
    {
        let key = String::from_str(self.alloc, name)?;
        let held = Bytes::new(Vec::from_slice(self.alloc, bytes)?);
        self.files.insert(key, held)?;
        Ok(())
    }

    /// Makes a file hold the first half of the bytes, or leaves the tree unchanged where there is no memory for them.
    fn leave_half(&mut self, name: &str, bytes: &[u8])
        ensures half { MayHold (tree_files self.old) (tree_files self.new) name.now (first_half bytes.now) }
        ensures piece { tree_piece self.new ≡ tree_piece self.old }
        ensures calls { tree_calls self.new ≡ tree_calls self.old }
    {
        let _left = self.put(name, &bytes[..bytes.len() / 2]);
    }

    /// The bytes of a file, and `None` exactly where it is absent. It is no call that is counted.
    pub fn file(&self, name: &str) -> Option<&[u8]>
        ensures { option_copied result ≡ tree_files self.now name.now }
    {
        self.files.get(name).map(|bytes| bytes.as_slice())
    }
}

impl Tree for MemTree {
    ghost use Rattle.vpf_source.specs.Inner.Held.{tree_calls, tree_files, tree_piece};
    ghost use Rattle.vpf_source.specs.Inner.Halves.{MayHold, first_half};

    ghost files = { λ tree. Some (tree_files tree) };

    ghost reads = { λ tree. Some (tree_files tree) };

    ghost faults = { λ tree. (tree_calls tree).faults };

    fn size(&mut self, name: &str) -> Result<Option<u64>, Failed>
        ensures size { TellsSize (Some (tree_files self.old)) name.now result }
        ensures files { tree_files self.new ≡ tree_files self.old }
        ensures reads { tree_files self.new ≡ tree_files self.old }
        ensures later { (tree_calls self.old).faults ≤ (tree_calls self.new).faults }
        ensures failed { OnErr result (Rose (tree_calls self.old).faults (tree_calls self.new).faults) }
        ensures stood { OnOk result (Stood (tree_calls self.old).faults (tree_calls self.new).faults) }

        ensures fails { IsErr result ↔ IsTrue (next_fails (tree_calls self.old)) }
        ensures calls { tree_calls self.new ≡ after_call (tree_calls self.old) }
        ensures piece { tree_piece self.new ≡ tree_piece self.old }
    {
        self.calls.begin()?;
        Ok(
            self.files
                .get(name)
                .map(|bytes| bytes.as_slice().len() as u64),
        )
    }

    fn read_at(&mut self, name: &str, at: u64, buf: &mut [u8]) -> Result<usize, Failed>
        ensures within { ReadsAtMost result buf.new }
        ensures bytes { ReadsFile (Some (tree_files self.old)) name.now at result buf.new }
        ensures read { ReadsFile (Some (tree_files self.old)) name.now at result buf.new }
        ensures files { tree_files self.new ≡ tree_files self.old }
        ensures reads { tree_files self.new ≡ tree_files self.old }
        ensures later { (tree_calls self.old).faults ≤ (tree_calls self.new).faults }
        ensures failed { OnErr result (Rose (tree_calls self.old).faults (tree_calls self.new).faults) }
        ensures stood { OnOk result (Stood (tree_calls self.old).faults (tree_calls self.new).faults) }

        ensures fails { IsErr result ↔ IsTrue (next_fails (tree_calls self.old)) }
        ensures calls { tree_calls self.new ≡ after_call (tree_calls self.old) }
        ensures piece { tree_piece self.new ≡ tree_piece self.old }
        ensures count { IfOk result (λ n. n ≡ min (min (length (bytes_of (tree_files self.old name.now)) - at) (tree_piece self.old)) (length buf.new)) }
        ensures rest { IfOk result (λ n. drop n buf.new ≡ drop n buf.old) }
    {
        self.calls.begin()?;
        match self.files.get(name) {
            Some(bytes) => Ok(read_piece(bytes.as_slice(), at, self.piece as usize, buf)),
            None => Ok(0),
        }
    }

    /// Where it is to fail, the file is left with the first half of the bytes, or as it was if there is no memory for them.
    fn make(&mut self, name: &str, bytes: &[u8]) -> Result<(), DeviceError>
        ensures made { OnOk result (Some (tree_files self.new) ≡ with_file (Some (tree_files self.old)) name.now bytes.now) }
        ensures others { IsErrOf result DeviceError.Failed → SameElsewhere (Some (tree_files self.old)) (Some (tree_files self.new)) name.now }
        ensures none { IsErrOf result DeviceError.NoMemory → Some (tree_files self.new) ≡ Some (tree_files self.old) }
        ensures later { (tree_calls self.old).faults ≤ (tree_calls self.new).faults }
        ensures failed { IsErrOf result DeviceError.Failed → Rose (tree_calls self.old).faults (tree_calls self.new).faults }
        ensures stood { ¬ IsErrOf result DeviceError.Failed → Stood (tree_calls self.old).faults (tree_calls self.new).faults }

        ensures fails { IsErrOf result DeviceError.Failed ↔ IsTrue (next_fails (tree_calls self.old)) }
        ensures calls { tree_calls self.new ≡ after_call (tree_calls self.old) }
        ensures piece { tree_piece self.new ≡ tree_piece self.old }
        ensures half { IsErrOf result DeviceError.Failed → MayHold (tree_files self.old) (tree_files self.new) name.now (first_half bytes.now) }
    {
        if self.calls.begin().is_err() {
            self.leave_half(name, bytes);
            return Err(DeviceError::Failed);
        }
        self.put(name, bytes)?;
        Ok(())
    }

    ghost of_bytes = { λ tree. tree.of_bytes };
}

/// Copies at most `piece` bytes from the offset on into the front of the buffer, and says how many.
fn read_piece(bytes: &[u8], at: u64, piece: usize, buf: &mut [u8]) -> usize
    requires { 1 ≤ piece }
    ensures read { ReadsFrom bytes.now at result buf.new }
    ensures count { result ≡ min (min (length bytes.now - at) piece) (length buf.new) }
    ensures rest { drop result buf.new ≡ drop result buf.old }
{
    if at >= bytes.len() as u64 {
        return 0;
    }
    let left = &bytes[at as usize..];
    let count = left.len().min(piece).min(buf.len());
    buf[..count].copy_from_slice(&left[..count]);
    count
}
