//! A tree in memory of which no call fails.

ghost use Rattle.std.specs.Prelude.{◌≡◌, Some, [], OnErr, OnOk};
ghost use Rattle.std.specs.Option.{option_copied};
ghost use Rattle.vpf_source.specs.Files.{no_files, with_file};
ghost use Rattle.vpf_source.specs.Inner.Held.{tree_calls};

use crate::error::{DeviceError, Failed};
use crate::memory_tree::MemTree;
use crate::tree::Tree;
use std::alloc::{AllocError, Global};

/// Files in memory, of which no call ever fails: its count of faults is 0 for every value of the type.
///
/// What is proved of any tree, that a fault is answered only where the count rose, says over this one that none is answered.
#[derive(Debug, Drop)]
pub struct SureTree {
    held: MemTree,
    ghost sure: { (tree_calls held).fail ≡ [] },
}

impl SureTree {
    ghost use Rattle.vpf_source.specs.Inner.Sure.{sure_files};

    /// A tree with no file.
    pub fn new(alloc: Global) -> Self
        ensures files { ⟦<SureTree as Tree>⟧.files result ≡ Some no_files }
    {
        SureTree {
            held: MemTree::new(alloc, u32::MAX, Vec::new(alloc)),
        }
    }

    /// Makes a file hold these bytes, in place of what it held before.
    ///
    /// After an error the tree is unchanged.
    pub fn put(&mut self, name: &str, bytes: &[u8]) -> Result<(), AllocError>
        ensures ok { OnOk result (⟦<SureTree as Tree>⟧.files self.new ≡ with_file (⟦<SureTree as Tree>⟧.files self.old) name.now bytes.now) }
        ensures err { OnErr result (⟦<SureTree as Tree>⟧.files self.new ≡ ⟦<SureTree as Tree>⟧.files self.old) }
    {
        self.held.put(name, bytes)
    }

    /// The bytes of a file, and `None` exactly where it is absent.
    pub fn file(&self, name: &str) -> Option<&[u8]>
        ensures { option_copied result ≡ sure_files self.now name.now }
    {
        self.held.file(name)
    }
}

impl Tree for SureTree {
    ghost use Rattle.vpf_source.specs.Inner.Sure.{sure_files};

    ghost files = { λ tree. Some (sure_files tree) };

    ghost reads = { λ tree. Some (sure_files tree) };

    ghost faults = { λ _. 0 };

    fn size(&mut self, name: &str) -> Result<Option<u64>, Failed> {
        self.held.size(name)
    }

    fn read_at(&mut self, name: &str, at: u64, buf: &mut [u8]) -> Result<usize, Failed> {
        self.held.read_at(name, at, buf)
    }

    fn make(&mut self, name: &str, bytes: &[u8]) -> Result<(), DeviceError> {
        self.held.make(name, bytes)
    }

    ghost of_bytes = { λ tree. tree.held.of_bytes };
}
