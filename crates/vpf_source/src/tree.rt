//! A tree of files.

ghost use Rattle.std.specs.Prelude.{◌≡◌, ◌≤◌, ℕ, Option, None, IfSome, OnOk, OnErr, IsErrOf};
ghost use Rattle.std.specs.Io.{ReadsAtMost};
ghost use Rattle.vpf_source.specs.Causes.{Rose, Stood};
ghost use Rattle.vpf_source.specs.Files.{Files, HoldsBytes, TellsSize, ReadsFile, SameElsewhere, with_file};

use crate::error::{DeviceError, Failed};

/// Files under names, read in pieces and made whole. A name is a text; it may have parts joined by `/`.
///
/// A tree may tell its files to contracts, as one in memory does. The folders of a computer tell nothing, and what
/// contracts say of files then holds as far as the bytes that are read are those of files.
pub trait Tree {
    /// The bytes of each file, where the tree tells them.
    ghost files: { Self → Option Files };

    /// The bytes that reading gives of each file, where the tree tells that, whatever `size` says of them. What they are once
    /// a file is made is left open.
    ghost reads: { Self → Option Files } = { λ _. None };

    /// How many calls have failed so far. It never falls, and a call that does not fail leaves it as it was.
    ghost faults: { Self → ℕ };

    /// The length of a file in bytes, and `None` exactly where the file is absent.
    ///
    /// It fails exactly where the count of faults rises in this call. No file changes.
    fn size(&mut self, name: &str) -> Result<Option<u64>, Failed>
        ensures size { TellsSize (files self.old) name.now result }
        ensures files { files self.new ≡ files self.old }
        ensures reads { reads self.new ≡ reads self.old }
        ensures later { faults self.old ≤ faults self.new }
        ensures failed { OnErr result (Rose (faults self.old) (faults self.new)) }
        ensures stood { OnOk result (Stood (faults self.old) (faults self.new)) };

    /// Fills the front of the buffer with the file's bytes from the offset `at` on, and says how many those are.
    ///
    /// It gives at least one byte where the offset is below the file's size and the buffer is not empty, and 0 at or
    /// past the size, or where the file is absent. What stands in the buffer behind those bytes, or after an error, is
    /// left open. It fails exactly where the count of faults rises in this call. No file changes.
    fn read_at(&mut self, name: &str, at: u64, buf: &mut [u8]) -> Result<usize, Failed>
        ensures within { ReadsAtMost result buf.new }
        ensures bytes { ReadsFile (files self.old) name.now at result buf.new }
        ensures read { ReadsFile (reads self.old) name.now at result buf.new }
        ensures files { files self.new ≡ files self.old }
        ensures reads { reads self.new ≡ reads self.old }
        ensures later { faults self.old ≤ faults self.new }
        ensures failed { OnErr result (Rose (faults self.old) (faults self.new)) }
        ensures stood { OnOk result (Stood (faults self.old) (faults self.new)) };

    /// Makes the file hold exactly these bytes, in place of what it held before, with the folders that its name needs. No
    /// other file changes.
    ///
    /// After `Failed`, which comes exactly where the count of faults rises in this call, that one file may hold anything or
    /// be absent. Where memory ran out no file has changed.
    fn make(&mut self, name: &str, bytes: &[u8]) -> Result<(), DeviceError>
        ensures made { OnOk result (files self.new ≡ with_file (files self.old) name.now bytes.now) }
        ensures others { IsErrOf result DeviceError.Failed → SameElsewhere (files self.old) (files self.new) name.now }
        ensures none { IsErrOf result DeviceError.NoMemory → files self.new ≡ files self.old }
        ensures later { faults self.old ≤ faults self.new }
        ensures failed { IsErrOf result DeviceError.Failed → Rose (faults self.old) (faults self.new) }
        ensures stood { ¬ IsErrOf result DeviceError.Failed → Stood (faults self.old) (faults self.new) };

    /// Files are of bytes.
    ghost of_bytes: { (tree : Self) → IfSome (files tree) HoldsBytes };
}
