//! Files made one after another.

ghost use Rattle.std.specs.Prelude.{◌≡◌, ◌≤◌, OnOk, IsErrOf};
ghost use Rattle.vpf_source.specs.Causes.{Rose, Stood};
ghost use Rattle.vpf_source.specs.Making.{with_all, StoppedAtOne, StoppedBetween};

use crate::error::DeviceError;
use crate::file::File;
use crate::tree::Tree;

/// Makes files, one after another in their order.
///
/// After `Failed` the files before one of them are made, and that one holds anything; where memory ran out some of the
/// first are made. No other file is changed. `Failed` comes exactly where the tree's count of faults rises in this call.
pub fn make_all<T: Tree>(tree: &mut T, files: &[File]) -> Result<(), DeviceError>
    ensures made { OnOk result (T.files tree.new ≡ with_all files.now (T.files tree.old)) }
    ensures at_one { IsErrOf result DeviceError.Failed → StoppedAtOne files.now (T.files tree.old) (T.files tree.new) }
    ensures between { IsErrOf result DeviceError.NoMemory → StoppedBetween files.now (T.files tree.old) (T.files tree.new) }
    ensures later { T.faults tree.old ≤ T.faults tree.new }
    ensures failed { IsErrOf result DeviceError.Failed → Rose (T.faults tree.old) (T.faults tree.new) }
    ensures stood { ¬ IsErrOf result DeviceError.Failed → Stood (T.faults tree.old) (T.faults tree.new) }
{
    for file in files {
        tree.make(file.name.as_str(), file.bytes.as_slice())?;
    }
    Ok(())
}
