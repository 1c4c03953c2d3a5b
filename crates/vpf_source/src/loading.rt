//! Whole files.

ghost use Rattle.std.specs.Prelude.{◌≡◌, ◌≤◌, ◌<◌, ℕ, length, vec_len, IsErrOf, OnErr, OnOk, IfOk, IfSome};
ghost use Rattle.vpf_source.specs.Causes.{Rose, Stood};
ghost use Rattle.vpf_source.specs.Loading.{LoadGives, load_answer, FillsFromFile, FillsFront, LoadsFront};

use crate::error::{Failed, LoadError};
use crate::tree::Tree;
use std::alloc::Global;

/// Reads the front of a file into the buffer, and says how many bytes there are: those of the buffer, or of a shorter file.
fn fill<T: Tree>(tree: &mut T, name: &str, buf: &mut [u8]) -> Result<usize, Failed>
    ensures within { IfOk result (λ n. n ≤ length buf.new) }
    ensures bytes { FillsFromFile (T.files tree.old) name.now result buf.new }
    ensures front { FillsFront (T.reads tree.old) name.now result buf.new }
    ensures files { T.files tree.new ≡ T.files tree.old }
    ensures later { T.faults tree.old ≤ T.faults tree.new }
    ensures failed { OnErr result (Rose (T.faults tree.old) (T.faults tree.new)) }
    ensures stood { OnOk result (Stood (T.faults tree.old) (T.faults tree.new)) }
{
    let mut done = 0;
    while done < buf.len() {
        let count = tree.read_at(name, done as u64, &mut buf[done..])?;
        if count == 0 {
            break;
        }
        done += count;
    }
    Ok(done)
}

/// The whole file, in whatever pieces it is read, and `None` exactly where it is absent.
///
/// `budget` is in bytes: `TooLarge` comes exactly where the file is longer, with its size, and before any memory is
/// taken. Else the memory for the whole file is taken at once, and the file is read straight into it.
/// `Failed` comes exactly where the tree's count of faults rises in this call, and `NoMemory` only where the file is no
/// longer than the budget. A tree that does not tell its files may give no byte before the size that it told; there the
/// file ends. No file changes.
pub fn load<T: Tree>(
    alloc: Global,
    tree: &mut T,
    name: &str,
    budget: u64,
) -> Result<Option<Vec<u8>>, LoadError>
    ensures whole { IfSome (T.files tree.old) (λ files. LoadGives (λ v. v.items) result (load_answer (files name.now) budget)) }
    ensures room { IsErrOf result LoadError.NoMemory → IfSome (T.files tree.old) (λ files. IfSome (files name.now) (λ bytes. length bytes ≤ budget)) }
    ensures files { T.files tree.new ≡ T.files tree.old }
    ensures later { T.faults tree.old ≤ T.faults tree.new }

    // Where reads end before the size that was told, so does what is loaded.
    ensures read { IfOk result (λ loaded. IfSome loaded (λ bytes. LoadsFront (T.reads tree.old) name.now bytes.items)) }

    // These two hold over every tree.
    ensures within { IfOk result (λ loaded. IfSome loaded (λ bytes. vec_len bytes ≤ budget)) }
    ensures too_large { (size : ℕ) → IsErrOf result (LoadError.TooLarge size) → budget < size }

    ensures failed { IsErrOf result LoadError.Failed → Rose (T.faults tree.old) (T.faults tree.new) }
    ensures stood { ¬ IsErrOf result LoadError.Failed → Stood (T.faults tree.old) (T.faults tree.new) }
{
    let Some(size) = tree.size(name)? else {
        return Ok(None);
    };
    if size > budget {
        return Err(LoadError::TooLarge { size });
    }
    let mut bytes = vec![in alloc; 0; size as usize]?;
    let count = fill(tree, name, &mut bytes)?;
    bytes.truncate(count);
    Ok(Some(bytes))
}
