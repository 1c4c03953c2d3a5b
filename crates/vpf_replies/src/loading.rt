//! The files that a command reads, or the replies in their place.

ghost use Rattle.std.specs.Prelude.{◌≡◌, ◌↔◌, IsErrOf, ℕ, List, Ok, Option, Result, Some, length};
ghost use Rattle.std.specs.Option.{option_map};
ghost use Rattle.vpf_base.specs.Limits.{most_bytes};
ghost use Rattle.vpf_source.specs.Files.{Files};
ghost use Rattle.vpf_source.specs.Loading.{LoadGives, load_answer};
ghost use Rattle.vpf_replies.specs.Halting.{TellsFault};
ghost use Rattle.vpf_replies.specs.Inner.Loading.{IsOptional, IsRequired, IsRequiredSize};

use crate::halting::{Halt, Stop};
use crate::refusing::{Refusal, refuse};
use crate::texts::limit;
use std::alloc::Global;
use vpf_base::limits::MOST_FILE_BYTES;
use vpf_source::{LoadError, Tree, load};
use vpf_table::Bound;

/// What a load found, or the reply to a file that is too large.
fn found_in(
    alloc: Global,
    name: &str,
    loaded: Result<Option<Vec<u8>>, LoadError>,
) -> Result<Option<Vec<u8>>, Halt>
    ensures finds { (answer : Result (Option (List ℕ)) ℕ) → LoadGives (λ v. v.items) loaded answer → IsOptional (λ v. v.items) name.now answer result }
    ensures fault { IsErrOf result (Halt.Stop Stop.TreeFault) ↔ IsErrOf loaded LoadError.Failed }
{
    match loaded {
        Ok(found) => Ok(found),
        Err(LoadError::TooLarge { size }) => {
            Err(Halt::Answered(limit(alloc, Bound::File, name, size)?))
        }
        Err(LoadError::Failed) => Err(Halt::Stop(Stop::TreeFault)),
        Err(LoadError::NoMemory) => Err(Halt::Stop(Stop::NoMemory)),
    }
}

/// The bytes of the file of this name, or nothing where it is absent. A file that is too large halts the command with the reply to
/// it, and a fault of the tree and want of memory stop the run.
pub fn optional_file<T: Tree>(
    alloc: Global,
    tree: &mut T,
    name: &str,
) -> Result<Option<Vec<u8>>, Halt>
    ensures told { (files : Files) → T.files tree.old ≡ Some files → IsOptional (λ v. v.items) name.now (load_answer (files name.now) most_bytes) result }
    ensures fault { TellsFault result (Halt.Stop Stop.TreeFault) (T.faults tree.old) (T.faults tree.new) }
    ensures files { T.files tree.new ≡ T.files tree.old }
{
    let loaded = load(alloc, tree, name, MOST_FILE_BYTES);
    found_in(alloc, name, loaded)
}

/// The bytes that were found, or the refusal of a file that is absent.
fn required_in(alloc: Global, name: &str, found: Option<Vec<u8>>) -> Result<Vec<u8>, Halt>
    ensures finds { (answer : Result (Option (List ℕ)) ℕ) → answer ≡ Ok (option_map (λ v. v.items) found) → IsRequired (λ v. v.items) name.now answer result }
    ensures no_fault { ¬ IsErrOf result (Halt.Stop Stop.TreeFault) }
{
    match found {
        Some(bytes) => Ok(bytes),
        None => Err(Halt::Answered(refuse(alloc, Refusal::Missing(name))?)),
    }
}

/// The bytes of the file of this name. A file that is absent or too large halts the command with the reply to it, and a fault of the
/// tree and want of memory stop the run.
pub fn required_file<T: Tree>(alloc: Global, tree: &mut T, name: &str) -> Result<Vec<u8>, Halt>
    ensures told { (files : Files) → T.files tree.old ≡ Some files → IsRequired (λ v. v.items) name.now (load_answer (files name.now) most_bytes) result }
    ensures fault { TellsFault result (Halt.Stop Stop.TreeFault) (T.faults tree.old) (T.faults tree.new) }
    ensures files { T.files tree.new ≡ T.files tree.old }
{
    let found = optional_file(alloc, tree, name)?;
    required_in(alloc, name, found)
}

/// The size that was told, or the reply where the file is absent or too large.
fn size_allowed(alloc: Global, name: &str, told: Option<u64>) -> Result<u64, Halt>
    ensures finds { (file : Option (List ℕ)) → told ≡ option_map length file → IsRequiredSize name.now file result }
    ensures no_fault { ¬ IsErrOf result (Halt.Stop Stop.TreeFault) }
{
    let Some(size) = told else {
        return Err(Halt::Answered(refuse(alloc, Refusal::Missing(name))?));
    };
    if size > MOST_FILE_BYTES {
        return Err(Halt::Answered(limit(alloc, Bound::File, name, size)?));
    }
    Ok(size)
}

/// How many bytes the file of this name has, of which none is read. A file that is absent or too large halts the command with the reply
/// to it, and a fault of the tree and want of memory stop the run.
pub fn required_size<T: Tree>(alloc: Global, tree: &mut T, name: &str) -> Result<u64, Halt>
    ensures told { (files : Files) → T.files tree.old ≡ Some files → IsRequiredSize name.now (files name.now) result }
    ensures fault { TellsFault result (Halt.Stop Stop.TreeFault) (T.faults tree.old) (T.faults tree.new) }
    ensures files { T.files tree.new ≡ T.files tree.old }
{
    match tree.size(name) {
        Ok(told) => size_allowed(alloc, name, told),
        Err(_failed) => Err(Halt::Stop(Stop::TreeFault)),
    }
}
