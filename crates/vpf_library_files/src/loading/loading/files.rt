//! Files of a run, whose bytes are counted.

ghost use Rattle.std.specs.Prelude.{◌≡◌, ◌≤◌, ℕ, List, Option, option_map, IfOk, IfSome, IsErrOf, Some, vec_len};
ghost use Rattle.vpf_base.specs.Limits.{most_bytes};
ghost use Rattle.vpf_source.specs.Files.{Files};
ghost use Rattle.vpf_source.specs.Loading.{LoadGives, load_answer};
ghost use Rattle.vpf_library_files.specs.declared.loading.loading.LoadStop.TheVariants as stops;
ghost use Rattle.vpf_library_files.specs.Loading.Loading.{most_loaded, read_bytes, read_found, read_optional, read_required, required};
ghost use Rattle.vpf_library_files.specs.Loading.Loads.{ReadsAs};
ghost use Rattle.vpf_library_files.specs.Inner.Loading.Only.{OnlyLoads};

use crate::loading::loading::LoadStop;
use std::alloc::{AllocError, Global};
use vpf_base::limits::{MOST_FILE_BYTES, MOST_LOADED_BYTES};
use vpf_source::{LoadError, Name, Tree, load};
use vpf_table::{Bound, Limit};

/// A name that is owned.
pub fn owned(alloc: Global, name: &str) -> Result<Name, AllocError>
    ensures { IfOk result (λ own. own ≡ name.now) }
{
    Ok(Name::new(String::from_str(alloc, name)?))
}

/// A bound that the file of this name passes.
fn limit(alloc: Global, name: &str, what: Bound, found: u64) -> Result<LoadStop, AllocError>
    ensures { IfOk result (λ stop. stop ≡ stops.Limit name.now (record { what = what; found = found })) }
{
    Ok(LoadStop::Limit(owned(alloc, name)?, Limit { what, found }))
}

/// The bytes of a file, which are counted, unless the run has too many with them.
fn counted(
    alloc: Global,
    name: &str,
    bytes: Vec<u8>,
    loaded: &mut u64,
) -> Result<Option<Vec<u8>>, LoadStop>
    requires before { loaded.old ≤ most_loaded }
    requires within { vec_len bytes ≤ most_bytes }
    ensures finds { ReadsAs (λ found file. file ≡ option_map (λ v. v.items) found) result loaded.new (read_bytes name.now bytes.items loaded.old) }
    ensures rising { loaded.old ≤ loaded.new }
    ensures most { loaded.new ≤ most_loaded }
    ensures no_fault { ¬ IsErrOf result LoadStop.Fault }
{
    let sum = *loaded + bytes.len() as u64;
    if sum > MOST_LOADED_BYTES {
        return Err(limit(alloc, name, Bound::Loaded, sum)?);
    }
    *loaded = sum;
    Ok(Some(bytes))
}

/// What a load found, which is counted, or the bound that the file passes.
fn found_in(
    alloc: Global,
    name: &str,
    found: Result<Option<Vec<u8>>, LoadError>,
    loaded: &mut u64,
) -> Result<Option<Vec<u8>>, LoadStop>
    requires before { loaded.old ≤ most_loaded }
    requires within { IfOk found (λ file. IfSome file (λ bytes. vec_len bytes ≤ most_bytes)) }
    ensures finds { (file : Option (List ℕ)) → LoadGives (λ v. v.items) found (load_answer file most_bytes)
        → ReadsAs (λ found file. file ≡ option_map (λ v. v.items) found) result loaded.new (read_found name.now file loaded.old) }
    ensures rising { loaded.old ≤ loaded.new }
    ensures most { loaded.new ≤ most_loaded }
    ensures fault { IsErrOf result LoadStop.Fault → IsErrOf found LoadError.Failed }
    ensures only { IsErrOf found LoadError.Failed → IsErrOf result LoadStop.Fault }
{
    match found {
        Ok(None) => Ok(None),
        Ok(Some(bytes)) => counted(alloc, name, bytes, loaded),
        Err(LoadError::TooLarge { size }) => Err(limit(alloc, name, Bound::File, size)?),
        Err(LoadError::Failed) => Err(LoadStop::Fault),
        Err(LoadError::NoMemory) => Err(LoadStop::NoMemory),
    }
}

/// The bytes of the file of this name, which are counted, or nothing where it is absent.
///
/// The stops are `Limit`, `Fault` and `NoMemory`, as those of `load_coverage`.
pub fn optional_file<T: Tree>(
    alloc: Global,
    tree: &mut T,
    name: &str,
    loaded: &mut u64,
) -> Result<Option<Vec<u8>>, LoadStop>
    requires { loaded.old ≤ most_loaded }
    ensures told { (files : Files) → T.files tree.old ≡ Some files
        → ReadsAs (λ found file. file ≡ option_map (λ v. v.items) found) result loaded.new (read_optional files name.now loaded.old) }
    ensures only { OnlyLoads T.files T.faults tree.old tree.new loaded.old loaded.new (IsErrOf result LoadStop.Fault) }
{
    let found = load(alloc, tree, name, MOST_FILE_BYTES);
    found_in(alloc, name, found, loaded)
}

/// The bytes that were found, which have to be there.
fn required(alloc: Global, name: &str, found: Option<Vec<u8>>) -> Result<Vec<u8>, LoadStop>
    ensures finds { (loaded : ℕ) → ReadsAs (λ v file. file ≡ v.items) result loaded (required name.now (option_map (λ v. v.items) found) loaded) }
    ensures no_fault { ¬ IsErrOf result LoadStop.Fault }
{
    match found {
        Some(bytes) => Ok(bytes),
        None => Err(LoadStop::Missing(owned(alloc, name)?)),
    }
}

/// The bytes of the file of this name, which has to be there and is counted.
pub fn required_file<T: Tree>(
    alloc: Global,
    tree: &mut T,
    name: &str,
    loaded: &mut u64,
) -> Result<Vec<u8>, LoadStop>
    requires { loaded.old ≤ most_loaded }
    ensures told { (files : Files) → T.files tree.old ≡ Some files
        → ReadsAs (λ v file. file ≡ v.items) result loaded.new (read_required files name.now loaded.old) }
    ensures only { OnlyLoads T.files T.faults tree.old tree.new loaded.old loaded.new (IsErrOf result LoadStop.Fault) }
{
    let found = optional_file(alloc, tree, name, loaded)?;
    required(alloc, name, found)
}
