//! What is asked for where features are selected.

ghost use Rattle.std.specs.Prelude.{◌≡◌, IfOk, map, string_bytes};
ghost use Rattle.vpf_source.specs.Names.Naming.{coverage_name, file_name};
ghost use Rattle.vpf_feature_commands.specs.Select.{select_request, select_request_of};

use std::alloc::{AllocError, Global};
use vpf_source::names::{coverage_name, file_name};
use vpf_source::{Bytes, Name};

/// Features of a coverage that are asked for: those of a class that have a value in a column.
#[derive(Debug, Drop)]
pub struct SelectRequest {
    /// The folder of the library.
    pub lib: Name,
    /// The coverage in that folder.
    pub cov: Name,
    /// The word for the feature class.
    pub class: Bytes,
    /// The word for the column of its feature table.
    pub column: Bytes,
    /// The word for the value in that column.
    pub value: Bytes,
}

/// The bytes of a word.
fn bytes_of(alloc: Global, word: &str) -> Result<Bytes, AllocError>
    ensures { IfOk result (λ bytes. bytes ≡ word.now) }
{
    Ok(Bytes::new(word.as_bytes().to_vec(alloc)?))
}

/// The request of five words.
fn read_words(
    alloc: Global,
    lib: &str,
    cov: &str,
    class: &str,
    column: &str,
    value: &str,
) -> Result<Option<SelectRequest>, AllocError>
    ensures { IfOk result (λ request. request ≡ select_request_of (file_name lib.now) (coverage_name cov.now) class.now column.now value.now) }
{
    let Some(lib) = file_name(alloc, lib)? else {
        return Ok(None);
    };
    let Some(cov) = coverage_name(alloc, cov)? else {
        return Ok(None);
    };
    Ok(Some(SelectRequest {
        lib,
        cov,
        class: bytes_of(alloc, class)?,
        column: bytes_of(alloc, column)?,
        value: bytes_of(alloc, value)?,
    }))
}

impl SelectRequest {
    /// The request that the words after the verb spell, or nothing where they spell none: where they aren't five, or the first or the second names nothing.
    /// Fails only for want of memory.
    pub fn read(alloc: Global, words: &[String]) -> Result<Option<Self>, AllocError>
        ensures { IfOk result (λ request. request ≡ select_request (map string_bytes words.now)) }
    {
        match words {
            [lib, cov, class, column, value] => read_words(alloc, lib, cov, class, column, value),
            _ => Ok(None),
        }
    }
}
