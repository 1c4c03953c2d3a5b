//! The names of variable-length indexes.

ghost use Rattle.std.specs.Prelude.{◌≡◌, IfOk};
ghost use Rattle.vpf_source.specs.Names.Indexes.{ends_in_x, index_name};

use crate::Name;
use std::alloc::{AllocError, Global};

/// Whether the last character of a name is `x`, as in the names of variable-length indexes.
pub fn ends_in_x(name: &str) -> bool
    ensures { result ≡ ends_in_x name.now }
{
    name.as_bytes().ends_with(b"x")
}

/// The name of a table's variable-length index: the table's, with `x` for the last character.
pub fn index_name(alloc: Global, name: &str) -> Result<Name, AllocError>
    ensures { IfOk result (λ index. index ≡ index_name name.now) }
{
    let mut text = String::from_str(alloc, name)?;
    text.pop();
    text.push('x')?;
    Ok(Name::new(text))
}
