//! Numbers of rows, each once, as they rise.

ghost use Rattle.std.specs.Prelude.{◌≡◌, ◌<◌, ◌+◌, ℕ, false, length, slice_index_or, IfOk};
ghost use Rattle.std.specs.List.{All};
ghost use Rattle.vpf_prims.specs.Numbering.{IsRowOf};
ghost use Rattle.vpf_joins.specs.Joining.{once_rising};
ghost use Rattle.vpf_joins.specs.Features.{AreMarked};

use std::alloc::{AllocError, Global};

/// Whether each number from 1 to `n` stands in a list of them.
fn marks_of(alloc: Global, n: u32, rows: &[u32]) -> Result<Vec<bool>, AllocError>
    requires { All (IsRowOf n) rows.now }
    ensures { IfOk result (λ marks. AreMarked n rows.now marks.items) }
{
    let mut marks = vec![in alloc; false; n as usize]?;
    for row in rows {
        marks[*row as usize - 1] = true;
    }
    Ok(marks)
}

/// The numbers from 1 to `n` that stand in a list of them, each once, rising. Takes a byte for each number up to `n`, and as long
/// as it takes to pass these and the list once.
pub(crate) fn once_rising(alloc: Global, n: u32, rows: &[u32]) -> Result<Vec<u32>, AllocError>
    requires { All (IsRowOf n) rows.now }
    ensures numbers { IfOk result (λ numbers. numbers.items ≡ once_rising n rows.now) }
    ensures rows { IfOk result (λ numbers. All (IsRowOf n) numbers.items) }
{
    let marks = marks_of(alloc, n, rows)?;
    let mut numbers = Vec::new(alloc);
    for k in 0..n {
        if marks[k as usize] {
            numbers.push(k + 1)?;
        }
    }
    Ok(numbers)
}
