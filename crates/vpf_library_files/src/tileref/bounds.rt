//! The bounds of the table of tiles.

ghost use Rattle.std.specs.Prelude.{map, string_bytes};
ghost use Rattle.vpf_library_files.specs.Tileref.Bounds.{Exceeds, lengths_bound, rows_bound};

use vpf_base::limits::{LONGEST_NAME, MOST_TILES};
use vpf_table::{Bound, Limit};

/// There are no more rows than tiles may be.
pub(crate) fn check_count(rows: u32) -> Result<(), Limit>
    ensures { Exceeds result (rows_bound rows) }
{
    if rows > MOST_TILES {
        return Err(Limit {
            what: Bound::Tiles,
            found: u64::from(rows),
        });
    }
    Ok(())
}

/// No path is longer than a name may be: the first that is passes the bound.
pub(crate) fn check_lengths(paths: &[String]) -> Result<(), Limit>
    ensures { Exceeds result (lengths_bound (map (λ path. string_bytes path) paths.now)) }
{
    for path in paths {
        let len = path.as_str().len();
        if len > LONGEST_NAME {
            return Err(Limit {
                what: Bound::Name,
                found: len as u64,
            });
        }
    }
    Ok(())
}
