//! Tables with more rows than a table may have.

ghost use Rattle.std.specs.Prelude.{◌≡◌, ◌≢◌, ◌<◌, Err, length};
ghost use Rattle.vpf_base.specs.Limits.{most_rows};
ghost use Rattle.vpf_table.specs.Grid.{Grid};
ghost use Rattle.vpf_write.specs.Writing.{Writes, limit_by};
ghost use Rattle.vpf_write.specs.declared.writing.WriteError.TheVariants.{NoMemory};

use vpf_base::limits::LONGEST_TEXT;
use vpf_head::Header;
use vpf_table::{Bound, Limit};
use vpf_triplet::Part;
use vpf_write::WriteError;

/// The limit that a table of this header passes with so many rows, more than a table may have: what writing them would answer, without the
/// rows. A header text that is too long is told before them.
#[tactic(auto, unfolding(vpf_write::specs::Writing::limit_by))]
pub fn overfull(header: &Header<'_>, rows: u64) -> WriteError
    requires { most_rows < rows }
    ensures limit { (g : Grid) → g.head ≡ header.now → length g.rows ≡ rows → Writes g (Err result) }
    ensures told { result ≢ NoMemory }
{
    let text = header.text_len();
    let limit = if text > u64::from(LONGEST_TEXT) {
        Limit {
            what: Bound::Header,
            found: text,
        }
    } else {
        Limit {
            what: Bound::Rows,
            found: rows,
        }
    };
    WriteError::Limit(Part::Table, limit)
}
