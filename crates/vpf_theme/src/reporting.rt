//! Where a thematic index disagrees, told.

ghost use Rattle.std.specs.Prelude.{◌≡◌};
ghost use Rattle.vpf_findings.specs.Findings.{disagreement_of, sight_of};
ghost use Rattle.vpf_theme.specs.Findings.{at};

use vpf_table::{ColumnAt, Finding, Seen, TableName};

/// A finding at an entry of a thematic index, counted from 1, or at 0 for the index as a whole.
pub fn finding<'a>(row: u32, column: &'a [u8], found: Seen<'a>, wanted: Seen<'a>) -> Finding<'a>
    ensures { disagreement_of result ≡ at row column.now (sight_of found.entry) (sight_of wanted.entry) }
{
    Finding {
        rule: 1,
        tile: 0,
        table: TableName::Theme,
        file: 0,
        row,
        column: ColumnAt::new(column),
        found,
        wanted,
    }
}
