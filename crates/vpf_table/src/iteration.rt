//! The rows of a table, one after another.

use crate::laws::cells_and_headers;
use crate::placed_header::PlacedHeader;
use crate::row::RowView;
use crate::walking::next_row;
use std::marker::Model;
use vpf_base::limits::MOST_ROWS;
use vpf_findings::value::laws::spelled_fits;

/// The rows that are left. Contracts see it as the list of them.
#[derive(Drop)]
pub struct Rows<'t, 'a> {
    header: &'t PlacedHeader<'a>,
    bytes: &'a [u8],
    at: usize,
    width: Option<usize>,
    left: u32,
}

impl<'t, 'a> Model for Rows<'t, 'a> {
    ghost use Rattle.std.specs.Prelude.{List};
    ghost use Rattle.vpf_table.specs.Grid.{Row};

    ghost Value = { List Row };

    ghost use Rattle.vpf_table.specs.Inner.RowsLeft.{rows_left, AreRowsRead};

    ghost view = { rows_left };

    ghost invariant = { AreRowsRead };
}

impl<'t, 'a> Rows<'t, 'a> {
    ghost use Rattle.std.specs.Prelude.{◌≡◌, ◌≤◌, All, IsOk, IfSome, Some, length};
    ghost use Rattle.vpf_table.specs.Canonical.{FitsRow};
    ghost use Rattle.vpf_base.specs.Limits.{most_rows};
    ghost use Rattle.vpf_table.specs.Reading.{rows_at};
    ghost use Rattle.vpf_table.specs.Walking.{rows_of};
    ghost use Rattle.vpf_table.specs.Inner.Widths.{width_of};

    /// The rows from `at` on, which are known to be spelled.
    pub(crate) fn new(
        header: &'t PlacedHeader<'a>,
        bytes: &'a [u8],
        at: usize,
        width: Option<usize>,
    ) -> Rows<'t, 'a>
        requires read { IsOk (rows_at most_rows header.now.order header.now.columns bytes.now at) }
        requires inside { at ≤ length bytes.now }
        requires fixed { IfSome width (λ w. width_of header.now.columns ≡ Some w) }
        ensures rows { result ≡ rows_of (rows_at most_rows header.now.order header.now.columns bytes.now at) }
        ensures width { All (λ row. length row ≡ length header.now.columns) result }
        ensures fits { All (FitsRow header.now.columns) result }
    {
        cells_and_headers();
        spelled_fits();
        let _columns = header.len();
        Rows {
            header,
            bytes,
            at,
            width,
            left: MOST_ROWS,
        }
    }
}

impl<'t, 'a> Iterator for Rows<'t, 'a> {
    ghost use Rattle.std.specs.Iterator.{YieldsFirst, item_count};

    type Item = RowView<'t, 'a>;

    ghost next_gives = { YieldsFirst (λ s. s) };

    ghost remaining = { item_count (λ s. s) };

    fn next(&mut self) -> Option<RowView<'t, 'a>> {
        if self.at >= self.bytes.len() {
            return None;
        }
        let at = self.at;
        let past = next_row(self.header, self.bytes, at, self.width);
        let row = RowView::new(self.header, self.bytes, at);
        self.at = past;
        self.left -= 1;
        Some(row)
    }
}
