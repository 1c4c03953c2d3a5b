//! Where a row begins, by its number.

use crate::table_file::TableFile;
use crate::walking::sure_end;
use vpf_findings::value::laws::fixed_cells;
use vpf_varindex::IndexView;

impl<'a> TableFile<'a> {
    ghost use Rattle.std.specs.Prelude.{◌≡◌, ◌<◌, IfSome, Some, length};
    ghost use Rattle.vpf_table.specs.Inner.FileTables.{RowStandsAt};
    ghost use Rattle.vpf_table.specs.Opening.{row_spans};
    ghost use Rattle.vpf_table.specs.Inner.Widths.{width_of};

    /// Where row `k`, counted from 0, begins among rows of one width.
    fn fixed_place(&self, width: usize, k: u32) -> usize
        requires fixed { width_of self.now.grid.head.columns ≡ Some width }
        requires within { k < length self.now.grid.rows }
        ensures { RowStandsAt self.now k result }
    {
        fixed_cells();
        let _end = self.bytes.len();
        self.start + k as usize * width
    }

    /// Where row `k`, counted from 0, begins, by the index of the rows.
    fn indexed_place(&self, index: &IndexView<'_>, k: u32) -> usize
        requires own { index.now ≡ row_spans self.now.bytes self.now.grid }
        requires within { k < length self.now.grid.rows }
        ensures { RowStandsAt self.now k result }
    {
        let _start = self.start;
        // A number of entries fits its type.
        let _entries = index.len();
        let (offset, _) = index.entry(k + 1);
        offset as usize
    }

    /// Where row `k`, counted from 0, begins, by a walk from the first.
    fn walked_place(&self, k: u32) -> usize
        requires { k < length self.now.grid.rows }
        ensures { RowStandsAt self.now k result }
    {
        let mut at = self.start;
        for _i in 0..k {
            at = sure_end(self.header.as_ref(), self.bytes, at);
        }
        at
    }

    /// Where row `k`, counted from 0, begins: in constant time where the rows have one width or an index, and by a walk from
    /// the first where they have neither.
    pub(crate) fn place_of_row(&self, index: &Option<IndexView<'_>>, k: u32) -> usize
        requires own { IfSome index.now (λ entries. entries ≡ row_spans self.now.bytes self.now.grid) }
        requires within { k < length self.now.grid.rows }
        ensures { RowStandsAt self.now k result }
    {
        if let Some(width) = self.width {
            return self.fixed_place(width, k);
        }
        if let Some(index) = index {
            return self.indexed_place(index, k);
        }
        self.walked_place(k)
    }
}
