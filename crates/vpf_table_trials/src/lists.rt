//! Tables that are written from lists of cells, which no command does.

ghost use Rattle.std.specs.Prelude.{◌≡◌, ◌++◌, IfOk, OnOk};
ghost use Rattle.vpf_write.specs.Inner.Cuts.{joined};

use crate::same::same;
use std::alloc::{AllocError, Global};
use std::test::Fail;
use vpf_table::{Cells, TableView};
use vpf_write::laws::joined_rows_are_cut;
use vpf_write::{CellList, WriteError, Written, write};

/// A table, what is written of its cells, and its index: a number, and triplet ids of which the first is spelled wide.
const TABLES: [(&[u8], &[u8], Option<&[u8]>); 2] = [
    (
        b"\0\0\0\x22M;Table;-;id=I,1,P,Row Id,-,-,-,:;\0\0\0\x07",
        b"\0\0\0\x22M;Table;-;id=I,1,P,Row Id,-,-,-,:;\0\0\0\x07",
        None,
    ),
    (
        b"\x29\0\0\0L;T;-;a=K,1,N,d,-,-,-,:b=S,1,N,d,-,-,-,:;\xc0\x07\0\0\0\x01\0\0\xff\xff",
        b"\x29\0\0\0L;T;-;a=K,1,N,d,-,-,-,:b=S,1,N,d,-,-,-,:;\x40\x07\x01\0\0\xff\xff",
        Some(b"\x02\0\0\0\x29\0\0\0\x2d\0\0\0\x04\0\0\0\x31\0\0\0\x03\0\0\0"),
    ),
];

fn push_cells<'a>(list: &mut CellList<'a>, cells: Cells<'_, 'a>) -> Result<(), AllocError>
    ensures { OnOk result (list.new ≡ list.old ++ cells.entry) }
{
    for cell in cells {
        list.push(cell)?;
    }
    Ok(())
}

/// The cells of a table's rows.
fn cells_of<'a>(alloc: Global, table: &TableView<'a>) -> Result<CellList<'a>, AllocError>
    ensures { IfOk result (λ cells. cells ≡ joined table.now.rows) }
{
    let mut cells = CellList::new(alloc);
    for row in table.rows() {
        push_cells(&mut cells, row.cells())?;
    }
    Ok(cells)
}

/// What is written of a list of the table's cells.
fn listed(alloc: Global, table: &TableView<'_>) -> Result<Written, WriteError> {
    joined_rows_are_cut();
    let cells = cells_of(alloc, table)?;
    let _fit = table.rows();
    let _sound = table.header().len();
    write(alloc, table.header(), &cells)
}

#[test]
fn writes_lists_of_cells(rt: HostRuntime) -> Result<(), Fail> {
    let alloc = rt.alloc();
    for (bytes, table, index) in TABLES {
        let view = TableView::open(alloc, bytes, None)?;
        let written = listed(alloc, &view)?;
        same(&rt, written.table.as_slice(), table, bytes);
        let found = written.index.as_ref().map(|index| index.as_slice());
        same(&rt, found, index, bytes);
    }
    Ok(())
}
