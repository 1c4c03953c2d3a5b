ghost use Rattle.std.specs.Prelude.{◌≡◌, ◌<◌};

use crate::same::same;
use std::alloc::Global;
use std::marker::Brand;
use std::sync::ledger::{Blank, Ledger};
use std::test::Fail;
use vpf_feed::accepts;
use vpf_source::Steps;
use vpf_table::{Bound, ColumnAt, Limit, TableFile, TableView};
use vpf_theme::Form;
use vpf_theme_build::build;
use vpf_triplet::{Code, Place, PlaceError};
use vpf_value::Cell;

/// Two columns of one width and three rows.
const FIXED: &[u8] =
    b"\x2a\0\0\0L;T;-;id=I,1,P,i,-,-,-,:c=T,2,N,d,-,-,-,:;\x01\0\0\0ab\x02\0\0\0cd\xff\xff\xff\xffef";

/// A text of any length, and three rows.
const VARYING: &[u8] = b"\x18\0\0\0L;T;-;a=T,*,N,d,-,-,-,:;\x03\0\0\0abc\0\0\0\0\x01\0\0\0z";

/// A text of any length, and a row, with the most significant byte first.
const BIG: &[u8] = b"\0\0\0\x18M;T;-;a=T,*,N,d,-,-,-,:;\0\0\0\x03abc";

/// The index of `FIXED`.
const FIXED_INDEX: &[u8] =
    b"\x03\0\0\0\x2a\0\0\0\x2e\0\0\0\x06\0\0\0\x34\0\0\0\x06\0\0\0\x3a\0\0\0\x06\0\0\0";

/// The index of `VARYING`.
const VARYING_INDEX: &[u8] =
    b"\x03\0\0\0\x18\0\0\0\x1c\0\0\0\x07\0\0\0\x23\0\0\0\x04\0\0\0\x27\0\0\0\x05\0\0\0";

/// `FIXED_INDEX` with another length in its last entry.
const OTHER_WIDTH: &[u8] =
    b"\x03\0\0\0\x2a\0\0\0\x2e\0\0\0\x06\0\0\0\x34\0\0\0\x06\0\0\0\x3a\0\0\0\x05\0\0\0";

/// The rows of a table, or where it or its index is refused first.
fn rows_in(alloc: Global, bytes: &[u8], index: Option<&[u8]>) -> Result<u32, Place> {
    match TableView::open(alloc, bytes, index) {
        Ok(table) => Ok(table.len()),
        Err(PlaceError::Place(place)) => Err(place),
        Err(PlaceError::NoMemory) => Ok(u32::MAX),
    }
}

/// The rows of a table whose header may be another's, or where it is refused first.
fn rows_like<'a>(alloc: Global, own: &TableView<'a>, bytes: &'a [u8]) -> Result<u32, Place> {
    match own.read_like(alloc, bytes) {
        Ok(file) => Ok(file.without_index().len()),
        Err(PlaceError::Place(place)) => Err(place),
        Err(PlaceError::NoMemory) => Ok(u32::MAX),
    }
}

/// Where an index is refused first as that of a table, which is right.
fn index_in(alloc: Global, bytes: &[u8], index: &[u8]) -> Result<(), Place> {
    match TableFile::read(alloc, bytes) {
        Ok(file) => file.check_index(index),
        Err(_) => Ok(()),
    }
}

/// The index of a table whose rows have one width, which no command reads.
#[test]
fn opens_with_an_index(rt: HostRuntime) -> Result<(), Fail> {
    let alloc = rt.alloc();
    for (index, want) in [
        (FIXED_INDEX, Ok(3)),
        (OTHER_WIDTH, Err(Place::in_index(24, Code::IndexRow))),
    ] {
        let found = rows_in(alloc, FIXED, Some(index));
        same(&rt, found, want, index);
        let found = index_in(alloc, FIXED, index);
        same(&rt, found, want.map(|_| ()), index);
    }
    Ok(())
}

#[test]
fn reads_like_another_table(rt: HostRuntime) -> Result<(), Fail> {
    let alloc = rt.alloc();
    let cut = Err(Place::in_table(4, Code::HeaderCut));
    for (own, bytes, want) in [
        (FIXED, FIXED, Ok(3)),
        (FIXED, &FIXED[..52], Ok(1)),
        (FIXED, &FIXED[..55], Err(Place::in_table(52, Code::CellCut))),
        (FIXED, &FIXED[..45], cut),
        (FIXED, VARYING, Ok(3)),
        (VARYING, BIG, Ok(1)),
    ] {
        let own = TableView::open(alloc, own, None)?;
        same(&rt, rows_like(alloc, &own, bytes), want, bytes);
    }
    Ok(())
}

fn text_in(cell: Cell<'_>) -> &[u8] {
    match cell {
        Cell::Text(text) => text,
        _ => b"no text",
    }
}

/// Whether row `k` has this number and this text.
fn row_is<L: Ledger>(blank: Blank, table: &TableView<'_>, k: u32, want: &[u8]) -> bool
    requires name { blank.name ≡ L.name }
    requires parts { blank.parts ≡ L.parts }
    requires some { 0 < L.parts }
{
    if k < 1 || k > table.len() || table.header().len() < 1 {
        return false;
    }
    let mut steps = Steps::<L>::new(blank);
    let row = table.row(k, &mut steps);
    let last = table.header().len() - 1;
    let mut walk = row.walk();
    let [first, again] = [walk.cell(last), walk.cell(last)];
    text_in(row.cell(last)) == want && text_in(first) == want && text_in(again) == want
}

fn has_row(table: &TableView<'_>, k: u32, want: &[u8]) -> bool {
    row_is::<Brand>(Blank::new(1), table, k, want)
}

#[test]
fn finds_rows_and_cells(rt: HostRuntime) -> Result<(), Fail> {
    let alloc = rt.alloc();
    let [fixed, varying] = [[b"ab".as_slice(), b"cd", b"ef"], [b"abc", b"", b"z"]];
    for (bytes, index, direct, texts) in [
        (FIXED, None, true, fixed),
        (FIXED, Some(FIXED_INDEX), true, fixed),
        (VARYING, None, false, varying),
        (VARYING, Some(VARYING_INDEX), true, varying),
    ] {
        let table = TableView::open(alloc, bytes, index)?;
        assert!(rt; !table.is_empty());
        same(&rt, table.finds_rows_directly(), direct, bytes);
        for (i, want) in texts.iter().enumerate() {
            let k = i as u32 + 1;
            assert!(rt; has_row(&table, k, want), "row {k}");
        }
    }
    Ok(())
}

#[test]
fn passes_empty_pieces(rt: HostRuntime) -> Result<(), Fail> {
    let none = Vec::new(rt.alloc());
    let pieces = [none, FIXED.to_vec(rt.alloc())?, Vec::new(rt.alloc())];
    same(&rt, accepts(rt.alloc(), &pieces)?.rows, 3, "rows");
    Ok(())
}

#[test]
fn tells_limits(rt: HostRuntime) {
    for (code, want) in [
        (Code::LimitHeader(65_537), Some((Bound::Header, 65_537))),
        (Code::LimitColumns(257), Some((Bound::Columns, 257))),
        (Code::LimitName(256), Some((Bound::Name, 256))),
        (Code::LimitRows(16_777_216), Some((Bound::Rows, 16_777_216))),
        (Code::CellCut, None),
    ] {
        let limit = Limit::of_code(code).map(|limit| (limit.what, limit.found));
        same(&rt, limit, want, code);
    }
    let column = ColumnAt::new(b"id");
    same(&rt, column.as_slice(), b"id".as_slice(), "name");
}

/// Row numbers have 2 bytes up to 32,767 rows, and then 4.
#[test]
fn sizes_row_numbers(rt: HostRuntime) -> Result<(), Fail> {
    let alloc = rt.alloc();
    for (rows, letter, bytes) in [(32_767, b'S', 2), (32_768, b'I', 4)] {
        let mut file = b"\x18\0\0\0L;T;-;c=T,1,N,d,-,-,-,:;".to_vec(alloc)?;
        file.resize(28 + rows, b'a')?;
        let table = TableView::open(alloc, &file, None)?;
        assert!(rt; table.header().len() > 0);
        let index = build(alloc, &table, b"t", 0, Form::List)?;
        same(&rt, index.get(18), Some(&letter), rows);
        same(&rt, index.len(), 69 + rows * bytes, rows);
    }
    Ok(())
}
