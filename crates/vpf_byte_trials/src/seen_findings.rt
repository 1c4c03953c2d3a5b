//! Lines of findings as they are printed, and first places with ample memory.

use crate::same::same;
use std::alloc::Global;
use std::test::Fail;
use vpf_darts::TileDart;
use vpf_findings::{
    ColumnAt, Finding, FirstPlaces, OwnFinding, Seen, SeenWord, TableName, put_line,
};
use vpf_triplet::{Count, Kind, Order};
use vpf_value::cell_at;

const ONE: Count = Count::Fixed(1);

const DART: TileDart = TileDart {
    tile: 0,
    edge: 2,
    minus: false,
};

/// A cell of row 3 of `edg`, in little-endian order, that is found in place of another thing, and the line.
const LINES: [(Kind, Count, &[u8], Seen<'static>, &str); 10] = [
    (
        Kind::Z,
        ONE,
        b"\x01\0\0\0\x02\0\0\0\x03\0\0\0",
        Seen::Word(SeenWord::Absent),
        "disagree 3 t/edg row 3 a\\22: [00000001 00000002 00000003], none\n",
    ),
    (
        Kind::Z,
        Count::Fixed(2),
        b"\x01\0\0\0\x02\0\0\0\x03\0\0\0\x04\0\0\0\x05\0\0\0\x0a\xff\0\x40",
        Seen::Word(SeenWord::Number),
        "disagree 3 t/edg row 3 a\\22: [00000001 00000002 00000003; 00000004 00000005 4000ff0a], number\n",
    ),
    (
        Kind::Y,
        ONE,
        b"\x01\0\0\0\0\0\0\0\x02\0\0\0\0\0\0\0\x03\0\0\0\0\0\0\xc0",
        Seen::Number(-7),
        "disagree 3 t/edg row 3 a\\22: [0000000000000001 0000000000000002 c000000000000003], -7\n",
    ),
    (
        Kind::C,
        Count::Fixed(2),
        b"\x01\0\0\0\x02\0\0\0\x03\0\0\0\x04\0\0\0",
        Seen::Word(SeenWord::Path),
        "disagree 3 t/edg row 3 a\\22: [00000001 00000002; 00000003 00000004], path\n",
    ),
    (
        Kind::K,
        ONE,
        b"\x40\x07",
        Seen::Range(1, 4),
        "disagree 3 t/edg row 3 a\\22: (7,-,-), 1 to 4\n",
    ),
    (
        Kind::I,
        ONE,
        b"\xff\xff\xff\xff",
        Seen::Dart(TileDart { tile: 1, ..DART }),
        "disagree 3 t/edg row 3 a\\22: -1, 1:2+\n",
    ),
    (
        Kind::S,
        ONE,
        b"\x09\0",
        Seen::Dart(DART),
        "disagree 3 t/edg row 3 a\\22: 9, 2+\n",
    ),
    (
        Kind::X,
        ONE,
        b"",
        Seen::Dart(TileDart {
            tile: 3,
            edge: 2,
            minus: true,
        }),
        "disagree 3 t/edg row 3 a\\22: -, 3:2-\n",
    ),
    (
        Kind::T,
        Count::Fixed(2),
        b"b\\",
        Seen::Kind(Kind::I, ONE),
        "disagree 3 t/edg row 3 a\\22: \"b\\5c\", I,1\n",
    ),
    (
        Kind::F,
        ONE,
        b"\0\0\xf0\x40",
        Seen::Kind(Kind::T, Count::Star),
        "disagree 3 t/edg row 3 a\\22: w40f00000, T,*\n",
    ),
];

/// The finding of a cell of `LINES`.
fn finding_of<'a>(
    kind: Kind,
    count: Count,
    bytes: &'a [u8],
    wanted: Seen<'a>,
) -> Result<Finding<'a>, Fail> {
    match cell_at(Order::Little, kind, count, bytes, 0) {
        Ok((cell, _)) => Ok(Finding {
            rule: 3,
            tile: 1,
            table: TableName::Edg,
            file: 2,
            row: 3,
            column: ColumnAt::new(b"a\""),
            found: Seen::Cell(kind, cell),
            wanted,
        }),
        Err(_) => Err("no cell")?,
    }
}

fn line_of(alloc: Global, finding: &Finding<'_>) -> Result<String, Fail> {
    let mut text = String::new(alloc);
    put_line(&mut text, "t/edg", finding)?;
    Ok(text)
}

/// Whether the finding is kept with its place, and prints this line then.
fn is_kept(alloc: Global, finding: &Finding<'_>, line: &str) -> Result<bool, Fail> {
    let own = OwnFinding::of(alloc, finding)?;
    let same = own.line(alloc, "t/edg")?.as_slice() == line.as_bytes();
    Ok(same && own.tile == 1 && own.file == 2 && own.table == TableName::Edg)
}

#[test]
fn prints_lines(rt: HostRuntime) -> Result<(), Fail> {
    let alloc = rt.alloc();
    for (kind, count, bytes, wanted, line) in LINES {
        let finding = finding_of(kind, count, bytes, wanted)?;
        let text = line_of(alloc, &finding)?;
        same(&rt, text.as_str(), line, line);
        assert!(rt; is_kept(alloc, &finding, line)?);
    }
    Ok(())
}

#[test]
fn keeps_first_places(rt: HostRuntime) -> Result<(), Fail> {
    let mut places = FirstPlaces::new(rt.alloc());
    for (key, before) in [
        (7u32, None),
        (9, None),
        (7, Some(0)),
        (9, Some(1)),
        (4, None),
    ] {
        let first = places.put(key)?;
        same(&rt, first, before, key);
    }
    same(&rt, places.first(&4), Some(4), 4);
    same(&rt, places.first(&5), None, 5);
    Ok(())
}
