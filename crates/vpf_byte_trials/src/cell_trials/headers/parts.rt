//! Parts of which no header is made.

use super::{ID, refused, refused_parts};
use std::alloc::{AllocError, Global};
use std::process::Abort;
use std::test::Fail;
use vpf_head::{Column, Key};
use vpf_triplet::{Code, Count, Kind, Order};

/// A description, and no narrative.
const PLAIN: (&[u8], Option<&[u8]>) = (b"T", None);

/// Ends the trial unless a table of this description and narrative, with these columns, is refused at an offset in the file of its canonical text.
fn check(
    rt: &impl Abort,
    alloc: Global,
    table: (&[u8], Option<&[u8]>),
    columns: &[Column<'_>],
    want: (usize, Code),
) -> Result<(), AllocError> {
    for order in [Order::Little, Order::Big] {
        let columns = columns.to_vec(alloc)?;
        let told = refused_parts(alloc, order, table.0, table.1, columns);
        assert!(rt; told == refused(want.0, want.1));
    }
    Ok(())
}

pub fn named(name: &[u8]) -> Column<'_> {
    Column { name, ..ID }
}

fn keyed(letter: u8) -> Column<'static> {
    let key = Key::Other(letter);
    Column { key, ..ID }
}

pub fn of_kind(kind: Kind, count: Count) -> Column<'static> {
    Column { kind, count, ..ID }
}

fn described(description: &[u8]) -> Column<'_> {
    Column { description, ..ID }
}

/// A column with a table of values, a thematic index and a narrative.
pub fn naming<'a>(names: [Option<&'a [u8]>; 3]) -> Column<'a> {
    let [values, theme, narrative] = names;
    Column {
        values,
        theme,
        narrative,
        ..ID
    }
}

#[test]
fn refuses_tables(rt: HostRuntime) -> Result<(), Fail> {
    let tables: [(&[u8], Option<&[u8]>, usize, Code); 6] = [
        (b"T;x", None, 10, Code::ItemSeparator),
        (b"T", Some(b"n;"), 10, Code::NoData),
        (b"T\n", None, 6, Code::ItemByte),
        (b"T", Some(b"\x7f"), 8, Code::ItemByte),
        // Their text is read as other parts.
        (b"T", Some(b"-"), 8, Code::ItemSeparator),
        (b"T", Some(b""), 8, Code::ItemSeparator),
    ];
    for (description, narrative, at, code) in tables {
        check(&rt, rt.alloc(), (description, narrative), &[ID], (at, code))?;
    }
    check(&rt, rt.alloc(), PLAIN, &[], (10, Code::NoData))?;
    // Refused behind a part that is read as another.
    let dash: (&[u8], Option<&[u8]>) = (b"T", Some(b"-"));
    check(&rt, rt.alloc(), dash, &[named(b"")], (10, Code::NameEmpty))?;
    Ok(())
}

/// Ends the trial unless a table with this column alone is refused.
fn check_column(
    rt: &impl Abort,
    alloc: Global,
    column: Column<'_>,
    at: usize,
    code: Code,
) -> Result<(), AllocError> {
    check(rt, alloc, PLAIN, &[column], (at, code))
}

#[test]
fn refuses_names(rt: HostRuntime) -> Result<(), Fail> {
    let names: [(&[u8], usize, Code); 4] = [
        (b"", 10, Code::NameEmpty),
        (b"a=b", 12, Code::Kind),
        (b"a,b", 10, Code::ItemSeparator),
        (b";", 10, Code::NoData),
    ];
    for (name, at, code) in names {
        check_column(&rt, rt.alloc(), named(name), at, code)?;
    }
    for (name, code) in [
        (b"ID".as_slice(), Code::NameRepeat),
        (b"\t", Code::ItemByte),
    ] {
        check(&rt, rt.alloc(), PLAIN, &[ID, named(name)], (28, code))?;
    }
    Ok(())
}

#[test]
fn refuses_kinds_and_keys(rt: HostRuntime) -> Result<(), Fail> {
    for (kind, count, at, code) in [
        (Kind::X, Count::Fixed(1), 28, Code::NoData),
        (Kind::T, Count::Fixed(0), 15, Code::Count),
        (Kind::T, Count::Fixed(67_108_865), 15, Code::Count),
        (Kind::I, Count::Star, 15, Code::Count),
    ] {
        check_column(&rt, rt.alloc(), of_kind(kind, count), at, code)?;
    }
    for (letter, code) in [
        (b'f', Code::Key),
        (b',', Code::Key),
        (0xc8, Code::Key),
        (b':', Code::ItemSeparator),
        // A letter that has a key of its own.
        (b'P', Code::ItemSeparator),
    ] {
        check_column(&rt, rt.alloc(), keyed(letter), 17, code)?;
    }
    Ok(())
}

#[test]
fn refuses_descriptions_and_names_of_files(rt: HostRuntime) -> Result<(), Fail> {
    let code = Code::ItemSeparator;
    let descriptions: [(&[u8], usize); 3] = [
        (b"i,j", 27),
        (b"i:", 19),
        (b"i,v,t,n,:b=I,1,N,j", 19),
    ];
    for (description, at) in descriptions {
        check_column(&rt, rt.alloc(), described(description), at, code)?;
    }
    let names: [([Option<&[u8]>; 3], usize); 6] = [
        ([None, None, Some(b"n;")], 25),
        // Their text is read as other parts.
        ([Some(b""), Some(b"-"), None], 21),
        ([None, Some(b"-"), None], 23),
        ([None, None, Some(b"")], 25),
        ([None, None, Some(b"n:b=I,1,N,j,-,-")], 25),
        ([Some(b"-"), None, None], 21),
    ];
    for (names, at) in names {
        check_column(&rt, rt.alloc(), naming(names), at, code)?;
    }
    Ok(())
}

/// Two parts that are read as others: the first of them is told.
#[test]
fn refuses_the_first_of_two(rt: HostRuntime) -> Result<(), Fail> {
    let key = Column {
        key: Key::Other(b'U'),
        values: Some(b"-"),
        ..ID
    };
    check_column(&rt, rt.alloc(), key, 17, Code::ItemSeparator)?;
    let second = Column {
        name: b"jd",
        values: Some(b"-"),
        ..ID
    };
    let want = (39, Code::ItemSeparator);
    check(&rt, rt.alloc(), PLAIN, &[ID, second], want)?;
    Ok(())
}
