//! Headers of given parts.

use super::parts::{named, naming, of_kind};
use super::{ID, file, padded, refused, refused_parts, wide, written};
use std::alloc::Global;
use std::process::Abort;
use std::test::Fail;
use vpf_head::{Column, Header, Key};
use vpf_triplet::{Code, Count, Kind, Order, PlaceError};

/// Ends the trial unless a header is made of these parts, and written as this text.
fn check_made<'a>(
    rt: &impl Abort,
    alloc: Global,
    table: (&'a [u8], Option<&'a [u8]>),
    columns: &[Column<'a>],
    canonical: &[u8],
) -> Result<(), Fail> {
    let columns = columns.to_vec(alloc)?;
    let header = Header::new(alloc, Order::Little, table.0, table.1, columns)?;
    let out = written(rt, alloc, &header)?;
    let bytes = file(rt, alloc, canonical)?;
    assert!(rt; out.as_slice() == bytes.as_slice());
    Ok(())
}

const OTHER: Column<'static> = Column {
    key: Key::Other(b'Z'),
    description: b"-",
    values: Some(b"v"),
    theme: Some(b"--"),
    narrative: Some(b" "),
    ..ID
};

const PAIRS: Column<'static> = Column {
    name: b"\xff \"",
    kind: Kind::C,
    count: Count::Star,
    key: Key::Unique,
    ..ID
};

#[test]
fn makes_headers(rt: HostRuntime) -> Result<(), Fail> {
    let alloc = rt.alloc();
    let text = b"L;T;-;id=I,1,P,i,-,-,-,:;";
    check_made(&rt, alloc, (b"T", None), &[ID], text)?;
    let text = b"L;; - ;id=I,1,Z,-,v,--, ,:\xff \"=C,*,U,i,-,-,-,:;";
    check_made(&rt, alloc, (b"", Some(b" - ")), &[OTHER, PAIRS], text)?;
    let nothing = of_kind(Kind::X, Count::Fixed(1));
    let (key, description) = (Key::Many, b"a=b".as_slice());
    let first = Column {
        key,
        description,
        ..nothing
    };
    let triples = of_kind(Kind::Y, Count::Fixed(67_108_864));
    let (name, description) = (b"i".as_slice(), b"".as_slice());
    let columns = [
        first,
        Column {
            name,
            description,
            ..triples
        },
    ];
    let text = b"L;a,b:c=d;n;id=X,1,N,a=b,-,-,-,:i=Y,67108864,P,,-,-,-,:;";
    check_made(&rt, alloc, (b"a,b:c=d", Some(b"n")), &columns, text)?;
    let columns = [naming([Some(b"a=b"), None, None])];
    let text = b"L;-;-;id=I,1,P,i,a=b,-,-,:;";
    check_made(&rt, alloc, (b"-", None), &columns, text)
}

#[test]
fn limits_parts(rt: HostRuntime) -> Result<(), Fail> {
    let long = padded(rt.alloc(), b"", b'n', 256, b"")?;
    let long = long.as_slice();
    for (narrative, column, at) in [
        (Some(long), ID, 8),
        (None, named(long), 10),
        (None, naming([Some(long), None, None]), 21),
        (None, naming([None, Some(long), None]), 23),
        (None, naming([None, None, Some(long)]), 25),
    ] {
        let columns = [column].to_vec(rt.alloc())?;
        let told = refused_parts(rt.alloc(), Order::Little, b"T", narrative, columns);
        assert!(rt; told == refused(at, Code::LimitName(256)));
    }
    Ok(())
}

#[test]
fn limits_the_text_of_parts(rt: HostRuntime) -> Result<(), Fail> {
    let texts: [(usize, Option<PlaceError>); 2] = [
        (65_512, None),
        (65_513, refused(0, Code::LimitHeader(65_537))),
    ];
    for (n, expected) in texts {
        let description = padded(rt.alloc(), b"", b'd', n, b"")?;
        let columns = [ID].to_vec(rt.alloc())?;
        let told = refused_parts(rt.alloc(), Order::Little, &description, None, columns);
        assert!(rt; told == expected);
    }
    Ok(())
}

#[test]
fn limits_columns_of_parts(rt: HostRuntime) -> Result<(), Fail> {
    let text = wide(rt.alloc(), 257)?;
    let cases: [(usize, Option<PlaceError>); 2] = [
        (256, None),
        (257, refused(4 + 6 + 256 * 18, Code::LimitColumns(257))),
    ];
    for (n, expected) in cases {
        let mut columns = Vec::new(rt.alloc());
        for c in 0..n {
            let start = 6 + 15 * c;
            assert!(rt; start + 2 <= text.len());
            columns.push(named(&text[start..start + 2]))?;
        }
        let told = refused_parts(rt.alloc(), Order::Big, b"T", None, columns);
        assert!(rt; told == expected);
    }
    Ok(())
}
