//! Words and names as they are printed, and numbers by bytes that are written out by hand.

use crate::same::same;
use std::alloc::{AllocError, Global};
use std::test::Fail;
use vpf_findings::text::{put_printed, put_quoted};
use vpf_triplet::{Code, Count, Kind, Order, Place, PlaceError};

fn printed<T: std::fmt::Display + Drop>(alloc: Global, value: T) -> Result<String, AllocError> {
    format!(in alloc; "{value}")
}

#[test]
fn prints_words(rt: HostRuntime) -> Result<(), Fail> {
    let alloc = rt.alloc();
    let place = Place::in_table(29, Code::CellCut);
    let [refused, full] = [PlaceError::from(place), AllocError.into()];
    for (text, want) in [
        (printed(alloc, Order::Little)?, "L"),
        (printed(alloc, Order::Big)?, "M"),
        (printed(alloc, Kind::Y)?, "Y"),
        (printed(alloc, Count::Fixed(67_108_864))?, "67108864"),
        (printed(alloc, Count::Star)?, "*"),
        (printed(alloc, Code::LimitHeader(65_537))?, "limit-header"),
        (printed(alloc, Code::ThemeRowtype)?, "theme-rowtype"),
        (printed(alloc, place)?, "cell-cut at 29"),
        (printed(alloc, refused)?, "refused: cell-cut at 29"),
        (printed(alloc, full)?, "out of memory"),
    ] {
        same(&rt, text.as_str(), want, want);
    }
    Ok(())
}

#[test]
fn reads_numbers_and_counts(rt: HostRuntime) {
    let bytes = [1, 2, 3, 4, 5, 6, 7, 8, 9];
    let (little, big) = (Order::Little, Order::Big);
    same(&rt, little.u16_from(&bytes), 0x0201, little);
    same(&rt, big.u16_from(&bytes), 0x0102, big);
    same(&rt, little.u32_from(&bytes), 0x0403_0201, little);
    same(&rt, big.u32_from(&bytes), 0x0102_0304, big);
    same(&rt, little.u64_from(&bytes), 0x0807_0605_0403_0201, little);
    same(&rt, big.u64_from(&bytes), 0x0102_0304_0506_0708, big);
    for (kind, count, want) in [
        (Kind::N, Count::Star, true),
        (Kind::B, Count::Fixed(3), true),
        (Kind::I, Count::Fixed(1), true),
        (Kind::I, Count::Fixed(2), false),
        (Kind::X, Count::Star, false),
    ] {
        same(&rt, kind.allows(count), want, (kind, count));
    }
}

#[test]
fn prints_names(rt: HostRuntime) -> Result<(), Fail> {
    let mut text = String::from_str(rt.alloc(), "x")?;
    put_printed(&mut text, b" ~\x7f\"\\\x1f\0")?;
    put_quoted(&mut text, b"it's")?;
    assert_eq!(rt; text.as_str(), "x ~\\7f\\22\\5c\\1f\\00\"it's\"");
    Ok(())
}
