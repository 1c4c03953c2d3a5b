//! Headers that are made of parts, and what is found and written of headers.

mod finding;
mod making;
mod parts;
mod writing;

use std::alloc::{AllocError, Global};
use std::process::Abort;
use vpf_head::{Column, Header, Key};
use vpf_triplet::{Code, Count, Kind, Order, Place, PlaceError};

/// A file with this header text, in the order of its mark, or L.
fn file(rt: &impl Abort, alloc: Global, text: &[u8]) -> Result<Vec<u8>, AllocError> {
    assert!(rt; text.len() < 65_537);
    let order = if text.starts_with(b"M;") {
        Order::Big
    } else {
        Order::Little
    };
    let mut bytes = Vec::new(alloc);
    order.put_u32(text.len() as u32, &mut bytes)?;
    bytes.extend_from_slice(text)?;
    Ok(bytes)
}

fn refused(at: usize, code: Code) -> Option<PlaceError> {
    Some(PlaceError::Place(Place::in_table(at, code)))
}

/// The text with so many further bytes, and then this end.
fn padded(
    alloc: Global,
    start: &[u8],
    pad: u8,
    n: usize,
    end: &[u8],
) -> Result<Vec<u8>, AllocError> {
    let mut text = start.to_vec(alloc)?;
    for _ in 0..n {
        text.push(pad)?;
    }
    text.extend_from_slice(end)?;
    Ok(text)
}

/// A header text of so many columns, without its last `;`.
fn wide(alloc: Global, n: usize) -> Result<Vec<u8>, AllocError> {
    let mut text = b"L;T;-;".to_vec(alloc)?;
    for i in 0..n {
        text.push(b'a' + (i / 26 % 26) as u8)?;
        text.push(b'a' + (i % 26) as u8)?;
        text.extend_from_slice(b"=I,1,N,-,-,-:")?;
    }
    Ok(text)
}

/// What `write` appends to nothing.
fn written(rt: &impl Abort, alloc: Global, header: &Header<'_>) -> Result<Vec<u8>, AllocError> {
    assert!(rt; header.text_len() <= 65_536);
    let mut out = Vec::new(alloc);
    header.write(&mut out)?;
    Ok(out)
}

const ID: Column<'static> = Column {
    name: b"id",
    kind: Kind::I,
    count: Count::Fixed(1),
    key: Key::Primary,
    description: b"i",
    values: None,
    theme: None,
    narrative: None,
};

/// Where the parts are refused, and why; nothing where they make a header.
fn refused_parts(
    alloc: Global,
    order: Order,
    description: &[u8],
    narrative: Option<&[u8]>,
    columns: Vec<Column<'_>>,
) -> Option<PlaceError> {
    match Header::new(alloc, order, description, narrative, columns) {
        Ok(_) => None,
        Err(e) => Some(e),
    }
}
