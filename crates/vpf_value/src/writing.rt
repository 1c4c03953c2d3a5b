//! Cells in their canonical spelling.

ghost use Rattle.std.specs.Prelude.{◌≡◌, ◌<◌, ◌*◌, ◌/◌, ◌++◌, ℕ, [], OnOk, OnErr, length, take, vec_len};
ghost use Rattle.vpf_base.specs.declared.orders.Order.{Order};
ghost use Rattle.vpf_base.specs.Numbers.{number};
ghost use Rattle.vpf_value.specs.Words.{word_bytes, word_limit, tuple_len, spelled_words, number_width};
ghost use Rattle.vpf_value.specs.Values.{view};
ghost use Rattle.vpf_value.specs.Inner.Coordinates.{words, words_width};
ghost use Rattle.vpf_value.specs.Inner.Fitting.{HoldsMany, HoldsTuples, FitsCell};
ghost use Rattle.vpf_value.specs.Canonical.{with_count, spelled};

use crate::cells::{COUNT_BYTES, Cell};
use crate::coords::{Coords, Tuple, WordWidth};
use crate::widths::cell_width;
use std::alloc::AllocError;
use vpf_triplet::{Count, Kind, Order};

/// Appends how many values follow where the field has no count of its own.
#[inline]
fn put_count(order: Order, count: Count, values: usize, out: &mut Vec<u8>) -> Result<(), AllocError>
    requires { HoldsMany count values }
    ensures ok { OnOk result (out.new.items ≡ out.old.items ++ with_count order count values []) }
    ensures err { OnErr result (out.new.items ≡ out.old.items) }
{
    match count {
        Count::Fixed(_) => Ok(()),
        Count::Star => order.put_u32(values as u32, out),
    }
}

#[inline]
fn put_text(order: Order, count: Count, text: &[u8], out: &mut Vec<u8>) -> Result<(), AllocError>
    requires { HoldsMany count (length text.now) }
    ensures ok { OnOk result (out.new.items ≡ out.old.items ++ with_count order count (length text.now) text.now) }
    ensures err { OnErr result (out.new.items ≡ out.old.items) }
{
    let before = out.len();
    put_count(order, count, text.len(), out)?;
    if out.extend_from_slice(text).is_err() {
        out.truncate(before);
        return Err(AllocError);
    }
    Ok(())
}

#[inline]
fn put_word(order: Order, width: WordWidth, word: u64, out: &mut Vec<u8>) -> Result<(), AllocError>
    requires { word < word_limit width }
    ensures ok { OnOk result (out.new.items ≡ out.old.items ++ number order (number_width width) word) }
    ensures err { OnErr result (out.new.items ≡ out.old.items) }
{
    match width {
        WordWidth::Four => order.put_u32(word as u32, out),
        WordWidth::Eight => order.put_u64(word, out),
    }
}

/// Appends the words one by one, since the file that they lie in may have another order. After an error some of them
/// may stand behind what stood there.
fn put_words(order: Order, coords: &Coords<'_>, out: &mut Vec<u8>) -> Result<(), AllocError>
    ensures ok { OnOk result (out.new.items ≡ out.old.items ++ spelled_words order (words_width coords.now) (words coords.now)) }
    ensures kept { take (vec_len out.old) out.new.items ≡ out.old.items }
{
    let width = coords.word_width();
    for i in 0..coords.len() {
        put_word(order, width, coords.word(i), out)?;
    }
    Ok(())
}

fn put_coords(
    order: Order,
    tuple: Tuple,
    count: Count,
    coords: &Coords<'_>,
    out: &mut Vec<u8>,
) -> Result<(), AllocError>
    requires { HoldsTuples tuple count (length (words coords.now)) }
    ensures ok { OnOk result (out.new.items ≡ out.old.items
        ++ with_count order count (length (words coords.now) / tuple_len tuple) (spelled_words order (words_width coords.now) (words coords.now))) }
    ensures err { OnErr result (out.new.items ≡ out.old.items) }
{
    let before = out.len();
    put_count(order, count, coords.len() / tuple.len(), out)?;
    if put_words(order, coords, out).is_err() {
        out.truncate(before);
        return Err(AllocError);
    }
    Ok(())
}

/// Appends the canonical spelling of the cell's value in a field of this kind and count: the one that is shortest. The
/// words of coordinates are turned where the cell's file has the other order. After an error nothing is appended.
#[inline]
pub fn put_cell(
    order: Order,
    kind: Kind,
    count: Count,
    cell: &Cell<'_>,
    out: &mut Vec<u8>,
) -> Result<(), AllocError>
    // As `fits` tells.
    requires { FitsCell kind count (view cell.now) }
    ensures ok { OnOk result (out.new.items ≡ out.old.items ++ spelled order kind count (view cell.now)) }
    ensures err { OnErr result (out.new.items ≡ out.old.items) }
{
    match (kind, *cell) {
        (Kind::T | Kind::L | Kind::M | Kind::N, Cell::Text(text)) => {
            put_text(order, count, text, out)
        }
        (Kind::F, Cell::Word4(word)) => order.put_u32(word, out),
        (Kind::R, Cell::Word8(word)) => order.put_u64(word, out),
        (Kind::S, Cell::Short(n)) => order.put_u16(n.cast_unsigned(), out),
        (Kind::S, Cell::Long(n)) => order.put_u16((n as i16).cast_unsigned(), out),
        (Kind::I, Cell::Short(n)) => order.put_u32(i32::from(n).cast_unsigned(), out),
        (Kind::I, Cell::Long(n)) => order.put_u32(n.cast_unsigned(), out),
        (Kind::D, Cell::Date(text)) => out.extend_from_slice(text),
        (Kind::K, Cell::Triplet(id)) => id.put(order, out),
        (Kind::C | Kind::B, Cell::Coords(coords)) => {
            put_coords(order, Tuple::Pair, count, &coords, out)
        }
        (Kind::Z | Kind::Y, Cell::Coords(coords)) => {
            put_coords(order, Tuple::Triple, count, &coords, out)
        }
        // Kind X holds nothing, and no other cell fits.
        _ => Ok(()),
    }
}

/// How many bytes the canonical spelling has, in either order.
#[inline]
pub fn spelled_len(kind: Kind, count: Count, cell: &Cell<'_>) -> usize
    // As `fits` tells.
    requires { FitsCell kind count (view cell.now) }
    ensures { (order : Order) → length (spelled order kind count (view cell.now)) ≡ result }
{
    if let Some(width) = cell_width(kind, count) {
        return width;
    }
    match *cell {
        Cell::Text(text) => COUNT_BYTES + text.len(),
        Cell::Triplet(id) => id.width(),
        Cell::Coords(coords) => COUNT_BYTES + coords.words_bytes(),
        _ => 0,
    }
}
