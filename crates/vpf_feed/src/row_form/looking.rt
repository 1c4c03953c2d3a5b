//! What the bytes of a cell so far tell.

ghost use Rattle.std.specs.Prelude.{◌≡◌, ◌<◌, ◌≤◌, ◌^◌, Err, IfSome, length};
ghost use Rattle.vpf_base.specs.Bytes.{IsBytes};
ghost use Rattle.vpf_triplet.specs.declared.places.Code.TheVariants as codes;
ghost use Rattle.vpf_feed.specs.Inner.RowForm.Form.{cell_size, IsCutEmpty};
ghost use Rattle.vpf_feed.specs.Inner.RowForm.Told.{value_size, told_many, told};
ghost use Rattle.vpf_feed.specs.Inner.RowForm.Walk.{TellsCell};

use crate::row_form::form::Field;
use crate::staying::laws::cells_and_headers;
use vpf_triplet::{Code, Count, Kind, Order};
use vpf_value::cell_at;

/// What the bytes of a cell so far tell of it, whatever follows.
#[derive(Clone, Copy)]
pub enum Look {
    /// It is whole, and takes so many of them.
    Whole(usize),
    /// It takes so many bytes, more than these, whatever they say.
    Skip(u64),
    /// They are too few to tell.
    Keep,
    /// It is refused.
    Refused(Code),
}

/// How many bytes one value takes, where a count says how many there are.
fn value_bytes(kind: Kind) -> u64
    ensures value { result ≡ value_size kind }
    ensures most { result ≤ 24 }
{
    match kind {
        Kind::C => 8,
        Kind::B => 16,
        Kind::Z => 12,
        Kind::Y => 24,
        _ => 1,
    }
}

fn many_told(order: Order, size: u64, count: Count, bytes: &[u8]) -> Option<u64>
    requires { size ≤ 24 }
    ensures value { result ≡ told_many order size count bytes.now }
    ensures small { IfSome result (λ n. n < 2 ^ 40) }
{
    match count {
        Count::Fixed(n) => Some(size * u64::from(n)),
        Count::Star => {
            if bytes.len() < 4 {
                return None;
            }
            Some(4 + size * u64::from(order.u32_from(bytes)))
        }
    }
}

/// How many bytes the cell takes, where its kind, its count and the bytes so far tell.
pub fn told(order: Order, field: Field, bytes: &[u8]) -> Option<u64>
    ensures value { result ≡ told order field.kind field.count bytes.now }
    ensures small { IfSome result (λ n. n < 2 ^ 40) }
{
    match field.kind {
        Kind::F | Kind::I => Some(4),
        Kind::R => Some(8),
        Kind::S => Some(2),
        Kind::D => Some(20),
        Kind::X => Some(0),
        Kind::K => None,
        kind => many_told(order, value_bytes(kind), field.count, bytes),
    }
}

/// What bytes tell that are no cell.
fn look_again(order: Order, field: Field, bytes: &[u8], code: Code) -> Look
    requires { cell_size order field bytes.now ≡ Err code }
    ensures { TellsCell order field bytes.now result }
{
    cells_and_headers();
    bytes_are_bytes(bytes);
    match code {
        Code::CellCut => match told(order, field, bytes) {
            Some(len) => Look::Skip(len),
            None => Look::Keep,
        },
        _ => Look::Refused(code),
    }
}

/// What a slice of bytes holds are bytes.
pub fn bytes_are_bytes(bytes: &[u8])
    ensures { IsBytes bytes.now }
{}

/// What these first bytes of a cell tell of it.
pub fn look_at(order: Order, field: Field, bytes: &[u8]) -> Look
    requires { IsCutEmpty field }
    ensures { TellsCell order field bytes.now result }
{
    cells_and_headers();
    bytes_are_bytes(bytes);
    match cell_at(order, field.kind, field.count, bytes, 0) {
        Ok((_, past)) => Look::Whole(past),
        Err(place) => look_again(order, field, bytes, place.code),
    }
}
