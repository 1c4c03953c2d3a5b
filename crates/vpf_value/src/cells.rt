//! Cells of tables, borrowed from the file.

ghost use Rattle.std.specs.Prelude.{◌≡◌, ℕ, ◌+◌, ◌≤◌, ◌<◌, List, IfOk, IfErr, IsOkAnd, MatchResult, length, drop, take, slice_range};
ghost use Rattle.std.specs.Int.{w16, w32, w64, cast_signed};
ghost use Rattle.vpf_base.specs.Numbers.{number_of};
ghost use Rattle.vpf_triplet.specs.Places.{fault};
ghost use Rattle.vpf_value.specs.Values.{Value, TextOf, Word4Of, Word8Of, NumberOf, DateOf, date_bytes, view};
ghost use Rattle.vpf_value.specs.Inner.Coordinates.{tuple_in, kind_tuple};
ghost use Rattle.vpf_value.specs.Inner.Deciding.{BeginsCell};
ghost use Rattle.vpf_value.specs.Faults.{FirstCellFault};
ghost use Rattle.vpf_value.specs.Spelling.{IsCell};
ghost use Rattle.vpf_value.specs.Reading.{ReadsCell, sized, text_from, tuples_from, counted_from, many_from, triplet_from, cell_from};

use crate::coords::{Coords, Tuple, WordWidth, tuples_bytes};
use crate::widths::{DATE_BYTES, LONG_BYTES, SHORT_BYTES, WORD4_BYTES, WORD8_BYTES};
use vpf_triplet::{Code, Count, Kind, Order, Place, Triplet};

/// A cell of a table: one value of a row, whose bytes stay in the file.
#[derive(Clone, Copy, Debug)]
pub enum Cell<'a> {
    /// The bytes of a text: kinds T, L, M and N.
    Text(&'a [u8]),
    /// A float of 4 bytes as its word: kind F.
    Word4(u32),
    /// A float of 8 bytes as its word: kind R.
    Word8(u64),
    /// A signed number of 2 bytes: kind S.
    Short(i16),
    /// A signed number of 4 bytes: kind I.
    Long(i32),
    /// The 20 bytes of a date: kind D.
    Date(&'a [u8]),
    /// Nothing: kind X.
    Null,
    /// A triplet id: kind K.
    Triplet(Triplet),
    /// A list of coordinates: kinds C, B, Z and Y.
    Coords(Coords<'a>),
}

pub(crate) const COUNT_BYTES: usize = 4;

/// The bytes from `at` on, of which a cell takes the first `len`; cut where fewer are left.
#[inline]
fn rest_at(bytes: &[u8], at: usize, len: usize) -> Result<&[u8], Place>
    requires { at ≤ length bytes.now }
    ensures { MatchResult result (λ rest. (rest.now ≡ drop at bytes.now) × (len ≤ length rest.now)) (λ place. (length (drop at bytes.now) < len)
        × (place ≡ fault at Code.CellCut)) }
{
    let rest = &bytes[at..];
    if rest.len() < len {
        return Err(Place::in_table(at, Code::CellCut));
    }
    Ok(rest)
}

#[tactic(auto, unfolding(crate::specs::Reading::sized))]
#[inline]
fn fixed_text_at(len: usize, bytes: &[u8], at: usize) -> Result<(Cell<'_>, usize), Place>
    requires { at ≤ length bytes.now }
    ensures exact { ReadsCell at result (text_from len (drop at bytes.now)) }
    ensures inside { IfOk result (λ r. r.1 ≤ length bytes.now) }
    ensures tupled { IfOk result (λ r. tuple_in r.0 ≡ None) }
{
    let rest = rest_at(bytes, at, len)?;
    Ok((Cell::Text(&rest[..len]), at + len))
}

#[tactic(auto, unfolding(crate::specs::Reading::sized))]
#[inline]
fn word4_at(order: Order, bytes: &[u8], at: usize) -> Result<(Cell<'_>, usize), Place>
    requires { at ≤ length bytes.now }
    ensures exact { ReadsCell at result (sized 4 (Word4Of (number_of order w32 (drop at bytes.now))) (drop at bytes.now)) }
    ensures inside { IfOk result (λ r. r.1 ≤ length bytes.now) }
    ensures tupled { IfOk result (λ r. tuple_in r.0 ≡ None) }
{
    let rest = rest_at(bytes, at, WORD4_BYTES)?;
    Ok((Cell::Word4(order.u32_from(rest)), at + WORD4_BYTES))
}

#[tactic(auto, unfolding(crate::specs::Reading::sized))]
#[inline]
fn word8_at(order: Order, bytes: &[u8], at: usize) -> Result<(Cell<'_>, usize), Place>
    requires { at ≤ length bytes.now }
    ensures exact { ReadsCell at result (sized 8 (Word8Of (number_of order w64 (drop at bytes.now))) (drop at bytes.now)) }
    ensures inside { IfOk result (λ r. r.1 ≤ length bytes.now) }
    ensures tupled { IfOk result (λ r. tuple_in r.0 ≡ None) }
{
    let rest = rest_at(bytes, at, WORD8_BYTES)?;
    Ok((Cell::Word8(order.u64_from(rest)), at + WORD8_BYTES))
}

#[tactic(auto, unfolding(crate::specs::Reading::sized))]
#[inline]
fn short_at(order: Order, bytes: &[u8], at: usize) -> Result<(Cell<'_>, usize), Place>
    requires { at ≤ length bytes.now }
    ensures exact { ReadsCell at result (sized 2 (NumberOf (cast_signed w16 (number_of order w16 (drop at bytes.now)))) (drop at bytes.now)) }
    ensures inside { IfOk result (λ r. r.1 ≤ length bytes.now) }
    ensures tupled { IfOk result (λ r. tuple_in r.0 ≡ None) }
{
    let rest = rest_at(bytes, at, SHORT_BYTES)?;
    Ok((
        Cell::Short(order.u16_from(rest).cast_signed()),
        at + SHORT_BYTES,
    ))
}

#[tactic(auto, unfolding(crate::specs::Reading::sized))]
#[inline]
fn long_at(order: Order, bytes: &[u8], at: usize) -> Result<(Cell<'_>, usize), Place>
    requires { at ≤ length bytes.now }
    ensures exact { ReadsCell at result (sized 4 (NumberOf (cast_signed w32 (number_of order w32 (drop at bytes.now)))) (drop at bytes.now)) }
    ensures inside { IfOk result (λ r. r.1 ≤ length bytes.now) }
    ensures tupled { IfOk result (λ r. tuple_in r.0 ≡ None) }
{
    let rest = rest_at(bytes, at, LONG_BYTES)?;
    Ok((
        Cell::Long(order.u32_from(rest).cast_signed()),
        at + LONG_BYTES,
    ))
}

#[tactic(auto, unfolding(crate::specs::Reading::sized))]
#[inline]
fn date_at(bytes: &[u8], at: usize) -> Result<(Cell<'_>, usize), Place>
    requires { at ≤ length bytes.now }
    ensures exact { ReadsCell at result (sized date_bytes (DateOf (take date_bytes (drop at bytes.now))) (drop at bytes.now)) }
    ensures inside { IfOk result (λ r. r.1 ≤ length bytes.now) }
    ensures tupled { IfOk result (λ r. tuple_in r.0 ≡ None) }
{
    let rest = rest_at(bytes, at, DATE_BYTES)?;
    Ok((Cell::Date(&rest[..DATE_BYTES]), at + DATE_BYTES))
}

#[tactic(auto, unfolding(crate::specs::Reading::triplet_from))]
#[inline]
fn id_at(order: Order, bytes: &[u8], at: usize) -> Result<(Cell<'_>, usize), Place>
    requires { at ≤ length bytes.now }
    ensures exact { ReadsCell at result (triplet_from order (drop at bytes.now)) }
    ensures inside { IfOk result (λ r. r.1 ≤ length bytes.now) }
    ensures tupled { IfOk result (λ r. tuple_in r.0 ≡ None) }
{
    let (id, past) = Triplet::read(order, bytes, at)?;
    Ok((Cell::Triplet(id), past))
}

#[tactic(auto, unfolding(crate::specs::Reading::sized))]
#[inline]
fn tuples_at(
    order: Order,
    width: WordWidth,
    tuple: Tuple,
    count: u32,
    bytes: &[u8],
    at: usize,
) -> Result<(Cell<'_>, usize), Place>
    requires { at ≤ length bytes.now }
    ensures exact { ReadsCell at result (tuples_from order width tuple count (drop at bytes.now)) }
    ensures inside { IfOk result (λ r. r.1 ≤ length bytes.now) }
    ensures tupled { IfOk result (λ r. tuple_in r.0 ≡ Some tuple) }
{
    let len = tuples_bytes(width, tuple, count);
    let rest = rest_at(bytes, at, len)?;
    let coords = Coords::new(order, width, tuple, &rest[..len]);
    Ok((Cell::Coords(coords), at + len))
}

/// What was read behind a cell's count; a fault of it stands where the cell begins, at `at`.
#[inline]
fn faulting_at(
    at: usize,
    read: Result<(Cell<'_>, usize), Place>,
) -> Result<(Cell<'_>, usize), Place>
    ensures { MatchResult read.entry (λ r. result ≡ Ok r) (λ place. result ≡ Err (fault at place.code)) }
{
    read.map_err(|place| Place::in_table(at, place.code))
}

#[tactic(auto, unfolding(crate::specs::Reading::counted_from))]
#[inline]
fn counted_text_at(order: Order, bytes: &[u8], at: usize) -> Result<(Cell<'_>, usize), Place>
    requires { at ≤ length bytes.now }
    ensures exact { ReadsCell at result (counted_from order text_from (drop at bytes.now)) }
    ensures inside { IfOk result (λ r. r.1 ≤ length bytes.now) }
    ensures tupled { IfOk result (λ r. tuple_in r.0 ≡ None) }
{
    let rest = rest_at(bytes, at, COUNT_BYTES)?;
    let len = order.u32_from(rest) as usize;
    faulting_at(at, fixed_text_at(len, bytes, at + COUNT_BYTES))
}

#[tactic(auto, unfolding(crate::specs::Reading::counted_from))]
#[inline]
fn counted_tuples_at(
    order: Order,
    width: WordWidth,
    tuple: Tuple,
    bytes: &[u8],
    at: usize,
) -> Result<(Cell<'_>, usize), Place>
    requires { at ≤ length bytes.now }
    ensures exact { ReadsCell at result (counted_from order (tuples_from order width tuple) (drop at bytes.now)) }
    ensures inside { IfOk result (λ r. r.1 ≤ length bytes.now) }
    ensures tupled { IfOk result (λ r. tuple_in r.0 ≡ Some tuple) }
{
    let rest = rest_at(bytes, at, COUNT_BYTES)?;
    let count = order.u32_from(rest);
    faulting_at(
        at,
        tuples_at(order, width, tuple, count, bytes, at + COUNT_BYTES),
    )
}

#[inline]
fn text_at(order: Order, count: Count, bytes: &[u8], at: usize) -> Result<(Cell<'_>, usize), Place>
    requires { at ≤ length bytes.now }
    ensures exact { ReadsCell at result (many_from order text_from count (drop at bytes.now)) }
    ensures inside { IfOk result (λ r. r.1 ≤ length bytes.now) }
    ensures tupled { IfOk result (λ r. tuple_in r.0 ≡ None) }
{
    match count {
        Count::Fixed(len) => fixed_text_at(len as usize, bytes, at),
        Count::Star => counted_text_at(order, bytes, at),
    }
}

#[inline]
fn coords_at(
    order: Order,
    width: WordWidth,
    tuple: Tuple,
    count: Count,
    bytes: &[u8],
    at: usize,
) -> Result<(Cell<'_>, usize), Place>
    requires { at ≤ length bytes.now }
    ensures exact { ReadsCell at result (many_from order (tuples_from order width tuple) count (drop at bytes.now)) }
    ensures inside { IfOk result (λ r. r.1 ≤ length bytes.now) }
    ensures tupled { IfOk result (λ r. tuple_in r.0 ≡ Some tuple) }
{
    match count {
        Count::Fixed(n) => tuples_at(order, width, tuple, n, bytes, at),
        Count::Star => counted_tuples_at(order, width, tuple, bytes, at),
    }
}

#[inline]
fn read_at(
    order: Order,
    kind: Kind,
    count: Count,
    bytes: &[u8],
    at: usize,
) -> Result<(Cell<'_>, usize), Place>
    requires { at ≤ length bytes.now }
    ensures exact { ReadsCell at result (cell_from order kind count (drop at bytes.now)) }
    ensures inside { IfOk result (λ r. r.1 ≤ length bytes.now) }
    ensures tupled { IfOk result (λ r. tuple_in r.0 ≡ kind_tuple kind) }
{
    match kind {
        Kind::T | Kind::L | Kind::M | Kind::N => text_at(order, count, bytes, at),
        Kind::F => word4_at(order, bytes, at),
        Kind::R => word8_at(order, bytes, at),
        Kind::S => short_at(order, bytes, at),
        Kind::I => long_at(order, bytes, at),
        Kind::D => date_at(bytes, at),
        Kind::X => Ok((Cell::Null, at)),
        Kind::K => id_at(order, bytes, at),
        Kind::C => coords_at(order, WordWidth::Four, Tuple::Pair, count, bytes, at),
        Kind::B => coords_at(order, WordWidth::Eight, Tuple::Pair, count, bytes, at),
        Kind::Z => coords_at(order, WordWidth::Four, Tuple::Triple, count, bytes, at),
        Kind::Y => coords_at(order, WordWidth::Eight, Tuple::Triple, count, bytes, at),
    }
}

/// The cell of this kind and count that begins `at` bytes from the start, borrowed, and the offset past it. Refused
/// exactly where no spelling of one begins there, at that offset: `cell-cut` where the bytes end inside the cell, and
/// for a triplet id the codes of `Triplet::read`. A kind that has one value is read as one whatever the count.
#[inline]
pub fn cell_at(
    order: Order,
    kind: Kind,
    count: Count,
    bytes: &[u8],
    at: usize,
) -> Result<(Cell<'_>, usize), Place>
    requires { at ≤ length bytes.now }
    // What is read is spelled so, up to the offset.
    ensures found { IfOk result (λ r. (at ≤ r.1) × IsCell order kind count (view r.0) (slice_range bytes.now at r.1)) }
    // What is spelled so is read, whatever follows.
    ensures only { (v : Value) (text rest : List ℕ) → BeginsCell order kind count (drop at bytes.now) v text rest
        → IsOkAnd result (λ r. (view r.0 ≡ v) × (r.1 ≡ at + length text)) }
    // The value and its end, or the code of the first fault.
    ensures exact { ReadsCell at result (cell_from order kind count (drop at bytes.now)) }
    // What is refused has this first fault.
    ensures refused { IfErr result (λ p. FirstCellFault order kind count (drop at bytes.now) p.code) }
    ensures inside { IfOk result (λ r. r.1 ≤ length bytes.now) }
    // Coordinates keep the tuples of their kind.
    ensures tupled { IfOk result (λ r. tuple_in r.0 ≡ kind_tuple kind) }
{
    read_at(order, kind, count, bytes, at)
}
