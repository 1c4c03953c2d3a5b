//! From the header of a table to its rows.

ghost use Rattle.std.specs.Prelude.{◌≡◌, ◌<◌, ◌≤◌, ◌+◌, ◌++◌, ℕ, List, IfOk, IfErr, OnErr, Ok, Err, length, drop};
ghost use Rattle.vpf_triplet.specs.Places.{fault};
ghost use Rattle.vpf_triplet.specs.declared.places.Code.TheVariants as codes;
ghost use Rattle.vpf_head.specs.Reading.{header_of};
ghost use Rattle.vpf_feed.specs.Inner.Staying.Staying.{order_bytes};
ghost use Rattle.vpf_base.specs.Limits.{most_rows};
ghost use Rattle.vpf_feed.specs.declared.row_form.form.RowForm.{RowForm};
ghost use Rattle.vpf_feed.specs.Inner.RowForm.Rows.{IsForm};
ghost use Rattle.vpf_feed.specs.Inner.RowForm.Walk.{rows_to_come};
ghost use Rattle.vpf_feed.specs.Inner.Walks.{walk_comes, bytes_most, IsWalk};
ghost use Rattle.vpf_feed.specs.Inner.Stages.{most_head, IsHeaded, IsFed, IsWaiting};

use crate::row_form::{RowForm, bytes_are_bytes};
use crate::staying::laws::{cells_and_headers, reading_stays};
use crate::walking::{Hand, Walk, walk_on};
use std::alloc::{AllocError, Global};
use vpf_head::Header;
use vpf_triplet::{Code, Place, PlaceError};

/// The most bytes of a length number and a header text.
const MOST_HEAD: usize = 65_540;

/// As many bytes tell the order of the numbers.
const ORDER_BYTES: usize = 6;

/// The form of rows, the number of columns, and how far the rows came.
#[derive(Drop)]
pub struct Rows {
    pub form: RowForm,
    pub columns: u32,
    pub walk: Walk,
}

/// What came of a header text.
#[derive(Drop)]
pub enum Headed {
    /// More of it has to come.
    Waits,
    /// It is read, and rows follow.
    Rows(Rows),
    /// The table is refused.
    Refused(Place),
}

/// The rows of a table begin here.
fn start_walk(start: usize) -> Walk
    ensures comes { (form : RowForm) (more : List ℕ) → walk_comes form result more ≡ rows_to_come most_rows form.order form.fields.items 0 start more }
    ensures sound { (form : RowForm) → IsForm form → IsWalk form result }
    ensures here { result.here ≡ start }
{
    let kept = [0; 13];
    Walk {
        done: 0,
        column: 0,
        at: start as u64,
        here: start as u64,
        hand: Hand::Between,
        kept,
    }
}

/// The bytes from an offset on.
fn rest_of(text: &[u8], start: usize) -> &[u8]
    requires { start ≤ length text.now }
    ensures { result.now ≡ drop start text.now }
{
    &text[start..]
}

/// A walk goes on over two pieces.
fn walk_both(form: &RowForm, walk: Walk, one: &[u8], two: &[u8]) -> Result<Walk, Place>
    requires form { IsForm form.now }
    requires sound { IsWalk form.now walk }
    requires small { walk.here + length one.now + length two.now < bytes_most }
    ensures comes { IfOk result (λ w. (more : List ℕ) → walk_comes form.now w more ≡ walk_comes form.now walk (one.now ++ (two.now ++ more))) }
    ensures sound { IfOk result (IsWalk form.now) }
    ensures here { IfOk result (λ w. w.here ≡ walk.here + length one.now + length two.now) }
    ensures refused { IfErr result (λ place. (more : List ℕ) → walk_comes form.now walk (one.now ++ (two.now ++ more)) ≡ Err place) }
{
    let between = walk_on(form, walk, one)?;
    walk_on(form, between, two)
}

/// The rows behind a header.
fn begun(
    alloc: Global,
    header: &Header<'_>,
    text: &[u8],
    start: usize,
    rest: &[u8],
) -> Result<Headed, AllocError>
    requires inside { start ≤ length text.now }
    requires read { header_of text.now ≡ Ok (header.now, start) }
    requires small { length text.now + length rest.now < bytes_most }
    ensures { IfOk result (IsHeaded text.now rest.now) }
{
    reading_stays();
    bytes_are_bytes(text);
    let form = RowForm::of(alloc, header)?;
    let columns = header.len() as u32;
    match walk_both(&form, start_walk(start), rest_of(text, start), rest) {
        Ok(walk) => Ok(Headed::Rows(Rows {
            form,
            columns,
            walk,
        })),
        Err(place) => Ok(Headed::Refused(place)),
    }
}

/// A header text that isn't read, of 6 bytes or more.
fn unread(text: &[u8], rest: &[u8], place: Place) -> Headed
    requires known { order_bytes ≤ length text.now }
    requires refused { header_of text.now ≡ Err place }
    requires full { length text.now < most_head → length rest.now ≡ 0 }
    ensures { IsHeaded text.now rest.now result }
{
    cells_and_headers();
    reading_stays();
    match place.code {
        Code::HeaderCut => Headed::Waits,
        _ => Headed::Refused(place),
    }
}

/// What came of a text and of what follows it, which is something only if the text is full.
fn read_text(alloc: Global, text: &[u8], rest: &[u8]) -> Result<Headed, AllocError>
    requires full { length text.now < most_head → length rest.now ≡ 0 }
    requires small { length text.now + length rest.now < bytes_most }
    ensures { IfOk result (IsHeaded text.now rest.now) }
{
    if text.len() < ORDER_BYTES {
        return Ok(Headed::Waits);
    }
    match Header::read(alloc, text) {
        Ok((header, start)) => begun(alloc, &header, text, start, rest),
        Err(PlaceError::Place(place)) => Ok(unread(text, rest, place)),
        Err(PlaceError::NoMemory) => Err(AllocError),
    }
}

/// A piece comes to a header text.
pub fn fed_text(alloc: Global, text: &mut Vec<u8>, piece: &[u8]) -> Result<Headed, AllocError>
    requires few { length text.old.items < most_head }
    requires small { most_head + length piece.now < bytes_most }
    ensures fed { IfOk result (IsFed text.old.items piece.now text.new.items) }
    ensures none { OnErr result (text.new.items ≡ text.old.items) }
{
    let before = text.len();
    let used = piece.len().min(MOST_HEAD - before);
    text.extend_from_slice(&piece[..used])?;
    let rest = rest_of(piece, used);
    let came = read_text(alloc, text, rest);
    if came.is_err() {
        text.truncate(before);
    }
    came
}
