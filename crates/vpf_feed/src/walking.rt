//! Walking the rows of a table piece by piece.

ghost use Rattle.std.specs.Prelude.{◌≡◌, ◌<◌, ◌≤◌, ◌+◌, ◌*◌, ◌++◌, ◌∷◌, ℕ, List, IfOk, IfErr, IfSome, Err, Some, length, drop, slice_get};
ghost use Rattle.vpf_base.specs.Limits.{most_rows};
ghost use Rattle.vpf_feed.specs.Inner.RowForm.Rows.{IsForm};
ghost use Rattle.vpf_feed.specs.Inner.Walks.{walk_comes, next_comes, within_comes, between_comes, skipping_comes};
ghost use Rattle.vpf_feed.specs.Inner.Walks.{bytes_most, IsWalk, IsInCell, IsBetween, IsSkipping};

use crate::row_form::{Field, Look, RowForm, bytes_are_bytes, look_at, whole_row};
use crate::staying::laws::cells_and_headers;
use vpf_base::limits::MOST_ROWS;
use vpf_triplet::{Code, Place};

/// The row past the most.
const TOO_MANY_ROWS: u64 = MOST_ROWS as u64 + 1;

/// What came of the cell in hand.
#[derive(Clone, Copy)]
pub enum Hand {
    /// No row is begun.
    Between,
    /// So many bytes, which are kept.
    Within(usize),
    /// Bytes of a cell that ends at this offset.
    Skipping(u64),
}

/// How far the rows came.
#[derive(Clone, Copy)]
pub struct Walk {
    pub done: u32,
    pub column: usize,
    pub at: u64,
    pub here: u64,
    pub hand: Hand,
    pub kept: [u8; 13],
}

impl Walk {
    ghost use Rattle.std.specs.Prelude.{◌≡◌, ◌≤◌};
    ghost use Rattle.vpf_feed.specs.declared.row_form.form.RowForm.{RowForm};
    ghost use Rattle.vpf_feed.specs.Inner.Stages.{held_hand};
    ghost use Rattle.vpf_feed.specs.Inner.Walks.{hand_of, IsWalk};

    /// How many bytes are kept of the cell in hand.
    pub fn held(self) -> usize
        ensures value { (form : RowForm) → IsWalk form self → result ≡ held_hand (hand_of self.kept self.hand) }
        ensures most { (form : RowForm) → IsWalk form self → result < 13 }
    {
        match self.hand {
            Hand::Between => 0,
            Hand::Within(len) => len,
            Hand::Skipping(_) => 0,
        }
    }
}

/// The cell of a column.
fn field_at(form: &RowForm, column: usize) -> Field
    requires { column < length form.now.fields.items }
    ensures { slice_get form.now.fields.items column ≡ Some result }
{
    form.fields[column]
}

/// The first byte.
fn first_of(rest: &[u8]) -> u8
    requires { 0 < length rest.now }
    ensures { rest.now ≡ result ∷ drop 1 rest.now }
{
    rest[0]
}

/// The cell in hand ends at `past`, and so does what came.
fn advance(form: &RowForm, walk: Walk, past: u64) -> Walk
    requires form { IsForm form.now }
    requires column { walk.column < length form.now.fields.items }
    requires few { walk.done < most_rows }
    ensures comes { (more : List ℕ) → walk_comes form.now result more ≡ next_comes form.now walk past more }
    ensures sound { IsWalk form.now result }
    ensures here { result.here ≡ past }
{
    let column = walk.column + 1;
    let kept = walk.kept;
    if column == form.fields.len() {
        return Walk {
            done: walk.done + 1,
            column: 0,
            at: past,
            here: past,
            hand: Hand::Between,
            kept,
        };
    }
    Walk {
        done: walk.done,
        column,
        at: past,
        here: past,
        hand: Hand::Within(0),
        kept,
    }
}

/// A row begins, where a byte follows: another one, unless they are too many.
fn begin(form: &RowForm, walk: Walk) -> Result<Walk, Place>
    requires form { IsForm form.now }
    requires between { IsBetween form.now walk }
    ensures comes { IfOk result (λ w. (b : ℕ) (more : List ℕ) → within_comes form.now w 0 (b ∷ more) ≡ between_comes form.now walk (b ∷ more)) }
    ensures column { IfOk result (λ w. w.column < length form.now.fields.items) }
    ensures begun { IfOk result (λ w. IsInCell form.now w 0) }
    ensures here { IfOk result (λ w. w.here ≡ walk.here) }
    ensures refused { IfErr result (λ place. (b : ℕ) (more : List ℕ) → between_comes form.now walk (b ∷ more) ≡ Err place) }
{
    if walk.done == MOST_ROWS {
        let place = Place::in_table(walk.at as usize, Code::LimitRows(TOO_MANY_ROWS));
        return Err(place);
    }
    let kept = walk.kept;
    Ok(Walk {
        done: walk.done,
        column: 0,
        at: walk.at,
        here: walk.here,
        hand: Hand::Within(0),
        kept,
    })
}

/// One byte more of a cell of which so many are kept.
fn push(form: &RowForm, walk: Walk, len: usize, byte: u8) -> Result<Walk, Place>
    requires form { IsForm form.now }
    requires column { walk.column < length form.now.fields.items }
    requires within { IsInCell form.now walk len }
    requires small { walk.here < bytes_most }
    ensures comes { IfOk result (λ w. (more : List ℕ) → walk_comes form.now w more ≡ within_comes form.now walk len (byte ∷ more)) }
    ensures sound { IfOk result (IsWalk form.now) }
    ensures here { IfOk result (λ w. w.here ≡ walk.here + 1) }
    ensures refused { IfErr result (λ place. (more : List ℕ) → within_comes form.now walk len (byte ∷ more) ≡ Err place) }
{
    let mut kept = walk.kept;
    kept[len] = byte;
    let so_far = &kept[..len + 1];
    cells_and_headers();
    bytes_are_bytes(so_far);
    let field = field_at(form, walk.column);
    match look_at(form.order, field, so_far) {
        Look::Whole(_) => Ok(advance(form, walk, walk.here + 1)),
        Look::Skip(size) => Ok(Walk {
            done: walk.done,
            column: walk.column,
            at: walk.at,
            here: walk.here + 1,
            hand: Hand::Skipping(walk.at + size),
            kept,
        }),
        Look::Keep => Ok(Walk {
            done: walk.done,
            column: walk.column,
            at: walk.at,
            here: walk.here + 1,
            hand: Hand::Within(len + 1),
            kept,
        }),
        Look::Refused(code) => {
            let place = Place::in_table(walk.at as usize, code);
            Err(place)
        }
    }
}

/// Bytes of a cell that ends at `past`, and how many they are.
fn skip(form: &RowForm, walk: Walk, past: u64, rest: &[u8]) -> (Walk, usize)
    requires form { IsForm form.now }
    requires column { walk.column < length form.now.fields.items }
    requires skipping { IsSkipping form.now walk past }
    requires some { 0 < length rest.now }
    requires small { walk.here + length rest.now < bytes_most }
    ensures comes { (more : List ℕ) → walk_comes form.now result.0 (drop result.1 rest.now ++ more) ≡ skipping_comes form.now walk past (rest.now ++ more) }
    ensures sound { IsWalk form.now result.0 }
    ensures here { result.0.here ≡ walk.here + result.1 }
    ensures used { (0 < result.1) × (result.1 ≤ length rest.now) }
{
    let left = past - walk.here;
    let len = rest.len() as u64;
    if len < left {
        let kept = walk.kept;
        let on = Walk {
            done: walk.done,
            column: walk.column,
            at: walk.at,
            here: walk.here + len,
            hand: Hand::Skipping(past),
            kept,
        };
        return (on, rest.len());
    }
    (advance(form, walk, past), left as usize)
}

/// How many whole rows lie in so many bytes, as far as they may be begun; none where rows vary.
fn whole_rows(form: &RowForm, done: u32, len: u64) -> u32
    requires { done ≤ most_rows }
    ensures few { done + result ≤ most_rows }
    ensures inside { result * form.now.width ≤ len }
    ensures wide { 0 < result → 0 < form.now.width }
{
    if form.width == 0 {
        return 0;
    }
    (len / form.width).min(u64::from(MOST_ROWS - done)) as u32
}

/// Whole rows of one width, and how many bytes they are.
fn pass_rows(form: &RowForm, walk: Walk, rest: &[u8]) -> (Walk, usize)
    requires form { IsForm form.now }
    requires column { walk.column < length form.now.fields.items }
    requires between { IsBetween form.now walk }
    requires small { walk.here + length rest.now < bytes_most }
    ensures comes { (more : List ℕ) → walk_comes form.now result.0 (drop result.1 rest.now ++ more) ≡ between_comes form.now walk (rest.now ++ more) }
    ensures sound { IsWalk form.now result.0 }
    ensures here { result.0.here ≡ walk.here + result.1 }
    ensures used { result.1 ≤ length rest.now }
{
    let rows = whole_rows(form, walk.done, rest.len() as u64);
    let used = rows as u64 * form.width;
    let kept = walk.kept;
    let on = Walk {
        done: walk.done + rows,
        column: walk.column,
        at: walk.at + used,
        here: walk.here + used,
        hand: Hand::Between,
        kept,
    };
    (on, used as usize)
}

/// The row that begins with these bytes, where it is whole, and how many bytes it has; nothing where there are too many rows.
fn pass_row(form: &RowForm, walk: Walk, rest: &[u8]) -> Option<(Walk, usize)>
    requires form { IsForm form.now }
    requires column { walk.column < length form.now.fields.items }
    requires between { IsBetween form.now walk }
    requires small { walk.here + length rest.now < bytes_most }
    ensures comes { IfSome result (λ r. (more : List ℕ) → walk_comes form.now r.0 (drop r.1 rest.now ++ more)
        ≡ between_comes form.now walk (rest.now ++ more)) }
    ensures sound { IfSome result (λ r. IsWalk form.now r.0) }
    ensures here { IfSome result (λ r. r.0.here ≡ walk.here + r.1) }
    ensures used { IfSome result (λ r. (0 < r.1) × (r.1 ≤ length rest.now)) }
{
    let used = whole_row(form, rest)?;
    if used == 0 || walk.done == MOST_ROWS {
        return None;
    }
    let past = walk.here + used as u64;
    let kept = walk.kept;
    let on = Walk {
        done: walk.done + 1,
        column: walk.column,
        at: past,
        here: past,
        hand: Hand::Between,
        kept,
    };
    Some((on, used))
}

/// The cell that begins with these bytes, where it is whole, and how many bytes it has.
fn pass_cell(form: &RowForm, walk: Walk, rest: &[u8]) -> Option<(Walk, usize)>
    requires form { IsForm form.now }
    requires column { walk.column < length form.now.fields.items }
    requires begun { IsInCell form.now walk 0 }
    requires small { walk.here + length rest.now < bytes_most }
    ensures comes { IfSome result (λ r. (more : List ℕ) → walk_comes form.now r.0 (drop r.1 rest.now ++ more)
        ≡ within_comes form.now walk 0 (rest.now ++ more)) }
    ensures sound { IfSome result (λ r. IsWalk form.now r.0) }
    ensures here { IfSome result (λ r. r.0.here ≡ walk.here + r.1) }
    ensures used { IfSome result (λ r. (0 < r.1) × (r.1 ≤ length rest.now)) }
{
    match look_at(form.order, field_at(form, walk.column), rest) {
        Look::Whole(len) => Some((advance(form, walk, walk.here + len as u64), len)),
        _ => None,
    }
}

/// Some of the bytes, which follow so many of the cell in hand, and how many they are: the cell, where it begins with them
/// and is whole, else one.
fn step_within(form: &RowForm, walk: Walk, len: usize, rest: &[u8]) -> Result<(Walk, usize), Place>
    requires form { IsForm form.now }
    requires column { walk.column < length form.now.fields.items }
    requires within { IsInCell form.now walk len }
    requires some { 0 < length rest.now }
    requires small { walk.here + length rest.now < bytes_most }
    ensures comes { IfOk result (λ r. (more : List ℕ) → walk_comes form.now r.0 (drop r.1 rest.now ++ more)
        ≡ within_comes form.now walk len (rest.now ++ more)) }
    ensures sound { IfOk result (λ r. IsWalk form.now r.0) }
    ensures here { IfOk result (λ r. r.0.here ≡ walk.here + r.1) }
    ensures used { IfOk result (λ r. (0 < r.1) × (r.1 ≤ length rest.now)) }
    ensures refused { IfErr result (λ place. (more : List ℕ) → within_comes form.now walk len (rest.now ++ more) ≡ Err place) }
{
    if len == 0 {
        if let Some(passed) = pass_cell(form, walk, rest) {
            return Ok(passed);
        }
    }
    let next = push(form, walk, len, first_of(rest))?;
    Ok((next, 1))
}

/// Some of the bytes, where no row is begun, and how many they are.
fn step_between(form: &RowForm, walk: Walk, rest: &[u8]) -> Result<(Walk, usize), Place>
    requires form { IsForm form.now }
    requires column { walk.column < length form.now.fields.items }
    requires between { IsBetween form.now walk }
    requires some { 0 < length rest.now }
    requires small { walk.here + length rest.now < bytes_most }
    ensures comes { IfOk result (λ r. (more : List ℕ) → walk_comes form.now r.0 (drop r.1 rest.now ++ more) ≡ between_comes form.now walk (rest.now ++ more)) }
    ensures sound { IfOk result (λ r. IsWalk form.now r.0) }
    ensures here { IfOk result (λ r. r.0.here ≡ walk.here + r.1) }
    ensures used { IfOk result (λ r. (0 < r.1) × (r.1 ≤ length rest.now)) }
    ensures refused { IfErr result (λ place. (more : List ℕ) → between_comes form.now walk (rest.now ++ more) ≡ Err place) }
{
    let (on, used) = pass_rows(form, walk, rest);
    if used > 0 {
        return Ok((on, used));
    }
    if let Some(passed) = pass_row(form, walk, rest) {
        return Ok(passed);
    }
    // A row begins with the first byte.
    let _first = first_of(rest);
    let begun = begin(form, walk)?;
    step_within(form, begun, 0, rest)
}

/// Some of the bytes, and how many they are.
fn step(form: &RowForm, walk: Walk, rest: &[u8]) -> Result<(Walk, usize), Place>
    requires form { IsForm form.now }
    requires sound { IsWalk form.now walk }
    requires some { 0 < length rest.now }
    requires small { walk.here + length rest.now < bytes_most }
    ensures comes { IfOk result (λ r. (more : List ℕ) → walk_comes form.now r.0 (drop r.1 rest.now ++ more) ≡ walk_comes form.now walk (rest.now ++ more)) }
    ensures sound { IfOk result (λ r. IsWalk form.now r.0) }
    ensures here { IfOk result (λ r. r.0.here ≡ walk.here + r.1) }
    ensures used { IfOk result (λ r. (0 < r.1) × (r.1 ≤ length rest.now)) }
    ensures refused { IfErr result (λ place. (more : List ℕ) → walk_comes form.now walk (rest.now ++ more) ≡ Err place) }
{
    match walk.hand {
        Hand::Between => step_between(form, walk, rest),
        Hand::Within(len) => step_within(form, walk, len, rest),
        Hand::Skipping(past) => Ok(skip(form, walk, past, rest)),
    }
}

/// A walk goes on over these bytes.
pub fn walk_on(form: &RowForm, walk: Walk, piece: &[u8]) -> Result<Walk, Place>
    requires form { IsForm form.now }
    requires sound { IsWalk form.now walk }
    requires small { walk.here + length piece.now < bytes_most }
    ensures comes { IfOk result (λ w. (more : List ℕ) → walk_comes form.now w more ≡ walk_comes form.now walk (piece.now ++ more)) }
    ensures sound { IfOk result (IsWalk form.now) }
    ensures here { IfOk result (λ w. w.here ≡ walk.here + length piece.now) }
    ensures refused { IfErr result (λ place. (more : List ℕ) → walk_comes form.now walk (piece.now ++ more) ≡ Err place) }
{
    let mut here = walk;
    let mut used = 0;
    while used < piece.len() {
        let (next, len) = step(form, here, &piece[used..])?;
        here = next;
        used += len;
    }
    Ok(here)
}
