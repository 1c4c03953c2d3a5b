//! Reading column definitions from left to right.

ghost use Rattle.std.specs.Prelude.{◌≡◌, ◌<◌, ◌≤◌, IsTrue, Some, false, [], is_some, length, map, slice_get, IfOk};
ghost use Rattle.std.specs.Option.{option_copied};
ghost use Rattle.indexmap.specs.IndexMap.{get, values, index_map_len};
ghost use Rattle.vpf_base.specs.Limits.{most_columns};
ghost use Rattle.vpf_triplet.specs.Places.{Gives, Answers};
ghost use Rattle.vpf_head.specs.Head.{place_of};
ghost use Rattle.vpf_head.specs.Reading.{closes, fresh_name_at, kind_at, count_at, key_at, colon_by, closed_at, narrative_at, rest_at, column_at, columns_at};
ghost use Rattle.vpf_head.specs.Inner.Views.{col, key_eq, AreNamed};

use crate::columns::{Column, Key};
use crate::fields::{count_in, key_of, present};
use crate::items::{Form, name_at, text_at};
use crate::names::ColumnName;
use indexmap::IndexMap;
use std::alloc::Global;
use vpf_base::limits::MOST_COLUMNS;
use vpf_triplet::{Code, Count, Kind, Place, PlaceError};

/// The columns of a table in their order, each under its name.
pub type Columns<'a> = IndexMap<ColumnName<'a>, Column<'a>>;

/// The column at this position, from 0.
pub fn column_of<'m, 'a>(columns: &'m Columns<'a>, c: usize) -> &'m Column<'a>
    requires { c < index_map_len columns.now }
    ensures { slice_get (values columns.now) c ≡ Some result.now }
{
    columns.get_index(c).unwrap().1
}

fn is_taken(columns: &Columns<'_>, name: &[u8]) -> bool
    requires { AreNamed columns.now.entries }
    ensures value { result ≡ is_some (place_of name.now (map col (values columns.now))) }
    ensures key { result ≡ is_some (get key_eq columns.now (record { name = name.entry })) }
{
    columns.get_index_of(&ColumnName { name }).is_some()
}

#[tactic(auto, unfolding(crate::specs::Reading::fresh_name_at))]
fn fresh_name_at<'a>(
    columns: &Columns<'a>,
    text: &'a [u8],
    at: usize,
) -> Result<(&'a [u8], usize), Place>
    requires named { AreNamed columns.now.entries }
    requires inside { at ≤ length text.now }
    ensures exact { Gives (λ r. (r.0.now, r.1)) result (fresh_name_at (map col (values columns.now)) text.now at) }
    ensures fresh { IfOk result (λ r. is_some (get key_eq columns.now (record { name = r.0 })) ≡ false) }
    ensures inside { IfOk result (λ r. r.1 ≤ length text.now) }
{
    let name = name_at(Form::Name, text, at)?;
    if name.text.is_empty() {
        return Err(Place::in_table(at, Code::NameEmpty));
    }
    if is_taken(columns, name.text) {
        return Err(Place::in_table(at, Code::NameRepeat));
    }
    Ok((name.text, name.past))
}

#[tactic(auto, unfolding(crate::specs::Reading::kind_at))]
fn kind_at(text: &[u8], at: usize) -> Result<(Kind, usize), Place>
    requires { at ≤ length text.now }
    ensures exact { Gives (λ r. (r.0, r.1)) result (kind_at text.now at) }
    ensures inside { IfOk result (λ r. r.1 ≤ length text.now) }
{
    let item = text_at(Form::Field, text, at)?;
    match Kind::of_letter(item.text) {
        Some(kind) => Ok((kind, item.past)),
        None => Err(Place::in_table(at, Code::Kind)),
    }
}

#[tactic(auto, unfolding(crate::specs::Reading::count_at))]
fn count_at(kind: Kind, text: &[u8], at: usize) -> Result<(Count, usize), Place>
    requires { at ≤ length text.now }
    ensures exact { Gives (λ r. (r.0, r.1)) result (count_at kind text.now at) }
    ensures inside { IfOk result (λ r. r.1 ≤ length text.now) }
{
    let item = text_at(Form::Field, text, at)?;
    let Some(count) = count_in(item.text) else {
        return Err(Place::in_table(at, Code::Count));
    };
    if !kind.allows(count) {
        return Err(Place::in_table(at, Code::Count));
    }
    Ok((count, item.past))
}

#[tactic(auto, unfolding(crate::specs::Reading::key_at))]
fn key_at(text: &[u8], at: usize) -> Result<(Key, usize), Place>
    requires { at ≤ length text.now }
    ensures exact { Gives (λ r. (r.0, r.1)) result (key_at text.now at) }
    ensures inside { IfOk result (λ r. r.1 ≤ length text.now) }
{
    let item = text_at(Form::Field, text, at)?;
    match key_of(item.text) {
        Some(key) => Ok((key, item.past)),
        None => Err(Place::in_table(at, Code::Key)),
    }
}

fn colon_at(text: &[u8], at: usize) -> Result<usize, Place>
    ensures exact { Gives (λ r. r) result (colon_by at (slice_get text.now at)) }
    ensures inside { IfOk result (λ r. r ≤ length text.now) }
{
    match text.get(at) {
        None => Err(Place::in_table(at, Code::ItemEnd)),
        Some(b':') => Ok(at + 1),
        Some(_) => Err(Place::in_table(at, Code::ItemSeparator)),
    }
}

/// The end of a column after its narrative, which this byte ended.
fn closed_at(text: &[u8], stop: u8, at: usize) -> Result<usize, Place>
    requires { at ≤ length text.now }
    ensures exact { Gives (λ r. r) result (closed_at text.now stop at) }
    ensures inside { IfOk result (λ r. r ≤ length text.now) }
{
    if stop == b':' {
        Ok(at)
    } else {
        colon_at(text, at)
    }
}

#[tactic(auto, unfolding(crate::specs::Reading::narrative_at))]
fn narrative_at(text: &[u8], at: usize) -> Result<(Option<&[u8]>, usize), Place>
    requires { at ≤ length text.now }
    ensures exact { Gives (λ r. (option_copied r.0, r.1)) result (narrative_at text.now at) }
    ensures inside { IfOk result (λ r. r.1 ≤ length text.now) }
{
    let item = name_at(Form::Last, text, at)?;
    let past = closed_at(text, item.stop, item.past)?;
    Ok((present(item.text), past))
}

/// The narrative and the end of a column after its thematic index, which this byte ended.
fn rest_at(text: &[u8], stop: u8, at: usize) -> Result<(Option<&[u8]>, usize), Place>
    requires { at ≤ length text.now }
    ensures exact { Gives (λ r. (option_copied r.0, r.1)) result (rest_at text.now stop at) }
    ensures inside { IfOk result (λ r. r.1 ≤ length text.now) }
{
    if stop == b':' {
        Ok((None, at))
    } else {
        narrative_at(text, at)
    }
}

#[tactic(auto, unfolding(crate::specs::Reading::column_at))]
fn column_at<'a>(
    columns: &Columns<'a>,
    text: &'a [u8],
    at: usize,
) -> Result<(Column<'a>, usize), Place>
    requires named { AreNamed columns.now.entries }
    requires inside { at ≤ length text.now }
    ensures exact { Gives (λ r. (col r.0, r.1)) result (column_at (map col (values columns.now)) text.now at) }
    ensures fresh { IfOk result (λ r. is_some (get key_eq columns.now (record { name = r.0.name })) ≡ false) }
    ensures inside { IfOk result (λ r. r.1 ≤ length text.now) }
{
    let (name, next) = fresh_name_at(columns, text, at)?;
    let (kind, next) = kind_at(text, next)?;
    let (count, next) = count_at(kind, text, next)?;
    let (key, next) = key_at(text, next)?;
    let description = text_at(Form::Field, text, next)?;
    let values = name_at(Form::Field, text, description.past)?;
    let theme = name_at(Form::Last, text, values.past)?;
    let (narrative, past) = rest_at(text, theme.stop, theme.past)?;
    let column = Column {
        name,
        kind,
        count,
        key,
        description: description.text,
        values: present(values.text),
        theme: present(theme.text),
        narrative,
    };
    Ok((column, past))
}

/// Whether the `;` that closes the columns stands here.
fn is_closed(text: &[u8], at: usize) -> bool
    requires { at ≤ length text.now }
    ensures value { result ≡ closes text.now at }
    ensures inside { IsTrue result → at < length text.now }
{
    text[at..].starts_with(b";")
}

/// The columns that begin at `at`, and the offset of the `;` that closes them.
pub fn columns_at<'a>(
    alloc: Global,
    text: &'a [u8],
    at: usize,
) -> Result<(Columns<'a>, usize), PlaceError>
    requires { at ≤ length text.now }
    ensures exact { Answers (λ r. (map col (values r.0), r.1)) result (columns_at most_columns [] text.now at) }
    ensures named { IfOk result (λ r. AreNamed r.0.entries) }
    ensures inside { IfOk result (λ r. r.1 < length text.now) }
{
    let mut columns = IndexMap::new(alloc);
    let mut at = at;
    let mut room = MOST_COLUMNS;
    while !is_closed(text, at) {
        if room == 0 {
            return Err(Place::in_table(at, Code::LimitColumns(MOST_COLUMNS as u64 + 1)).into());
        }
        let (column, past) = column_at(&columns, text, at)?;
        columns.insert(ColumnName { name: column.name }, column)?;
        room -= 1;
        at = past;
    }
    Ok((columns, at))
}
