//! Making a header of parts: its canonical text has to be read as these parts.

ghost use Rattle.std.specs.Prelude.{◌≡◌, ◌+◌, ◌<◌, ◌≤◌, ◌^◌, IfOk, OnOk, length, map};
ghost use Rattle.std.specs.List.{IsDistinct};
ghost use Rattle.std.specs.Option.{option_copied};
ghost use Rattle.indexmap.specs.IndexMap.{values};
ghost use Rattle.vpf_base.specs.Limits.{longest_text};
ghost use Rattle.vpf_triplet.specs.Kinds.{count_text, same_kind};
ghost use Rattle.vpf_triplet.specs.Places.{Gives, Answers};
ghost use Rattle.vpf_head.specs.Canonical.{name_text, column_text, columns_text, canonical_text};
ghost use Rattle.vpf_head.specs.Fields.{key_text};
ghost use Rattle.vpf_head.specs.Folding.{same_name};
ghost use Rattle.vpf_head.specs.Head.{names};
ghost use Rattle.vpf_head.specs.Making.{same_count, same_key, next_part, next_after_text, next_after_name, past_column, past_columns, text_file};
ghost use Rattle.vpf_head.specs.Inner.Views.{col, head_given, AreNamed};

use crate::columns::{Column, Key};
use crate::names::ColumnName;
use crate::reading::{Columns, column_of};
use crate::writing::{count_len, key_len, kind_item, name_len, put_each, put_item, put_start};
use indexmap::IndexMap;
use std::alloc::{AllocError, Global};
use vpf_base::limits::LONGEST_TEXT;
use vpf_triplet::{Code, Count, Kind, Order, Place, PlaceError};

/// The parts of which a header is to be made.
#[derive(Clone, Copy)]
pub struct Parts<'p, 'a> {
    pub order: Order,
    pub description: &'a [u8],
    pub narrative: Option<&'a [u8]>,
    pub columns: &'p [Column<'a>],
}

/// The canonical text of the parts.
fn text_of(alloc: Global, parts: &Parts<'_, '_>) -> Result<Vec<u8>, AllocError>
    ensures { IfOk result (λ text. text.items ≡ canonical_text (head_given parts.now)) }
{
    let mut text = Vec::new(alloc);
    put_start(parts.order, parts.description, parts.narrative, &mut text)?;
    put_each(parts.columns, &mut text)?;
    put_item(b"", b";", &mut text)?;
    Ok(text)
}

/// The file of the parts' canonical text: its length number and the text.
#[tactic(auto, unfolding(crate::specs::Making::text_file))]
pub fn file_of(alloc: Global, parts: &Parts<'_, '_>) -> Result<Vec<u8>, PlaceError>
    ensures exact { Answers (λ file. file.items) result (text_file (head_given parts.now)) }
    ensures short { OnOk result (length (canonical_text (head_given parts.now)) ≤ longest_text) }
{
    let text = text_of(alloc, parts)?;
    let len = text.len();
    if len > LONGEST_TEXT as usize {
        return Err(Place::in_table(0, Code::LimitHeader(len as u64)).into());
    }
    let mut file = Vec::new(alloc);
    parts.order.put_u32(len as u32, &mut file)?;
    file.extend_from_slice(&text)?;
    Ok(file)
}

fn same_kind(kind: Kind, read: Kind) -> bool
    ensures { result ≡ same_kind kind read }
{
    kind == read
}

fn same_count(count: Count, read: Count) -> bool
    ensures { result ≡ same_count count read }
{
    count == read
}

fn same_key(key: Key, read: Key) -> bool
    ensures { result ≡ same_key key read }
{
    key == read
}

/// The offset behind an item of `len` bytes that begins at `at` and the byte that ends it.
fn next_part(at: usize, len: usize, same: bool) -> Result<usize, Place>
    requires { at + len < 2 ^ 32 }
    ensures exact { Gives (λ r. r) result (next_part at len same) }
    ensures next { IfOk result (λ r. r ≡ at + len + 1) }
{
    if !same {
        return Err(Place::in_table(at, Code::ItemSeparator));
    }
    Ok(at + len + 1)
}

pub fn next_after_text(at: usize, text: &[u8], read: &[u8]) -> Result<usize, Place>
    requires { at + length text.now < 2 ^ 32 }
    ensures exact { Gives (λ r. r) result (next_after_text at text.now read.now) }
    ensures next { IfOk result (λ r. r ≡ at + length text.now + 1) }
{
    next_part(at, text.len(), text == read)
}

pub fn next_after_name(at: usize, name: Option<&[u8]>, read: Option<&[u8]>) -> Result<usize, Place>
    requires { at + length (name_text (option_copied name)) < 2 ^ 32 }
    ensures exact { Gives (λ r. r) result (next_after_name at (option_copied name.entry) (option_copied read.entry)) }
    ensures next { IfOk result (λ r. r ≡ at + length (name_text (option_copied name.entry)) + 1) }
{
    next_part(at, name_len(name), name == read)
}

/// The offset past the definition of a column that begins at `at`.
#[tactic(auto, unfolding(crate::specs::Making::past_column))]
fn past_column(at: usize, column: &Column<'_>, read: &Column<'_>) -> Result<usize, Place>
    requires { at + length (column_text (col column.now)) < 2 ^ 32 }
    ensures exact { Gives (λ r. r) result (past_column at (col column.now) (col read.now)) }
    ensures past { IfOk result (λ r. r ≡ at + length (column_text (col column.now))) }
{
    let kind = next_after_text(at, column.name, read.name)?;
    let len = kind_item(column.kind).len();
    let count = next_part(kind, len, same_kind(column.kind, read.kind))?;
    let len = count_len(column.count);
    let key = next_part(count, len, same_count(column.count, read.count))?;
    let len = key_len(column.key);
    let description = next_part(key, len, same_key(column.key, read.key))?;
    let values = next_after_text(description, column.description, read.description)?;
    let theme = next_after_name(values, column.values, read.values)?;
    let narrative = next_after_name(theme, column.theme, read.theme)?;
    let colon = next_after_name(narrative, column.narrative, read.narrative)?;
    Ok(colon + 1)
}

/// The offset past the definitions of the columns, which begin at `start`.
pub fn past_columns(
    start: usize,
    columns: &[Column<'_>],
    read: &Columns<'_>,
) -> Result<usize, Place>
    requires { start + length (columns_text (map col columns.now)) < 2 ^ 32 }
    ensures { Gives (λ r. r) result (past_columns start (map col columns.now) (map col (values read.now))) }
{
    let mut at = start;
    for c in 0..columns.len() {
        if c == read.len() {
            return Err(Place::in_table(at, Code::ItemSeparator));
        }
        at = past_column(at, &columns[c], column_of(read, c))?;
    }
    if columns.len() < read.len() {
        return Err(Place::in_table(at, Code::ItemSeparator));
    }
    Ok(at)
}

/// The columns under their names, which differ.
pub fn columns_of<'a>(alloc: Global, columns: &[Column<'a>]) -> Result<Columns<'a>, AllocError>
    requires { IsDistinct same_name (names (map col columns.now)) }
    ensures columns { IfOk result (λ named. values named ≡ columns.now) }
    ensures named { IfOk result (λ named. AreNamed named.entries) }
{
    let mut named = IndexMap::new(alloc);
    for column in columns {
        named.insert(ColumnName { name: column.name }, *column)?;
    }
    Ok(named)
}
