//! The canonical text of a header, part by part. After an error some of a part may stand behind what stood there.

ghost use Rattle.std.specs.Prelude.{◌≡◌, ◌<◌, ◌≤◌, ◌^◌, [], ◌∷◌, ◌++◌, OnOk, length, map, take, vec_len};
ghost use Rattle.std.specs.List.{All};
ghost use Rattle.std.specs.Option.{option_copied};
ghost use Rattle.indexmap.specs.IndexMap.{values, index_map_len};
ghost use Rattle.vpf_base.specs.Limits.{most_columns};
ghost use Rattle.vpf_triplet.specs.Kinds.{kind_text, count_text};
ghost use Rattle.vpf_head.specs.Bytes.{semicolon, comma, colon};
ghost use Rattle.vpf_head.specs.Canonical.{name_text, column_text, columns_text};
ghost use Rattle.vpf_head.specs.Fields.{key_text};
ghost use Rattle.vpf_head.specs.Inner.Soundness.{IsSpelled};
ghost use Rattle.vpf_head.specs.Spelling.{mark_of};
ghost use Rattle.vpf_head.specs.Inner.Views.{col};

use crate::columns::{Column, Key};
use crate::reading::{Columns, column_of};
use itoa::Buffer;
use std::alloc::AllocError;
use vpf_triplet::{Count, Kind, Order};

/// The item of a kind: its letter.
pub fn kind_item(kind: Kind) -> &'static [u8]
    ensures { result.now ≡ kind_text kind }
{
    kind.letter().as_bytes()
}

/// Appends an item, and what ends it.
pub fn put_item(item: &[u8], end: &[u8], out: &mut Vec<u8>) -> Result<(), AllocError>
    ensures ok { OnOk result (out.new.items ≡ out.old.items ++ (item.now ++ end.now)) }
    ensures kept { take (vec_len out.old) out.new.items ≡ out.old.items }
{
    out.extend_from_slice(item)?;
    out.extend_from_slice(end)
}

/// Appends the item of a name that may be absent, and what ends it.
fn put_name(name: Option<&[u8]>, end: &[u8], out: &mut Vec<u8>) -> Result<(), AllocError>
    ensures ok { OnOk result (out.new.items ≡ out.old.items ++ (name_text (option_copied name.entry) ++ end.now)) }
    ensures kept { take (vec_len out.old) out.new.items ≡ out.old.items }
{
    match name {
        None => put_item(b"-", end, out),
        Some(name) => put_item(name, end, out),
    }
}

fn put_count(count: Count, out: &mut Vec<u8>) -> Result<(), AllocError>
    ensures ok { OnOk result (out.new.items ≡ out.old.items ++ (count_text count ++ comma ∷ [])) }
    ensures kept { take (vec_len out.old) out.new.items ≡ out.old.items }
{
    match count {
        Count::Star => put_item(b"*", b",", out),
        Count::Fixed(n) => put_item(Buffer::new().format(n).as_bytes(), b",", out),
    }
}

fn put_key(key: Key, out: &mut Vec<u8>) -> Result<(), AllocError>
    ensures ok { OnOk result (out.new.items ≡ out.old.items ++ (key_text key ++ comma ∷ [])) }
    ensures kept { take (vec_len out.old) out.new.items ≡ out.old.items }
{
    match key {
        Key::Primary => put_item(b"P", b",", out),
        Key::Unique => put_item(b"U", b",", out),
        Key::Many => put_item(b"N", b",", out),
        Key::Other(letter) => {
            let mut buffer = [0; 4];
            let letter = char::from(letter).encode_utf8(&mut buffer);
            put_item(letter.as_bytes(), b",", out)
        }
    }
}

/// Appends the description of a column and its names that may be absent.
fn put_names(column: &Column<'_>, out: &mut Vec<u8>) -> Result<(), AllocError>
    ensures ok { OnOk result (out.new.items ≡ out.old.items ++ (column.now.description.now ++ comma ∷ (name_text (option_copied column.now.values)
        ++ comma ∷ (name_text (option_copied column.now.theme) ++ comma ∷ (name_text (option_copied column.now.narrative) ++ comma ∷ colon ∷ []))))) }
    ensures kept { take (vec_len out.old) out.new.items ≡ out.old.items }
{
    put_item(column.description, b",", out)?;
    put_name(column.values, b",", out)?;
    put_name(column.theme, b",", out)?;
    put_name(column.narrative, b",:", out)
}

/// Appends the definition of a column.
#[tactic(auto, unfolding(crate::specs::Canonical::column_text))]
fn put_column(column: &Column<'_>, out: &mut Vec<u8>) -> Result<(), AllocError>
    ensures ok { OnOk result (out.new.items ≡ out.old.items ++ column_text (col column.now)) }
    ensures kept { take (vec_len out.old) out.new.items ≡ out.old.items }
{
    put_item(column.name, b"=", out)?;
    put_item(kind_item(column.kind), b",", out)?;
    put_count(column.count, out)?;
    put_key(column.key, out)?;
    put_names(column, out)
}

/// Appends the definitions of these columns.
pub fn put_each(columns: &[Column<'_>], out: &mut Vec<u8>) -> Result<(), AllocError>
    ensures ok { OnOk result (out.new.items ≡ out.old.items ++ columns_text (map col columns.now)) }
    ensures kept { take (vec_len out.old) out.new.items ≡ out.old.items }
{
    for column in columns {
        put_column(column, out)?;
    }
    Ok(())
}

/// Appends the definitions of a header's columns.
pub fn put_columns(columns: &Columns<'_>, out: &mut Vec<u8>) -> Result<(), AllocError>
    ensures ok { OnOk result (out.new.items ≡ out.old.items ++ columns_text (map col (values columns.now))) }
    ensures kept { take (vec_len out.old) out.new.items ≡ out.old.items }
{
    for c in 0..columns.len() {
        put_column(column_of(columns, c), out)?;
    }
    Ok(())
}

/// Appends what stands before the columns: the mark of the order, and the table's description and narrative.
pub fn put_start(
    order: Order,
    description: &[u8],
    narrative: Option<&[u8]>,
    out: &mut Vec<u8>,
) -> Result<(), AllocError>
    ensures ok { OnOk result (out.new.items ≡ out.old.items ++ (mark_of order ++ (description.now
        ++ semicolon ∷ (name_text (option_copied narrative.entry) ++ semicolon ∷ [])))) }
    ensures kept { take (vec_len out.old) out.new.items ≡ out.old.items }
{
    put_item(order.letter().as_bytes(), b";", out)?;
    put_item(description, b";", out)?;
    put_name(narrative, b";", out)
}

/// How many bytes the item of a name that may be absent has.
pub fn name_len(name: Option<&[u8]>) -> usize
    ensures { result ≡ length (name_text (option_copied name.entry)) }
{
    match name {
        None => 1,
        Some(name) => name.len(),
    }
}

/// How many bytes the item of a count has.
pub fn count_len(count: Count) -> usize
    ensures value { result ≡ length (count_text count) }
    ensures short { result ≤ 40 }
{
    match count {
        Count::Star => 1,
        Count::Fixed(n) => Buffer::new().format(n).len(),
    }
}

/// How many bytes the item of a key has.
pub fn key_len(key: Key) -> usize
    ensures value { result ≡ length (key_text key) }
    ensures short { result ≤ 4 }
{
    match key {
        Key::Primary | Key::Unique | Key::Many => 1,
        Key::Other(letter) => char::from(letter).len_utf8(),
    }
}

/// How many bytes the definition of a column has.
#[tactic(auto, unfolding(crate::specs::Canonical::column_text))]
fn column_len(column: &Column<'_>) -> usize
    requires { IsSpelled (col column.now) }
    ensures value { result ≡ length (column_text (col column.now)) }
    ensures short { result < 2 ^ 17 }
{
    let names = name_len(column.values) + name_len(column.theme) + name_len(column.narrative);
    let texts = column.name.len() + column.description.len();
    // The letter of the kind, the eight bytes that end items, and the `:`.
    names + texts + count_len(column.count) + key_len(column.key) + 10
}

/// How many bytes the definitions of a header's columns have.
pub fn columns_len(columns: &Columns<'_>) -> usize
    requires spelled { All IsSpelled (map col (values columns.now)) }
    requires few { length (map col (values columns.now)) ≤ most_columns }
    ensures value { result ≡ length (columns_text (map col (values columns.now))) }
    ensures short { result ≤ 2 ^ 25 }
{
    let mut len = 0;
    for c in 0..columns.len() {
        len += column_len(column_of(columns, c));
    }
    len
}
