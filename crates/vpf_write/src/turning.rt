//! Rows of one width in the other byte order: their bytes with the words turned round, and no cell decoded.

ghost use Rattle.std.specs.Prelude.{◌≡◌, ◌≤◌, ◌<◌, ◌+◌, ◌*◌, ◌/◌, ◌%◌, ◌++◌, IfOk, OnOk, length};
ghost use Rattle.vpf_value.specs.Inner.Turning.{each_piece, bytes_of_word};
ghost use Rattle.vpf_write.specs.Inner.Turning.{fields_of, fields_width, turned_words, turned_rows};

use std::alloc::{AllocError, Global};
use vpf_head::Header;
use vpf_value::{WordSize, cell_width, word_size};

/// About how many bytes are turned at a time, word by word over all their rows: they stay in the cache.
const BLOCK_BYTES: usize = 2048;

/// A field of rows that have one width: its words, and how many bytes they take.
#[derive(Clone, Copy)]
pub struct Field {
    /// The size of its words.
    pub word: WordSize,
    /// How many bytes it takes.
    pub width: usize,
}

/// The fields of rows that have one width.
pub fn fields_of(alloc: Global, header: &Header<'_>) -> Result<Vec<Field>, AllocError>
    ensures { IfOk result (λ fields. fields.items ≡ fields_of header.now.columns) }
{
    let mut fields = Vec::new(alloc);
    for c in 0..header.len() {
        let column = header.at(c);
        fields.push(Field {
            word: word_size(column.kind),
            width: cell_width(column.kind, column.count).unwrap_or(0),
        })?;
    }
    Ok(fields)
}

/// Turns round the word that begins at `from` in each row.
fn turn_word<const N: usize>(from: usize, width: usize, rows: &mut [u8])
    requires some { 0 < width }
    requires inside { from + N ≤ width }
    ensures { rows.new ≡ each_piece (turned_words from 1 N) (length rows.old / width) width rows.old }
{
    for k in 0..rows.len() / width {
        let at = k * width;
        let row = &mut rows[at..at + width];
        row[from..from + N].reverse();
    }
}

/// Turns round so many words of each row, the first of which begins at `from`.
fn turn_words<const N: usize>(from: usize, words: usize, width: usize, rows: &mut [u8])
    requires some { 0 < width }
    requires inside { from + words * N ≤ width }
    ensures { rows.new ≡ each_piece (turned_words from words N) (length rows.old / width) width rows.old }
{
    for j in 0..words {
        turn_word::<N>(from + j * N, width, rows);
    }
}

/// Turns round the words of a field, which begins at `from` in each row.
fn turn_field(field: Field, from: usize, width: usize, rows: &mut [u8])
    requires some { 0 < width }
    requires inside { from + field.width ≤ width }
    ensures { rows.new ≡ each_piece (turned_words from (field.width / bytes_of_word field.word) (bytes_of_word field.word))
        (length rows.old / width) width rows.old }
{
    match field.word {
        WordSize::One => {}
        WordSize::Two => turn_words::<2>(from, field.width / 2, width, rows),
        WordSize::Four => turn_words::<4>(from, field.width / 4, width, rows),
        WordSize::Eight => turn_words::<8>(from, field.width / 8, width, rows),
    }
}

/// Turns round the words of all fields of each row.
fn turn_rows(fields: &[Field], width: usize, rows: &mut [u8])
    requires some { 0 < width }
    requires whole { fields_width fields.now ≡ width }
    ensures { rows.new ≡ turned_rows fields.now width rows.old }
{
    let mut from = 0;
    for field in fields {
        turn_field(*field, from, width, rows);
        from += field.width;
    }
}

/// How many bytes of rows of this width are turned at a time: those of some whole rows.
fn block_len(width: usize) -> usize
    requires { 0 < width }
    ensures some { 0 < result }
    ensures whole { result % width ≡ 0 }
    // Another row would be too much.
    ensures full { BLOCK_BYTES < result + width }
{
    if width < BLOCK_BYTES {
        BLOCK_BYTES / width * width
    } else {
        width
    }
}

/// Appends rows of these fields, with their words turned round.
pub fn put_turned(
    fields: &[Field],
    width: usize,
    rows: &[u8],
    out: &mut Vec<u8>,
) -> Result<(), AllocError>
    requires some { 0 < width }
    requires whole { fields_width fields.now ≡ width }
    ensures { OnOk result (out.new.items ≡ out.old.items ++ turned_rows fields.now width rows.now) }
{
    let block_len = block_len(width);
    let mut left = rows;
    while !left.is_empty() {
        let (block, others) = left.split_at(block_len.min(left.len()));
        let begun = out.len();
        out.extend_from_slice(block)?;
        turn_rows(fields, width, &mut out[begun..]);
        left = others;
    }
    Ok(())
}

/// Turns round the words of all fields of each row, block by block.
pub fn turn_blocks(fields: &[Field], width: usize, rows: &mut [u8])
    requires some { 0 < width }
    requires whole { fields_width fields.now ≡ width }
    ensures { rows.new ≡ turned_rows fields.now width rows.old }
{
    let block_len = block_len(width);
    let mut at = 0;
    while at < rows.len() {
        let past = at + block_len.min(rows.len() - at);
        turn_rows(fields, width, &mut rows[at..past]);
        at = past;
    }
}
