//! Cells as printed text.

ghost use Rattle.std.specs.Prelude.{◌≡◌, ◌<◌, ◌++◌, OnOk, string_bytes};
ghost use Rattle.vpf_value.specs.Values.{view};
ghost use Rattle.vpf_findings.specs.Text.Cells.{tuple_len_of, separator, cell_text};

use crate::text::bytes::{Hex, Quoted};
use std::alloc::AllocError;
use std::fmt;
use vpf_value::triplet::{Kind, Triplet};
use vpf_value::{Cell, Coords, WordWidth};

/// A part of a triplet id.
#[derive(Clone, Copy)]
struct Part(Option<u32>);

impl fmt::Display for Part {
    ghost use Rattle.std.specs.Prelude.{Some};
    ghost use Rattle.vpf_findings.specs.Text.Cells.{part_text};

    ghost output = { λ part. Some (part_text part.0) };

    fn fmt<W: fmt::Write>(&self, f: &mut fmt::Formatter<W>) -> fmt::Result {
        match self.0 {
            Some(n) => write!(f, "{n}"),
            None => f.write_str("-"),
        }
    }
}

/// A triplet id.
#[derive(Clone, Copy)]
struct Parts(Triplet);

impl fmt::Display for Parts {
    ghost use Rattle.std.specs.Prelude.{Some};
    ghost use Rattle.vpf_findings.specs.Text.Cells.{triplet_text};

    ghost output = { λ parts. Some (triplet_text parts.0) };

    fn fmt<W: fmt::Write>(&self, f: &mut fmt::Formatter<W>) -> fmt::Result {
        let id = Part(self.0.id);
        let tile = Part(self.0.tile);
        let ext = Part(self.0.ext);
        write!(f, "({id},{tile},{ext})")
    }
}

/// A word of coordinates or of a float.
#[derive(Clone, Copy)]
struct Word {
    width: WordWidth,
    word: u64,
}

impl fmt::Display for Word {
    ghost use Rattle.std.specs.Prelude.{Some};
    ghost use Rattle.vpf_findings.specs.Text.Cells.{word_text};

    ghost output = { λ w. Some (word_text w.width w.word) };

    fn fmt<W: fmt::Write>(&self, f: &mut fmt::Formatter<W>) -> fmt::Result {
        let bytes = self.word.to_be_bytes();
        let digits = match self.width {
            WordWidth::Four => Hex(&bytes[4..]),
            WordWidth::Eight => Hex(&bytes),
        };
        write!(f, "{digits}")
    }
}

/// The word of a float.
#[derive(Clone, Copy)]
struct Float(Word);

impl fmt::Display for Float {
    ghost use Rattle.std.specs.Prelude.{Some};
    ghost use Rattle.vpf_findings.specs.Text.Cells.{float_text};

    ghost output = { λ f. Some (float_text f.0.width f.0.word) };

    fn fmt<W: fmt::Write>(&self, f: &mut fmt::Formatter<W>) -> fmt::Result {
        let word = self.0;
        write!(f, "w{word}")
    }
}

/// How many words the tuples of a kind of coordinates have.
fn tuple_len_of(kind: Kind) -> usize
    ensures value { result ≡ tuple_len_of kind }
    ensures some { 0 < result }
{
    match kind {
        Kind::Z | Kind::Y => 3,
        _ => 2,
    }
}

/// What stands before word `i`.
fn separator(tuple_len: usize, i: usize) -> &'static str
    requires { 0 < tuple_len }
    ensures { result.now ≡ separator tuple_len i }
{
    if i == 0 {
        ""
    } else if i % tuple_len == 0 {
        "; "
    } else {
        " "
    }
}

/// The words of coordinates of this kind.
#[derive(Clone, Copy)]
struct Words<'a> {
    kind: Kind,
    coords: Coords<'a>,
}

impl fmt::Display for Words<'_> {
    ghost use Rattle.std.specs.Prelude.{Some};
    ghost use Rattle.vpf_value.specs.Inner.Coordinates.{words, words_width};
    ghost use Rattle.vpf_findings.specs.Text.Cells.{words_text};

    ghost output = { λ w. Some (words_text (tuple_len_of w.kind) (words_width w.coords) 0 (words w.coords)) };

    fn fmt<W: fmt::Write>(&self, f: &mut fmt::Formatter<W>) -> fmt::Result {
        let coords = &self.coords;
        let tuple_len = tuple_len_of(self.kind);
        let width = coords.word_width();
        for i in 0..coords.len() {
            let before = separator(tuple_len, i);
            let word = coords.word(i);
            let word = Word { width, word };
            write!(f, "{before}{word}")?;
        }
        Ok(())
    }
}

/// Coordinates.
#[derive(Clone, Copy)]
struct Tuples<'a>(Words<'a>);

impl fmt::Display for Tuples<'_> {
    ghost use Rattle.std.specs.Prelude.{Some};
    ghost use Rattle.vpf_value.specs.Inner.Coordinates.{words, words_width};
    ghost use Rattle.vpf_findings.specs.Text.Cells.{coords_text};

    ghost output = { λ t. Some (coords_text (tuple_len_of t.0.kind) (words_width t.0.coords) (words t.0.coords)) };

    fn fmt<W: fmt::Write>(&self, f: &mut fmt::Formatter<W>) -> fmt::Result {
        let words = self.0;
        write!(f, "[{words}]")
    }
}

/// A cell of a column of this kind as it is printed: a text or a date in quotes, the word of a float as `w` and its digits
/// of base 16, a number in decimal, nothing as `-`, a triplet id as `(id,tile,ext)` with `-` for an absent part, and
/// coordinates as `[w w; w w]`, the words of a tuple parted by a space.
#[derive(Clone, Copy, Debug)]
pub struct CellText<'a> {
    /// The kind of the column.
    pub kind: Kind,
    /// The cell.
    pub cell: Cell<'a>,
}

impl fmt::Display for CellText<'_> {
    ghost use Rattle.std.specs.Prelude.{Some};
    ghost use Rattle.vpf_value.specs.Values.{view};
    ghost use Rattle.vpf_findings.specs.Text.Cells.{cell_text};

    ghost output = { λ c. Some (cell_text c.kind (view c.cell)) };

    fn fmt<W: fmt::Write>(&self, f: &mut fmt::Formatter<W>) -> fmt::Result {
        match self.cell {
            Cell::Text(bytes) | Cell::Date(bytes) => Quoted(bytes).fmt(f),
            Cell::Word4(word) => Float(Word {
                width: WordWidth::Four,
                word: u64::from(word),
            })
            .fmt(f),
            Cell::Word8(word) => Float(Word {
                width: WordWidth::Eight,
                word,
            })
            .fmt(f),
            Cell::Short(n) => write!(f, "{n}"),
            Cell::Long(n) => write!(f, "{n}"),
            Cell::Null => f.write_str("-"),
            Cell::Triplet(triplet) => Parts(triplet).fmt(f),
            Cell::Coords(coords) => Tuples(Words {
                kind: self.kind,
                coords,
            })
            .fmt(f),
        }
    }
}

/// Puts a cell of a column of this kind as it is printed. Fails only for want of memory, and then leaves a beginning of the
/// text behind what stood there.
pub fn put_cell(text: &mut String, kind: Kind, cell: &Cell<'_>) -> Result<(), AllocError>
    ensures { OnOk result (string_bytes text.new ≡ string_bytes text.old ++ cell_text kind (view cell.now)) }
{
    let shown = CellText { kind, cell: *cell };
    write!(text, "{shown}")
}
