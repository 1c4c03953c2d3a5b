//! The cells of a row, as a case spells them.
//!
//! They are put into bytes here, and not by what writes the tables of libraries, so that no case takes the program at its word.

ghost use Rattle.std.specs.Prelude.{◌<◌, ◌≤◌, IfSome, length};

use crate::fault::Why;
use crate::forms::{Field, Form};
use crate::words::{Word, digits};
use std::alloc::Global;
use vpf_triplet::{Kind, Order};

/// How many bytes a date has.
const DATE: usize = 20;

/// A row that is being spelled.
#[derive(Drop)]
struct Speller {
    alloc: Global,
    order: Order,
    row: Vec<u8>,
}

/// The one word of a cell.
fn one(words: &[Word]) -> Result<&Word, Why> {
    match words {
        [word] => Ok(word),
        _ => Err(Why::Cells),
    }
}

/// Where the bar behind the first cell stands.
fn bar(words: &[Word]) -> Option<usize>
    ensures { IfSome result (λ at. at < length words.now) }
{
    words.iter().position(|word| word.is(b"|"))
}

/// The words of the first cell, and those behind the bar, if there is one.
fn first_cell(words: &[Word]) -> (&[Word], Option<&[Word]>) {
    match bar(words) {
        Some(at) => (&words[..at], Some(&words[at + 1..])),
        None => (words, None),
    }
}

/// A part of a triplet: a number, or nothing.
fn part_of(text: &str) -> Result<Option<u32>, Why> {
    if text.is_empty() {
        return Ok(None);
    }
    match text.parse::<u32>() {
        Ok(number) => Ok(Some(number)),
        Err(_) => Err(Why::Number),
    }
}

/// The parts of a triplet: id, tile and external id.
fn parts_of(text: &str) -> Result<[Option<u32>; 3], Why> {
    let Some((id, rest)) = text.split_once('/') else {
        return Err(Why::Cells);
    };
    let Some((tile, ext)) = rest.split_once('/') else {
        return Err(Why::Cells);
    };
    Ok([part_of(id)?, part_of(tile)?, part_of(ext)?])
}

/// The two bits that stand for the least width that holds a part: of 0, 1, 2 and 4 bytes.
fn width_of(part: Option<u32>) -> u8
    ensures { result ≤ 3 }
{
    match part {
        None => 0,
        Some(number) if number < 0x100 => 1,
        Some(number) if number < 0x1_0000 => 2,
        Some(_) => 3,
    }
}

impl Speller {
    /// A part of a triplet, in its least width.
    fn put_part(&mut self, part: Option<u32>) -> Result<(), Why> {
        match part {
            None => Ok(()),
            Some(number) if number < 0x100 => Ok(self.row.push(number as u8)?),
            Some(number) if number < 0x1_0000 => {
                Ok(self.order.put_u16(number as u16, &mut self.row)?)
            }
            Some(number) => Ok(self.order.put_u32(number, &mut self.row)?),
        }
    }

    /// A triplet: `7//`, `7/2/9`.
    fn put_triplet(&mut self, words: &[Word]) -> Result<(), Why> {
        let text = one(words)?.text(self.alloc)?;
        let [id, tile, ext] = parts_of(text.as_str())?;
        let kind = width_of(id) << 6 | width_of(tile) << 4 | width_of(ext) << 2;
        self.row.push(kind)?;
        self.put_part(id)?;
        self.put_part(tile)?;
        self.put_part(ext)
    }

    /// How many values follow, where the column doesn't say it; else whether it says so many.
    fn put_count(&mut self, said: Option<usize>, count: usize) -> Result<(), Why> {
        match said {
            Some(said) if said == count => Ok(()),
            Some(_) => Err(Why::Cells),
            None => match u32::try_from(count) {
                Ok(count) => Ok(self.order.put_u32(count, &mut self.row)?),
                Err(_) => Err(Why::Number),
            },
        }
    }

    /// A text in quotes.
    fn put_text(&mut self, count: Option<usize>, words: &[Word]) -> Result<(), Why> {
        let word = one(words)?;
        if !word.is_quoted() {
            return Err(Why::Cells);
        }
        let text = word.spelled(self.alloc)?;
        self.put_count(count, text.len())?;
        Ok(self.row.extend_from_slice(&text)?)
    }

    /// A signed number of two bytes.
    fn put_short(&mut self, words: &[Word]) -> Result<(), Why> {
        let text = one(words)?.text(self.alloc)?;
        match text.parse::<i16>() {
            Ok(number) => Ok(self.order.put_u16(number.cast_unsigned(), &mut self.row)?),
            Err(_) => Err(Why::Number),
        }
    }

    /// A signed number of four bytes.
    fn put_long(&mut self, words: &[Word]) -> Result<(), Why> {
        let text = one(words)?.text(self.alloc)?;
        match text.parse::<i32>() {
            Ok(number) => Ok(self.order.put_u32(number.cast_unsigned(), &mut self.row)?),
            Err(_) => Err(Why::Number),
        }
    }

    /// A word of so many bytes, by its digits.
    fn put_digits(&mut self, text: &str, width: usize) -> Result<(), Why> {
        let mut bytes = digits(self.alloc, text.as_bytes())?;
        if bytes.len() != width {
            return Err(Why::Cells);
        }
        if self.order == Order::Little {
            bytes.reverse();
        }
        Ok(self.row.extend_from_slice(&bytes)?)
    }

    /// A float as its word, `w3f800000`.
    fn put_float(&mut self, words: &[Word], width: usize) -> Result<(), Why> {
        let text = one(words)?.text(self.alloc)?;
        match text.as_str().strip_prefix('w') {
            Some(digits) => self.put_digits(digits, width),
            None => Err(Why::Cells),
        }
    }

    /// Coordinates, `[00000001 00000002; 00000003 00000004]`, in tuples of so many words of so many bytes.
    fn put_coordinates(
        &mut self,
        count: Option<usize>,
        tuple: usize,
        width: usize,
        words: &[Word],
    ) -> Result<(), Why> {
        let mut texts = Vec::new(self.alloc);
        for word in words {
            let text = word.text(self.alloc)?;
            let digits = text.as_str().trim_matches(['[', ']', ';']);
            if !digits.is_empty() {
                texts.push(String::from_str(self.alloc, digits)?)?;
            }
        }
        self.put_count(count, texts.len().checked_div(tuple).unwrap_or(0))?;
        for text in &texts {
            self.put_digits(text, width)?;
        }
        Ok(())
    }

    /// Nothing, `-`.
    fn put_nothing(&mut self, words: &[Word]) -> Result<(), Why> {
        match one(words)?.is(b"-") {
            true => Ok(()),
            false => Err(Why::Cells),
        }
    }

    /// A cell of a column.
    fn put_cell(&mut self, field: Field, words: &[Word]) -> Result<(), Why> {
        match field.kind {
            Kind::T | Kind::L | Kind::M | Kind::N => self.put_text(field.count, words),
            Kind::D => self.put_text(Some(DATE), words),
            Kind::S => self.put_short(words),
            Kind::I => self.put_long(words),
            Kind::F => self.put_float(words, 4),
            Kind::R => self.put_float(words, 8),
            Kind::X => self.put_nothing(words),
            Kind::K => self.put_triplet(words),
            Kind::C => self.put_coordinates(field.count, 2, 4, words),
            Kind::B => self.put_coordinates(field.count, 2, 8, words),
            Kind::Z => self.put_coordinates(field.count, 3, 4, words),
            Kind::Y => self.put_coordinates(field.count, 3, 8, words),
        }
    }
}

/// The bytes of a row: its cells, with a bar between two of them.
pub fn row_of(alloc: Global, form: &Form, words: &[Word]) -> Result<Vec<u8>, Why> {
    let mut speller = Speller {
        alloc,
        order: form.order,
        row: Vec::new(alloc),
    };
    let mut left = Some(words);
    for field in &form.fields {
        let Some(words) = left else {
            return Err(Why::Cells);
        };
        let (cell, rest) = first_cell(words);
        speller.put_cell(*field, cell)?;
        left = rest;
    }
    match left {
        None => Ok(speller.row),
        Some(_) => Err(Why::Cells),
    }
}
