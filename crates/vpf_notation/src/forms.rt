//! What the header text of a table says of its rows.

use crate::fault::Why;
use std::alloc::Global;
use vpf_triplet::{Kind, Order};

/// A column.
#[derive(Clone, Copy)]
pub struct Field {
    /// Its kind.
    pub kind: Kind,
    /// How many values its cells have, unless each says so itself.
    pub count: Option<usize>,
}

impl Field {
    /// Whether its cells may have different lengths.
    pub fn varies(self) -> bool {
        self.count.is_none() || self.kind == Kind::K
    }
}

/// The byte order of a table, and its columns.
#[derive(Drop)]
pub struct Form {
    /// The order.
    pub order: Order,
    /// The columns.
    pub fields: Vec<Field>,
}

/// What stands before and behind the first of these characters.
fn parts(text: &str, at: char) -> Result<(&str, &str), Why> {
    match text.split_once(at) {
        Some(parts) => Ok(parts),
        None => Err(Why::Header),
    }
}

/// The count of a column.
fn count_of(text: &str) -> Result<Option<usize>, Why> {
    match text.trim() {
        "*" => Ok(None),
        digits => match digits.parse::<usize>() {
            Ok(count) => Ok(Some(count)),
            Err(_) => Err(Why::Header),
        },
    }
}

/// A column, by its definition.
fn field_of(column: &str) -> Result<Field, Why> {
    let (_name, rest) = parts(column, '=')?;
    let (letter, rest) = parts(rest, ',')?;
    let (count, _rest) = parts(rest, ',')?;
    match Kind::of_letter(letter.as_bytes()) {
        Some(kind) => Ok(Field {
            kind,
            count: count_of(count)?,
        }),
        None => Err(Why::Header),
    }
}

impl Form {
    /// The form that a header text says (MIL-STD-2407, 5.2.1, table headers): an order mark that may be missing, a description, a narrative and
    /// columns.
    pub fn read(alloc: Global, header: &str) -> Result<Form, Why> {
        let (order, text) = match header.strip_prefix("M;") {
            Some(text) => (Order::Big, text),
            None => (Order::Little, header.strip_prefix("L;").unwrap_or(header)),
        };
        let (_description, text) = parts(text, ';')?;
        let (_narrative, text) = parts(text, ';')?;
        let (columns, _rest) = parts(text, ';')?;
        let mut fields = Vec::new(alloc);
        for column in columns.split(':') {
            if !column.is_empty() {
                fields.push(field_of(column)?)?;
            }
        }
        Ok(Form { order, fields })
    }

    /// Whether rows may have different lengths.
    pub fn varies(&self) -> bool {
        self.fields.iter().any(|field| field.varies())
    }
}
