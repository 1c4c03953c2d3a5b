//! Columns of a table.

use std::fmt;
use vpf_triplet::{Count, Kind};

/// How a column identifies rows: the key of its definition (MIL-STD-2407, 5.4, key type).
#[derive(Clone, Copy, Debug, PartialEq, Eq)]
pub enum Key {
    /// `P`: the table's primary key.
    Primary,
    /// `U`: no two rows have one value.
    Unique,
    /// `N`: rows may share a value.
    Many,
    /// Another capital letter.
    Other(u8),
}

impl fmt::Display for Key {
    ghost use Rattle.std.specs.Prelude.{Some};
    ghost use Rattle.vpf_head.specs.Fields.{key_text};

    ghost output = { λ key. Some (key_text key) };

    fn fmt<W: fmt::Write>(&self, f: &mut fmt::Formatter<W>) -> fmt::Result {
        match self {
            Key::Primary => f.write_str("P"),
            Key::Unique => f.write_str("U"),
            Key::Many => f.write_str("N"),
            Key::Other(letter) => f.write_char(char::from(*letter)),
        }
    }
}

/// A column of a table, whose texts are those of the file.
#[derive(Clone, Copy)]
pub struct Column<'a> {
    /// Its name, as the file writes it.
    pub name: &'a [u8],
    /// What its cells hold.
    pub kind: Kind,
    /// How many values a cell holds.
    pub count: Count,
    /// How it identifies rows.
    pub key: Key,
    /// What it is, in words.
    pub description: &'a [u8],
    /// The value description table that explains its values.
    pub values: Option<&'a [u8]>,
    /// Its thematic index.
    pub theme: Option<&'a [u8]>,
    /// Its narrative table.
    pub narrative: Option<&'a [u8]>,
}
