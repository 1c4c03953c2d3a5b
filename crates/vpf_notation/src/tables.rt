//! Tables that a case spells.

ghost use Rattle.std.specs.Prelude.{◌<◌, IfOk, length};

use crate::cells::row_of;
use crate::fault::Why;
use crate::files::Files;
use crate::forms::Form;
use crate::words::split_words;
use std::alloc::{AllocError, Global};

/// A table under its name: its header text, the form that this says, and the bytes of each row.
#[derive(Drop)]
pub struct Table {
    name: String,
    header: String,
    form: Form,
    rows: Vec<Vec<u8>>,
}

/// A number that has to fit into four bytes.
fn four_bytes(number: usize) -> Result<u32, Why> {
    u32::try_from(number).map_err(|_| Why::Number)
}

/// The name of the variable-length index of a table: the table's, with `x` for its last character.
fn index_name(alloc: Global, name: &str) -> Result<String, AllocError> {
    let mut index = String::from_str(alloc, name)?;
    let _last = index.pop();
    index.push('x')?;
    Ok(index)
}

impl Table {
    /// A table without rows.
    pub fn new(alloc: Global, name: &str, header: &str) -> Result<Self, Why> {
        Ok(Table {
            name: String::from_str(alloc, name)?,
            header: String::from_str(alloc, header)?,
            form: Form::read(alloc, header)?,
            rows: Vec::new(alloc),
        })
    }

    /// The name of its file.
    pub fn name(&self) -> &str {
        &self.name
    }

    /// A copy of it.
    pub fn copied(&self, alloc: Global) -> Result<Self, Why> {
        let mut table = Table::new(alloc, &self.name, &self.header)?;
        for row in &self.rows {
            table.rows.push(Vec::from_slice(alloc, row)?)?;
        }
        Ok(table)
    }

    /// Gives it another header text, as it is; its rows stay.
    pub fn set_header(&mut self, alloc: Global, header: &str) -> Result<(), Why> {
        self.header = String::from_str(alloc, header)?;
        Ok(())
    }

    /// One row more.
    pub fn push(&mut self, alloc: Global, cells: &str) -> Result<(), Why> {
        let row = row_of(alloc, &self.form, &split_words(alloc, cells)?)?;
        Ok(self.rows.push(row)?)
    }

    /// One row less.
    pub fn pop(&mut self) -> Result<(), Why> {
        match self.rows.pop() {
            Some(_) => Ok(()),
            None => Err(Why::NoTable),
        }
    }

    /// Another row in place of row `k`, counted from 1.
    pub fn set(&mut self, alloc: Global, k: usize, cells: &str) -> Result<(), Why> {
        let row = row_of(alloc, &self.form, &split_words(alloc, cells)?)?;
        match k.checked_sub(1) {
            Some(at) if at < self.rows.len() => {
                self.rows[at] = row;
                Ok(())
            }
            _ => Err(Why::NoTable),
        }
    }

    /// The bytes of its file: the length of the header text, the text, and the rows.
    fn bytes(&self, alloc: Global) -> Result<Vec<u8>, Why> {
        let mut bytes = Vec::new(alloc);
        let len = four_bytes(self.header.len())?;
        self.form.order.put_u32(len, &mut bytes)?;
        bytes.extend_from_slice(self.header.as_bytes())?;
        for row in &self.rows {
            bytes.extend_from_slice(row)?;
        }
        Ok(bytes)
    }

    /// The bytes of its variable-length index: how many rows, the length of the header text, and of each row where it begins and how many
    /// bytes it has (MIL-STD-2407, 5.2.1, variable-length indexes).
    fn index(&self, alloc: Global) -> Result<Vec<u8>, Why> {
        let order = self.form.order;
        let mut bytes = Vec::new(alloc);
        order.put_u32(four_bytes(self.rows.len())?, &mut bytes)?;
        order.put_u32(four_bytes(self.header.len())?, &mut bytes)?;
        let mut at = self.header.len().saturating_add(4);
        for row in &self.rows {
            order.put_u32(four_bytes(at)?, &mut bytes)?;
            order.put_u32(four_bytes(row.len())?, &mut bytes)?;
            at = at.saturating_add(row.len());
        }
        Ok(bytes)
    }

    /// Puts its file among others, and that of its index where its rows vary.
    pub fn put_into(&self, alloc: Global, files: &mut Files) -> Result<(), Why> {
        files.put(&self.name, self.bytes(alloc)?)?;
        if self.form.varies() {
            files.put(&index_name(alloc, &self.name)?, self.index(alloc)?)?;
        }
        Ok(())
    }
}

/// Where the table of this name stands.
pub fn place_of(tables: &[Table], name: &str) -> Result<usize, Why>
    ensures { IfOk result (λ at. at < length tables.now) }
{
    match tables.iter().position(|table| table.name.as_str() == name) {
        Some(at) => Ok(at),
        None => Err(Why::NoTable),
    }
}
