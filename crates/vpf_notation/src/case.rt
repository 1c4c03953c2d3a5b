//! A case.

use crate::fault::Why;
use crate::files::Files;
use crate::tables::Table;
use crate::words::{split_texts, split_words};
use std::alloc::{AllocError, Global};

/// Words of the program, with what it ends with and prints.
#[derive(Drop)]
pub struct Run {
    /// The line of the words.
    pub line: usize,
    /// The words.
    pub words: Vec<String>,
    /// The exit status, once it is said.
    pub status: Option<u8>,
    /// The text.
    pub text: String,
}

/// Whether a file stands before the words are asked, or comes of them.
#[derive(Clone, Copy)]
pub enum Side {
    /// It stands before.
    Before,
    /// It is made.
    Made,
}

/// Words over files, one after another, and what stands afterwards.
#[derive(Drop)]
pub struct Case {
    /// The line of its name.
    pub line: usize,
    /// Its name.
    pub title: String,
    /// What it is there for.
    pub tags: Vec<String>,
    /// The files that stand before.
    pub files: Files,
    /// What is asked.
    pub runs: Vec<Run>,
    /// The files that stand afterwards besides, or in place of those before.
    pub made: Files,
    /// Whether it is asked over files in memory alone.
    pub memory: bool,
    /// Whether it is asked with long pieces alone.
    pub once: bool,
    /// The tables among the files that stand before.
    pub(crate) tables: Vec<Table>,
    /// The table whose rows are being told.
    begun: Option<(Side, Table)>,
}

/// The words of a text that stand between white space.
pub fn texts_of(alloc: Global, text: &str) -> Result<Vec<String>, AllocError> {
    let mut texts = Vec::new(alloc);
    for word in text.split_whitespace() {
        texts.push(String::from_str(alloc, word)?)?;
    }
    Ok(texts)
}

/// The tags in front of a name, and the name.
fn parts_of(title: &str) -> (&str, &str) {
    match title.strip_prefix('[') {
        Some(rest) => rest.split_once("] ").unwrap_or(("", title)),
        None => ("", title),
    }
}

impl Case {
    /// The case of this name, which asks nothing yet.
    pub fn new(alloc: Global, line: usize, title: &str) -> Result<Self, AllocError> {
        let (tags, title) = parts_of(title);
        let tags = texts_of(alloc, tags)?;
        let title = String::from_str(alloc, title)?;
        Ok(Case {
            line,
            title,
            tags,
            files: Files::new(alloc),
            runs: Vec::new(alloc),
            made: Files::new(alloc),
            memory: false,
            once: false,
            tables: Vec::new(alloc),
            begun: None,
        })
    }

    /// Begins a table, whose rows are told next.
    pub fn begin(&mut self, side: Side, table: Table) {
        self.begun = Some((side, table));
    }

    /// A row of the table that is begun.
    pub fn put_row(&mut self, alloc: Global, cells: &str) -> Result<(), Why> {
        match &mut self.begun {
            Some((_, table)) => table.push(alloc, cells),
            None => Err(Why::NoTable),
        }
    }

    /// Puts the table that is begun among the files, where there is one: its rows are told.
    pub fn end_table(&mut self, alloc: Global) -> Result<(), Why> {
        match self.begun.take() {
            Some((Side::Before, table)) => {
                table.put_into(alloc, &mut self.files)?;
                self.put_table(table)
            }
            Some((Side::Made, table)) => table.put_into(alloc, &mut self.made),
            None => Ok(()),
        }
    }

    /// Keeps a table, in place of an earlier one of its name.
    pub fn put_table(&mut self, table: Table) -> Result<(), Why> {
        self.tables.retain(|it| it.name() != table.name());
        Ok(self.tables.push(table)?)
    }

    /// Asks these words next.
    pub fn ask(&mut self, alloc: Global, line: usize, words: &str) -> Result<(), Why> {
        let words = split_texts(alloc, words)?;
        let run = Run {
            line,
            words,
            status: None,
            text: String::new(alloc),
        };
        Ok(self.runs.push(run)?)
    }

    /// What was asked last.
    pub fn last_run(&mut self) -> Result<&mut Run, Why> {
        self.runs.last_mut().ok_or(Why::NoWords)
    }
}

impl Run {
    /// One more line of the text.
    pub fn put_line(&mut self, line: &str) -> Result<(), Why> {
        self.text.push_str(line)?;
        Ok(self.text.push('\n')?)
    }

    /// One more line of the text, in words that are put together.
    pub fn put_words(&mut self, alloc: Global, words: &str) -> Result<(), Why> {
        for word in &split_words(alloc, words)? {
            self.text.push_str(word.text(alloc)?.as_str())?;
        }
        Ok(self.text.push('\n')?)
    }

    /// The status, and behind a blank the first line of the text.
    pub fn answer(&mut self, answer: &str) -> Result<(), Why> {
        let status = match answer.split_once(' ') {
            Some((status, line)) => {
                self.put_line(line)?;
                status
            }
            None => answer,
        };
        match status.parse::<u8>() {
            Ok(status) => self.status = Some(status),
            Err(_) => return Err(Why::Number),
        }
        Ok(())
    }
}
