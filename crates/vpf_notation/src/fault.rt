//! Why a text holds no cases.

use std::alloc::{AllocError, AllocFailed};
use thiserror::Error;

/// What is wrong with a line.
#[derive(Clone, Copy, Debug, PartialEq, Eq, Error)]
pub enum Why {
    /// There was no memory for it.
    #[error("out of memory")]
    NoMemory,
    /// It stands before the first case.
    #[error("no case has begun")]
    NoCase,
    /// Its first word says nothing.
    #[error("no such word")]
    Unknown,
    /// Its words are not those that its first word wants.
    #[error("not the words that this line wants")]
    Form,
    /// It has digits that are no bytes.
    #[error("no bytes")]
    Bytes,
    /// It has a number that is none, or too large.
    #[error("no such number")]
    Number,
    /// A word of it is no text.
    #[error("a word that is no text")]
    NotText,
    /// A quote stands open or in the midst of a word.
    #[error("a quote out of place")]
    Quote,
    /// Its header text has no columns.
    #[error("a header without columns")]
    Header,
    /// Its cells are not those of the table's columns.
    #[error("not the cells of this table")]
    Cells,
    /// It names a table, or a row of one, that the case hasn't.
    #[error("no such table or row")]
    NoTable,
    /// It names a file that the case hasn't.
    #[error("no such file")]
    NoFile,
    /// It names the files of a case that there isn't.
    #[error("no such case")]
    NoFiles,
    /// It names bytes behind the end of a file.
    #[error("behind the end of the file")]
    PastEnd,
    /// It answers no words.
    #[error("an answer to no words")]
    NoWords,
    /// Its words have no answer.
    #[error("words with no answer")]
    NoAnswer,
}

impl From<AllocError> for Why {
    fn from(_: AllocError) -> Self {
        Why::NoMemory
    }
}

impl<T: Drop> From<AllocFailed<T>> for Why {
    fn from(_: AllocFailed<T>) -> Self {
        Why::NoMemory
    }
}

/// The first line that is wrong.
#[derive(Clone, Copy, Debug, PartialEq, Eq, Error)]
#[error("{line}: {why}")]
pub struct Fault {
    /// The line, counted from 1.
    pub line: usize,
    /// What is wrong with it.
    pub why: Why,
}
