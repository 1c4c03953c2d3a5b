//! The words that commands share.

ghost use Rattle.std.specs.Prelude.{◌≡◌, IfOk, List, ℕ, map, string_bytes};
ghost use Rattle.vpf_table_commands.specs.Words.{one_file};

use std::alloc::{AllocError, Global};
use std::marker::Model;
use vpf_source::Name;
use vpf_source::names::file_name;

/// A word that names no file. Contracts see it as the bytes of its text.
#[derive(Debug, Drop)]
pub struct Word {
    text: String,
}

impl Model for Word {
    ghost Value = { List ℕ };

    ghost view = { λ w. string_bytes w.text };
}

impl Word {
    /// The word of this text.
    pub fn new(text: String) -> Self
        ensures { result ≡ string_bytes text }
    {
        Word { text }
    }

    /// The word's text.
    pub fn as_str(&self) -> &str
        ensures { result.now ≡ self.now }
    {
        self.text.as_str()
    }
}

/// A word of its own.
pub(crate) fn word_of(alloc: Global, word: &str) -> Result<Word, AllocError>
    ensures { IfOk result (λ made. made ≡ word.now) }
{
    Ok(Word::new(String::from_str(alloc, word)?))
}

/// The file that words name where they are one word, and nothing where they name none.
pub(crate) fn one_file(alloc: Global, words: &[String]) -> Result<Option<Name>, AllocError>
    ensures { IfOk result (λ name. name ≡ one_file (map string_bytes words.now)) }
{
    match words {
        [word] => file_name(alloc, word),
        _ => Ok(None),
    }
}
