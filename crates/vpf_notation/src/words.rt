//! The words of a line.

use crate::fault::Why;
use hex::FromHexError;
use std::alloc::{AllocError, Global};
use std::mem;

/// A word: its bytes, whether they stood in quotes, and how often they are meant.
#[derive(Drop)]
pub struct Word {
    bytes: Vec<u8>,
    quoted: bool,
    times: u32,
}

impl Word {
    /// Whether it is this one, without quotes.
    pub fn is(&self, text: &[u8]) -> bool {
        !self.quoted && self.bytes.as_slice() == text
    }

    /// Whether it stood in quotes.
    pub fn is_quoted(&self) -> bool {
        self.quoted
    }

    /// Its text.
    pub fn text(&self, alloc: Global) -> Result<String, Why> {
        let bytes = repeated(alloc, &self.bytes, self.times)?;
        match String::from_utf8(bytes) {
            Ok(text) => Ok(text),
            Err(_) => Err(Why::NotText),
        }
    }

    /// The bytes that it spells: those between its quotes, or those of its digits.
    pub fn spelled(&self, alloc: Global) -> Result<Vec<u8>, Why> {
        if self.quoted {
            return Ok(repeated(alloc, &self.bytes, self.times)?);
        }
        let bytes = digits(alloc, &self.bytes)?;
        Ok(repeated(alloc, &bytes, self.times)?)
    }
}

/// The bytes of hexadecimal digits, two a byte.
pub fn digits(alloc: Global, digits: &[u8]) -> Result<Vec<u8>, Why> {
    match hex::decode(alloc, digits) {
        Ok(bytes) => Ok(bytes),
        Err(FromHexError::OutOfMemory) => Err(Why::NoMemory),
        Err(_) => Err(Why::Bytes),
    }
}

/// Bytes so many times.
fn repeated(alloc: Global, bytes: &[u8], times: u32) -> Result<Vec<u8>, AllocError> {
    if let [byte] = bytes {
        return vec![in alloc; *byte; times as usize];
    }
    let mut whole = Vec::new(alloc);
    for _ in 0..times {
        whole.extend_from_slice(bytes)?;
    }
    Ok(whole)
}

/// Where in a line the reader stands.
#[derive(Clone, Copy)]
enum State {
    /// Between words.
    Between,
    /// In a word without quotes.
    Plain,
    /// In a word within quotes.
    Quoted,
    /// Behind a backslash there.
    Escape,
    /// Behind a backslash and this digit there.
    Digit(u8),
    /// Behind the quote that ends a word.
    Closed,
}

/// A line that is split into words.
#[derive(Drop)]
struct Splitter {
    alloc: Global,
    words: Vec<Word>,
    word: Vec<u8>,
    tail: Vec<u8>,
    state: State,
}

/// The number in the digits of bytes.
fn number_of(bytes: &[u8]) -> Option<u32> {
    let text = str::from_utf8(bytes).ok()?;
    text.parse::<u32>().ok()
}

/// Where the last star of bytes stands, if a number is behind it.
fn repeat_of(bytes: &[u8]) -> Option<(&[u8], u32)> {
    let at = bytes.iter().rposition(|byte| *byte == b'*')?;
    let times = number_of(bytes.get(at + 1..)?)?;
    Some((bytes.get(..at)?, times))
}

/// A word without quotes: a number behind its last star says how often the front is meant.
fn plain_word(alloc: Global, bytes: Vec<u8>) -> Result<Word, AllocError> {
    if let Some((front, times)) = repeat_of(&bytes) {
        let bytes = Vec::from_slice(alloc, front)?;
        return Ok(Word {
            bytes,
            quoted: false,
            times,
        });
    }
    Ok(Word {
        bytes,
        quoted: false,
        times: 1,
    })
}

/// How often a word in quotes is meant, by what stands behind them: once where nothing does, or a star and a number.
fn times_of(tail: &[u8]) -> Option<u32> {
    match tail {
        [] => Some(1),
        [b'*', digits @ ..] => number_of(digits),
        _ => None,
    }
}

/// The byte of two hexadecimal digits.
fn byte_of(high: u8, low: u8) -> Option<u8> {
    let high = char::from(high).to_digit(16)?;
    let low = char::from(low).to_digit(16)?;
    u8::try_from(high * 16 + low).ok()
}

impl Splitter {
    /// What was collected of a word so far, which is then empty.
    fn take_word(&mut self) -> Vec<u8> {
        mem::replace(&mut self.word, Vec::new(self.alloc))
    }

    /// Ends a word without quotes.
    fn end_plain(&mut self) -> Result<(), Why> {
        let bytes = self.take_word();
        self.words.push(plain_word(self.alloc, bytes)?)?;
        self.state = State::Between;
        Ok(())
    }

    /// Ends a word within quotes.
    fn end_quoted(&mut self) -> Result<(), Why> {
        let Some(times) = times_of(&self.tail) else {
            return Err(Why::Quote);
        };
        let bytes = self.take_word();
        self.tail.clear();
        self.words.push(Word {
            bytes,
            quoted: true,
            times,
        })?;
        self.state = State::Between;
        Ok(())
    }

    /// A byte between words.
    fn between(&mut self, byte: u8) -> Result<(), Why> {
        match byte {
            b' ' => {}
            b'"' => self.state = State::Quoted,
            _ => {
                self.state = State::Plain;
                self.word.push(byte)?;
            }
        }
        Ok(())
    }

    /// A byte of a word without quotes.
    fn plain(&mut self, byte: u8) -> Result<(), Why> {
        match byte {
            b' ' => self.end_plain(),
            b'"' => Err(Why::Quote),
            _ => Ok(self.word.push(byte)?),
        }
    }

    /// A byte of a word within quotes.
    fn quoted(&mut self, byte: u8) -> Result<(), Why> {
        match byte {
            b'"' => self.state = State::Closed,
            b'\\' => self.state = State::Escape,
            _ => self.word.push(byte)?,
        }
        Ok(())
    }

    /// The second digit behind a backslash.
    fn escaped(&mut self, high: u8, low: u8) -> Result<(), Why> {
        match byte_of(high, low) {
            Some(byte) => self.word.push(byte)?,
            None => return Err(Why::Bytes),
        }
        self.state = State::Quoted;
        Ok(())
    }

    /// A byte behind the quote that ends a word.
    fn closed(&mut self, byte: u8) -> Result<(), Why> {
        match byte {
            b' ' => self.end_quoted(),
            _ => Ok(self.tail.push(byte)?),
        }
    }

    /// The next byte of the line.
    fn step(&mut self, byte: u8) -> Result<(), Why> {
        match self.state {
            State::Between => self.between(byte),
            State::Plain => self.plain(byte),
            State::Quoted => self.quoted(byte),
            State::Escape => {
                self.state = State::Digit(byte);
                Ok(())
            }
            State::Digit(high) => self.escaped(high, byte),
            State::Closed => self.closed(byte),
        }
    }

    /// The end of the line.
    fn end(&mut self) -> Result<(), Why> {
        match self.state {
            State::Between => Ok(()),
            State::Plain => self.end_plain(),
            State::Closed => self.end_quoted(),
            _ => Err(Why::Quote),
        }
    }
}

/// The words of a line: what stands between blanks, or within quotes, where a backslash with two digits is any byte. A star and a number
/// behind a word say how often it is meant.
pub fn split_words(alloc: Global, line: &str) -> Result<Vec<Word>, Why> {
    let mut splitter = Splitter {
        alloc,
        words: Vec::new(alloc),
        word: Vec::new(alloc),
        tail: Vec::new(alloc),
        state: State::Between,
    };
    for byte in line.bytes() {
        splitter.step(byte)?;
    }
    splitter.end()?;
    Ok(splitter.words)
}

/// The texts of the words of a line.
pub fn split_texts(alloc: Global, line: &str) -> Result<Vec<String>, Why> {
    let mut texts = Vec::new(alloc);
    for word in &split_words(alloc, line)? {
        texts.push(word.text(alloc)?)?;
    }
    Ok(texts)
}

/// The bytes that the words of a line spell, one behind another.
pub fn split_bytes(alloc: Global, line: &str) -> Result<Vec<u8>, Why> {
    let mut bytes = Vec::new(alloc);
    for word in &split_words(alloc, line)? {
        bytes.extend_from_slice(&word.spelled(alloc)?)?;
    }
    Ok(bytes)
}
