//! The values of words.

ghost use Rattle.std.specs.Prelude.{◌≡◌, ◌≤◌, ◌^◌, IfOk, IsTrue, option_map};
ghost use Rattle.vpf_triplet.specs.Kinds.{allows};
ghost use Rattle.vpf_value.specs.Values.{DateOf, NumberOf, Word4Of, Word8Of, date_bytes};
ghost use Rattle.vpf_value.specs.Inner.Fitting.{FitsCell};
ghost use Rattle.vpf_select.specs.Words.{Says, filled, number_in, text_in, value_in, word_in};

use crate::digits::{number_in, word_in};
use crate::laws::words_fit;
use crate::value::{Owned, Value, ValueError};
use std::alloc::Global;
use vpf_triplet::{Count, Kind};

/// How many bytes a date has.
const DATE_BYTES: usize = 20;

/// How many numbers of 2 bytes are below zero.
const SHORTS_BELOW: u32 = 0x8000;

/// How many numbers of 4 bytes are below zero.
const LONGS_BELOW: u32 = 0x8000_0000;

/// The bytes of the word, filled with spaces to the width.
fn filled(alloc: Global, width: usize, word: &[u8]) -> Result<Vec<u8>, ValueError>
    ensures { Says (λ v. v.items) result (filled width word.now) }
{
    if word.len() > width {
        return Err(ValueError::Bad);
    }
    let mut bytes = word.to_vec(alloc)?;
    bytes.resize(width, b' ')?;
    Ok(bytes)
}

fn text_in(alloc: Global, count: Count, word: &[u8]) -> Result<Value, ValueError>
    ensures { Says (λ v. v) result (text_in count word.now) }
{
    let text = match count {
        Count::Fixed(n) => filled(alloc, n as usize, word)?,
        Count::Star if word.len() > u32::MAX as usize => return Err(ValueError::Bad),
        Count::Star => word.to_vec(alloc)?,
    };
    Ok(Value::new(Owned::Text(text)))
}

fn date_in(alloc: Global, word: &[u8]) -> Result<Value, ValueError>
    ensures { Says (λ v. v) result (option_map DateOf (filled date_bytes word.now)) }
{
    Ok(Value::new(Owned::Date(filled(alloc, DATE_BYTES, word)?)))
}

fn number_value(below: u32, word: &[u8]) -> Result<Value, ValueError>
    requires { below ≤ 2 ^ 31 }
    ensures { Says (λ v. v) result (option_map NumberOf (number_in below word.now)) }
{
    match number_in(below, word) {
        Some(number) => Ok(Value::new(Owned::Number(number))),
        None => Err(ValueError::Bad),
    }
}

fn word4_value(word: &[u8]) -> Result<Value, ValueError>
    ensures { Says (λ v. v) result (option_map Word4Of (word_in 8 word.now)) }
{
    match word_in(8, word) {
        Some(number) => Ok(Value::new(Owned::Word4(number as u32))),
        None => Err(ValueError::Bad),
    }
}

fn word8_value(word: &[u8]) -> Result<Value, ValueError>
    ensures { Says (λ v. v) result (option_map Word8Of (word_in 16 word.now)) }
{
    match word_in(16, word) {
        Some(number) => Ok(Value::new(Owned::Word8(number))),
        None => Err(ValueError::Bad),
    }
}

/// The value that the word has in a column of this kind and count. A text of so many bytes and a date take the word's
/// bytes, filled with spaces; a longer word is bad. A text of any length takes them as they are, fewer than 2^32. A number
/// is digits in its range, maybe behind a minus. A float is a `w` and the 8 or 16 lower-case digits of its word. In columns
/// of triplet ids, of coordinates and of nothing each word is bad.
#[tactic(auto, unfolding(crate::specs::Words::value_in))]
pub fn value_of(alloc: Global, kind: Kind, count: Count, word: &[u8]) -> Result<Value, ValueError>
    // The value, or Bad exactly where there is none.
    ensures value { Says (λ v. v) result (value_in kind count word.now) }
    // It fits the column where the kind allows the count.
    ensures fits { IsTrue (allows kind count) → IfOk result (λ v. FitsCell kind count v) }
{
    words_fit();
    match kind {
        Kind::T | Kind::L | Kind::M | Kind::N => text_in(alloc, count, word),
        Kind::F => word4_value(word),
        Kind::R => word8_value(word),
        Kind::S => number_value(SHORTS_BELOW, word),
        Kind::I => number_value(LONGS_BELOW, word),
        Kind::D => date_in(alloc, word),
        Kind::X | Kind::K | Kind::C | Kind::B | Kind::Z | Kind::Y => Err(ValueError::Bad),
    }
}
