//! What the items of a column definition say.

ghost use Rattle.std.specs.Prelude.{◌≡◌, ◌+◌, min, true};
ghost use Rattle.std.specs.Char.{is_ascii_digit};
ghost use Rattle.std.specs.List.{list_all};
ghost use Rattle.std.specs.Option.{option_copied};
ghost use Rattle.std.specs.Str.Parse.{digits_value};
ghost use Rattle.vpf_base.specs.Limits.{most_values};
ghost use Rattle.vpf_head.specs.Fields.{letter_key, key_of, after_spaces, digits_count, count_in, present};

use crate::columns::Key;
use vpf_base::limits::MOST_VALUES;
use vpf_triplet::{Count, Kind};

fn letter_key(letter: u8) -> Option<Key>
    ensures { result ≡ letter_key letter }
{
    match letter {
        b'P' => Some(Key::Primary),
        b'U' => Some(Key::Unique),
        b'N' => Some(Key::Many),
        _ if letter.is_ascii_uppercase() => Some(Key::Other(letter)),
        _ => None,
    }
}

/// The key whose letter the item is.
pub fn key_of(item: &[u8]) -> Option<Key>
    ensures { result ≡ key_of item.now }
{
    match item {
        [letter] => letter_key(*letter),
        _ => None,
    }
}

fn after_spaces(item: &[u8]) -> &[u8]
    ensures { result.now ≡ after_spaces item.now }
{
    let mut rest = item;
    while let [b' ', more @ ..] = rest {
        rest = more;
    }
    rest
}

fn are_digits(item: &[u8]) -> bool
    ensures { result ≡ list_all is_ascii_digit item.now }
{
    item.iter().all(|b| b.is_ascii_digit())
}

/// The number that the digits give, or one more than the largest count where it passes that.
fn capped_value(digits: &[u8]) -> u32
    requires { list_all is_ascii_digit digits.now ≡ true }
    ensures { result ≡ min (digits_value 10 digits.now) (most_values + 1) }
{
    let mut value: u32 = 0;
    for digit in digits {
        value = (10 * value + u32::from(digit - b'0')).min(MOST_VALUES + 1);
    }
    value
}

fn digits_count(digits: &[u8]) -> Option<Count>
    ensures { result ≡ digits_count digits.now }
{
    if digits.is_empty() {
        return None;
    }
    if !are_digits(digits) {
        return None;
    }
    match capped_value(digits) {
        value @ 1..=MOST_VALUES => Some(Count::Fixed(value)),
        _ => None,
    }
}

/// The count that the item gives: `*` or digits, after any spaces.
pub fn count_in(item: &[u8]) -> Option<Count>
    ensures { result ≡ count_in item.now }
{
    match after_spaces(item) {
        [b'*'] => Some(Count::Star),
        digits => digits_count(digits),
    }
}

/// The name that the item gives, absent where it is empty or `-`.
pub fn present(item: &[u8]) -> Option<&[u8]>
    ensures { option_copied result ≡ present item.now }
{
    match item {
        [] => None,
        [b'-'] => None,
        _ => Some(item),
    }
}
