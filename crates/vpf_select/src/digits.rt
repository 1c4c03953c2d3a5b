//! The numbers of words.

ghost use Rattle.std.specs.Prelude.{◌≡◌, ◌-◌, ◌^◌, ◌<◌, ◌≤◌, true, IfSome, length, min, option_map};
ghost use Rattle.std.specs.Char.{digit_value, is_ascii_digit};
ghost use Rattle.std.specs.List.{list_all};
ghost use Rattle.std.specs.Str.Parse.{digits_value};
ghost use Rattle.vpf_select.specs.Words.{are_digits, digits_in, is_hex, negative, number_in, positive, word_in};

/// The largest number of 32 bits.
const MOST: u64 = 0xffff_ffff;

/// The number that the digits give, or the largest of 32 bits where it passes that.
fn capped_value(digits: &[u8]) -> u32
    requires { list_all is_ascii_digit digits.now ≡ true }
    ensures { result ≡ min (digits_value 10 digits.now) (2 ^ 32 - 1) }
{
    let mut value: u64 = 0;
    for digit in digits {
        value = (10 * value + u64::from(digit - b'0')).min(MOST);
    }
    value as u32
}

fn all_digits(bytes: &[u8]) -> bool
    ensures { result ≡ list_all is_ascii_digit bytes.now }
{
    bytes.iter().all(|b| b.is_ascii_digit())
}

fn are_digits(bytes: &[u8]) -> bool
    ensures value { result ≡ are_digits bytes.now }
    ensures each { result ≡ true → list_all is_ascii_digit bytes.now ≡ true }
{
    !bytes.is_empty() && all_digits(bytes)
}

/// The number of one or more digits, or the largest of 32 bits where it passes that.
fn digits_in(digits: &[u8]) -> Option<u32>
    ensures { result ≡ option_map (λ n. min n (2 ^ 32 - 1)) (digits_in digits.now) }
{
    if !are_digits(digits) {
        return None;
    }
    Some(capped_value(digits))
}

fn negative(half: u32, n: u32) -> Option<i32>
    requires { half ≤ 2 ^ 31 }
    ensures { result ≡ negative half n }
{
    if n > half {
        return None;
    }
    i32::try_from(-i64::from(n)).ok()
}

fn positive(half: u32, n: u32) -> Option<i32>
    requires { half ≤ 2 ^ 31 }
    ensures { result ≡ positive half n }
{
    if n >= half {
        return None;
    }
    i32::try_from(n).ok()
}

/// The signed number of a word: digits, or a minus and digits. It is one of a width of which `half` numbers are below zero.
pub fn number_in(half: u32, word: &[u8]) -> Option<i32>
    requires { half ≤ 2 ^ 31 }
    ensures { result ≡ number_in half word.now }
{
    match word {
        [b'-', digits @ ..] => negative(half, digits_in(digits)?),
        _ => positive(half, digits_in(word)?),
    }
}

fn is_hex(b: u8) -> bool
    ensures { result ≡ is_hex b }
{
    matches!(b, b'0'..=b'9' | b'a'..=b'f')
}

fn are_hex(digits: &[u8]) -> bool
    ensures { result ≡ list_all is_hex digits.now }
{
    digits.iter().all(|b| is_hex(*b))
}

/// The number of a digit of base 16.
fn hex_digit(b: u8) -> u8
    requires { is_hex b ≡ true }
    ensures value { result ≡ digit_value b }
    ensures small { result < 16 }
{
    if b <= b'9' { b - b'0' } else { b - b'a' + 10 }
}

/// The number that digits of base 16 give.
fn hex_value(digits: &[u8]) -> u64
    requires digits { list_all is_hex digits.now ≡ true }
    requires few { length digits.now ≤ 16 }
    ensures { result ≡ digits_value 16 digits.now }
{
    let mut value: u64 = 0;
    for digit in digits {
        value = 16 * value + u64::from(hex_digit(*digit));
    }
    value
}

/// The word of a float: a `w` and `len` digits of base 16.
pub fn word_in(len: usize, word: &[u8]) -> Option<u64>
    requires { len ≤ 16 }
    ensures value { result ≡ word_in len word.now }
    ensures room { IfSome result (λ n. n < 16 ^ len) }
{
    match word {
        [b'w', digits @ ..] if digits.len() == len && are_hex(digits) => Some(hex_value(digits)),
        _ => None,
    }
}
