//! Lists of coordinates, whose words stay in the file.

ghost use Rattle.std.specs.Prelude.{◌≡◌, ◌+◌, ◌*◌, ◌≤◌, length, drop};
ghost use Rattle.vpf_triplet.specs.Bytes.{IsBytes};
ghost use Rattle.vpf_base.specs.Numbers.{number_of};
ghost use Rattle.vpf_value.specs.Words.{word_bytes, tuple_len, number_width};

use vpf_triplet::Order;

/// How many bytes a word of coordinates takes.
#[derive(Clone, Copy, Debug, PartialEq, Eq)]
pub enum WordWidth {
    /// 4 bytes: kinds C and Z.
    Four,
    /// 8 bytes: kinds B and Y.
    Eight,
}

impl WordWidth {
    /// The number of bytes, 4 or 8.
    #[inline]
    pub fn bytes(self) -> usize
        ensures { result ≡ word_bytes self }
    {
        match self {
            WordWidth::Four => 4,
            WordWidth::Eight => 8,
        }
    }
}

/// How many coordinates a tuple has.
#[derive(Clone, Copy, Debug, PartialEq, Eq)]
pub enum Tuple {
    /// Two: kinds C and B.
    Pair,
    /// Three: kinds Z and Y.
    Triple,
}

impl Tuple {
    /// The number of coordinates, 2 or 3.
    #[inline]
    pub fn len(self) -> usize
        ensures { result ≡ tuple_len self }
    {
        match self {
            Tuple::Pair => 2,
            Tuple::Triple => 3,
        }
    }
}

/// How many bytes so many tuples take.
#[inline]
pub fn tuples_bytes(width: WordWidth, tuple: Tuple, count: u32) -> usize
    ensures { result ≡ word_bytes width * (tuple_len tuple * count) }
{
    let count = count as usize;
    match (width, tuple) {
        (WordWidth::Four, Tuple::Pair) => 8 * count,
        (WordWidth::Eight, Tuple::Pair) => 16 * count,
        (WordWidth::Four, Tuple::Triple) => 12 * count,
        (WordWidth::Eight, Tuple::Triple) => 24 * count,
    }
}

#[inline]
fn word_at(order: Order, width: WordWidth, bytes: &[u8], i: usize) -> u64
    requires { word_bytes width * i + word_bytes width ≤ length bytes.now }
    ensures { result ≡ number_of order (number_width width) (drop (word_bytes width * i) bytes.now) }
{
    let _end = bytes.len();
    match width {
        WordWidth::Four => u64::from(order.u32_from(&bytes[4 * i..])),
        WordWidth::Eight => order.u64_from(&bytes[8 * i..]),
    }
}

/// A list of coordinates: tuples of unsigned words, borrowed from the file.
#[derive(Clone, Copy, Debug)]
pub struct Coords<'a> {
    order: Order,
    width: WordWidth,
    tuple: Tuple,
    bytes: &'a [u8],
    ghost are_bytes: { IsBytes bytes.now },
}

impl<'a> Coords<'a> {
    ghost use Rattle.std.specs.Prelude.{◌≡◌, ◌<◌, ◌*◌, ◌↔◌, [], length, slice_index, IsTrue};
    ghost use Rattle.vpf_value.specs.Words.{word_bytes, tuple_len};
    ghost use Rattle.vpf_value.specs.Inner.Coordinates.{words, words_in, words_width, tuple_of};

    /// The words that the bytes spell.
    #[inline]
    pub(crate) fn new(order: Order, width: WordWidth, tuple: Tuple, bytes: &'a [u8]) -> Coords<'a>
        ensures listed { words result ≡ words_in order width bytes.now }
        ensures wide { words_width result ≡ width }
        ensures tupled { tuple_of result ≡ tuple }
    {
        Coords {
            order,
            width,
            tuple,
            bytes,
        }
    }

    /// How many bytes each word takes.
    #[inline]
    pub fn word_width(&self) -> WordWidth
        ensures { result ≡ words_width self.now }
    {
        self.width
    }

    /// How many coordinates each tuple has, 2 or 3.
    #[inline]
    pub fn tuple_len(&self) -> usize
        ensures { result ≡ tuple_len (tuple_of self.now) }
    {
        self.tuple.len()
    }

    /// The number of words, those of all tuples.
    #[inline]
    pub fn len(&self) -> usize
        ensures { result ≡ length (words self.now) }
    {
        match self.width {
            WordWidth::Four => self.bytes.len() / 4,
            WordWidth::Eight => self.bytes.len() / 8,
        }
    }

    /// How many bytes all words take.
    #[inline]
    pub(crate) fn words_bytes(&self) -> usize
        ensures { result ≡ word_bytes (words_width self.now) * length (words self.now) }
    {
        match self.width {
            WordWidth::Four => self.bytes.len() / 4 * 4,
            WordWidth::Eight => self.bytes.len() / 8 * 8,
        }
    }

    /// Whether there are no words.
    #[inline]
    pub fn is_empty(&self) -> bool
        ensures { IsTrue result ↔ (words self.now ≡ []) }
    {
        self.len() == 0
    }

    /// Word `i`, counted from 0.
    #[inline]
    pub fn word(&self, i: usize) -> u64
        requires { i < length (words self.now) }
        ensures { result ≡ slice_index (words self.now) i }
    {
        word_at(self.order, self.width, self.bytes, i)
    }
}
