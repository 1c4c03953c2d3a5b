//! The kinds of fields, and how many values a field holds.

ghost use Rattle.std.specs.Prelude.{◌≡◌};
ghost use Rattle.vpf_triplet.specs.Kinds.{allows, kind_of, kind_text};

use std::fmt;

/// What a field of a table holds: the letter of its type in the header (MIL-STD-2407, 5.4, allowable field types).
#[derive(Clone, Copy, Debug, PartialEq, Eq)]
pub enum Kind {
    /// Text of the basic character set.
    T,
    /// Text of the first extended character set; counted in bytes here.
    L,
    /// Text of the second extended character set; counted in bytes here.
    M,
    /// Text of the third extended character set; counted in bytes here.
    N,
    /// A float of 4 bytes, kept as its word.
    F,
    /// A float of 8 bytes, kept as its word.
    R,
    /// A signed number of 2 bytes.
    S,
    /// A signed number of 4 bytes.
    I,
    /// A date of 20 bytes.
    D,
    /// A field that holds nothing.
    X,
    /// A triplet id.
    K,
    /// Coordinates: pairs of words of 4 bytes.
    C,
    /// Coordinates: pairs of words of 8 bytes.
    B,
    /// Coordinates: triples of words of 4 bytes.
    Z,
    /// Coordinates: triples of words of 8 bytes.
    Y,
}

impl fmt::Display for Kind {
    ghost use Rattle.std.specs.Prelude.{Some};
    ghost use Rattle.vpf_triplet.specs.Kinds.{kind_text};

    ghost output = { λ kind. Some (kind_text kind) };

    fn fmt<W: fmt::Write>(&self, f: &mut fmt::Formatter<W>) -> fmt::Result {
        f.write_str(self.letter())
    }
}

impl Kind {
    /// The letter that stands for the kind in a header.
    pub fn letter(self) -> &'static str
        ensures { result.now ≡ kind_text self }
    {
        match self {
            Kind::T => "T",
            Kind::L => "L",
            Kind::M => "M",
            Kind::N => "N",
            Kind::F => "F",
            Kind::R => "R",
            Kind::S => "S",
            Kind::I => "I",
            Kind::D => "D",
            Kind::X => "X",
            Kind::K => "K",
            Kind::C => "C",
            Kind::B => "B",
            Kind::Z => "Z",
            Kind::Y => "Y",
        }
    }

    /// The kind whose letter the text is, where it is one.
    pub fn of_letter(text: &[u8]) -> Option<Kind>
        ensures { result ≡ kind_of text.now }
    {
        match text {
            b"T" => Some(Kind::T),
            b"L" => Some(Kind::L),
            b"M" => Some(Kind::M),
            b"N" => Some(Kind::N),
            b"F" => Some(Kind::F),
            b"R" => Some(Kind::R),
            b"S" => Some(Kind::S),
            b"I" => Some(Kind::I),
            b"D" => Some(Kind::D),
            b"X" => Some(Kind::X),
            b"K" => Some(Kind::K),
            b"C" => Some(Kind::C),
            b"B" => Some(Kind::B),
            b"Z" => Some(Kind::Z),
            b"Y" => Some(Kind::Y),
            _ => None,
        }
    }

    /// Whether a field of this kind may hold so many values: text and coordinates any number, every other kind one.
    pub fn allows(self, count: Count) -> bool
        ensures { result ≡ allows self count }
    {
        match (self, count) {
            (Kind::T | Kind::L | Kind::M | Kind::N | Kind::C | Kind::B | Kind::Z | Kind::Y, _) =>
                true,
            (_, Count::Fixed(n)) => n == 1,
            (_, Count::Star) => false,
        }
    }
}

/// How many values a field holds: bytes of text, tuples of coordinates, and one of every other kind.
#[derive(Clone, Copy, Debug, PartialEq, Eq)]
pub enum Count {
    /// As many in each row.
    Fixed(u32),
    /// `*`: each row says how many.
    Star,
}

impl fmt::Display for Count {
    ghost use Rattle.std.specs.Prelude.{Some};
    ghost use Rattle.vpf_triplet.specs.Kinds.{count_text};

    ghost output = { λ count. Some (count_text count) };

    fn fmt<W: fmt::Write>(&self, f: &mut fmt::Formatter<W>) -> fmt::Result {
        match self {
            Count::Fixed(n) => write!(f, "{n}"),
            Count::Star => f.write_str("*"),
        }
    }
}
