//! Darts: the two directions of an edge.

ghost use Rattle.std.specs.Prelude.{◌≡◌, ◌↔◌, ◌<◌, ◌^◌, IsTrue, not};
ghost use Rattle.vpf_darts.specs.Darts.{sign_text};

use std::fmt;

/// One of the two directions of an edge of an untiled coverage.
///
/// `e+` runs from the start node of edge `e` to its end node and has the right face, and `e-` runs back and
/// has the left face. Darts are ordered by edge, and `+` comes before `-`.
#[derive(Clone, Copy, Debug, PartialEq, Eq, PartialOrd, Ord, Hash)]
pub struct Dart {
    /// The edge's number, from 1.
    pub edge: u32,
    /// Whether the dart runs from the end node to the start node.
    pub minus: bool,
}

/// One of the two directions of an edge of a tile.
///
/// Darts are ordered by tile, then by edge, and `+` comes before `-`. Tile 0 stands for an untiled coverage.
#[derive(Clone, Copy, Debug, PartialEq, Eq, PartialOrd, Ord, Hash)]
pub struct TileDart {
    /// The tile's number, from 1, or 0 in an untiled coverage.
    pub tile: u32,
    /// The edge's number in the tile, from 1.
    pub edge: u32,
    /// Whether the dart runs from the end node to the start node.
    pub minus: bool,
}

impl Dart {
    ghost use Rattle.vpf_darts.specs.Darts.{dart_code};
    ghost use Rattle.vpf_darts.specs.MapLists.{IsInRange};

    /// Whether the dart is of one of the edges that have this many darts.
    pub(crate) fn is_in_range(self, darts: usize) -> bool
        ensures { IsTrue result ↔ IsInRange darts self }
    {
        1 <= self.edge && self.edge as usize <= darts / 2
    }

    /// The number of the dart: 2 for `1+`, 3 for `1-` and so on.
    #[tactic(auto, unfolding(crate::specs::Darts::code))]
    pub(crate) fn number(self) -> usize
        ensures { result ≡ dart_code self }
    {
        let plus = 2 * self.edge as usize;
        if self.minus { plus + 1 } else { plus }
    }

    /// The dart with this number.
    #[tactic(auto, using(crate::proofs::DartLemmas::number_of_parts))]
    pub(crate) fn of_number(number: usize) -> Dart
        requires { number < 2 ^ 33 }
        ensures { dart_code result ≡ number }
    {
        Dart {
            edge: (number / 2) as u32,
            minus: number % 2 == 1,
        }
    }
}

impl TileDart {
    /// The other dart of the edge.
    pub fn flip(self) -> TileDart
        ensures { result ≡ record { tile = self.tile; edge = self.edge; minus = not self.minus } }
    {
        TileDart {
            tile: self.tile,
            edge: self.edge,
            minus: !self.minus,
        }
    }

    /// The dart without its tile.
    pub(crate) fn untiled(self) -> Dart
        ensures { result ≡ record { edge = self.edge; minus = self.minus } }
    {
        Dart {
            edge: self.edge,
            minus: self.minus,
        }
    }
}

/// The other dart of the edge.
pub fn flip(dart: Dart) -> Dart
    ensures { result ≡ record { edge = dart.edge; minus = not dart.minus } }
{
    Dart {
        edge: dart.edge,
        minus: !dart.minus,
    }
}

/// The sign of a dart as it is printed.
fn sign(minus: bool) -> &'static str
    ensures { result.now ≡ sign_text minus }
{
    if minus { "-" } else { "+" }
}

impl fmt::Display for Dart {
    ghost use Rattle.std.specs.Prelude.{Some};
    ghost use Rattle.vpf_darts.specs.Darts.{dart_text};

    ghost output = { λ d. Some (dart_text d) };

    fn fmt<W: fmt::Write>(&self, f: &mut fmt::Formatter<W>) -> fmt::Result {
        let edge = self.edge;
        let sign = sign(self.minus);
        write!(f, "{edge}{sign}")
    }
}

impl fmt::Display for TileDart {
    ghost use Rattle.std.specs.Prelude.{Some};
    ghost use Rattle.vpf_darts.specs.Darts.{tile_dart_text};

    ghost output = { λ d. Some (tile_dart_text d) };

    fn fmt<W: fmt::Write>(&self, f: &mut fmt::Formatter<W>) -> fmt::Result {
        let tile = self.tile;
        let edge = self.edge;
        let sign = sign(self.minus);
        if tile == 0 {
            write!(f, "{edge}{sign}")
        } else {
            write!(f, "{tile}:{edge}{sign}")
        }
    }
}

impl From<Dart> for TileDart {
    ghost use Rattle.std.specs.Prelude.{◌≡◌};
    ghost use Rattle.vpf_darts.specs.Darts.{dart_code, tile_dart_code};

    ghost from_gives = { λ d t. t ≡ record { tile = 0; edge = d.edge; minus = d.minus } };

    /// The dart in tile 0, which stands for an untiled coverage.
    fn from(dart: Dart) -> TileDart {
        TileDart {
            tile: 0,
            edge: dart.edge,
            minus: dart.minus,
        }
    }
}
