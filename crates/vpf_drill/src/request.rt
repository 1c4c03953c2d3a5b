//! How large a grid is asked for.

ghost use Rattle.std.specs.Prelude.{◌≡◌, map, string_bytes};
ghost use Rattle.std.specs.Char.{is_ascii_digit};
ghost use Rattle.std.specs.List.{list_all};
ghost use Rattle.std.specs.Prelude.{Some};
ghost use Rattle.vpf_drill.specs.Request.{CanBeAsked, are_few_digits, side_cells, drill_request, is_grid_side, side_in};

use std::marker::Model;

/// The grid that `drill` makes: so many cells a side, an even number from 2 to 200, as two by two cells are a tile. Contracts see the number.
#[derive(Debug, Drop)]
pub struct DrillRequest {
    cells: u32,
}

impl Model for DrillRequest {
    ghost use Rattle.std.specs.Prelude.{ℕ};
    ghost use Rattle.vpf_drill.specs.Request.{CanBeAsked};

    ghost Value = { ℕ };

    ghost view = { λ request. request.cells };

    ghost invariant = { λ request. CanBeAsked request.cells };
}

/// Whether bytes are digits of base 10.
fn all_digits(bytes: &[u8]) -> bool
    ensures { result ≡ list_all is_ascii_digit bytes.now }
{
    bytes.iter().all(|byte| byte.is_ascii_digit())
}

/// Whether bytes are one to three digits.
fn are_few_digits(bytes: &[u8]) -> bool
    ensures { result ≡ are_few_digits bytes.now }
{
    !bytes.is_empty() && bytes.len() <= 3 && all_digits(bytes)
}

/// Whether a grid may have so many cells a side.
fn is_side(cells: u32) -> bool
    ensures { result ≡ is_grid_side cells }
{
    cells % 2 == 0 && 2 <= cells && cells <= 200
}

/// The number of a word of one to three digits.
fn number_in(word: &str) -> Option<u32>
    ensures { result ≡ side_in word.now }
{
    if !are_few_digits(word.as_bytes()) {
        return None;
    }
    word.parse().ok()
}

impl DrillRequest {
    /// The request for so many cells, where a side may have them.
    fn of_cells(cells: u32) -> Option<Self>
        ensures { result ≡ side_cells (Some cells) }
    {
        if is_side(cells) {
            Some(DrillRequest { cells })
        } else {
            None
        }
    }

    /// The request that the words after the verb spell, or nothing where they spell none.
    pub fn read(words: &[String]) -> Option<Self>
        ensures { result ≡ drill_request (map string_bytes words.now) }
    {
        match words {
            [word] => DrillRequest::of_cells(number_in(word)?),
            _ => None,
        }
    }

    /// How many cells a side has.
    pub fn cells(&self) -> u32
        ensures value { result ≡ self.now }
        ensures can { CanBeAsked result }
    {
        self.cells
    }
}
