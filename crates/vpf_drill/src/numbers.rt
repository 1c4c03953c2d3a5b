//! What is told of a grid that was cut into tiles and traced.

ghost use Rattle.std.specs.Prelude.{◌≡◌, ◌++◌, IfOk, OnOk, string_bytes};
ghost use Rattle.vpf_drill.specs.Numbers.{line, numbers_text};

use std::alloc::{AllocError, Global};

/// What is counted of the grid.
#[derive(Clone, Copy)]
pub(crate) struct SourceNumbers {
    /// Its edges.
    pub edges: u64,
    /// Those of them that are lines between tiles.
    pub lines: u32,
}

/// What is counted of its tiles.
#[derive(Clone, Copy)]
pub(crate) struct TiledNumbers {
    /// The tiles.
    pub tiles: u32,
    /// The edges of all tiles.
    pub copies: u64,
    /// The boundary cycles past the lines.
    pub cycles: usize,
    /// The darts of these.
    pub darts: u128,
    /// The darts of the longest.
    pub longest: usize,
    /// The digest of the files that were made and of the listing.
    pub digest: u32,
}

/// Puts a word, a number and the end of the line.
fn put_line(text: &mut String, word: &str, number: u128) -> Result<(), AllocError>
    ensures { OnOk result (string_bytes text.new ≡ string_bytes text.old ++ line word.now number) }
{
    text.push_str(word)?;
    write!(text, " {number}\n")
}

/// A line for each number.
pub(crate) fn numbers_text(
    alloc: Global,
    cells: u32,
    source: SourceNumbers,
    tiled: TiledNumbers,
) -> Result<String, AllocError>
    ensures { IfOk result (λ text. string_bytes text ≡ numbers_text cells source tiled) }
{
    let mut text = String::new(alloc);
    put_line(&mut text, "drill", u128::from(cells))?;
    put_line(&mut text, "edges", u128::from(source.edges))?;
    put_line(&mut text, "lines", u128::from(source.lines))?;
    put_line(&mut text, "tiles", u128::from(tiled.tiles))?;
    put_line(&mut text, "copies", u128::from(tiled.copies))?;
    put_line(&mut text, "cycles", tiled.cycles as u128)?;
    put_line(&mut text, "darts", tiled.darts)?;
    put_line(&mut text, "longest", tiled.longest as u128)?;
    put_line(&mut text, "digest", u128::from(tiled.digest))?;
    Ok(text)
}
