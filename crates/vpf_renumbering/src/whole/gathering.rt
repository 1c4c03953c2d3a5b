//! The home darts of a coverage, in their order.

ghost use Rattle.std.specs.Prelude.{◌≡◌, ◌+◌, ◌-◌, ◌<◌, ◌≤◌, ◌^◌, IfOk, OnOk};
ghost use Rattle.vpf_prims.specs.Libraries.{library_of};
ghost use Rattle.vpf_prims.specs.Primitives.{edge_count};
ghost use Rattle.vpf_wing.specs.Links.{links_of};
ghost use Rattle.vpf_renumbering.specs.Inner.Whole.Gathering.{AreHomesBefore, AreHomesTo, AreHomesWith, AreHomeAmong, AreHomeDarts};

use std::alloc::{AllocError, Global};
use vpf_coverage::Coverage;
use vpf_cross::Checked;
use vpf_darts::TileDart;
use vpf_follow::is_home;

/// Puts a dart at the end, where it is a home dart.
fn put_dart(
    coverage: &Coverage<'_>,
    dart: TileDart,
    darts: &mut Vec<TileDart>,
) -> Result<(), AllocError>
    requires { AreHomesBefore coverage.now dart darts.old.items }
    ensures { OnOk result (AreHomesWith coverage.now dart darts.new.items) }
{
    if is_home(coverage, dart) {
        darts.push(dart)?;
    }
    Ok(())
}

/// The same of both darts of edge `k` of a tile.
fn put_edge(
    coverage: &Coverage<'_>,
    number: u32,
    k: u32,
    darts: &mut Vec<TileDart>,
) -> Result<(), AllocError>
    requires some { 1 ≤ k }
    requires darts { AreHomesTo coverage.now number (k - 1) darts.old.items }
    ensures { OnOk result (AreHomesTo coverage.now number k darts.new.items) }
{
    let plus = TileDart {
        tile: number,
        edge: k,
        minus: false,
    };
    put_dart(coverage, plus, darts)?;
    put_dart(coverage, plus.flip(), darts)
}

/// How many edges a tile of the coverage has: none where it is empty, or there is no such tile.
pub fn edges_of(coverage: &Coverage<'_>, number: u32) -> u32
    ensures value { result ≡ edge_count (library_of coverage.now) number }
    ensures few { result < 2 ^ 24 }
{
    match coverage.tile(number) {
        Some(tile) => tile.edges(),
        None => 0,
    }
}

/// The same of the darts of a tile, edge by edge.
fn put_tile(
    coverage: &Coverage<'_>,
    number: u32,
    darts: &mut Vec<TileDart>,
) -> Result<(), AllocError>
    requires { AreHomesTo coverage.now number 0 darts.old.items }
    ensures { OnOk result (AreHomesTo coverage.now (number + 1) 0 darts.new.items) }
{
    for k in 0..edges_of(coverage, number) {
        put_edge(coverage, number, k + 1, darts)?;
    }
    Ok(())
}

/// The home darts of all tiles.
fn gathered(alloc: Global, coverage: &Coverage<'_>) -> Result<Vec<TileDart>, AllocError>
    ensures { IfOk result (λ darts. AreHomeAmong (library_of coverage.now) (links_of (library_of coverage.now)).darts darts.items) }
{
    let mut darts = Vec::new(alloc);
    for number in 0..=coverage.tiles() {
        put_tile(coverage, number, &mut darts)?;
    }
    Ok(darts)
}

/// The home darts of a checked coverage in their order: tile by tile, edge by edge, `+` before `-` (MIL-STD-2407, 5.2.3, cross-tile
/// topology). In an untiled coverage these are all darts, in tile 0. Takes memory for each, and looks at each dart of a tile once.
pub fn home_darts(alloc: Global, checked: &Checked<'_, '_>) -> Result<Vec<TileDart>, AllocError>
    ensures { IfOk result (λ darts. AreHomeDarts (library_of checked.now) darts.items) }
{
    let coverage = checked.coverage();
    coverage.tiles_make_library();
    gathered(alloc, coverage)
}
