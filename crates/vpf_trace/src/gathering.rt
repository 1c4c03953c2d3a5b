//! The darts that a trace lists, in their order.

ghost use Rattle.std.specs.Prelude.{◌≡◌, ◌+◌, ◌-◌, ◌≤◌, IfOk, OnOk};
ghost use Rattle.vpf_prims.specs.Libraries.{library_of};
ghost use Rattle.vpf_prims.specs.Primitives.{edge_count};
ghost use Rattle.vpf_wing.specs.Links.{links_of};
ghost use Rattle.vpf_darts.specs.Darts.{tile_dart_code};
ghost use Rattle.vpf_trace.specs.Tracing.{is_kept};
ghost use Rattle.vpf_trace.specs.Inner.Gathering.{AreKeptAmong, AreGatheredBefore, AreGatheredTo, AreGatheredWith};

use crate::stepping::is_on_line;
use std::alloc::{AllocError, Global};
use vpf_coverage::Coverage;
use vpf_cross::follow::is_home;
use vpf_darts::TileDart;

/// Whether a dart is a home dart of an edge that is no line between tiles.
fn is_kept(coverage: &Coverage<'_>, dart: TileDart) -> bool
    ensures { result ≡ is_kept (library_of coverage.now) (tile_dart_code dart) }
{
    is_home(coverage, dart) && !is_on_line(coverage, dart)
}

/// Puts a dart at the end, where it is a home dart of an edge that is no line.
fn put_dart(
    coverage: &Coverage<'_>,
    dart: TileDart,
    darts: &mut Vec<TileDart>,
) -> Result<(), AllocError>
    requires { AreGatheredBefore coverage.now dart darts.old.items }
    ensures { OnOk result (AreGatheredWith coverage.now dart darts.new.items) }
{
    if is_kept(coverage, dart) {
        darts.push(dart)?;
    }
    Ok(())
}

/// The same of both darts of edge `k` of a tile.
fn put_edge(
    coverage: &Coverage<'_>,
    number: u32,
    k: u32,
    darts: &mut Vec<TileDart>,
) -> Result<(), AllocError>
    requires some { 1 ≤ k }
    requires darts { AreGatheredTo coverage.now number (k - 1) darts.old.items }
    ensures { OnOk result (AreGatheredTo coverage.now number k darts.new.items) }
{
    let plus = TileDart {
        tile: number,
        edge: k,
        minus: false,
    };
    put_dart(coverage, plus, darts)?;
    put_dart(coverage, plus.flip(), darts)
}

/// The same of the darts of a tile, edge by edge.
fn put_tile(
    coverage: &Coverage<'_>,
    number: u32,
    darts: &mut Vec<TileDart>,
) -> Result<(), AllocError>
    requires { AreGatheredTo coverage.now number 0 darts.old.items }
    ensures { OnOk result (AreGatheredTo coverage.now (number + 1) 0 darts.new.items) }
{
    for k in 0..edges_of(coverage, number) {
        put_edge(coverage, number, k + 1, darts)?;
    }
    Ok(())
}

/// How many edges a tile of the coverage has: none where it is empty.
fn edges_of(coverage: &Coverage<'_>, number: u32) -> u32
    ensures { result ≡ edge_count (library_of coverage.now) number }
{
    match coverage.tile(number) {
        Some(tile) => tile.edges(),
        None => 0,
    }
}

/// The home darts of the edges that are no lines, tile by tile, edge by edge, `+` before `-`.
pub(crate) fn kept_darts(
    alloc: Global,
    coverage: &Coverage<'_>,
) -> Result<Vec<TileDart>, AllocError>
    ensures { IfOk result (λ darts. AreKeptAmong (library_of coverage.now) (links_of (library_of coverage.now)).darts darts.items) }
{
    let mut darts = Vec::new(alloc);
    for number in 0..=coverage.tiles() {
        put_tile(coverage, number, &mut darts)?;
    }
    Ok(darts)
}
