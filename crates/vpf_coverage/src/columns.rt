//! The columns of the tables of each tile, which are right.

ghost use Rattle.std.specs.Prelude.{◌≡◌, ◌<◌, ◌^◌, All, IfOk, None, get_or};
ghost use Rattle.vpf_findings.specs.Firsts.{Tells};
ghost use Rattle.vpf_prims.specs.Coverages.{tile_at};
ghost use Rattle.vpf_prims.specs.Libraries.{in_tile};
ghost use Rattle.vpf_numbers.specs.Around.{around_of};
ghost use Rattle.vpf_numbers.specs.TableLines.{coverage_numbers, numbers_finding};
ghost use Rattle.vpf_coverage.specs.Inner.Opening.Opened.{opened_coverage};
ghost use Rattle.vpf_coverage.specs.Inner.Opened.{AreAllRight, AreRightIn, HasCountedTiles, IsPlaced};

use crate::opening::{OpenCoverage, views_at};
use std::alloc::Global;
use vpf_findings::FindError;
use vpf_numbers::{Around, check_tables};
use vpf_prims::TileColumns;

/// Where the first file of tile `t` stands, 0 where there is no such tile.
fn first_at(firsts: &[u32], t: usize) -> u32
    requires { All (λ first. first < 2 ^ 31) firsts.now }
    ensures value { result ≡ get_or firsts.now t 0 }
    ensures few { result < 2 ^ 31 }
{
    match firsts.get(t) {
        Some(first) => *first,
        None => 0,
    }
}

/// The columns of the tables of tile `t`, where nothing disagrees in them: none where it is empty.
fn columns_at<'a>(
    alloc: Global,
    t: usize,
    opened: &OpenCoverage<'a>,
    around: &Around<'_, 'a>,
) -> Result<Option<TileColumns<'a>>, FindError<'a>>
    requires placed { IsPlaced opened.now }
    requires around { around.now ≡ around_of (opened_coverage opened.now) }
    requires few { t < 2 ^ 31 }
    ensures first { Tells result (in_tile (numbers_finding t around.now) (tile_at (opened_coverage opened.now) t)) }
    ensures right { IfOk result (λ columns. AreRightIn (get_or opened.now.tiles.items t None) columns) }
{
    let Some(views) = views_at(opened.tiles.as_slice(), t) else {
        return Ok(None);
    };
    let first = first_at(opened.firsts.as_slice(), t);
    let columns = check_tables(alloc, t as u32, first, around, views)?;
    Ok(Some(columns))
}

/// The columns of the tables of all tiles, where nothing disagrees in them.
pub(crate) fn columns_of<'a>(
    alloc: Global,
    opened: &OpenCoverage<'a>,
) -> Result<Vec<Option<TileColumns<'a>>>, FindError<'a>>
    requires placed { IsPlaced opened.now }
    requires counted { HasCountedTiles (opened_coverage opened.now) }
    ensures first { Tells result (coverage_numbers (opened_coverage opened.now)) }
    ensures right { IfOk result (λ columns. AreAllRight opened.now.tiles.items columns.items) }
{
    let tiles = opened.tiles.as_slice();
    let around = Around::new(opened.paths.is_some(), tiles);
    let mut columns = Vec::with_capacity(alloc, tiles.len())?;
    for t in 0..tiles.len() {
        columns.push(columns_at(alloc, t, opened, &around)?)?;
    }
    Ok(columns)
}
