//! The tiles of tables whose columns are known.

ghost use Rattle.std.specs.Prelude.{◌≡◌, ◌<◌, ◌^◌, All, IfOk, IfSome, List, length};
ghost use Rattle.vpf_coverage.specs.Inner.Opening.Opened.{placed_view, placed_views};
ghost use Rattle.vpf_coverage.specs.Inner.Opened.{AreAllRight, AreRightIn};

use std::alloc::{AllocError, Global};
use vpf_prims::{PrimitiveViews, Tile, TileColumns};

/// The tile of some tables at the place of its first file: none where it is empty.
fn tile_of<'a>(
    first: u32,
    views: Option<PrimitiveViews<'a>>,
    columns: Option<TileColumns<'a>>,
) -> Option<Tile<'a>>
    requires right { AreRightIn views columns }
    requires few { first < 2 ^ 31 }
    ensures { result ≡ placed_view first views.entry }
{
    match (views, columns) {
        (Some(views), Some(columns)) => Some(Tile::new(first, views, columns)),
        _ => None,
    }
}

/// The tiles of tables, by the places of their first files and their columns.
pub(crate) fn tiles_of<'a>(
    alloc: Global,
    firsts: Vec<u32>,
    tiles: Vec<Option<PrimitiveViews<'a>>>,
    columns: Vec<Option<TileColumns<'a>>>,
) -> Result<Vec<Option<Tile<'a>>>, AllocError>
    requires right { AreAllRight tiles.items columns.items }
    requires alike { length firsts.items ≡ length tiles.items }
    requires few { All (λ first. first < 2 ^ 31) firsts.items }
    ensures { IfOk result (λ made. made.items ≡ placed_views firsts.items tiles.entry.items) }
{
    let mut made = Vec::with_capacity(alloc, tiles.len())?;
    let mut firsts = firsts.into_iter();
    let mut columns = columns.into_iter();
    for views in tiles {
        let Some(first) = firsts.next() else {
            unreachable!()
        };
        let Some(columns) = columns.next() else {
            unreachable!()
        };
        made.push(tile_of(first, views, columns))?;
    }
    Ok(made)
}

/// The same tile, if there is one, which keeps what its rows of edges say.
fn kept_where_there<'a>(
    alloc: Global,
    tile: Option<Tile<'a>>,
) -> Result<Option<Tile<'a>>, AllocError>
    ensures { IfOk result (λ same. same ≡ tile.entry) }
{
    match tile {
        Some(tile) => Ok(Some(tile.keeping_edges(alloc)?)),
        None => Ok(None),
    }
}

/// The same tiles, which keep what their rows of edges say.
pub(crate) fn all_kept<'a>(
    alloc: Global,
    tiles: Vec<Option<Tile<'a>>>,
) -> Result<Vec<Option<Tile<'a>>>, AllocError>
    ensures { IfOk result (λ same. same.items ≡ tiles.entry.items) }
{
    let mut kept = Vec::with_capacity(alloc, tiles.len())?;
    for tile in tiles {
        kept.push(kept_where_there(alloc, tile)?)?;
    }
    Ok(kept)
}
