//! What is known around a tile.

ghost use Rattle.std.specs.Prelude.{◌≡◌, None, map, option_map};
ghost use Rattle.vpf_prims.specs.Inner.Views.{tables_in_view};
ghost use Rattle.vpf_numbers.specs.Around.{columns_in_view, first_having, grid_named, model_in};

use std::marker::Model;
use vpf_findings::TableName;
use vpf_head::Header;
use vpf_prims::PrimitiveViews;
use vpf_table::TableView;

/// What is known around a tile: whether its coverage is tiled, the tables of all tiles by their numbers from 0, and the header of the first
/// tile that has each table, which the others are to be like. Contracts see it as whether the coverage is tiled, and the tables of all tiles.
#[derive(Drop)]
pub struct Around<'v, 'a> {
    is_tiled: bool,
    tiles: &'v [Option<PrimitiveViews<'a>>],
    edg: Option<&'v Header<'a>>,
    fac: Option<&'v Header<'a>>,
    rng: Option<&'v Header<'a>>,
    cnd: Option<&'v Header<'a>>,
    end: Option<&'v Header<'a>>,
}

impl<'v, 'a> Model for Around<'v, 'a> {
    ghost use Rattle.vpf_numbers.specs.Around.{Around};

    ghost Value = { Around };

    ghost use Rattle.vpf_numbers.specs.Inner.Inside.{HasModels, around_in};

    ghost view = { around_in };

    ghost invariant = { HasModels };
}

/// The table that a tile has by this name.
fn table_named<'v, 'a>(views: &'v PrimitiveViews<'a>, name: TableName) -> Option<&'v TableView<'a>>
    ensures { option_map (λ t. t.now) result ≡ grid_named name (tables_in_view views.now) }
{
    match name {
        TableName::Edg => Some(&views.edg),
        TableName::Fac => Some(&views.fac),
        TableName::Rng => Some(&views.rng),
        TableName::Cnd => Some(&views.cnd),
        TableName::End => views.end.as_ref(),
        _ => None,
    }
}

/// The header of a table in the first tile that has it.
fn first_header<'v, 'a>(
    tiles: &'v [Option<PrimitiveViews<'a>>],
    name: TableName,
) -> Option<&'v Header<'a>>
    ensures { columns_in_view result ≡ first_having (grid_named name) (map (option_map tables_in_view) tiles.now) }
{
    for tile in tiles {
        let Some(views) = tile else {
            continue;
        };
        if let Some(table) = table_named(views, name) {
            return Some(table.header());
        }
    }
    None
}

/// The header that those of a table are to be like: none where the coverage isn't tiled.
fn model<'v, 'a>(
    is_tiled: bool,
    tiles: &'v [Option<PrimitiveViews<'a>>],
    name: TableName,
) -> Option<&'v Header<'a>>
    ensures { columns_in_view result ≡ model_in is_tiled (grid_named name) (map (option_map tables_in_view) tiles.now) }
{
    if is_tiled {
        first_header(tiles, name)
    } else {
        None
    }
}

impl<'v, 'a> Around<'v, 'a> {
    ghost use Rattle.std.specs.Prelude.{◌≡◌, map, option_map};
    ghost use Rattle.vpf_prims.specs.Inner.Views.{tables_in_view};
    ghost use Rattle.vpf_numbers.specs.Around.{columns_in_view, model_cnd, model_edg, model_end, model_fac, model_rng, rows_there};

    /// What is known in a coverage, by the tables of its tiles from tile 0 on, none where a tile is empty.
    pub fn new(is_tiled: bool, tiles: &'v [Option<PrimitiveViews<'a>>]) -> Around<'v, 'a>
        ensures { result ≡ record { is_tiled = is_tiled; tiles = map (option_map tables_in_view) tiles.now } }
    {
        Around {
            is_tiled,
            tiles,
            edg: model(is_tiled, tiles, TableName::Edg),
            fac: model(is_tiled, tiles, TableName::Fac),
            rng: model(is_tiled, tiles, TableName::Rng),
            cnd: model(is_tiled, tiles, TableName::Cnd),
            end: model(is_tiled, tiles, TableName::End),
        }
    }

    /// Whether the coverage is tiled.
    pub(crate) fn is_tiled(&self) -> bool
        ensures { result ≡ self.now.is_tiled }
    {
        self.is_tiled
    }

    /// The header that those of edges are to be like.
    pub(crate) fn edg(&self) -> Option<&'v Header<'a>>
        ensures { columns_in_view result ≡ model_edg self.now }
    {
        self.edg
    }

    /// The one of faces.
    pub(crate) fn fac(&self) -> Option<&'v Header<'a>>
        ensures { columns_in_view result ≡ model_fac self.now }
    {
        self.fac
    }

    /// The one of rings.
    pub(crate) fn rng(&self) -> Option<&'v Header<'a>>
        ensures { columns_in_view result ≡ model_rng self.now }
    {
        self.rng
    }

    /// The one of connected nodes.
    pub(crate) fn cnd(&self) -> Option<&'v Header<'a>>
        ensures { columns_in_view result ≡ model_cnd self.now }
    {
        self.cnd
    }

    /// The one of entity nodes.
    pub(crate) fn end(&self) -> Option<&'v Header<'a>>
        ensures { columns_in_view result ≡ model_end self.now }
    {
        self.end
    }

    /// How many rows the tile of this number has of a table: none where there is no such tile, or it is empty.
    pub(crate) fn rows(&self, name: TableName, tile: Option<u32>) -> Option<u32>
        ensures { result ≡ rows_there self.now name tile }
    {
        let views = self.tiles.get(tile? as usize)?.as_ref()?;
        match table_named(views, name) {
            Some(table) => Some(table.len()),
            None => Some(0),
        }
    }
}
