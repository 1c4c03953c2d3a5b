//! The dart that comes next across the tiles of a coverage.

ghost use Rattle.std.specs.Prelude.{◌≡◌};
ghost use Rattle.std.specs.Option.{option_map};
ghost use Rattle.vpf_darts.specs.Darts.{code, tile_dart_code};
ghost use Rattle.vpf_wing.specs.Links.{link_of, links_of, only};
ghost use Rattle.vpf_follow.specs.Following.{follow, follow_links, is_home, is_named, is_outside};
ghost use Rattle.vpf_follow.specs.Inner.Homes.{IsDartIn};
ghost use Rattle.vpf_prims.specs.Libraries.{library_of};

use crate::links::{
    ExternalPart, Start, begins_at, edge_row, external_part, face, face_name, head_node,
    is_far_face, wing,
};
use vpf_coverage::Coverage;
use vpf_darts::TileDart;
use vpf_prims::id_of;
use vpf_triplet::Triplet;

/// Whether a dart is a home dart: one of the coverage, whose face is one of its tile, or the universe.
pub fn is_home(coverage: &Coverage<'_>, dart: TileDart) -> bool
    ensures { result ≡ is_home (links_of (library_of coverage.now)) (tile_dart_code dart) }
{
    match edge_row(coverage, dart.tile, dart.edge) {
        Some(row) => !is_far_face(face(&row, dart.minus)),
        None => false,
    }
}

/// Whether a dart is an outside dart: one of the coverage, whose face is one of another tile.
pub fn is_outside(coverage: &Coverage<'_>, dart: TileDart) -> bool
    ensures { result ≡ is_outside (links_of (library_of coverage.now)) (tile_dart_code dart) }
{
    match edge_row(coverage, dart.tile, dart.edge) {
        Some(row) => is_far_face(face(&row, dart.minus)),
        None => false,
    }
}

/// Of the edge of this number in a tile, the home dart that begins there: nothing where both darts do, or neither does.
#[inline(always)]
fn named_dart(coverage: &Coverage<'_>, tile: u32, edge: u32, start: &Start) -> Option<TileDart>
    ensures { option_map tile_dart_code result ≡ only (is_named (links_of (library_of coverage.now)) start.now.node start.now.face) (code tile edge 0) }
{
    let row = edge_row(coverage, tile, edge)?;
    let plus = begins_at(&row, tile, false, start);
    let minus = begins_at(&row, tile, true, start);
    if plus == minus {
        return None;
    }
    Some(TileDart { tile, edge, minus })
}

/// The home dart that a wing and the head node name, for a dart of this tile that has the face of this name.
#[inline(always)]
fn linked_dart(
    coverage: &Coverage<'_>,
    tile: u32,
    wing: Triplet,
    node: Triplet,
    face: Option<ExternalPart>,
) -> Option<TileDart>
    ensures { option_map tile_dart_code result ≡ follow_links (links_of (library_of coverage.now)) tile (link_of wing) (link_of node) face }
{
    let Some(next) = external_part(wing) else {
        let node = id_of(node);
        return named_dart(coverage, tile, id_of(wing), &Start { node, face });
    };
    let start = external_part(node)?;
    if next.tile != start.tile {
        return None;
    }
    let node = start.id;
    named_dart(coverage, next.tile, next.id, &Start { node, face })
}

/// The home dart that follows a dart of the coverage across its tiles (MIL-STD-2407, 5.2.3, cross-tile topology).
///
/// Of the edge that the dart's wing names, it is the one dart that begins at its head node and has its face, each by its external part
/// where the wing has one, and else by its number in the dart's own tile. Nothing where no dart is, or both are. It reads the rows of
/// the two edges, and takes no memory.
pub fn follow(coverage: &Coverage<'_>, dart: TileDart) -> Option<TileDart>
    requires { IsDartIn coverage.now dart }
    ensures { option_map tile_dart_code result ≡ follow (links_of (library_of coverage.now)) (tile_dart_code dart) }
{
    let row = edge_row(coverage, dart.tile, dart.edge)?;
    let name = face_name(dart.tile, face(&row, dart.minus));
    let wing = wing(&row, dart.minus);
    let node = head_node(&row, dart.minus);
    linked_dart(coverage, dart.tile, wing, node, name)
}
