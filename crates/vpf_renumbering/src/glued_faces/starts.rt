//! Where rings start.

ghost use Rattle.std.specs.Prelude.{◌≡◌};
ghost use Rattle.vpf_darts.specs.Darts.{tile_dart_code};
ghost use Rattle.vpf_tiling_laws.specs.Gluing.Whole.{ring_start_dart};
ghost use Rattle.vpf_prims.specs.Libraries.{library_of};
ghost use Rattle.vpf_prims.specs.References.{id_of};
ghost use Rattle.vpf_wing.specs.Links.{links_of};
ghost use Rattle.vpf_follow.specs.Inner.Rows.{row_face};

use vpf_coverage::Coverage;
use vpf_darts::TileDart;
use vpf_prims::{EdgeRow, id_of};

/// The number in its tile of the face of the `+` or `-` dart of a row.
fn face_of_row(row: &EdgeRow, minus: bool) -> u32
    ensures { result ≡ id_of (row_face minus row.now) }
{
    id_of(if minus { row.left_face } else { row.right_face })
}

/// The number of a dart's face in its tile: 0 where there is no such dart.
pub(crate) fn face_id(coverage: &Coverage<'_>, dart: TileDart) -> u32
    ensures { result ≡ ((links_of (library_of coverage.now)).face (tile_dart_code dart)).id }
{
    match coverage.tile(dart.tile) {
        Some(tile) if 1 <= dart.edge && dart.edge <= tile.edges() => {
            face_of_row(&tile.edge(dart.edge), dart.minus)
        }
        _ => 0,
    }
}

/// The dart of an edge of a tile that has this face of the tile.
pub(crate) fn start_dart(coverage: &Coverage<'_>, tile: u32, edge: u32, face: u32) -> TileDart
    ensures { tile_dart_code result ≡ ring_start_dart (links_of (library_of coverage.now)) tile edge face }
{
    let plus = TileDart {
        tile,
        edge,
        minus: false,
    };
    if face_id(coverage, plus) == face {
        plus
    } else {
        plus.flip()
    }
}
