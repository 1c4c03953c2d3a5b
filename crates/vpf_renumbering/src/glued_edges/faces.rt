//! The faces on the two sides of an edge.

ghost use Rattle.std.specs.Prelude.{◌≡◌};
ghost use Rattle.vpf_darts.specs.Darts.{tile_dart_code};
ghost use Rattle.vpf_prims.specs.Libraries.{library_of};
ghost use Rattle.vpf_wing.specs.Links.{link_of, links_of};
ghost use Rattle.vpf_follow.specs.Following.{face_beyond, face_name};
ghost use Rattle.vpf_follow.specs.Inner.Homes.{IsDartIn};

use std::marker::Model;
use vpf_coverage::Coverage;
use vpf_darts::TileDart;
use vpf_prims::id_of;
use vpf_triplet::Triplet;

/// The number of the universe in each tile.
const UNIVERSE: u32 = 1;

/// A face of a tile. Contracts see it as its tile and its number there.
#[derive(Clone, Copy, Debug, PartialEq, Eq)]
pub struct TileFace {
    /// The tile, from 1, or 0 in an untiled coverage.
    pub tile: u32,
    /// The face's number there, from 2.
    pub id: u32,
}

impl Model for TileFace {
    ghost use Rattle.vpf_wing.specs.Links.{Beyond};

    ghost Value = { Beyond };

    ghost view = { λ face. record { tile = face.tile; id = face.id } };

    ghost inverse = { λ face. record { tile = face.tile; id = face.id } };
}

/// A face that a row of this tile names: none for the universe.
fn named_face(tile: u32, face: Triplet) -> Option<TileFace>
    ensures { result ≡ face_beyond tile (link_of face) }
{
    let id = id_of(face);
    if id != UNIVERSE {
        return Some(TileFace { tile, id });
    }
    match (face.tile, face.ext) {
        (Some(tile), Some(id)) => Some(TileFace { tile, id }),
        _ => None,
    }
}

/// The face of a dart: none for the universe.
pub(crate) fn face_of(coverage: &Coverage<'_>, dart: TileDart) -> Option<TileFace>
    requires { IsDartIn coverage.now dart }
    ensures { result ≡ face_name (links_of (library_of coverage.now)) (tile_dart_code dart) }
{
    let Some(tile) = coverage.tile(dart.tile) else {
        unreachable!()
    };
    let row = tile.edge(dart.edge);
    if dart.minus {
        named_face(dart.tile, row.left_face)
    } else {
        named_face(dart.tile, row.right_face)
    }
}
