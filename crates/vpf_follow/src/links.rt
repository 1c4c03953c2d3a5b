//! What a row of edges says of its darts.

ghost use Rattle.std.specs.Prelude.{◌≡◌};
ghost use Rattle.vpf_wing.specs.Links.{link_of};
ghost use Rattle.vpf_follow.specs.Following.{beyond_tile, face_beyond, is_far_face, is_own_face};
ghost use Rattle.vpf_prims.specs.Libraries.{library_of};
ghost use Rattle.vpf_follow.specs.Inner.Rows.{row_face, edge_row_in, row_is_named, row_node, row_wing};

use std::marker::Model;
use vpf_coverage::Coverage;
use vpf_prims::{EdgeRow, id_of};
use vpf_triplet::Triplet;

/// A thing of another tile. Contracts see it as its tile and its number there.
#[derive(Clone, Copy, PartialEq, Eq)]
pub(crate) struct ExternalPart {
    /// The tile, from 1.
    pub(crate) tile: u32,
    /// The thing's number there, from 1.
    pub(crate) id: u32,
}

impl Model for ExternalPart {
    ghost use Rattle.vpf_wing.specs.Links.{Beyond};

    ghost Value = { Beyond };

    ghost view = { λ part. record { tile = part.tile; id = part.id } };

    ghost inverse = { λ part. record { tile = part.tile; id = part.id } };
}

/// Where a dart is to begin, in its own tile, and the name of the face that it is to have.
#[derive(Drop)]
pub(crate) struct Start {
    /// The node.
    pub(crate) node: u32,
    /// The face.
    pub(crate) face: Option<ExternalPart>,
}

/// The external part of a reference: there where both its tile and its number there are (MIL-STD-2407, 5.4, triplet id).
#[inline(always)]
pub(crate) fn external_part(reference: Triplet) -> Option<ExternalPart>
    ensures { result ≡ (link_of reference).out }
{
    match (reference.tile, reference.ext) {
        (Some(tile), Some(id)) => Some(ExternalPart { tile, id }),
        _ => None,
    }
}

/// The tile of the external part of a reference.
pub(crate) fn external_tile(reference: Triplet) -> Option<u32>
    ensures { result ≡ beyond_tile (link_of reference).out }
{
    match external_part(reference) {
        Some(part) => Some(part.tile),
        None => None,
    }
}

/// Whether a face is one of its tile, and neither the universe nor a face of another tile.
pub(crate) fn is_own_face(face: Triplet) -> bool
    ensures { result ≡ is_own_face (link_of face) }
{
    id_of(face) != 1
}

/// Whether a face is one of another tile.
#[inline(always)]
pub(crate) fn is_far_face(face: Triplet) -> bool
    ensures { result ≡ is_far_face (link_of face) }
{
    id_of(face) == 1 && external_part(face).is_some()
}

/// A face of this tile, or one that it refers to, by its tile and its number there: nothing for the universe.
#[inline(always)]
pub(crate) fn face_name(tile: u32, face: Triplet) -> Option<ExternalPart>
    ensures { result ≡ face_beyond tile (link_of face) }
{
    let id = id_of(face);
    if id == 1 {
        external_part(face)
    } else {
        Some(ExternalPart { tile, id })
    }
}

/// The wing of the `+` or `-` dart of a row.
#[inline(always)]
pub(crate) fn wing(row: &EdgeRow, minus: bool) -> Triplet
    ensures { result ≡ row_wing minus row.now }
{
    if minus { row.left_edge } else { row.right_edge }
}

/// The node where the `+` or `-` dart of a row ends.
#[inline(always)]
pub(crate) fn head_node(row: &EdgeRow, minus: bool) -> Triplet
    ensures { result ≡ row_node minus row.now }
{
    if minus { row.start_node } else { row.end_node }
}

/// The face of the `+` or `-` dart of a row.
#[inline(always)]
pub(crate) fn face(row: &EdgeRow, minus: bool) -> Triplet
    ensures { result ≡ row_face minus row.now }
{
    if minus { row.left_face } else { row.right_face }
}

/// Whether the `+` or `-` dart of a row of this tile is a home dart that begins there.
#[inline(always)]
pub(crate) fn begins_at(row: &EdgeRow, tile: u32, minus: bool, start: &Start) -> bool
    ensures { result ≡ row_is_named tile row.now minus start.now.node start.now.face }
{
    let side = face(row, minus);
    !is_far_face(side)
        && id_of(head_node(row, !minus)) == start.node
        && face_name(tile, side) == start.face
}

/// The row of an edge, where its tile has it.
#[inline(always)]
pub(crate) fn edge_row(coverage: &Coverage<'_>, tile: u32, edge: u32) -> Option<EdgeRow>
    ensures { result ≡ edge_row_in (library_of coverage.now) tile edge }
{
    let tile = coverage.tile(tile)?;
    if edge == 0 || edge > tile.edges() {
        return None;
    }
    Some(tile.edge(edge))
}
