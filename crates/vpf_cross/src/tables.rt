//! The tables of a tile, and what rows of edges name.

ghost use Rattle.std.specs.Prelude.{◌≡◌, IsSome, Some, length};
ghost use Rattle.vpf_prims.specs.Lists.{kth};
ghost use Rattle.vpf_prims.specs.Numbering.{IsRowOf};
ghost use Rattle.vpf_prims.specs.Primitives.{absent_edge};
ghost use Rattle.vpf_prims.specs.Reading.{primitives_of};
ghost use Rattle.vpf_prims.specs.Tables.{table_at, table_named};
ghost use Rattle.vpf_wing.specs.Links.{link_of, node_by};
ghost use Rattle.vpf_follow.specs.SideLines.{face_citation, node_citation, wing_citation};

use std::marker::Model;
use vpf_findings::TableName;
use vpf_prims::{Citation, TableAt, Tile};
use vpf_table::TableView;
use vpf_triplet::Triplet;

/// The table of this name, which the tile has.
pub fn table<'t, 'a>(tile: &'t Tile<'a>, name: TableName) -> &'t TableView<'a>
    requires { IsSome (table_named tile.now name) }
    ensures { table_named tile.now name ≡ Some result.now }
{
    match tile.table(name) {
        Some(table) => table,
        None => unreachable!(),
    }
}

/// The same table, where its findings are in the tile of this number.
pub fn table_at(tile: &Tile<'_>, number: u32, name: TableName) -> TableAt
    requires { IsSome (table_named tile.now name) }
    ensures { result ≡ table_at number tile.now name }
{
    match tile.file(name) {
        Some(file) => TableAt {
            tile: number,
            table: name,
            file,
        },
        None => unreachable!(),
    }
}

/// The column that has the head node of the `+` or `-` dart of an edge.
pub fn node_citation(minus: bool) -> Citation
    ensures { result ≡ node_citation minus }
{
    if minus {
        Citation::StartNode
    } else {
        Citation::EndNode
    }
}

/// The column that has its face.
pub fn face_citation(minus: bool) -> Citation
    ensures { result ≡ face_citation minus }
{
    if minus {
        Citation::LeftFace
    } else {
        Citation::RightFace
    }
}

/// The column that has its wing.
pub fn wing_citation(minus: bool) -> Citation
    ensures { result ≡ wing_citation minus }
{
    if minus {
        Citation::LeftEdge
    } else {
        Citation::RightEdge
    }
}

/// The head node of the `+` or `-` dart of edge `k`.
pub fn head_node(tile: &Tile<'_>, k: u32, minus: bool) -> Triplet
    requires { IsRowOf (length (primitives_of tile.now.tables).edges) k }
    ensures { result ≡ node_by minus (kth (primitives_of tile.now.tables).edges k absent_edge) }
{
    let edge = tile.edge(k);
    if minus {
        edge.start_node
    } else {
        edge.end_node
    }
}

/// A thing of another tile. Contracts see it as its tile and its number there.
#[derive(Clone, Copy)]
pub struct ExternalPart {
    /// The tile.
    pub tile: u32,
    /// The thing's number there.
    pub id: u32,
}

impl Model for ExternalPart {
    ghost use Rattle.vpf_wing.specs.Links.{Beyond};

    ghost Value = { Beyond };

    ghost view = { λ part. record { tile = part.tile; id = part.id } };

    ghost inverse = { λ part. record { tile = part.tile; id = part.id } };
}

/// The external part of a reference, where both its tile and its number there are.
pub fn external_part(reference: Triplet) -> Option<ExternalPart>
    ensures { result ≡ (link_of reference).out }
{
    match (reference.tile, reference.ext) {
        (Some(tile), Some(id)) => Some(ExternalPart { tile, id }),
        _ => None,
    }
}
