//! The tables of a tile, looked at in reading order.

ghost use Rattle.std.specs.Prelude.{◌≡◌, ◌<◌, ◌^◌, IfOk, Some, is_some};
ghost use Rattle.vpf_findings.specs.Firsts.{Tells};
ghost use Rattle.vpf_prims.specs.Inner.Owning.{NamesItsOwn};
ghost use Rattle.vpf_prims.specs.Reading.{primitives_of};
ghost use Rattle.vpf_prims.specs.Tables.{TileTables, cnd_at, edg_at, entities_at, fac_at, rng_at};
ghost use Rattle.vpf_prims.specs.Inner.Views.{AreColumnsOf, tables_in_view};
ghost use Rattle.vpf_numbers.specs.Around.{tables_around};
ghost use Rattle.vpf_numbers.specs.TableLines.{numbers_finding};

use crate::around::Around;
use crate::edges::check_edges;
use crate::tables::{check_entities, check_faces, check_plain, check_rings};
use std::alloc::Global;
use vpf_findings::{FindError, TableName};
use vpf_prims::{FIRST_EDGE, PrimitiveViews, Ranges, TableAt, TileColumns, files_of, node_roles};

/// Where the findings of each table are.
#[derive(Clone, Copy)]
struct Places {
    edg: TableAt,
    fac: TableAt,
    rng: TableAt,
    cnd: TableAt,
    end: TableAt,
}

/// Where the findings of the tables of a tile are, the first of whose files stands at this place among those that were read.
fn places_of(number: u32, first: u32, views: &PrimitiveViews<'_>) -> Places
    requires { first < 2 ^ 31 }
    ensures edg { result.edg ≡ edg_at number (record { first = first; tables = tables_in_view views.now }) }
    ensures fac { result.fac ≡ fac_at number (record { first = first; tables = tables_in_view views.now }) }
    ensures rng { result.rng ≡ rng_at number (record { first = first; tables = tables_in_view views.now }) }
    ensures cnd { result.cnd ≡ cnd_at number (record { first = first; tables = tables_in_view views.now }) }
    ensures end { result.end ≡ entities_at number (record { first = first; tables = tables_in_view views.now }) }
{
    let place = |table, file| TableAt {
        tile: number,
        table,
        file,
    };
    let fac = first + files_of(&views.edg);
    let rng = fac + files_of(&views.fac);
    let cnd = rng + files_of(&views.rng);
    let end = cnd + files_of(&views.cnd);
    Places {
        edg: place(TableName::Edg, first),
        fac: place(TableName::Fac, fac),
        rng: place(TableName::Rng, rng),
        cnd: place(TableName::Cnd, cnd),
        end: place(TableName::End, end),
    }
}

/// The columns of the tables of the tile of this number, the first of whose files stands at `first` among those that were read, where nothing
/// disagrees in its columns, ids, references and marks: in a tiled coverage with what the rows of edges say, which is so read once. Else the
/// first finding: table by table, in each the columns and then the rows.
#[tactic(auto, unfolding(crate::specs::TableLines::numbers_finding))]
pub fn check_tables<'a>(
    alloc: Global,
    number: u32,
    first: u32,
    around: &Around<'_, 'a>,
    views: &PrimitiveViews<'a>,
) -> Result<TileColumns<'a>, FindError<'a>>
    // The tile is one of those around.
    requires here { tables_around around.now number ≡ Some (tables_in_view views.now) }
    // So few files come before that theirs can be counted.
    requires few { first < 2 ^ 31 }
    ensures first { Tells result (numbers_finding number around.now (record { first = first; tables = tables_in_view views.now })) }
    ensures columns { IfOk result (AreColumnsOf (tables_in_view views.now)) }
    ensures kept { IfOk result (λ columns. is_some columns.edge_rows ≡ around.now.is_tiled) }
    ensures owns { IfOk result (λ _. NamesItsOwn (primitives_of (tables_in_view views.now))) }
{
    let most = Ranges {
        nodes: views.cnd.len(),
        faces: views.fac.len(),
        edges: views.edg.len(),
    };
    let rings = views.rng.len();
    let at = places_of(number, first, views);
    let (edges, edge_rows) = check_edges(alloc, at.edg, around, most, &views.edg)?;
    let ring_ptr = check_faces(at.fac, around.fac(), rings, &views.fac)?;
    let (face_id, start_edge) = check_rings(
        at.rng,
        around.rng(),
        most.faces,
        most.edges,
        &views.rng,
    )?;
    let first_edge = check_plain(
        at.cnd,
        around.cnd(),
        node_roles(),
        &FIRST_EDGE,
        most.edges,
        &views.cnd,
    )?;
    let containing_face = check_entities(at.end, around.end(), most.faces, views.end.as_ref())?;
    Ok(TileColumns {
        edges,
        edge_rows,
        ring_ptr,
        face_id,
        start_edge,
        first_edge,
        containing_face,
    })
}
