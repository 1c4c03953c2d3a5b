//! The boundary cycles of an edge table.

ghost use Rattle.std.specs.Prelude.{◌≡◌, false, None, IfErr, IfOk, OnOk};
ghost use Rattle.vpf_head.specs.Head.{varies_in};
ghost use Rattle.vpf_findings.specs.Firsts.{Tells};
ghost use Rattle.vpf_wing.specs.Boundaries.{IsBoundaryListing, table_finding};
ghost use Rattle.vpf_wing.specs.Inner.Errors.{TellsEdges};

use crate::errors::EdgeError;
use crate::following::nexts;
use std::alloc::Global;
use vpf_darts::{Listing, cycles_of};
use vpf_findings::{FindError, TableName};
use vpf_prims::table::TableView;
use vpf_prims::{EdgeColumns, Ranges, TableAt, edges_of};

/// The edge table of an untiled coverage, where it alone is read.
const UNTILED_EDGES: TableAt = TableAt {
    tile: 0,
    table: TableName::Edg,
    file: 0,
};

/// The largest number of a node or a face.
const MOST: u32 = 2_147_483_647;

/// The listing of the boundary cycles of edges in rows of one length, or the first finding.
fn listing_of<'a>(alloc: Global, table: &TableView<'a>) -> Result<Listing, FindError<'a>>
    ensures first { Tells result (table_finding table.now) }
    ensures listed { IfOk result (IsBoundaryListing table.now) }
{
    let columns = EdgeColumns::place(alloc, UNTILED_EDGES, table.header())?;
    let most = Ranges {
        nodes: MOST,
        faces: MOST,
        edges: table.len(),
    };
    let edges = edges_of(alloc, &columns, most, table)?;
    let nexts = nexts(alloc, &columns, &edges)?;
    Ok(cycles_of(alloc, &nexts)?)
}

/// The listing of the boundary cycles of an untiled edge table, whose darts are in tile 0: each cycle begins with its
/// least dart, and the first darts rise.
///
/// The table has to have rows of one length; columns of numbers `id`, `start_node`, `end_node`, `right_face`,
/// `left_face`, `right_edge` and `left_edge`, in any order and any case, and `tile_line` of kind S where it is there;
/// rows whose ids count from 1, whose nodes and faces are at least 1 and whose wings are edges of the table; and for
/// each dart one next dart, which no other dart has (MIL-STD-2407, 5.2.2, winged-edge topology). The first place where
/// that fails is the finding: columns in the order above, then row by row, then dart by dart. The rows are passed once,
/// and then the darts.
pub fn boundary_cycles<'a>(alloc: Global, table: &TableView<'a>) -> Result<Listing, EdgeError<'a>>
    // The rows are of one length, nothing disagrees, and this is the listing.
    ensures one_length { OnOk result (varies_in table.now.head.columns ≡ false) }
    ensures agrees { OnOk result (table_finding table.now ≡ None) }
    ensures listed { IfOk result (IsBoundaryListing table.now) }
    // Rows vary, or they don't and this is the first place that disagrees.
    ensures refused { IfErr result (TellsEdges table.now) }
{
    if table.header().varies() {
        return Err(EdgeError::Varies);
    }
    Ok(listing_of(alloc, table)?)
}
