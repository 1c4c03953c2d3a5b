//! The tables of a coverage, row by row.

ghost use Rattle.std.specs.Prelude.{◌≡◌, ◌≤◌, ◌+◌, ◌++◌, ◌∷◌, [], List, All, None, IfOk, OnOk, length, string_bytes};
ghost use Rattle.vpf_table.specs.Canonical.{canonical_table};
ghost use Rattle.vpf_table.specs.Grid.{Row};
ghost use Rattle.vpf_write.specs.Inner.Tallies.{Holds, grid_with};
ghost use Rattle.vpf_write.specs.Writing.{first_limit};
ghost use Rattle.vpf_vectors.specs.Heads.{tileref_head, edge_head, ring_head};
ghost use Rattle.vpf_vectors.specs.Tables.{tile_cells, edge_cells, ring_cells, pair_cells, padded_name, grid_tileref, edge_table, ring_table, pair_table};
ghost use Rattle.vpf_vectors.specs.Inner.Writing.{IsGridNumber, IsSmallEdge, IsSmallRingRow, HasPairs};

use crate::cells::{EdgeRow, RingRow};
use crate::headers::{EDGES, RINGS, TILEREF, header_in};
use crate::numbers::{mark, number};
use std::alloc::{AllocError, Global};
use vpf_head::Header;
use vpf_source::Bytes;
use vpf_value::Cell;
use vpf_write::{TableWriter, WriteError};

/// The bytes of the table, which passes no limit.
fn bytes_of(writer: TableWriter<'_, '_>) -> Result<Bytes, AllocError>
    requires { (rows : List Row) × (Holds writer rows × (first_limit (grid_with writer rows) ≡ None)) }
    ensures { (rows : List Row) → Holds writer.entry rows → IfOk result (λ bytes. bytes ≡ canonical_table (grid_with writer.entry rows)) }
{
    match writer.finish() {
        Ok(written) => Ok(written.table),
        Err(WriteError::NoMemory) => Err(AllocError),
        Err(WriteError::Limit(_, _)) => unreachable!(),
    }
}

/// The name of a tile, filled with spaces to the width of its column.
fn padded_name(alloc: Global, tile: u32) -> Result<String, AllocError>
    ensures { IfOk result (λ name. string_bytes name ≡ padded_name tile) }
{
    format!(in alloc; "t{tile:<7}")
}

/// Puts the row of a tile.
fn put_tile(alloc: Global, writer: &mut TableWriter<'_, '_>, tile: u32) -> Result<(), AllocError>
    requires head { writer.old.head ≡ tileref_head }
    requires small { IsGridNumber tile }
    ensures head { writer.new.head ≡ tileref_head }
    ensures put { OnOk result ((rows : List Row) → Holds writer.old rows → Holds writer.new (rows ++ tile_cells tile ∷ [])) }
{
    let name = padded_name(alloc, tile)?;
    writer.put_row(&[number(tile), Cell::Text(name.as_bytes())])
}

/// The table of so many tiles, numbered from 1.
pub fn tileref_table(alloc: Global, tiles: u32) -> Result<Bytes, AllocError>
    requires { IsGridNumber tiles }
    ensures { IfOk result (λ bytes. bytes ≡ canonical_table (grid_tileref tiles)) }
{
    let header = header_in(alloc, TILEREF)?;
    let mut writer = TableWriter::new(alloc, &header)?;
    for tile in 1..tiles + 1 {
        put_tile(alloc, &mut writer, tile)?;
    }
    bytes_of(writer)
}

/// Puts the row of an edge.
fn put_edge(writer: &mut TableWriter<'_, '_>, id: u32, row: EdgeRow) -> Result<(), AllocError>
    requires head { writer.old.head ≡ edge_head }
    requires id { IsGridNumber id }
    requires small { IsSmallEdge row }
    ensures head { writer.new.head ≡ edge_head }
    ensures put { OnOk result ((rows : List Row) → Holds writer.old rows → Holds writer.new (rows ++ edge_cells (id, row) ∷ [])) }
{
    writer.put_row(&[
        number(id),
        number(row.start_node),
        number(row.end_node),
        number(row.right_face),
        number(row.left_face),
        number(row.right_edge),
        number(row.left_edge),
        mark(row.tile_line),
    ])
}

/// The table of edges, whose ids count from 1.
pub fn edge_table(alloc: Global, rows: &[EdgeRow]) -> Result<Bytes, AllocError>
    requires few { IsGridNumber (length rows.now) }
    requires small { All IsSmallEdge rows.now }
    ensures { IfOk result (λ bytes. bytes ≡ canonical_table (edge_table rows.now)) }
{
    let header = header_in(alloc, EDGES)?;
    let mut writer = TableWriter::new(alloc, &header)?;
    for (i, row) in rows.iter().enumerate() {
        put_edge(&mut writer, 1 + i as u32, *row)?;
    }
    bytes_of(writer)
}

/// Puts the row of a ring.
fn put_ring(writer: &mut TableWriter<'_, '_>, id: u32, row: RingRow) -> Result<(), AllocError>
    requires head { writer.old.head ≡ ring_head }
    requires id { IsGridNumber id }
    requires small { IsSmallRingRow row }
    ensures head { writer.new.head ≡ ring_head }
    ensures put { OnOk result ((rows : List Row) → Holds writer.old rows → Holds writer.new (rows ++ ring_cells (id, row) ∷ [])) }
{
    writer.put_row(&[number(id), number(row.face_id), number(row.start_edge)])
}

/// The table of rings, whose ids count from 1.
pub fn ring_table(alloc: Global, rows: &[RingRow]) -> Result<Bytes, AllocError>
    requires few { IsGridNumber (length rows.now) }
    requires small { All IsSmallRingRow rows.now }
    ensures { IfOk result (λ bytes. bytes ≡ canonical_table (ring_table rows.now)) }
{
    let header = header_in(alloc, RINGS)?;
    let mut writer = TableWriter::new(alloc, &header)?;
    for (i, row) in rows.iter().enumerate() {
        put_ring(&mut writer, 1 + i as u32, *row)?;
    }
    bytes_of(writer)
}

/// Puts the row of an id and a number.
fn put_pair(writer: &mut TableWriter<'_, '_>, id: u32, value: u32) -> Result<(), AllocError>
    requires head { HasPairs writer.old.head }
    requires id { IsGridNumber id }
    requires small { IsGridNumber value }
    ensures head { writer.new.head ≡ writer.old.head }
    ensures put { OnOk result ((rows : List Row) → Holds writer.old rows → Holds writer.new (rows ++ pair_cells (id, value) ∷ [])) }
{
    writer.put_row(&[number(id), number(value)])
}

/// The table of a header with an id and a number in each row, whose ids count from the first.
pub fn pair_table(
    alloc: Global,
    header: &Header<'_>,
    first: u32,
    values: &[u32],
) -> Result<Bytes, AllocError>
    requires head { HasPairs header.now }
    requires few { IsGridNumber (first + length values.now) }
    requires small { All IsGridNumber values.now }
    ensures { IfOk result (λ bytes. bytes ≡ canonical_table (pair_table header.now first values.now)) }
{
    let mut writer = TableWriter::new(alloc, header)?;
    for (i, value) in values.iter().enumerate() {
        put_pair(&mut writer, first + i as u32, *value)?;
    }
    bytes_of(writer)
}
