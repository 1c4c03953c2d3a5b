//! The grid of n by n cells as a library of files.

ghost use Rattle.std.specs.Prelude.{◌≡◌, ◌≤◌, ◌%◌, IfOk};
ghost use Rattle.vpf_table.specs.Canonical.{canonical_table};
ghost use Rattle.vpf_vectors.specs.Cells.Rows.{edge_rows, face_rows, ring_rows, node_rows, plan_rows};
ghost use Rattle.vpf_prims.specs.Reading.{primitives_of};
ghost use Rattle.vpf_wing.specs.WellFormed.{IsWellFormed};
ghost use Rattle.vpf_vectors.specs.Heads.{face_head, node_head, plan_head};
ghost use Rattle.vpf_vectors.specs.Library.{coverage_tables, grid_files, tiles};
ghost use Rattle.vpf_vectors.specs.Tables.{grid_tileref, edge_table, ring_table, pair_table};

use crate::cells::{EdgeRow, RingRow, grid_rows, laws as grids, plan_rows};
use crate::grid_coverage::laws::grid_is_well_formed;
use crate::headers::{FACES, NODES, header_in, plan_header};
use crate::laws::tables_say_grid;
use crate::tables::{edge_table, pair_table, ring_table, tileref_table};
use std::alloc::{AllocError, Global};
use vpf_source::{Bytes, File, Name};

/// The tiles: two by two cells are one.
fn tileref_bytes(alloc: Global, n: u32) -> Result<Bytes, AllocError>
    requires { n ≤ 200 }
    ensures { IfOk result (λ bytes. bytes ≡ canonical_table (grid_tileref (tiles n))) }
{
    let side = n / 2;
    tileref_table(alloc, side * side)
}

/// The edges.
fn edge_bytes(alloc: Global, n: u32, rows: &[EdgeRow]) -> Result<Bytes, AllocError>
    requires least { 1 ≤ n }
    requires most { n ≤ 200 }
    requires rows { rows.now ≡ edge_rows n }
    ensures { IfOk result (λ bytes. bytes ≡ canonical_table (edge_table (edge_rows n))) }
{
    grids::darts_are_in_range();
    grids::nexts_are_a_map();
    edge_table(alloc, rows)
}

/// The faces, each with its first ring.
fn face_bytes(alloc: Global, n: u32, rows: &[u32]) -> Result<Bytes, AllocError>
    requires most { n ≤ 200 }
    requires rows { rows.now ≡ face_rows n }
    ensures { IfOk result (λ bytes. bytes ≡ canonical_table (pair_table face_head 1 (face_rows n))) }
{
    let header = header_in(alloc, FACES)?;
    pair_table(alloc, &header, 1, rows)
}

/// The rings.
fn ring_bytes(alloc: Global, n: u32, rows: &[RingRow]) -> Result<Bytes, AllocError>
    requires most { n ≤ 200 }
    requires rows { rows.now ≡ ring_rows n }
    ensures { IfOk result (λ bytes. bytes ≡ canonical_table (ring_table (ring_rows n))) }
{
    ring_table(alloc, rows)
}

/// The nodes, each with its first edge.
fn node_bytes(alloc: Global, n: u32, rows: &[u32]) -> Result<Bytes, AllocError>
    requires least { 1 ≤ n }
    requires most { n ≤ 200 }
    requires rows { rows.now ≡ node_rows n }
    ensures { IfOk result (λ bytes. bytes ≡ canonical_table (pair_table node_head 1 (node_rows n))) }
{
    grids::least_darts();
    let header = header_in(alloc, NODES)?;
    pair_table(alloc, &header, 1, rows)
}

/// The home tile of each face but 1.
fn plan_bytes(alloc: Global, n: u32, rows: &[u32]) -> Result<Bytes, AllocError>
    requires even { n % 2 ≡ 0 }
    requires least { 1 ≤ n }
    requires most { n ≤ 200 }
    requires rows { rows.now ≡ plan_rows n }
    ensures { IfOk result (λ bytes. bytes ≡ canonical_table (pair_table plan_head 2 (plan_rows n))) }
{
    grids::tiles_of_the_grid();
    let header = plan_header(alloc)?;
    pair_table(alloc, &header, 2, rows)
}

/// A file of this name.
fn file(alloc: Global, name: &str, bytes: Bytes) -> Result<File, AllocError>
    ensures { IfOk result (λ file. file ≡ record { name = name.now; bytes = bytes }) }
{
    Ok(File {
        name: Name::new(name.to_owned(alloc)?),
        bytes,
    })
}

/// The library `grid` with the untiled coverage `g`, the grid of `n` by `n` cells, where two by two cells are a tile: the tables of its
/// tiles, edges, faces, rings and nodes, and the plan, which gives each face but 1 its home tile (MIL-STD-2407, 5.3.2, primitives, and
/// 5.2.3, tiled coverages).
pub fn grid(alloc: Global, n: u32) -> Result<Vec<File>, AllocError>
    // Two by two cells are a tile.
    requires even { n % 2 ≡ 0 }
    requires least { 2 ≤ n }
    requires most { n ≤ 200 }
    ensures files { IfOk result (λ files. files.items ≡ grid_files n) }
    // What the rows of its tables say is a well-formed coverage.
    ensures well_formed { IfOk result (λ _. IsWellFormed (primitives_of (coverage_tables n))) }
{
    tables_say_grid();
    grid_is_well_formed();
    let rows = grid_rows(alloc, n)?;
    let homes = plan_rows(alloc, n)?;
    let tileref = tileref_bytes(alloc, n)?;
    let edges = edge_bytes(alloc, n, &rows.edges)?;
    let faces = face_bytes(alloc, n, &rows.faces)?;
    let rings = ring_bytes(alloc, n, &rows.rings)?;
    let nodes = node_bytes(alloc, n, &rows.nodes)?;
    let plan = plan_bytes(alloc, n, &homes)?;
    let mut files = Vec::new(alloc);
    files.push(file(alloc, "grid/tileref/tileref.aft", tileref)?)?;
    files.push(file(alloc, "grid/g/edg", edges)?)?;
    files.push(file(alloc, "grid/g/fac", faces)?)?;
    files.push(file(alloc, "grid/g/rng", rings)?)?;
    files.push(file(alloc, "grid/g/cnd", nodes)?)?;
    files.push(file(alloc, "grid/g/plan", plan)?)?;
    Ok(files)
}
