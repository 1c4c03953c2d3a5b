//! A coverage, seen in its files.

ghost use Rattle.std.specs.Prelude.{◌≡◌, IfOk};
ghost use Rattle.vpf_findings.specs.Firsts.{Tells};
ghost use Rattle.vpf_prims.specs.Coverages.{CoverageTables};
ghost use Rattle.vpf_library_files.specs.Loading.Holding.{AreCoverageFiles, AreOfCoverage};
ghost use Rattle.vpf_numbers.specs.TableLines.{coverage_numbers};
ghost use Rattle.vpf_coverage.specs.Inner.Opening.Opened.{opened_coverage};
ghost use Rattle.vpf_coverage.specs.Inner.Opened.{HasCountedTiles, IsPlaced};

use crate::columns::columns_of;
use crate::opening::{OpenCoverage, Paths, Unopened, open_files};
use crate::tiles::{all_kept, tiles_of};
use std::alloc::{AllocError, Global};
use std::marker::Model;
use vpf_findings::FindError;
use vpf_library_files::loading::LoadedTables;
use vpf_library_files::loading::laws::files_are_libraries;
use vpf_prims::Tile;
use vpf_source::File;

/// The primitives of a coverage, whose columns, ids and references are right. Contracts see it as the tables of its tiles.
#[derive(Drop)]
pub struct Coverage<'a> {
    paths: Option<Paths<'a>>,
    tiles: Vec<Option<Tile<'a>>>,
}

impl<'a> Model for Coverage<'a> {
    ghost use Rattle.vpf_prims.specs.Coverages.{CoverageTables};

    ghost Value = { CoverageTables };

    ghost use Rattle.vpf_coverage.specs.Inner.Coverages.{IsCoverage, coverage_of};

    ghost view = { coverage_of };

    ghost invariant = { IsCoverage };
}

impl<'a> Coverage<'a> {
    ghost use Rattle.std.specs.Prelude.{◌≡◌, IfOk, None};
    ghost use Rattle.std.specs.Option.{option_map};
    ghost use Rattle.vpf_prims.specs.Coverages.{last_tile, path_at, tile_at};
    ghost use Rattle.vpf_prims.specs.Libraries.{IsLibrary, library_of};

    /// Whether the coverage is cut into tiles.
    pub fn is_tiled(&self) -> bool
        ensures { result ≡ self.now.is_tiled }
    {
        self.paths.is_some()
    }

    /// The number of its tiles, empty ones included: 0 where it isn't tiled.
    pub fn tiles(&self) -> u32
        ensures { result ≡ last_tile self.now }
    {
        self.tiles.len().saturating_sub(1) as u32
    }

    /// The tile of this number: 0 alone where the coverage isn't tiled, and from 1 where it is. Nothing where there is no such tile, or it is
    /// empty.
    pub fn tile(&self, t: u32) -> Option<&Tile<'a>>
        ensures { option_map (λ t. t.now) result ≡ tile_at self.now t }
    {
        match self.tiles.get(t as usize) {
            Some(Some(tile)) => Some(tile),
            _ => None,
        }
    }

    /// The path of a tile's folder within the coverage, also of an empty tile: that of tile 0 of an untiled coverage is empty. Nothing where
    /// there is no such tile.
    pub fn path(&self, t: u32) -> Option<&str>
        ensures { option_map (λ path. path.now) result ≡ path_at self.now t }
    {
        match &self.paths {
            Some(paths) => paths.names().path(t),
            None if t == 0 => Some(""),
            None => None,
        }
    }

    /// The same coverage, whose tiles keep what their rows of edges say: 148 bytes an edge. It is for those that ask for the same edges many
    /// times. The tiles of a tiled coverage keep them as it is.
    pub fn keeping_edges(self, alloc: Global) -> Result<Coverage<'a>, AllocError>
        ensures { IfOk result (λ same. same ≡ self.entry) }
    {
        if self.is_tiled() {
            return Ok(self);
        }
        Ok(Coverage {
            paths: self.paths,
            tiles: all_kept(alloc, self.tiles)?,
        })
    }

    /// What is so of the columns, ids, references and marks of each coverage: nothing disagrees in them.
    pub fn numbers_hold(&self)
        ensures { coverage_numbers self.now ≡ None }
    {
        let _tiles = &self.tiles;
    }

    /// What is so of the tiles of each coverage: they are numbered from 1, or there is one that isn't numbered; and some have tables.
    pub fn tiles_make_library(&self)
        ensures { IsLibrary (library_of self.now) }
    {
        let _tiles = &self.tiles;
    }
}

/// The coverage of tables that were opened, where nothing disagrees in them.
fn checked<'a>(alloc: Global, opened: OpenCoverage<'a>) -> Result<Coverage<'a>, FindError<'a>>
    requires placed { IsPlaced opened }
    requires counted { HasCountedTiles (opened_coverage opened) }
    ensures first { Tells result (coverage_numbers (opened_coverage opened.entry)) }
    ensures coverage { IfOk result (λ coverage. coverage ≡ opened_coverage opened.entry) }
{
    let columns = columns_of(alloc, &opened)?;
    let tiles = tiles_of(alloc, opened.firsts, opened.tiles, columns)?;
    Ok(Coverage {
        paths: opened.paths,
        tiles,
    })
}

/// The coverage of files that are still to be opened.
fn open_unopened<'a>(
    alloc: Global,
    files: Unopened<'a>,
    lib: &str,
    cov: &str,
) -> Result<Coverage<'a>, FindError<'a>>
    requires { AreOfCoverage lib.now cov.now files }
    ensures first { (c : CoverageTables) → AreCoverageFiles lib.now cov.now c files.entry → Tells result (coverage_numbers c) }
    ensures opened { (c : CoverageTables) → AreCoverageFiles lib.now cov.now c files.entry → IfOk result (λ coverage. coverage ≡ c) }
{
    files_are_libraries();
    let opened = open_files(alloc, files, lib, cov)?;
    checked(alloc, opened)
}

/// Opens the primitives of a coverage from its files, as `load_coverage` gives them for the same two names.
///
/// The first place where a column, an id, a reference or a mark isn't right is the finding: tile by tile, table by table in reading order,
/// in each the columns and then row by row (MIL-STD-2407, 5.2.2, primitives). In a tiled coverage the columns are those of the first tile
/// that has the table, and edges may name what goes on in another tile (5.2.3, cross-tile topology). Each file is opened once.
pub fn open_coverage<'a>(
    alloc: Global,
    files: &'a [File],
    lib: &str,
    cov: &str,
) -> Result<Coverage<'a>, FindError<'a>>
    requires { AreOfCoverage lib.now cov.now files.now }
    ensures first { (c : CoverageTables) → AreCoverageFiles lib.now cov.now c files.now → Tells result (coverage_numbers c) }
    ensures opened { (c : CoverageTables) → AreCoverageFiles lib.now cov.now c files.now → IfOk result (λ coverage. coverage ≡ c) }
{
    open_unopened(alloc, Unopened::of(files), lib, cov)
}

/// Opens the primitives of a coverage from its tables, as `load_coverage_tables` gives them for the same two names: exactly as `open_coverage` does from
/// their files, but neither a row is counted nor the table of tiles read again.
pub fn open_tables<'a>(
    alloc: Global,
    files: &'a LoadedTables,
    lib: &str,
    cov: &str,
) -> Result<Coverage<'a>, FindError<'a>>
    requires { AreOfCoverage lib.now cov.now files.now }
    ensures first { (c : CoverageTables) → AreCoverageFiles lib.now cov.now c files.now → Tells result (coverage_numbers c) }
    ensures opened { (c : CoverageTables) → AreCoverageFiles lib.now cov.now c files.now → IfOk result (λ coverage. coverage ≡ c) }
{
    open_unopened(alloc, Unopened::loaded(files), lib, cov)
}
