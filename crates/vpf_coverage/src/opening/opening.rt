//! The tables of a coverage, opened tile by tile.

ghost use Rattle.std.specs.Prelude.{◌≡◌, ◌∷◌, ◌<◌, ◌≤◌, ◌^◌, List, All, IfOk, OnOk, IfSome, Option, None, get_or, length};
ghost use Rattle.std.specs.Option.{option_map};
ghost use Rattle.vpf_source.specs.declared.file.File.{File as SourceFile};
ghost use Rattle.vpf_table.specs.Grid.{Grid};
ghost use Rattle.vpf_prims.specs.Coverages.{CoverageTables, untiled_coverage};
ghost use Rattle.vpf_prims.specs.Reading.{PrimitiveTables};
ghost use Rattle.vpf_prims.specs.Tables.{TileTables, files_of_grid};
ghost use Rattle.vpf_library_files.specs.Tileref.Stops.{path_texts, tileref_stop};
ghost use Rattle.vpf_library_files.specs.Loading.Holding.{AreCoverageFiles, AreOfCoverage, AreTiledFiles};
ghost use Rattle.vpf_library_files.specs.Loading.Loading.{within};
ghost use Rattle.vpf_prims.specs.Inner.Views.{tables_in_view};
ghost use Rattle.vpf_coverage.specs.Inner.Opening.Opened.{names_in, opened_coverage, placed_views, tables_in_views};
ghost use Rattle.vpf_coverage.specs.Inner.Opening.Opens.{IsOpeningFolder, OpensFolder};
ghost use Rattle.vpf_coverage.specs.Inner.Opening.OpensTiles.{AreOpeningTiles, FilesOpen, IsOpeningCoverage, IsOpeningTiled, IsOpeningTileref};
ghost use Rattle.vpf_coverage.specs.Inner.Opening.OpensTiles.{OpensCoverage, OpensTiled, OpensTileref, OpensTiles};

use crate::opening::folders::{files_of_folder, open_folder};
use crate::opening::tables::Unopened;
use std::alloc::{AllocError, Global};
use vpf_library_files::loading::within;
use vpf_library_files::tileref::laws::stops_decide;
use vpf_library_files::tileref::{TilePaths, TilerefError, read_tileref};
use vpf_prims::{PrimitiveViews, files_of};
use vpf_source::File;
use vpf_table::TableView;
use vpf_table::laws::{opened_is_read, spelled_is_opened};

/// The paths of the tiles of a coverage: read where it was opened, or kept by the tables that it was opened from.
#[derive(Drop)]
pub enum Paths<'a> {
    /// They were read.
    Read(TilePaths),
    /// They are kept elsewhere.
    Kept(&'a TilePaths),
}

impl<'a> Paths<'a> {
    ghost use Rattle.std.specs.Prelude.{◌≡◌};
    ghost use Rattle.vpf_coverage.specs.Inner.Opening.Opened.{names_in};

    /// The paths, whoever keeps them.
    pub fn names(&self) -> &TilePaths
        ensures { result.now ≡ names_in self.now }
    {
        match self {
            Paths::Read(paths) => paths,
            Paths::Kept(paths) => paths,
        }
    }
}

/// The tables of a coverage, opened.
#[derive(Drop)]
pub struct OpenCoverage<'a> {
    /// The paths of its tiles, where it is tiled.
    pub paths: Option<Paths<'a>>,
    /// Where the first file of each tile stands among all, from 0: by the tiles' numbers from 0.
    pub firsts: Vec<u32>,
    /// The tables of each tile, none where it is empty: a tiled coverage has no tile 0, an untiled one has it alone.
    pub tiles: Vec<Option<PrimitiveViews<'a>>>,
}

/// The paths of the tiles in a table of tiles, which is right.
fn paths_in(alloc: Global, table: &TableView<'_>) -> Result<TilePaths, AllocError>
    requires { tileref_stop table.now ≡ None }
    ensures { IfOk result (λ paths. paths ≡ path_texts table.now) }
{
    match read_tileref(alloc, table) {
        Ok(paths) => Ok(paths),
        Err(TilerefError::NoMemory) => Err(AllocError),
        Err(_) => unreachable!(),
    }
}

/// The files of a coverage are opened as its tables.
fn files_open()
    ensures { FilesOpen }
{
    spelled_is_opened();
    opened_is_read();
    stops_decide();
}

/// The paths in the table of tiles, which is read where they aren't known.
fn known_paths<'a>(
    alloc: Global,
    known: Option<&'a TilePaths>,
    table: &TableView<'_>,
) -> Result<Paths<'a>, AllocError>
    requires right { tileref_stop table.now ≡ None }
    requires known { IfSome known (λ paths. paths.now ≡ path_texts table.now) }
    ensures { IfOk result (λ paths. names_in paths ≡ path_texts table.now) }
{
    match known {
        Some(paths) => Ok(Paths::Kept(paths)),
        None => Ok(Paths::Read(paths_in(alloc, table)?)),
    }
}

/// The paths in the table of tiles, and how many files it is, which are taken.
fn open_paths<'a>(alloc: Global, files: &mut Unopened<'a>) -> Result<(Paths<'a>, u32), AllocError>
    requires { IsOpeningTileref files.old }
    ensures paths { (tileref : Grid) (rest : List SourceFile) → OpensTileref tileref rest files.old
        → IfOk result (λ opened. names_in opened.0 ≡ path_texts tileref) }
    ensures count { (tileref : Grid) (rest : List SourceFile) → OpensTileref tileref rest files.old
        → IfOk result (λ opened. opened.1 ≡ files_of_grid tileref) }
    ensures rest { (tileref : Grid) (rest : List SourceFile) → OpensTileref tileref rest files.old → OnOk result (files.new ≡ rest) }
    ensures few { IfOk result (λ opened. opened.1 ≤ 2) }
{
    spelled_is_opened();
    opened_is_read();
    let known = files.paths();
    let table = files.next_table(alloc, None)?;
    let paths = known_paths(alloc, known, &table)?;
    Ok((paths, files_of(&table)))
}

/// The tables of the tile with this path. Headers are shared with those of given tables, where they are the same.
fn open_tile<'a>(
    alloc: Global,
    folder: &str,
    path: &str,
    like: Option<&PrimitiveViews<'a>>,
    files: &mut Unopened<'a>,
) -> Result<Option<PrimitiveViews<'a>>, AllocError>
    requires { IsOpeningFolder (within folder.now path.now) files.old }
    ensures tables { (tables : Option PrimitiveTables) (rest : List SourceFile) → OpensFolder (within folder.now path.now) tables rest files.old
        → IfOk result (λ views. tables_in_views views ≡ tables) }
    ensures rest { (tables : Option PrimitiveTables) (rest : List SourceFile) → OpensFolder (within folder.now path.now) tables rest files.old
        → OnOk result (files.new ≡ rest) }
{
    let folder = within(alloc, folder, path)?;
    open_folder(alloc, folder.as_str(), like, files)
}

/// The tables of tile `t`: none where it is empty, or there is no such tile.
pub fn views_at<'v, 'a>(
    tiles: &'v [Option<PrimitiveViews<'a>>],
    t: usize,
) -> Option<&'v PrimitiveViews<'a>>
    ensures { option_map (λ views. views.now) result ≡ get_or tiles.now t None }
{
    match tiles.get(t) {
        Some(Some(views)) => Some(views),
        _ => None,
    }
}

/// The tables of the tiles with these paths, and where the first file of each stands among all, the first of them at this place:
/// by the tiles' numbers from 0, and there is no tile 0.
fn open_tiles<'a>(
    alloc: Global,
    folder: &str,
    paths: &TilePaths,
    mut at: u32,
    mut files: Unopened<'a>,
) -> Result<(Vec<u32>, Vec<Option<PrimitiveViews<'a>>>), AllocError>
    requires few { at ≤ 2 }
    requires tiles { AreOpeningTiles folder.now at paths.now files }
    ensures opened { (tiles : List (Option TileTables)) → OpensTiles folder.now at paths.now tiles files.entry
        → IfOk result (λ o. placed_views o.0.items o.1.items ≡ None ∷ tiles) }
    ensures alike { IfOk result (λ o. length o.0.items ≡ length o.1.items) }
    ensures few { IfOk result (λ o. All (λ first. first < 2 ^ 31) o.0.items) }
{
    let mut firsts = vec![in alloc; 0]?;
    let mut tiles = Vec::with_capacity(alloc, paths.len() as usize + 1)?;
    tiles.push(None)?;
    // The last tile that has tables: those of the others mostly have the same headers.
    let mut last = 0;
    for t in 0..paths.len() {
        let Some(path) = paths.path(t + 1) else {
            unreachable!()
        };
        let like = views_at(&tiles, last);
        let tile = open_tile(alloc, folder, path, like, &mut files)?;
        firsts.push(at)?;
        at += files_of_folder(&tile);
        if tile.is_some() {
            last = tiles.len();
        }
        tiles.push(tile)?;
    }
    Ok((firsts, tiles))
}

/// A tiled coverage, whose table of tiles comes first.
fn open_tiled<'a>(
    alloc: Global,
    folder: &str,
    mut files: Unopened<'a>,
) -> Result<OpenCoverage<'a>, AllocError>
    requires { IsOpeningTiled folder.now files }
    ensures opened { (c : CoverageTables) → OpensTiled folder.now c files.entry → IfOk result (λ o. opened_coverage o ≡ c) }
    ensures alike { IfOk result (λ o. length o.firsts.items ≡ length o.tiles.items) }
    ensures few { IfOk result (λ o. All (λ first. first < 2 ^ 31) o.firsts.items) }
{
    let (paths, at) = open_paths(alloc, &mut files)?;
    let (firsts, tiles) = open_tiles(alloc, folder, paths.names(), at, files)?;
    Ok(OpenCoverage {
        paths: Some(paths),
        firsts,
        tiles,
    })
}

/// An untiled coverage of these tables.
fn untiled<'a>(alloc: Global, views: PrimitiveViews<'a>) -> Result<OpenCoverage<'a>, AllocError>
    ensures opened { IfOk result (λ o. opened_coverage o ≡ untiled_coverage (record { first = 0; tables = tables_in_view views.entry })) }
    ensures alike { IfOk result (λ o. length o.firsts.items ≡ length o.tiles.items) }
    ensures few { IfOk result (λ o. All (λ first. first < 2 ^ 31) o.firsts.items) }
{
    let firsts = vec![in alloc; 0]?;
    let mut tiles = Vec::new(alloc);
    tiles.push(Some(views))?;
    Ok(OpenCoverage {
        paths: None,
        firsts,
        tiles,
    })
}

/// A coverage, which isn't tiled where its own folder has tables.
fn open_coverage<'a>(
    alloc: Global,
    folder: &str,
    mut files: Unopened<'a>,
) -> Result<OpenCoverage<'a>, AllocError>
    requires { IsOpeningCoverage folder.now files }
    ensures opened { (c : CoverageTables) → OpensCoverage folder.now c files.entry → IfOk result (λ o. opened_coverage o ≡ c) }
    ensures alike { IfOk result (λ o. length o.firsts.items ≡ length o.tiles.items) }
    ensures few { IfOk result (λ o. All (λ first. first < 2 ^ 31) o.firsts.items) }
{
    match open_folder(alloc, folder, None, &mut files)? {
        Some(views) => untiled(alloc, views),
        None => open_tiled(alloc, folder, files),
    }
}

/// The tables of a coverage from its files, in the order in which they were read: whether it is tiled, and which tables its folders
/// have, the names of the files tell.
pub(crate) fn open_files<'a>(
    alloc: Global,
    files: Unopened<'a>,
    lib: &str,
    cov: &str,
) -> Result<OpenCoverage<'a>, AllocError>
    requires { AreOfCoverage lib.now cov.now files }
    // The coverage that the files are.
    ensures opened { (c : CoverageTables) → AreCoverageFiles lib.now cov.now c files.entry → IfOk result (λ o. opened_coverage o ≡ c) }
    // Each tile has a place for the first of its files.
    ensures alike { IfOk result (λ o. length o.firsts.items ≡ length o.tiles.items) }
    // There are few enough files to count them.
    ensures few { IfOk result (λ o. All (λ first. first < 2 ^ 31) o.firsts.items) }
{
    files_open();
    let folder = within(alloc, lib, cov)?;
    open_coverage(alloc, folder.as_str(), files)
}

/// The table of tiles of a tiled coverage, which stands first among its files in the order in which they were read.
pub fn open_tileref<'a>(
    alloc: Global,
    files: &'a [File],
    lib: &str,
    cov: &str,
) -> Result<TableView<'a>, AllocError>
    requires { (c : CoverageTables) × AreTiledFiles lib.now cov.now c files.now }
    ensures { (c : CoverageTables) (are : AreTiledFiles lib.now cov.now c files.now) → IfOk result (λ table. table ≡ are.tileref) }
{
    spelled_is_opened();
    opened_is_read();
    Unopened::of(files).next_table(alloc, None)
}
