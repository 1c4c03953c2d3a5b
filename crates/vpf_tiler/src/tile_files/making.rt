//! The tables of a tiled library, one behind another.

ghost use Rattle.std.specs.Prelude.{◌≡◌, [], IfOk, length, string_bytes};
ghost use Rattle.vpf_base.specs.Results.{Meets};
ghost use Rattle.vpf_cutting.specs.Inner.Cuts.{plan_by};
ghost use Rattle.vpf_prims.specs.Lists.{kth};
ghost use Rattle.vpf_prims.specs.Reading.{primitives_of};
ghost use Rattle.vpf_library_files.specs.Loading.Loading.{within};
ghost use Rattle.vpf_library_files.specs.Tileref.Stops.{path_texts};
ghost use Rattle.vpf_library_files.specs.Tileref.Tileref.{IsTileref};
ghost use Rattle.vpf_library_files.specs.TableFiles.Adding.{Adds, error_seen, made_of_tables};
ghost use Rattle.vpf_tiler.specs.TileFiles.Tables.{all_tile_tables, entity_tables, library_tables, tables_if_made, tile_tables};

use std::alloc::{AllocError, Global};
use vpf_cutting::Cut;
use vpf_library_files::loading::within;
use vpf_library_files::table_files::{AddError, add_table};
use vpf_library_files::tileref::TilePaths;
use vpf_primitive_tables::cut_rings::CutRings;
use vpf_primitive_tables::tile_tables::{Forms, write_tiles};
use vpf_source::File;
use vpf_table::TableView;

/// What the tables of tiles are made of: the coverage as it is cut, the rings of its faces, and the tables that those of tiles are like.
#[derive(Drop)]
pub struct Making<'w, 't, 'a> {
    /// The coverage, cut by its plan.
    pub cut: &'w Cut<'t, 'a>,
    /// The rings of that cut.
    pub rings: CutRings<'w, 't, 'a>,
    /// The tables of the coverage.
    pub forms: Forms<'t, 'a>,
}

/// The folder of a tile, within that of the coverage.
fn folder_of(alloc: Global, cov: &str, paths: &TilePaths, tile: u32) -> Result<String, AllocError>
    ensures { IfOk result (λ folder. string_bytes folder ≡ within cov.now (kth paths.now tile [])) }
{
    match paths.path(tile) {
        Some(path) => within(alloc, cov, path),
        None => within(alloc, cov, ""),
    }
}

impl<'w, 't, 'a> Making<'w, 't, 'a> {
    /// Adds the table of the entity nodes of a tile, where the coverage has one.
    fn add_entities(
        &self,
        alloc: Global,
        folder: &str,
        tile: u32,
        files: &mut Vec<File>,
    ) -> Result<(), AddError>
        requires { self.now.cut.now.source ≡ primitives_of self.now.forms }
        ensures { Adds (entity_tables folder.now self.now.forms.end self.now.cut.now.source
            (plan_by self.now.cut.now.plan) tile) files.old.items files.new.items result }
    {
        match self.forms.entities(alloc, self.cut, tile) {
            Ok(None) => Ok(()),
            Ok(Some(written)) => add_table(alloc, folder, "end", Ok(written), files),
            Err(error) => add_table(alloc, folder, "end", Err(error), files),
        }
    }

    /// Adds the tables of a tile.
    fn add_tile(
        &self,
        alloc: Global,
        folder: &str,
        tile: u32,
        files: &mut Vec<File>,
    ) -> Result<(), AddError>
        requires source { self.now.cut.now.source ≡ primitives_of self.now.forms }
        requires rings { self.now.rings ≡ self.now.cut.now }
        ensures { Adds (tile_tables folder.now self.now.forms self.now.cut.now.source
            (plan_by self.now.cut.now.plan) tile) files.old.items files.new.items result }
    {
        let rings = self.rings.of_tile(alloc, tile)?;
        let edges = self.forms.edges(alloc, self.cut, tile);
        add_table(alloc, folder, "edg", edges, files)?;
        let faces = self.forms.faces(alloc, self.cut, tile, &rings);
        add_table(alloc, folder, "fac", faces, files)?;
        let written = self.forms.rings(alloc, self.cut, tile, &rings);
        add_table(alloc, folder, "rng", written, files)?;
        let nodes = self.forms.nodes(alloc, self.cut, tile);
        add_table(alloc, folder, "cnd", nodes, files)?;
        self.add_entities(alloc, folder, tile, files)
    }

    /// The same within the folder of the coverage, unless the tile is empty.
    fn add_if_made(
        &self,
        alloc: Global,
        cov: &str,
        paths: &TilePaths,
        tile: u32,
        files: &mut Vec<File>,
    ) -> Result<(), AddError>
        requires source { self.now.cut.now.source ≡ primitives_of self.now.forms }
        requires rings { self.now.rings ≡ self.now.cut.now }
        ensures { Adds (tables_if_made cov.now paths.now self.now.forms self.now.cut.now.source (plan_by self.now.cut.now.plan) self.now.cut.now.tiles tile)
            files.old.items files.new.items result }
    {
        if !self.cut.is_made(tile) {
            return Ok(());
        }
        let folder = folder_of(alloc, cov, paths, tile)?;
        self.add_tile(alloc, folder.as_str(), tile, files)
    }

    /// Adds the tables of all tiles, in their order.
    fn add_all(
        &self,
        alloc: Global,
        cov: &str,
        paths: &TilePaths,
        files: &mut Vec<File>,
    ) -> Result<(), AddError>
        requires source { self.now.cut.now.source ≡ primitives_of self.now.forms }
        requires rings { self.now.rings ≡ self.now.cut.now }
        ensures { Adds (all_tile_tables cov.now paths.now self.now.forms self.now.cut.now.source (plan_by self.now.cut.now.plan) self.now.cut.now.tiles)
            files.old.items files.new.items result }
    {
        for below in 0..self.cut.tiles() {
            self.add_if_made(alloc, cov, paths, below + 1, files)?;
        }
        Ok(())
    }

    /// The files of the library, each table under its name with its index where its rows vary: the table of tiles, `tileref/tileref.aft`, and the
    /// tables of all tiles in their folders within `cov`, the name of the coverage (MIL-STD-2407, 5.2.3, tiled coverages). `Limit` tells the first
    /// file that would pass a bound.
    pub fn files(
        &self,
        alloc: Global,
        cov: &str,
        tileref: &TableView<'_>,
        paths: &TilePaths,
    ) -> Result<Vec<File>, AddError>
        requires source { self.now.cut.now.source ≡ primitives_of self.now.forms }
        requires rings { self.now.rings ≡ self.now.cut.now }
        requires tileref { IsTileref tileref.now }
        requires paths { paths.now ≡ path_texts tileref.now }
        requires tiles { self.now.cut.now.tiles ≡ length tileref.now.rows }
        ensures { Meets (λ files. files.items) error_seen result
            (made_of_tables (library_tables cov.now self.now.forms self.now.cut.now.source (plan_by self.now.cut.now.plan) tileref.now)) }
    {
        let mut files = Vec::new(alloc);
        let tiles = write_tiles(alloc, tileref);
        add_table(alloc, "tileref", "tileref.aft", tiles, &mut files)?;
        self.add_all(alloc, cov, paths, &mut files)?;
        Ok(files)
    }
}
