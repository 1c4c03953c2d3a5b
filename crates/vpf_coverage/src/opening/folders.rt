//! The tables of a folder, opened one after another from its files.

ghost use Rattle.std.specs.Prelude.{◌≡◌, ◌≤◌, List, IfOk, OnOk, Option};
ghost use Rattle.std.specs.Option.{option_map};
ghost use Rattle.vpf_source.specs.declared.file.File.{File as SourceFile};
ghost use Rattle.vpf_table.specs.Grid.{Grid};
ghost use Rattle.vpf_prims.specs.Reading.{PrimitiveTables};
ghost use Rattle.vpf_prims.specs.Inner.Views.{tables_in_view};
ghost use Rattle.vpf_coverage.specs.Inner.Opening.Opens.{AreOpeningTables, IsOpeningEnd, IsOpeningFolder, OpensEnd};
ghost use Rattle.vpf_coverage.specs.Inner.Opening.Opens.{OpensFolder, OpensTables, files_of_folder, files_of_option};

use crate::opening::tables::Unopened;
use std::alloc::{AllocError, Global};
use vpf_prims::{PrimitiveViews, files_of};
use vpf_table::TableView;

/// The entity nodes of a folder, where the next file is their table.
fn open_end<'a>(
    alloc: Global,
    folder: &str,
    like: Option<&TableView<'a>>,
    files: &mut Unopened<'a>,
) -> Result<Option<TableView<'a>>, AllocError>
    requires { IsOpeningEnd folder.now files.old }
    ensures table { (end : Option Grid) (rest : List SourceFile) → OpensEnd folder.now end rest files.old → IfOk result (λ table. table ≡ end) }
    ensures rest { (end : Option Grid) (rest : List SourceFile) → OpensEnd folder.now end rest files.old → OnOk result (files.new ≡ rest) }
{
    if files.is_first(alloc, folder, "end")? {
        Ok(Some(files.next_table(alloc, like)?))
    } else {
        Ok(None)
    }
}

/// The tables of a folder that isn't empty. Headers are shared with those of given tables, where they are the same.
fn open_tables<'a>(
    alloc: Global,
    folder: &str,
    like: Option<&PrimitiveViews<'a>>,
    files: &mut Unopened<'a>,
) -> Result<PrimitiveViews<'a>, AllocError>
    requires { AreOpeningTables folder.now files.old }
    ensures tables { (tables : PrimitiveTables) (rest : List SourceFile) → OpensTables folder.now tables rest files.old
        → IfOk result (λ views. tables_in_view views ≡ tables) }
    ensures rest { (tables : PrimitiveTables) (rest : List SourceFile) → OpensTables folder.now tables rest files.old → OnOk result (files.new ≡ rest) }
{
    Ok(PrimitiveViews {
        edg: files.next_table(alloc, like.map(|tables| &tables.edg))?,
        fac: files.next_table(alloc, like.map(|tables| &tables.fac))?,
        rng: files.next_table(alloc, like.map(|tables| &tables.rng))?,
        cnd: files.next_table(alloc, like.map(|tables| &tables.cnd))?,
        end: open_end(
            alloc,
            folder,
            like.and_then(|tables| tables.end.as_ref()),
            files,
        )?,
    })
}

/// The tables of a folder, which has some where the next file is its table of edges: their files are taken. Headers are shared
/// with those of given tables, where they are the same.
pub(crate) fn open_folder<'a>(
    alloc: Global,
    folder: &str,
    like: Option<&PrimitiveViews<'a>>,
    files: &mut Unopened<'a>,
) -> Result<Option<PrimitiveViews<'a>>, AllocError>
    requires { IsOpeningFolder folder.now files.old }
    ensures tables { (tables : Option PrimitiveTables) (rest : List SourceFile) → OpensFolder folder.now tables rest files.old
        → IfOk result (λ views. option_map tables_in_view views ≡ tables) }
    ensures rest { (tables : Option PrimitiveTables) (rest : List SourceFile) → OpensFolder folder.now tables rest files.old
        → OnOk result (files.new ≡ rest) }
{
    if files.is_first(alloc, folder, "edg")? {
        Ok(Some(open_tables(alloc, folder, like, files)?))
    } else {
        Ok(None)
    }
}

/// How many files a table is that may be absent.
fn files_of_option(table: &Option<TableView<'_>>) -> u32
    ensures value { result ≡ files_of_option table.now }
    ensures few { result ≤ 2 }
{
    match table {
        Some(table) => files_of(table),
        None => 0,
    }
}

/// How many files the tables of a folder are that may be empty.
pub(crate) fn files_of_folder(views: &Option<PrimitiveViews<'_>>) -> u32
    ensures value { result ≡ files_of_folder (option_map tables_in_view views.now) }
    ensures few { result ≤ 10 }
{
    match views {
        Some(v) => {
            files_of(&v.edg)
                + files_of(&v.fac)
                + files_of(&v.rng)
                + files_of(&v.cnd)
                + files_of_option(&v.end)
        }
        None => 0,
    }
}
