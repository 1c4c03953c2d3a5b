//! Thematic indexes.

ghost use Rattle.std.specs.Prelude.{◌≡◌, ◌≤◌, ℕ, List, [], ◌∷◌, ◌++◌, IfOk, IsErrOf, OnOk, Some, option_and_then};
ghost use Rattle.vpf_head.specs.Inner.Views.{col};
ghost use Rattle.vpf_theme.specs.Reading.{theme_of};
ghost use Rattle.vpf_library_files.specs.Loading.Loading.{most_loaded, within};
ghost use Rattle.vpf_library_files.specs.Loading.Loads.{LoadsAs, ReadsAs};
ghost use Rattle.vpf_library_files.specs.Inner.Loading.Only.{OnlyLoads};
ghost use Rattle.vpf_feature_files.specs.SchemaRows.Items.{own_file};
ghost use Rattle.vpf_feature_files.specs.Inner.Held.{AreIndexFiles, IsIndexFileOption};
ghost use Rattle.vpf_feature_files.specs.Reading.{read_index, read_indexes, read_named_index, theme_graded};

use std::alloc::{AllocError, Global};
use vpf_head::{Column, Header};
use vpf_library_files::loading::{LoadStop, optional_file, within};
use vpf_source::names::file_beside;
use vpf_source::{Bytes, File, Name, Tree};
use vpf_theme::ThemeView;
use vpf_triplet::Order;

/// The file of the thematic index in these bytes, in the order of its table: it is kept under its name in the folder, and told under its whole one.
fn index_in(name: Name, file: Name, bytes: Vec<u8>, order: Order) -> Result<File, LoadStop>
    ensures reads { (folder : List ℕ) → name ≡ within folder file → (loaded : ℕ)
        → ReadsAs (λ kept index. IsIndexFileOption order index (Some kept)) result loaded (theme_graded folder file (theme_of order bytes.items) loaded) }
    ensures no_fault { ¬ IsErrOf result LoadStop.Fault }
{
    if let Err(place) = ThemeView::open(&bytes, order) {
        return Err(LoadStop::Place(name, place));
    }
    Ok(File {
        name: file,
        bytes: Bytes::new(bytes),
    })
}

/// The thematic index in a file of a folder, or nothing where it is absent.
fn index_called<T: Tree>(
    alloc: Global,
    tree: &mut T,
    folder: &str,
    file: Name,
    order: Order,
    loaded: &mut u64,
) -> Result<Option<File>, LoadStop>
    requires { loaded.old ≤ most_loaded }
    ensures reads { LoadsAs (T.files tree.old) (λ held. read_named_index held folder.now order (Some file) loaded.old)
        (λ kept index. IsIndexFileOption order index kept) result loaded.new }
    ensures only { OnlyLoads T.files T.faults tree.old tree.new loaded.old loaded.new (IsErrOf result LoadStop.Fault) }
{
    let name = Name::new(within(alloc, folder, file.as_str())?);
    match optional_file(alloc, tree, name.as_str(), loaded)? {
        Some(bytes) => Ok(Some(index_in(name, file, bytes, order)?)),
        None => Ok(None),
    }
}

/// The name of the file of the thematic index that a column names.
fn index_file(alloc: Global, column: &Column<'_>) -> Result<Option<Name>, AllocError>
    ensures { IfOk result (λ file. file ≡ option_and_then own_file (col column.now).theme) }
{
    match column.theme {
        Some(item) => file_beside(alloc, "", item),
        None => Ok(None),
    }
}

/// The thematic index that a column names, or nothing where none is named or there.
fn load_index<T: Tree>(
    alloc: Global,
    tree: &mut T,
    folder: &str,
    column: &Column<'_>,
    order: Order,
    loaded: &mut u64,
) -> Result<Option<File>, LoadStop>
    requires { loaded.old ≤ most_loaded }
    ensures reads { LoadsAs (T.files tree.old) (λ held. read_index held folder.now order (col column.now) loaded.old)
        (λ kept index. IsIndexFileOption order index kept) result loaded.new }
    ensures only { OnlyLoads T.files T.faults tree.old tree.new loaded.old loaded.new (IsErrOf result LoadStop.Fault) }
{
    match index_file(alloc, column)? {
        Some(file) => index_called(alloc, tree, folder, file, order, loaded),
        None => Ok(None),
    }
}

/// Keeps what is there of the thematic index of one more column.
fn keep(files: &mut Vec<Option<File>>, index: Option<File>) -> Result<(), AllocError>
    ensures { OnOk result (files.new.items ≡ files.old.items ++ index ∷ []) }
{
    files.push(index)?;
    Ok(())
}

/// For each column of a table, in order, the thematic index that it names, where one is there.
pub fn load_indexes<T: Tree>(
    alloc: Global,
    tree: &mut T,
    folder: &str,
    header: &Header<'_>,
    loaded: &mut u64,
) -> Result<Vec<Option<File>>, LoadStop>
    requires { loaded.old ≤ most_loaded }
    ensures reads { LoadsAs (T.files tree.old) (λ held. read_indexes held folder.now header.now.order header.now.columns loaded.old)
        (λ kept indexes. AreIndexFiles header.now.order indexes kept.items) result loaded.new }
    ensures only { OnlyLoads T.files T.faults tree.old tree.new loaded.old loaded.new (IsErrOf result LoadStop.Fault) }
{
    let mut files = Vec::new(alloc);
    for c in 0..header.len() {
        let index = load_index(alloc, tree, folder, header.at(c), header.order(), loaded)?;
        keep(&mut files, index)?;
    }
    Ok(files)
}
