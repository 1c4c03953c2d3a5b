//! A case, asked in each way.

use crate::comparing::Differences;
use crate::folders::{enter, files_here, leave, put_files};
use crate::memory::{CaseSink, CaseTree};
use std::alloc::{AllocError, Global};
use std::io;
use vpf_notation::{Case, Run};
use vpf_run::run;
use vpf_source::{FolderTree, Tree};

/// The length of long pieces.
const LONG: usize = 4096;

/// Asks some words over a tree.
fn ask_words<T: Tree>(
    alloc: Global,
    asked: &Run,
    tree: &mut T,
    piece: usize,
    way: &str,
    differences: &mut Differences,
) -> Result<(), AllocError> {
    let mut out = CaseSink::new(alloc, piece);
    let status = run(alloc, &asked.words, tree, &mut out);
    differences.compare_run(way, asked, status.code(), out.bytes())
}

/// Asks a case over files in memory, no byte of which a run may ask for twice.
fn ask_memory(
    alloc: Global,
    case: &Case,
    piece: usize,
    way: &str,
    differences: &mut Differences,
) -> Result<(), AllocError> {
    let mut tree = CaseTree::new(alloc, piece, case)?;
    for asked in &case.runs {
        tree.begin();
        ask_words(alloc, asked, &mut tree, piece, way, differences)?;
        differences.compare_reads(way, asked, tree.asked_twice())?;
    }
    differences.compare_files(way, case, tree.files())
}

/// Asks a case over real files in the working folder.
fn ask_here(rt: &HostRuntime, case: &Case, differences: &mut Differences) -> io::Result<()> {
    let way = "real files";
    let mut tree = FolderTree::new(rt.alloc(), rt);
    put_files(&mut tree, &case.files)?;
    for asked in &case.runs {
        ask_words(rt.alloc(), asked, &mut tree, LONG, way, differences)?;
    }
    let files = files_here(rt)?;
    Ok(differences.compare_files(way, case, &files)?)
}

/// Asks a case over real files, in a folder of its own.
fn ask_real(rt: &HostRuntime, case: &Case, differences: &mut Differences) -> io::Result<()> {
    enter(rt)?;
    ask_here(rt, case, differences)?;
    leave(rt)
}

/// Asks a case over files in memory with pieces of each length.
fn ask_pieces(alloc: Global, case: &Case, differences: &mut Differences) -> Result<(), AllocError> {
    if !case.once {
        ask_memory(alloc, case, 1, "pieces of 1", differences)?;
        ask_memory(alloc, case, 7, "pieces of 7", differences)?;
    }
    ask_memory(alloc, case, LONG, "pieces of 4096", differences)
}

/// What differs where a case is asked in each way.
pub fn differences(rt: &HostRuntime, case: &Case) -> io::Result<Differences> {
    let mut differences = Differences::new(rt.alloc());
    ask_pieces(rt.alloc(), case, &mut differences)?;
    if !case.memory {
        ask_real(rt, case, &mut differences)?;
    }
    Ok(differences)
}
