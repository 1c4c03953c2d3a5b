//! What the trials share: what the program answers, and trees and sinks in memory.

use crate::same::same;
use std::alloc::{AllocError, Global};
use std::process::Abort;
use std::test::Fail;
use vpf_run::{Status, run};
use vpf_source::{MemSink, MemTree};

/// Words of their own.
fn words_of(alloc: Global, words: &[&str]) -> Result<Vec<String>, AllocError> {
    let mut owned = Vec::new(alloc);
    for word in words {
        owned.push(String::from_str(alloc, word)?)?;
    }
    Ok(owned)
}

/// Runs the program on these words, over a tree and a sink in memory. It has no contract, so that a test is proved without that of `run`.
pub fn answer(
    alloc: Global,
    words: &[&str],
    tree: &mut MemTree,
    out: &mut MemSink,
) -> Result<Status, AllocError> {
    let words = words_of(alloc, words)?;
    Ok(run(alloc, &words, tree, out))
}

/// These words print this text and end with this status.
pub fn check_answer(
    rt: &impl Abort,
    alloc: Global,
    tree: &mut MemTree,
    words: &[&str],
    text: &str,
    status: Status,
) -> Result<(), Fail> {
    let mut out = sink(alloc, 4096, 0)?;
    let told = answer(alloc, words, tree, &mut out)?;
    same(rt, out.bytes(), text.as_bytes(), words);
    same(rt, told, status, words);
    Ok(())
}

/// The tree holds these bytes under this name, or no file.
pub fn check_file(rt: &impl Abort, tree: &MemTree, name: &str, bytes: Option<&[u8]>) {
    same(rt, tree.file(name), bytes, name);
}

/// A sink that takes pieces, where one write fails, or none for 0.
pub fn sink(alloc: Global, piece: u32, failing: u64) -> Result<MemSink, AllocError> {
    let piece = piece.max(1);
    Ok(MemSink::new(alloc, piece, vec![in alloc; failing]?))
}

/// A tree with these files, read in pieces, where one call fails, or none for 0.
pub fn tree(
    alloc: Global,
    piece: u32,
    failing: u64,
    files: &[(&str, &[u8])],
) -> Result<MemTree, AllocError> {
    let piece = piece.max(1);
    let mut tree = MemTree::new(alloc, piece, vec![in alloc; failing]?);
    for (name, bytes) in files {
        tree.put(name, bytes)?;
    }
    Ok(tree)
}
