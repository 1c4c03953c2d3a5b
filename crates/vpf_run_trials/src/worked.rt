//! The worked tables, and what is said of them.

use crate::same::same;
use crate::testing::{answer, sink, tree};
use std::alloc::Global;
use std::process::Abort;
use std::test::Fail;
use vpf_vectors::{VECTORS, Vector};

/// These words print what is said of the table, however it is cut.
fn check(rt: &impl Abort, alloc: Global, vector: &Vector, words: &[&str]) -> Result<(), Fail> {
    for piece in [1, 2, 4096] {
        let mut tree = tree(alloc, piece, 0, &[("t.tab", vector.bytes)])?;
        let mut out = sink(alloc, piece, 0)?;
        let status = answer(alloc, words, &mut tree, &mut out)?;
        same(rt, status.code(), vector.status, vector.example);
        same(rt, out.bytes(), vector.text.as_bytes(), vector.example);
    }
    Ok(())
}

#[test]
fn answers_over_worked_tables(rt: HostRuntime) -> Result<(), Fail> {
    for vector in &VECTORS {
        check(&rt, rt.alloc(), vector, &vector.words)?;
        if vector.status == 1 {
            check(&rt, rt.alloc(), vector, &["table", "t.tab"])?;
        }
    }
    Ok(())
}
