//! Some megabytes take no more room than there is.

use crate::bytes::{EDG, TEXT};
use crate::same::same;
use crate::testing::{answer, check_answer, sink, tree};
use std::alloc::{AllocError, Global};
use std::test::Fail;
use vpf_run::Status;

/// How many bytes the header of the edges has, with its length number.
const HEADER: usize = 234;

/// Three edges between two nodes: id, start and end node, right and left face, right and left edge.
const THREE: [[i32; 7]; 3] = [
    [1, 1, 2, 2, 1, 3, 2],
    [2, 2, 1, 3, 1, 3, 1],
    [3, 1, 2, 3, 2, 2, 1],
];

/// So many copies of the three edges, each with nodes and faces of its own, behind their header.
fn copies(alloc: Global, count: i32) -> Result<Vec<u8>, AllocError> {
    let mut bytes = Vec::from_slice(alloc, &EDG[..HEADER])?;
    for k in 0..count {
        let (twice, thrice) = (k.wrapping_mul(2), k.wrapping_mul(3));
        let offsets = [thrice, twice, twice, thrice, thrice, thrice, thrice];
        for edge in THREE {
            for (number, offset) in edge.iter().zip(offsets) {
                bytes.extend_from_slice(&number.wrapping_add(offset).to_le_bytes())?;
            }
            bytes.extend_from_slice(&[0, 0])?;
        }
    }
    Ok(bytes)
}

#[test]
fn lists_cycles_of_some_megabytes(rt: HostRuntime) -> Result<(), Fail> {
    let table = copies(rt.alloc(), 40_000)?;
    let mut tree = tree(rt.alloc(), 4096, 0, &[("edg", &table)])?;
    let mut out = sink(rt.alloc(), 4096, 0)?;
    let status = answer(rt.alloc(), &["cycles", "edg"], &mut tree, &mut out)?;
    same(&rt, status, Status::Done, "cycles");
    assert!(rt; out.bytes().ends_with(b"cycles 120000\n"));
    Ok(())
}

#[test]
fn swaps_a_million_texts(rt: HostRuntime) -> Result<(), Fail> {
    let mut table = TEXT[..28].to_vec(rt.alloc())?;
    table.resize(28 + 4_000_000, 0)?;
    let mut tree = tree(rt.alloc(), 4096, 0, &[("t.tab", &table)])?;
    let words = ["swap", "t.tab", "u.tab"];
    let text = "made u.tab 4000028\nmade u.tax 8000008\nfiles 2\n";
    check_answer(&rt, rt.alloc(), &mut tree, &words, text, Status::Done)
}

/// Each number stands in a list of its own.
#[test]
fn indexes_thirty_thousand_numbers(rt: HostRuntime) -> Result<(), Fail> {
    let mut table = b"\x18\0\0\0L;T;-;n=S,1,N,d,-,-,-,:;".to_vec(rt.alloc())?;
    for number in 0..30_000_i16 {
        table.extend_from_slice(&number.to_le_bytes())?;
    }
    let mut tree = tree(rt.alloc(), 4096, 0, &[("t.tab", &table)])?;
    let words = ["index", "t.tab", "n", "list", "i.lti"];
    let text = "made i.lti 300060\nfiles 1\n";
    check_answer(&rt, rt.alloc(), &mut tree, &words, text, Status::Done)
}
