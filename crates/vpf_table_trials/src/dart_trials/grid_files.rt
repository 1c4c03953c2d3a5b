//! The files of the grid, by their lengths and a digest.
//!
//! The tables of edges, faces, rings and nodes are measured as an independent writer makes them, bench/make_coverage.py; the tiles and the plan are
//! written by hand.

use crate::dart_trials::same::same;
use std::test::Fail;
use vpf_source::File;
use vpf_vectors::grid;

/// The files of the grid of two by two cells, which is one tile, and how many bytes they have.
const FILES: [(&str, usize); 6] = [
    ("grid/tileref/tileref.aft", 74),
    ("grid/g/edg", 594),
    ("grid/g/fac", 101),
    ("grid/g/rng", 149),
    ("grid/g/cnd", 135),
    ("grid/g/plan", 93),
];

/// Cells a side, how many bytes the files have in all, and the digest of these, one file after another.
const GRIDS: [(u32, usize, u32); 4] = [
    (2, 1_146, 4_208_351_911),
    (4, 2_486, 2_206_942_334),
    (6, 4_618, 768_298_829),
    (200, 3_975_798, 3_653_640_831),
];

#[test]
fn names_the_files_of_the_grid(rt: HostRuntime) -> Result<(), Fail> {
    let files = grid(rt.alloc(), 2)?;
    same(&rt, files.len(), FILES.len(), "files");
    for (file, (name, len)) in files.iter().zip(FILES) {
        same(&rt, file.name.as_str(), name, name);
        same(&rt, file.bytes.as_slice().len(), len, name);
    }
    Ok(())
}

/// The digest with these bytes behind those before.
fn digest(before: u32, bytes: &[u8]) -> u32 {
    let mut digest = before;
    for byte in bytes {
        digest = digest.wrapping_mul(31).wrapping_add(u32::from(*byte));
    }
    digest
}

/// How many bytes the files have in all, and their digest.
fn measured(files: &[File]) -> (usize, u32) {
    let mut measured = (0usize, 0);
    for file in files {
        let bytes = file.bytes.as_slice();
        measured = (
            measured.0.wrapping_add(bytes.len()),
            digest(measured.1, bytes),
        );
    }
    measured
}

#[test]
fn writes_grids(rt: HostRuntime) -> Result<(), Fail> {
    for (n, len, wanted) in GRIDS {
        assert!(rt; n % 2 == 0 && 2 <= n && n <= 200);
        let files = grid(rt.alloc(), n)?;
        same(&rt, measured(&files), (len, wanted), n);
    }
    Ok(())
}
