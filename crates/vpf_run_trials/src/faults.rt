//! Each call of the tree and each write to the sink fails in turn: what was made and written before stands, and no more.

use crate::bytes::{
    CND, EDG, FAC, LIST, NINE, PLAIN, PLAN, RNG, TEXT, TEXT_BIG, TEXT_INDEX, TILES, VARYING,
    VARYING_INDEX,
};
use crate::same::same;
use crate::testing::{answer, check_answer, check_file, sink, tree};
use std::alloc::Global;
use std::process::Abort;
use std::test::Fail;
use vpf_run::Status;

/// What is printed of `t.tab` as a table.
const ACCEPTED: &str = "accepted rows 1 columns 1\n";

/// The same without its end.
const CUT: &str = "accepted rows 1 columns 1";

/// A verb over `t.tab` with pieces of one byte, the tree call and the sink call that fail, from 1, or 0 for none, and what is answered.
const FAULTS: [(&str, [u64; 2], Status, &str); 9] = [
    ("table", [1, 0], Status::TreeFault, ""),
    ("table", [2, 0], Status::TreeFault, ""),
    ("table", [34, 0], Status::TreeFault, ""),
    ("table", [35, 0], Status::Done, ACCEPTED),
    ("table", [0, 1], Status::SinkFault, ""),
    ("table", [0, 26], Status::SinkFault, CUT),
    ("table", [0, 27], Status::Done, ACCEPTED),
    ("show", [0, 2], Status::SinkFault, "o"),
    ("show", [1, 0], Status::TreeFault, ""),
];

/// What is printed where a table and its index are made.
const TEXT_MADE: &str = "made u.tab 35\nmade u.tax 16\nfiles 2\n";

/// The files of an untiled coverage with its plan.
const LIBRARY: [(&str, &[u8]); 6] = [
    ("lib/cov/edg", EDG),
    ("lib/cov/fac", FAC),
    ("lib/cov/rng", RNG),
    ("lib/cov/cnd", CND),
    ("lib/tileref/tileref.aft", TILES),
    ("lib/cov/plan", PLAN),
];

/// What a verb prints over a tree and a sink of one byte a call, where these calls fail, and its status.
fn check_faults(
    rt: &impl Abort,
    alloc: Global,
    verb: &str,
    fails: [u64; 2],
    text: &str,
    status: Status,
) -> Result<(), Fail> {
    let [tree_fails, sink_fails] = fails;
    let mut tree = tree(alloc, 1, tree_fails, &[("t.tab", PLAIN)])?;
    let mut out = sink(alloc, 1, sink_fails)?;
    let told = answer(alloc, &[verb, "t.tab"], &mut tree, &mut out)?;
    same(rt, out.bytes(), text.as_bytes(), fails);
    same(rt, told, status, fails);
    Ok(())
}

#[test]
fn stops_at_faults(rt: HostRuntime) -> Result<(), Fail> {
    for (verb, fails, status, text) in FAULTS {
        check_faults(&rt, rt.alloc(), verb, fails, text, status)?;
    }
    Ok(())
}

/// The second read, which would fail, is never asked for: the first shows a length number that is too large.
#[test]
fn reads_no_further_than_a_fault(rt: HostRuntime) -> Result<(), Fail> {
    let mut big = b"\x01\0\x01\0".to_vec(rt.alloc())?;
    big.resize(8_192, 0)?;
    let mut tree = tree(rt.alloc(), 4096, 3, &[("big.tab", &big)])?;
    let (words, text) = (["table", "big.tab"], "limit header big.tab 65537\n");
    check_answer(&rt, rt.alloc(), &mut tree, &words, text, Status::Limit)
}

/// Size and bytes of the table, of its index, and of the index of the column.
#[test]
fn stops_at_each_call_of_rows(rt: HostRuntime) -> Result<(), Fail> {
    let files = [
        ("v.tab", VARYING),
        ("v.tax", VARYING_INDEX),
        ("v.lti", LIST),
    ];
    for failing in 1..=7 {
        let mut tree = tree(rt.alloc(), 4096, failing, &files)?;
        let (want, text) = match failing {
            1..=6 => (Status::TreeFault, ""),
            _ => (Status::Refused, "disagree 1 v.lti row 0 c: T,1, T,*\n"),
        };
        let words = ["rows", "v.tab", "c", "a"];
        check_answer(&rt, rt.alloc(), &mut tree, &words, text, want)?;
    }
    Ok(())
}

/// Size and bytes of the table, and the two calls that make the index.
#[test]
fn stops_at_each_call_of_index(rt: HostRuntime) -> Result<(), Fail> {
    for failing in 1..=4 {
        let mut tree = tree(rt.alloc(), 4096, failing, &[("t.tab", NINE)])?;
        let (want, text, made) = match failing {
            1 | 2 => (Status::TreeFault, "", None),
            3 => (Status::TreeFault, "", Some(&LIST[..47])),
            _ => (Status::Done, "made t.lti 94\nfiles 1\n", Some(LIST)),
        };
        let words = ["index", "t.tab", "c", "list", "t.lti"];
        check_answer(&rt, rt.alloc(), &mut tree, &words, text, want)?;
        check_file(&rt, &tree, "t.lti", made);
    }
    Ok(())
}

/// The tree fails at this call: of those that make, the first makes half of the table, and the second half of its index.
fn check_swap(rt: &impl Abort, alloc: Global, piece: u32, reads: u64, at: u64) -> Result<(), Fail> {
    let mut tree = tree(alloc, piece, at, &[("text", TEXT)])?;
    let half = Some(&TEXT_INDEX[..8]);
    let (text, want, table, index) = match at.checked_sub(reads) {
        None | Some(0) => ("", Status::TreeFault, None, None),
        Some(1) => ("", Status::TreeFault, Some(&TEXT_BIG[..17]), None),
        Some(2) => ("", Status::TreeFault, Some(TEXT_BIG), half),
        _ => (TEXT_MADE, Status::Done, Some(TEXT_BIG), Some(TEXT_INDEX)),
    };
    let words = ["swap", "text", "u.tab"];
    check_answer(rt, alloc, &mut tree, &words, text, want)?;
    check_file(rt, &tree, "u.tab", table);
    check_file(rt, &tree, "u.tax", index);
    check_file(rt, &tree, "text", Some(TEXT));
    Ok(())
}

/// A reading leaves nothing, the making of the table half of it, that of the index the whole table and half of the index.
#[test]
fn stops_at_each_call_of_swap(rt: HostRuntime) -> Result<(), Fail> {
    for (piece, reads) in [(1, 36), (4096, 2)] {
        for at in 1..=reads + 3 {
            check_swap(&rt, rt.alloc(), piece, reads, at)?;
        }
    }
    Ok(())
}

/// Both files are made, and what was written before stands.
#[test]
fn stops_at_each_write_of_swap(rt: HostRuntime) -> Result<(), Fail> {
    let text = TEXT_MADE.as_bytes();
    for (piece, writes) in [(1, 36), (4096, 1)] {
        for failing in 1..=writes + 1 {
            let mut tree = tree(rt.alloc(), 4096, 0, &[("text", TEXT)])?;
            let mut out = sink(rt.alloc(), piece, failing)?;
            let status = answer(rt.alloc(), &["swap", "text", "u.tab"], &mut tree, &mut out)?;
            let (want, written) = match failing {
                k if k <= writes => (Status::SinkFault, k as usize - 1),
                _ => (Status::Done, text.len()),
            };
            same(&rt, status, want, (piece, failing));
            check_file(&rt, &tree, "u.tab", Some(TEXT_BIG));
            check_file(&rt, &tree, "u.tax", Some(TEXT_INDEX));
            same(&rt, out.bytes(), &text[..written.min(36)], (piece, failing));
        }
    }
    Ok(())
}

/// The first call whose fault leaves the second file of `tile` whole is that which makes the third.
#[test]
fn stops_where_the_third_file_is_not_made(rt: HostRuntime) -> Result<(), Fail> {
    let alloc = rt.alloc();
    let words = ["tile", "lib", "cov", "out"];
    let mut whole = tree(alloc, 4096, 0, &LIBRARY)?;
    let mut out = sink(alloc, 4096, 0)?;
    let status = answer(alloc, &words, &mut whole, &mut out)?;
    same(&rt, status, Status::Done, "whole");
    for call in 1..100 {
        let mut tree = tree(alloc, 4096, call, &LIBRARY)?;
        let mut out = sink(alloc, 4096, 0)?;
        let status = answer(alloc, &words, &mut tree, &mut out)?;
        if tree.file("out/cov/t1/edg") == whole.file("out/cov/t1/edg") {
            same(&rt, status, Status::TreeFault, call);
            same(&rt, out.bytes().len(), 0, call);
            let tiles = "out/tileref/tileref.aft";
            check_file(&rt, &tree, tiles, whole.file(tiles));
            check_file(&rt, &tree, "out/cov/t1/fac", None);
            return Ok(());
        }
    }
    Err("no call makes the third file")?
}
