//! What a caller of the libraries writes: the boundary cycles of a coverage that is checked before they are counted, and the rows of a table that have a
//! value, each with a contract that says what was learned.
#![tactic(auto)]

mod cycles;
mod rows;

use cycles::{Unknown, count_cycles};
use rows::rows_having;
use std::alloc::{AllocError, Global};
use std::io;
use std::process::ExitCode;
use vpf_source::MemTree;
use vpf_vectors::grid;

/// A table of three roads.
const ROADS: &[u8] =
    b"\x2a\0\0\0L;R;-;id=I,1,P,i,-,-,-,:c=T,2,N,d,-,-,-,:;\x01\0\0\0AP\x02\0\0\0AN\x03\0\0\0AP";

/// A tree in memory with the library `grid` of a coverage `g`, four by four cells.
fn library(alloc: Global) -> Result<MemTree, AllocError> {
    let mut tree = MemTree::new(alloc, 4096, Vec::new(alloc));
    for file in grid(alloc, 4)? {
        tree.put(file.name.as_str(), file.bytes.as_slice())?;
    }
    Ok(tree)
}

/// What was learned of a coverage.
fn tell_cycles(rt: &impl Print, cov: &str, found: Result<usize, Unknown>) -> io::Result<()> {
    match found {
        Ok(count) => println!(rt; "{cov}: agrees, cycles {count}"),
        Err(why) => println!(rt; "{cov}: unknown, {why:?}"),
    }
}

/// Asks both libraries, and tells what is learned.
fn tell_all(rt: &HostRuntime) -> io::Result<()> {
    let alloc = rt.alloc();
    let mut tree = library(alloc)?;
    for cov in ["g", "h"] {
        let found = count_cycles(alloc, &mut tree, "grid", cov);
        tell_cycles(rt, cov, found)?;
    }
    for word in ["AP", "XX", "too long"] {
        let rows = rows_having(alloc, ROADS, b"c", word.as_bytes())?;
        println!(rt; "{word}: {rows:?}")?;
    }
    Ok(())
}

fn main(rt: HostRuntime) -> ExitCode {
    match tell_all(&rt) {
        Ok(()) => ExitCode::SUCCESS,
        Err(_) => ExitCode::FAILURE,
    }
}
