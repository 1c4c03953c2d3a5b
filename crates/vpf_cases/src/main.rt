//! Asks the program the cases of the files that its words name, over files in memory and over real ones, and prints what differs.
#![tactic(auto)]

mod asking;
mod comparing;
mod folders;
mod memory;
mod shelf;
mod tags;
mod telling;
mod touching;

use shelf::{Book, Shelf, read_shelf};
use std::io;
use std::process::ExitCode;
use tags::tell_tags;
use telling::{Count, tell_unasked};
use vpf_notation::Case;

/// The exit status where something differs that should not.
const DIFFERS: u8 = 1;

/// The exit status where the cases can't be asked.
const UNASKED: u8 = 2;

/// Asks a case, and counts it where it differs.
fn ask_case(rt: &HostRuntime, book: &Book, case: &Case, count: &mut Count) -> io::Result<()> {
    match asking::differences(rt, case) {
        Ok(differences) => count.tell(rt, book, case, &differences),
        Err(error) => {
            tell_unasked(rt, book, case)?;
            Err(error)
        }
    }
}

/// Asks all cases of the books, and counts what differs.
fn ask_books(rt: &HostRuntime, books: &[Book], count: &mut Count) -> io::Result<()> {
    for book in books {
        for case in &book.cases {
            ask_case(rt, book, case, count)?;
        }
    }
    Ok(())
}

/// Asks all cases of a shelf, and gives how many differ.
fn ask_shelf(rt: &HostRuntime, shelf: &Shelf) -> io::Result<u64> {
    let mut count = Count::new();
    ask_books(rt, &shelf.books, &mut count)?;
    tell_tags(rt, shelf, &mut count)?;
    count.tell_sum(rt)?;
    Ok(count.differ())
}

/// Reads all that the words name, and asks it.
fn ask_all(rt: &HostRuntime) -> io::Result<u64> {
    let shelf = read_shelf(rt)?;
    ask_shelf(rt, &shelf)
}

fn main(rt: HostRuntime) -> ExitCode {
    match ask_all(&rt) {
        Ok(0) => ExitCode::SUCCESS,
        Ok(_) => ExitCode::from(DIFFERS),
        Err(error) => {
            let _told = eprintln!(rt; "vpf_cases: {error}");
            ExitCode::from(UNASKED)
        }
    }
}
