//! The files of cases that the program's words name.

use std::io::ErrorKind;
use std::{env, fs, io};
use vpf_notation::{Case, Fault, read_cases, read_tags};

/// How the names of files begin whose cases only tell tables, for others to use.
const TABLES: &str = "tables/";

/// How the names of files begin whose cases each have to differ.
const MUST_DIFFER: &str = "must-differ";

/// The name of the file that lists the tags.
const TAGS: &str = "tags.txt";

/// The cases of a file.
#[derive(Drop)]
pub struct Book {
    /// The file's name.
    pub name: String,
    /// Whether each case has to differ.
    pub must_differ: bool,
    /// The cases.
    pub cases: Vec<Case>,
}

/// All that is asked.
#[derive(Drop)]
pub struct Shelf {
    /// The cases, file by file.
    pub books: Vec<Book>,
    /// The tags that each want a case.
    pub tags: Vec<String>,
}

/// Tells on standard error what is wrong with a file.
fn refuse(rt: &HostRuntime, name: &str, fault: Fault) -> io::Error {
    let _told = eprintln!(rt; "{name}:{fault}");
    ErrorKind::InvalidData.into()
}

/// The cases of a file.
fn cases_of(rt: &HostRuntime, name: &str, tables: &[Case]) -> io::Result<Vec<Case>> {
    let text = fs::read_to_string(rt, name)?;
    match read_cases(rt.alloc(), text.as_str(), tables) {
        Ok(cases) => Ok(cases),
        Err(fault) => Err(refuse(rt, name, fault)),
    }
}

/// Puts a file of cases on the shelf.
fn put_book(rt: &HostRuntime, name: String, tables: &[Case], shelf: &mut Shelf) -> io::Result<()> {
    let cases = cases_of(rt, name.as_str(), tables)?;
    let must_differ = name.as_str().starts_with(MUST_DIFFER);
    shelf.books.push(Book {
        name,
        must_differ,
        cases,
    })?;
    Ok(())
}

/// Puts the files of tables behind those before, which they may use.
fn put_tables(rt: &HostRuntime, name: &str, tables: &mut Vec<Case>) -> io::Result<()> {
    for table in cases_of(rt, name, tables)? {
        tables.push(table)?;
    }
    Ok(())
}

/// Takes one file that the words name.
fn take_file(
    rt: &HostRuntime,
    name: String,
    tables: &mut Vec<Case>,
    shelf: &mut Shelf,
) -> io::Result<()> {
    if name.as_str().starts_with(TABLES) {
        return put_tables(rt, name.as_str(), tables);
    }
    if name.as_str() == TAGS {
        let text = fs::read_to_string(rt, name.as_str())?;
        shelf.tags = read_tags(rt.alloc(), text.as_str())?;
        return Ok(());
    }
    put_book(rt, name, tables, shelf)
}

/// Reads all files that the words name: files of tables, the tags, and cases.
pub fn read_shelf(rt: &HostRuntime) -> io::Result<Shelf> {
    let mut tables = Vec::new(rt.alloc());
    let mut shelf = Shelf {
        books: Vec::new(rt.alloc()),
        tags: Vec::new(rt.alloc()),
    };
    for name in env::args(rt)?.skip(1) {
        take_file(rt, name, &mut tables, &mut shelf)?;
    }
    Ok(shelf)
}
