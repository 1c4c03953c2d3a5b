//! What is printed.

use crate::comparing::{Difference, Differences};
use crate::shelf::Book;
use std::io;
use vpf_notation::Case;

/// How many cases were asked, and how many differ that should not.
#[derive(Drop)]
pub struct Count {
    cases: u64,
    differ: u64,
}

impl Count {
    /// None yet.
    pub fn new() -> Self {
        Count {
            cases: 0,
            differ: 0,
        }
    }

    /// How many differ that should not.
    pub fn differ(&self) -> u64 {
        self.differ
    }

    /// Counts a difference that should not be, and prints it on standard error too.
    pub fn differs(&mut self, rt: &HostRuntime, line: &str) -> io::Result<()> {
        self.differ = self.differ.saturating_add(1);
        println!(rt; "{line}")?;
        eprintln!(rt; "{line}")
    }

    /// Prints what differs in a case, and counts it.
    pub fn tell(
        &mut self,
        rt: &HostRuntime,
        book: &Book,
        case: &Case,
        differences: &Differences,
    ) -> io::Result<()> {
        if book.must_differ {
            return self.tell_wanted(rt, book, case, differences.items());
        }
        self.cases = self.cases.saturating_add(1);
        match differences.items() {
            [] => Ok(()),
            items => self.tell_unwanted(rt, book, case, items),
        }
    }

    /// Prints what differs where something has to.
    fn tell_wanted(
        &mut self,
        rt: &HostRuntime,
        book: &Book,
        case: &Case,
        items: &[Difference],
    ) -> io::Result<()> {
        let head = head_of(rt, book, case)?;
        if items.is_empty() {
            let line = format!(in rt.alloc(); "{head}: nothing differs")?;
            return self.differs(rt, line.as_str());
        }
        for item in items {
            item.tell(rt, &head)?;
        }
        Ok(())
    }

    /// Prints what differs where nothing should.
    fn tell_unwanted(
        &mut self,
        rt: &HostRuntime,
        book: &Book,
        case: &Case,
        items: &[Difference],
    ) -> io::Result<()> {
        let head = head_of(rt, book, case)?;
        self.differ = self.differ.saturating_add(1);
        for item in items {
            item.tell(rt, &head)?;
            item.warn(rt, &head)?;
        }
        Ok(())
    }

    /// Prints the sum.
    pub fn tell_sum(&self, rt: &HostRuntime) -> io::Result<()> {
        let cases = self.cases;
        let differ = self.differ;
        println!(rt; "{cases} cases, {differ} differ")
    }
}

/// Tells on standard error which case can't be asked.
pub fn tell_unasked(rt: &HostRuntime, book: &Book, case: &Case) -> io::Result<()> {
    let head = head_of(rt, book, case)?;
    eprintln!(rt; "{head}: can't be asked")
}

/// What stands before each line on a case.
fn head_of(rt: &HostRuntime, book: &Book, case: &Case) -> io::Result<String> {
    let name = book.name.as_str();
    let line = case.line;
    let title = case.title.as_str();
    Ok(format!(in rt.alloc(); "{name}:{line} {title}")?)
}
