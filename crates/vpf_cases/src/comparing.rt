//! What came of a case beside what should.

use std::alloc::{AllocError, Global};
use std::io;
use vpf_notation::{Case, Files, Run};

/// How many bytes of a text are shown where it differs.
const SHOWN: usize = 40;

/// One thing that differs, with the ways in which the case was asked where it does.
#[derive(Drop)]
pub struct Difference {
    what: String,
    ways: String,
}

impl Difference {
    /// Prints it.
    pub fn tell(&self, rt: &HostRuntime, head: &str) -> io::Result<()> {
        let what = self.what.as_str();
        let ways = self.ways.as_str();
        println!(rt; "{head}: {what} ({ways})")
    }

    /// Prints it on standard error.
    pub fn warn(&self, rt: &HostRuntime, head: &str) -> io::Result<()> {
        let what = self.what.as_str();
        let ways = self.ways.as_str();
        eprintln!(rt; "{head}: {what} ({ways})")
    }

    /// Adds a way.
    fn add(&mut self, way: &str) -> Result<(), AllocError> {
        self.ways.push_str(", ")?;
        self.ways.push_str(way)
    }
}

/// All that differs in a case.
#[derive(Drop)]
pub struct Differences {
    alloc: Global,
    items: Vec<Difference>,
}

/// Where two texts of bytes differ first.
fn first_difference(left: &[u8], right: &[u8]) -> usize {
    let mut at = 0usize;
    for (l, r) in left.iter().zip(right) {
        if *l != *r {
            break;
        }
        at = at.saturating_add(1);
    }
    at
}

/// The bytes from there on that are shown.
fn part(bytes: &[u8], at: usize) -> &[u8] {
    let rest = bytes.get(at..).unwrap_or(&[]);
    rest.get(..SHOWN).unwrap_or(rest)
}

impl Differences {
    /// None yet.
    pub fn new(alloc: Global) -> Self {
        Differences {
            alloc,
            items: Vec::new(alloc),
        }
    }

    /// Those so far.
    pub fn items(&self) -> &[Difference] {
        &self.items
    }

    /// Tells that something differs: in one way more where it was told before.
    fn tell(&mut self, way: &str, what: String) -> Result<(), AllocError> {
        for item in self.items.iter_mut() {
            if item.what.as_str() == what.as_str() {
                return item.add(way);
            }
        }
        let ways = String::from_str(self.alloc, way)?;
        self.items.push(Difference { what, ways })?;
        Ok(())
    }

    /// The status of the words of a run.
    fn compare_status(&mut self, way: &str, run: &Run, got: u8) -> Result<(), AllocError> {
        let want = run.status.unwrap_or(0);
        if got == want {
            return Ok(());
        }
        let line = run.line;
        let what = format!(in self.alloc; "words in line {line}: status {got}, not {want}")?;
        self.tell(way, what)
    }

    /// The text of the words of a run.
    fn compare_text(&mut self, way: &str, run: &Run, got: &[u8]) -> Result<(), AllocError> {
        let want = run.text.as_bytes();
        if got == want {
            return Ok(());
        }
        let at = first_difference(got, want);
        let what = self.text_line(run.line, at, part(got, at), part(want, at))?;
        self.tell(way, what)
    }

    /// Where a text differs, with what stands there.
    fn text_line(
        &self,
        line: usize,
        at: usize,
        got: &[u8],
        want: &[u8],
    ) -> Result<String, AllocError> {
        let got = String::from_utf8_lossy(self.alloc, got)?;
        let want = String::from_utf8_lossy(self.alloc, want)?;
        format!(in self.alloc; "words in line {line}: text from byte {at} on {got:?}, not {want:?}")
    }

    /// What the words of a run came to.
    pub fn compare_run(
        &mut self,
        way: &str,
        run: &Run,
        status: u8,
        text: &[u8],
    ) -> Result<(), AllocError> {
        self.compare_status(way, run, status)?;
        self.compare_text(way, run, text)
    }

    /// That no file was asked for twice by the words of a run.
    pub fn compare_reads(
        &mut self,
        way: &str,
        run: &Run,
        again: Option<&str>,
    ) -> Result<(), AllocError> {
        let Some(name) = again else {
            return Ok(());
        };
        let line = run.line;
        let what = format!(in self.alloc; "words in line {line}: file {name:?} asked for twice")?;
        self.tell(way, what)
    }

    /// A file that should stand there.
    fn compare_file(
        &mut self,
        way: &str,
        name: &str,
        want: &[u8],
        got: &Files,
    ) -> Result<(), AllocError> {
        match got.get(name) {
            Some(got) => self.compare_bytes(way, name, want, got),
            None => self.tell_absent(way, name),
        }
    }

    /// A file that is not there.
    fn tell_absent(&mut self, way: &str, name: &str) -> Result<(), AllocError> {
        let what = format!(in self.alloc; "file {name:?} absent")?;
        self.tell(way, what)
    }

    /// The bytes of a file.
    fn compare_bytes(
        &mut self,
        way: &str,
        name: &str,
        want: &[u8],
        got: &[u8],
    ) -> Result<(), AllocError> {
        if got == want {
            return Ok(());
        }
        let what = self.bytes_line(name, want, got, first_difference(got, want))?;
        self.tell(way, what)
    }

    /// Where the bytes of a file differ.
    fn bytes_line(
        &self,
        name: &str,
        want: &[u8],
        got: &[u8],
        at: usize,
    ) -> Result<String, AllocError> {
        match (got.get(at), want.get(at)) {
            (Some(left), Some(right)) => self.byte_line(name, at, *left, *right),
            _ => self.length_line(name, got.len(), want.len()),
        }
    }

    /// A file with another byte.
    fn byte_line(&self, name: &str, at: usize, got: u8, want: u8) -> Result<String, AllocError> {
        format!(in self.alloc; "file {name:?} byte {at}: {got:02x}, not {want:02x}")
    }

    /// A file with another length.
    fn length_line(&self, name: &str, got: usize, want: usize) -> Result<String, AllocError> {
        format!(in self.alloc; "file {name:?}: {got} bytes, not {want}")
    }

    /// Files that stand there and should not.
    fn compare_others(&mut self, way: &str, want: &Files, got: &Files) -> Result<(), AllocError> {
        for name in got.items().keys() {
            if want.get(name).is_none() {
                let name = name.as_str();
                let what = format!(in self.alloc; "file {name:?} too many")?;
                self.tell(way, what)?;
            }
        }
        Ok(())
    }

    /// All files after a case.
    pub fn compare_files(&mut self, way: &str, case: &Case, got: &Files) -> Result<(), AllocError> {
        let mut want = Files::new(self.alloc);
        want.put_all(&case.files)?;
        want.put_all(&case.made)?;
        for (name, bytes) in want.items().iter() {
            self.compare_file(way, name, bytes, got)?;
        }
        self.compare_others(way, &want, got)
    }
}
