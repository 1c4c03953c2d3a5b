//! The folders of the computer and its standard output, which tell contracts nothing of what they hold.

ghost use Rattle.std.specs.Prelude.{◌≡◌, ◌≤◌, ℕ, None, OnOk, is_some, nat_lt};
ghost use Rattle.std.specs.Io.{ReadsAtMost, WritesAtMost};
ghost use Rattle.std.specs.Io.KnownBytes.{Appends};
ghost use Rattle.vpf_source.specs.Causes.{next_count};

use crate::error::{DeviceError, Failed};
use crate::sink::Sink;
use crate::tree::Tree;
use crate::trouble::Trouble;
use std::alloc::Global;
use std::io::{ErrorKind, Read, Seek, SeekFrom, Write};
use std::marker::Model;
use std::rt::Files;
use std::{fs, io};

/// A file that is open, its name, and the offset that it is read from next.
#[derive(Drop)]
struct Opened<F: Drop> {
    name: String,
    file: F,
    at: u64,
}

impl<F: Drop> Opened<F> {
    /// Whether it is this file, to be read from there.
    fn is_at(&self, name: &str, at: u64) -> bool {
        self.at == at && self.name.as_str() == name
    }
}

/// The files of the computer. A name is a path under the working folder, or from the root where it begins with `/`.
///
/// A file is absent exactly where the system says that it is not found. Each other error of the system is a fault, as an
/// interrupted call or a path through a file, and so is the size of a folder. What the system said of the last fault is
/// kept, to be told. A contract sees a `FolderTree` as its count of faults.
///
/// The file that was read last stays open until another is read, its end is met, or a file is made: so pieces of one file,
/// read one after another, are one pass over it.
#[derive(Drop)]
pub struct FolderTree<R: Files> {
    alloc: Global,
    rt: R,
    opened: Option<Opened<R::File>>,
    faults: u64,
    trouble: Option<Trouble>,
    ghost told: { is_some trouble ≡ nat_lt 0 faults },
}

impl<R: Files> Model for FolderTree<R> {
    ghost Value = { ℕ };

    ghost view = { λ tree. tree.faults };
}

impl<R: Files> FolderTree<R> {
    /// The files that this runtime reaches, with no fault so far.
    pub fn new(alloc: Global, rt: R) -> Self
        ensures { result ≡ 0 }
    {
        FolderTree {
            alloc,
            rt,
            opened: None,
            faults: 0,
            trouble: None,
        }
    }

    /// What the system said of the last call that failed: there is a word exactly where one has.
    pub fn trouble(&self) -> Option<&Trouble>
        ensures { is_some result ≡ nat_lt 0 self.now }
    {
        self.trouble.as_ref()
    }

    /// Counts a fault, and keeps what the system said of the file of this name.
    fn fault(&mut self, name: &str, error: io::Error) -> Failed
        ensures counted { self.new ≡ next_count self.old }
        ensures later { self.old ≤ self.new }
    {
        let name = String::from_str(self.alloc, name).ok();
        self.trouble = Some(Trouble::new(name, error));
        self.faults = self.faults.saturating_add(1);
        Failed
    }

    /// The file of this name, to be read from the offset on: the one that is open there already, or a new one.
    fn open_at(&mut self, name: &str, at: u64) -> io::Result<R::File>
        ensures { self.new ≡ self.old }
    {
        if let Some(opened) = self.opened.take() {
            if opened.is_at(name, at) {
                return Ok(opened.file);
            }
        }
        let mut file = fs::open(&self.rt, name)?;
        file.seek(SeekFrom::Start(at))?;
        Ok(file)
    }

    /// One read of the file from the offset on, which stays open where it gave something.
    fn read_here(&mut self, name: &str, at: u64, buf: &mut [u8]) -> io::Result<usize>
        ensures read { ReadsAtMost result buf.new }
        ensures faults { self.new ≡ self.old }
    {
        let mut file = self.open_at(name, at)?;
        let count = file.read(buf)?;
        if count > 0 {
            let kept = String::from_str(self.alloc, name).ok();
            self.opened = kept.map(|name| Opened {
                name,
                file,
                at: at.saturating_add(count as u64),
            });
        }
        Ok(count)
    }

    /// The file made anew with these bytes, and the folders of its name where they are absent.
    fn make_here(&self, name: &str, bytes: &[u8]) -> io::Result<()> {
        if let Some((folder, _)) = name.rsplit_once('/') {
            if !folder.is_empty() {
                fs::create_dir_all(&self.rt, folder)?;
            }
        }
        let mut file = fs::create(&self.rt, name)?;
        write_whole(&mut file, bytes)?;
        file.flush()
    }
}

/// Writes all bytes, in as many writes as it needs. A write that takes none of them is an error.
fn write_whole<W: Write>(file: &mut W, bytes: &[u8]) -> io::Result<()>
    ensures { OnOk result (Appends (W.contents file.old) (W.contents file.new) bytes.now) }
{
    let mut done = 0;
    while done < bytes.len() {
        let count = file.write(&bytes[done..])?;
        if count == 0 {
            return Err(ErrorKind::WriteZero.into());
        }
        done += count;
    }
    Ok(())
}

impl<R: Files> Tree for FolderTree<R> {
    ghost files = { λ _. None };

    ghost faults = { λ faults. faults };

    fn size(&mut self, name: &str) -> Result<Option<u64>, Failed> {
        match fs::metadata(&self.rt, name) {
            Ok(data) if data.is_dir() => Err(self.fault(name, ErrorKind::IsADirectory.into())),
            Ok(data) => Ok(Some(data.len())),
            Err(e) if e.kind() == ErrorKind::NotFound => Ok(None),
            Err(e) => Err(self.fault(name, e)),
        }
    }

    fn read_at(&mut self, name: &str, at: u64, buf: &mut [u8]) -> Result<usize, Failed> {
        match self.read_here(name, at, buf) {
            Ok(count) => Ok(count),
            Err(e) if e.kind() == ErrorKind::NotFound => Ok(0),
            Err(e) => Err(self.fault(name, e)),
        }
    }

    fn make(&mut self, name: &str, bytes: &[u8]) -> Result<(), DeviceError> {
        self.opened = None;
        match self.make_here(name, bytes) {
            Ok(()) => Ok(()),
            Err(e) => Err(self.fault(name, e).into()),
        }
    }

    ghost of_bytes = { λ _. tt };
}

/// The standard output. A contract sees it as its count of faults.
///
/// Each write is flushed. An error of the system is a fault, a failed flush among them, and so is a write that takes no
/// byte of a piece that is not empty. What the system said of the last fault is kept, to be told.
#[derive(Drop)]
pub struct StdSink<R: Print> {
    rt: R,
    faults: u64,
    trouble: Option<io::Error>,
    ghost told: { is_some trouble ≡ nat_lt 0 faults },
}

impl<R: Print> Model for StdSink<R> {
    ghost Value = { ℕ };

    ghost view = { λ sink. sink.faults };
}

impl<R: Print> StdSink<R> {
    /// The standard output of this runtime, with no fault so far.
    pub fn new(rt: R) -> Self
        ensures { result ≡ 0 }
    {
        StdSink {
            rt,
            faults: 0,
            trouble: None,
        }
    }

    /// What the system said of the last write that failed: there is a word exactly where one has.
    pub fn trouble(&self) -> Option<io::Error>
        ensures { is_some result ≡ nat_lt 0 self.now }
    {
        self.trouble
    }

    /// Counts a fault, and keeps what the system said.
    fn fault(&mut self, error: io::Error) -> DeviceError
        ensures failed { result ≡ DeviceError.Failed }
        ensures counted { self.new ≡ next_count self.old }
        ensures later { self.old ≤ self.new }
    {
        self.trouble = Some(error);
        self.faults = self.faults.saturating_add(1);
        DeviceError::Failed
    }

    /// One write, and a flush.
    fn write_here(&self, piece: &[u8]) -> io::Result<usize>
        ensures { WritesAtMost result piece.now }
    {
        let mut writer = io::writer(&self.rt);
        let count = writer.write(piece)?;
        writer.flush()?;
        Ok(count)
    }
}

impl<R: Print> Sink for StdSink<R> {
    ghost written = { λ _. None };

    ghost faults = { λ faults. faults };

    fn write(&mut self, piece: &[u8]) -> Result<usize, DeviceError> {
        match self.write_here(piece) {
            Ok(count) if count > 0 || piece.is_empty() => Ok(count),
            Ok(_) => Err(self.fault(ErrorKind::WriteZero.into())),
            Err(e) => Err(self.fault(e)),
        }
    }
}
