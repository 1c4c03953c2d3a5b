//! Real files in a folder of their own.

use std::alloc::Global;
use std::fs::DirEntry;
use std::io::ErrorKind;
use std::{env, fs, io};
use vpf_notation::Files;
use vpf_source::Tree;

/// The folder in which a case is asked.
const ROOM: &str = "room";

/// Makes the folder, and goes into it.
pub fn enter(rt: &HostRuntime) -> io::Result<()> {
    fs::create_dir(rt, ROOM)?;
    env::set_current_dir(rt, ROOM)
}

/// Goes out of the folder, and takes it away.
pub fn leave(rt: &HostRuntime) -> io::Result<()> {
    env::set_current_dir(rt, "..")?;
    fs::remove_dir_all(rt, ROOM)
}

/// Makes each of these files.
pub fn put_files<T: Tree>(tree: &mut T, files: &Files) -> io::Result<()> {
    for (name, bytes) in files.items().iter() {
        if tree.make(name, bytes).is_err() {
            return Err(ErrorKind::Other.into());
        }
    }
    Ok(())
}

/// The name of an entry as a tree has it.
fn name_of(alloc: Global, entry: &DirEntry) -> io::Result<String> {
    let path = entry.path();
    let text = path.as_str();
    let name = text.strip_prefix("./").unwrap_or(text);
    Ok(String::from_str(alloc, name)?)
}

/// Takes one entry of a folder: the bytes of a file, or the name of a folder to be looked into.
fn take_entry(
    rt: &HostRuntime,
    entry: &DirEntry,
    files: &mut Files,
    folders: &mut Vec<String>,
) -> io::Result<()> {
    let name = name_of(rt.alloc(), entry)?;
    if entry.file_type()?.is_dir() {
        folders.push(name)?;
        return Ok(());
    }
    let bytes = fs::read(rt, name.as_str())?;
    Ok(files.put(name.as_str(), bytes)?)
}

/// Takes all entries of a folder.
fn take_folder(
    rt: &HostRuntime,
    folder: &str,
    files: &mut Files,
    folders: &mut Vec<String>,
) -> io::Result<()> {
    for entry in fs::read_dir(rt, folder)? {
        take_entry(rt, &entry?, files, folders)?;
    }
    Ok(())
}

/// All files below the working folder. Nothing shows that folders come to an end, so that the loop is a counted one.
pub fn files_here(rt: &HostRuntime) -> io::Result<Files> {
    let mut files = Files::new(rt.alloc());
    let mut folders = Vec::new(rt.alloc());
    take_folder(rt, ".", &mut files, &mut folders)?;
    for _ in 0..u64::MAX {
        let Some(folder) = folders.pop() else {
            break;
        };
        take_folder(rt, folder.as_str(), &mut files, &mut folders)?;
    }
    Ok(files)
}
