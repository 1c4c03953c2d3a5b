//! The files that are made, listed.

ghost use Rattle.std.specs.Prelude.{◌≡◌, ◌++◌, IfOk, OnOk, string_bytes};
ghost use Rattle.vpf_replies.specs.Making.{made_answer, made_line, made_lines};

use crate::reply::Reply;
use std::alloc::{AllocError, Global};
use vpf_findings::text::put_printed;
use vpf_source::{Bytes, File, Name};

fn put_made(text: &mut String, file: &File) -> Result<(), AllocError>
    ensures { OnOk result (string_bytes text.new ≡ string_bytes text.old ++ made_line file.now) }
{
    let size = file.bytes.as_slice().len();
    text.push_str("made ")?;
    put_printed(text, file.name.as_str().as_bytes())?;
    write!(text, " {size}\n")
}

fn put_all_made(text: &mut String, files: &[File]) -> Result<(), AllocError>
    ensures { OnOk result (string_bytes text.new ≡ string_bytes text.old ++ made_lines files.now) }
{
    for file in files {
        put_made(text, file)?;
    }
    Ok(())
}

/// The reply of making files: a line for each, with its number of bytes, and how many there are.
pub fn makes(alloc: Global, files: Vec<File>) -> Result<Reply, AllocError>
    ensures { IfOk result (λ reply. reply ≡ made_answer files.items) }
{
    let mut text = String::new(alloc);
    put_all_made(&mut text, &files)?;
    let count = files.len();
    write!(text, "files {count}\n")?;
    Ok(Reply::making(text, files))
}

/// The file of these bytes.
pub fn file_of(alloc: Global, name: &str, bytes: Bytes) -> Result<File, AllocError>
    ensures { IfOk result (λ file. (file.name ≡ name.now) × (file.bytes ≡ bytes)) }
{
    Ok(File {
        name: Name::new(String::from_str(alloc, name)?),
        bytes,
    })
}
