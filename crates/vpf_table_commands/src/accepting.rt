//! `table`: whether a file is a table.

ghost use Rattle.std.specs.Prelude.{◌≡◌, IfOk, Some, map, string_bytes};
ghost use Rattle.vpf_source.specs.Files.{Files};
ghost use Rattle.vpf_replies.specs.Halting.{ComesTo, TellsFault};
ghost use Rattle.vpf_replies.specs.Answer.{done};
ghost use Rattle.vpf_table_commands.specs.Accept.{summary_text, table_request, table_answer};

use crate::feeding::sum_up;
use crate::words::one_file;
use std::alloc::{AllocError, Global};
use vpf_feed::Summary;
use vpf_replies::{Halt, Reply, Stop, Verdict, required_size};
use vpf_source::{Name, Tree};

/// A file of which it is asked whether it is a table.
#[derive(Debug, Drop)]
pub struct TableRequest {
    /// The file.
    pub file: Name,
}

impl TableRequest {
    /// The request that the words after the verb spell, or nothing where they spell none.
    pub fn read(alloc: Global, words: &[String]) -> Result<Option<Self>, AllocError>
        ensures { IfOk result (λ request. request ≡ table_request (map string_bytes words.now)) }
    {
        let Some(file) = one_file(alloc, words)? else {
            return Ok(None);
        };
        Ok(Some(TableRequest { file }))
    }
}

/// That a file is a table, with its numbers of rows and columns.
fn accepted(alloc: Global, summary: Summary) -> Result<Reply, AllocError>
    ensures { IfOk result (λ reply. reply ≡ done (summary_text summary)) }
{
    let Summary { rows, columns, .. } = summary;
    let text = format!(in alloc; "accepted rows {rows} columns {columns}\n")?;
    Ok(Reply::new(alloc, Verdict::Done, text))
}

/// Does `table`: tells that a file is a table, with its numbers of rows and columns. The file is read in pieces, up to its first fault.
pub fn table<T: Tree>(alloc: Global, request: &TableRequest, tree: &mut T) -> Result<Reply, Halt>
    ensures told { (files : Files) → T.files tree.old ≡ Some files → ComesTo (λ answer. answer ≡ table_answer files request.now) result }
    ensures fault { TellsFault result (Halt.Stop Stop.TreeFault) (T.faults tree.old) (T.faults tree.new) }
    ensures files { T.files tree.new ≡ T.files tree.old }
{
    let name = request.file.as_str();
    let size = required_size(alloc, tree, name)?;
    let summary = sum_up(alloc, tree, name, size)?;
    Ok(accepted(alloc, summary)?)
}
