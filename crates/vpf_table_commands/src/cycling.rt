//! `cycles`: the boundary cycles of an edge table.

ghost use Rattle.std.specs.Prelude.{◌≡◌, IfOk, Some, map, string_bytes};
ghost use Rattle.vpf_source.specs.Files.{Files};
ghost use Rattle.vpf_replies.specs.Halting.{ComesTo, TellsFault};
ghost use Rattle.vpf_table_commands.specs.Cycles.{cycles_request, IsGridCycles, IsBytesCycles, IsCyclesAnswer};

use crate::words::one_file;
use std::alloc::{AllocError, Global};
use vpf_replies::{Halt, Refusal, Reply, Stop, disagreement, fault, listed, refuse, required_file};
use vpf_source::{Name, Tree};
use vpf_table::TableView;
use vpf_triplet::PlaceError;
use vpf_wing::{EdgeError, boundary_cycles};

/// An edge table whose boundary cycles are listed.
#[derive(Debug, Drop)]
pub struct CyclesRequest {
    /// The table's file.
    pub file: Name,
}

impl CyclesRequest {
    /// The request that the words after the verb spell, or nothing where they spell none.
    pub fn read(alloc: Global, words: &[String]) -> Result<Option<Self>, AllocError>
        ensures { IfOk result (λ request. request ≡ cycles_request (map string_bytes words.now)) }
    {
        let Some(file) = one_file(alloc, words)? else {
            return Ok(None);
        };
        Ok(Some(CyclesRequest { file }))
    }
}

fn table_cycles(alloc: Global, name: &str, table: &TableView<'_>) -> Result<Reply, AllocError>
    ensures { IfOk result (IsGridCycles name.now table.now) }
{
    match boundary_cycles(alloc, table) {
        Ok(listing) => listed(alloc, &listing),
        Err(EdgeError::Varies) => refuse(alloc, Refusal::Variable(name)),
        Err(EdgeError::Finding(finding)) => disagreement(alloc, name, &finding),
        Err(EdgeError::NoMemory) => Err(AllocError),
    }
}

/// The reply over the bytes of a file of this name.
fn cycles_bytes(alloc: Global, name: &str, bytes: &[u8]) -> Result<Reply, AllocError>
    ensures { IfOk result (IsBytesCycles name.now bytes.now) }
{
    match TableView::open(alloc, bytes, None) {
        Ok(table) => table_cycles(alloc, name, &table),
        Err(PlaceError::Place(place)) => fault(alloc, name, place),
        Err(PlaceError::NoMemory) => Err(AllocError),
    }
}

/// Does `cycles`: the boundary cycles of an edge table, a line each, and their number, or the first finding.
pub fn cycles<T: Tree>(alloc: Global, request: &CyclesRequest, tree: &mut T) -> Result<Reply, Halt>
    ensures told { (files : Files) → T.files tree.old ≡ Some files → ComesTo (IsCyclesAnswer files request.now) result }
    ensures fault { TellsFault result (Halt.Stop Stop.TreeFault) (T.faults tree.old) (T.faults tree.new) }
    ensures files { T.files tree.new ≡ T.files tree.old }
{
    let name = request.file.as_str();
    let bytes = required_file(alloc, tree, name)?;
    Ok(cycles_bytes(alloc, name, &bytes)?)
}
