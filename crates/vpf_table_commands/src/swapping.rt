//! `swap`: a table written in the other byte order.

ghost use Rattle.std.specs.Prelude.{◌≡◌, ◌∷◌, IfOk, Some, map, string_bytes};
ghost use Rattle.vpf_source.specs.Files.{Files};
ghost use Rattle.vpf_write.specs.Inner.InPlace.{HasRoom};
ghost use Rattle.vpf_source.specs.Names.Naming.{file_name};
ghost use Rattle.vpf_table.specs.Limits.{bound_text};
ghost use Rattle.vpf_table.specs.Spelling.{IsTable};
ghost use Rattle.vpf_replies.specs.Answer.{limited};
ghost use Rattle.vpf_replies.specs.Halting.{ComesTo, TellsFault};
ghost use Rattle.vpf_replies.specs.Texts.{limit_text};
ghost use Rattle.vpf_write.specs.Made.Files.{part_name};
ghost use Rattle.vpf_table_commands.specs.Swap.{clashes, written_answer, other_order, turned, turned_answer, IsSwapPlan};
ghost use Rattle.vpf_table_commands.specs.Swap.{swap_request_of, swap_request, swap_bytes_answer, swap_answer};

use std::alloc::{AllocError, Global};
use vpf_replies::{Halt, Reply, Stop, fault, limit, makes, required_file};
use vpf_source::names::{ends_in_x, file_name};
use vpf_source::{Name, Tree};
use vpf_table::{Limit, TableView};
use vpf_triplet::{Order, Part, PlaceError};
use vpf_write::made::{files_of, part_name};
use vpf_write::{Turning, WriteError, Written, write_in};

/// A table to be written in the other byte order.
#[derive(Debug, Drop)]
pub struct SwapRequest {
    /// The table's file.
    pub file: Name,
    /// The file of the table that is written.
    pub out: Name,
}

/// Whether a table of one file can't be written under another name: it is the same, or ends in `x`, as the name of its index.
fn clashes(file: &Name, out: &Name) -> bool
    ensures { result ≡ clashes file.now out.now }
{
    file.as_str() == out.as_str() || ends_in_x(out.as_str())
}

/// The request of two words.
fn read_names(alloc: Global, file: &str, out: &str) -> Result<Option<SwapRequest>, AllocError>
    ensures { IfOk result (λ request. request ≡ swap_request_of (file_name file.now) (file_name out.now)) }
{
    let Some(file) = file_name(alloc, file)? else {
        return Ok(None);
    };
    let Some(out) = file_name(alloc, out)? else {
        return Ok(None);
    };
    if clashes(&file, &out) {
        return Ok(None);
    }
    Ok(Some(SwapRequest { file, out }))
}

impl SwapRequest {
    /// The request that the words after the verb spell, or nothing where they spell none.
    pub fn read(alloc: Global, words: &[String]) -> Result<Option<Self>, AllocError>
        ensures { IfOk result (λ request. request ≡ swap_request (map string_bytes words.now)) }
    {
        match words {
            [file, out] => read_names(alloc, file, out),
            _ => Ok(None),
        }
    }
}

/// The reply where a table can't be written under a name.
fn stopped(alloc: Global, name: &str, part: Part, stop: Limit) -> Result<Reply, AllocError>
    ensures { IfOk result (λ reply. reply ≡ limited (limit_text (bound_text stop.what) (part_name name.now part) stop.found)) }
{
    let file = part_name(alloc, name, part)?;
    limit(alloc, stop.what, file.as_str(), stop.found)
}

/// The other byte order.
fn other_order(order: Order) -> Order
    ensures { result ≡ other_order order }
{
    match order {
        Order::Little => Order::Big,
        Order::Big => Order::Little,
    }
}

/// What comes of a file that is to be written in the other order.
#[derive(Drop)]
enum Plan {
    /// Its own bytes become the table.
    Turning(Turning),
    /// The reply, with the files that were made of it.
    Answered(Reply),
}

/// The reply of writing a table in the other order under a name.
fn write_turned(alloc: Global, out: &str, table: &TableView<'_>) -> Result<Reply, AllocError>
    ensures { IfOk result (λ reply. reply ≡ written_answer out.now (turned table.now)) }
{
    let order = other_order(table.header().order());
    match write_in(alloc, table, order) {
        Ok(written) => makes(alloc, files_of(alloc, out, written)?),
        Err(WriteError::Limit(part, stop)) => stopped(alloc, out, part, stop),
        Err(WriteError::NoMemory) => Err(AllocError),
    }
}

/// The plan for a table and the bytes of its file.
fn plan_table(
    alloc: Global,
    out: &str,
    table: &TableView<'_>,
    bytes: &[u8],
) -> Result<Plan, AllocError>
    requires { IsTable table.now bytes.now }
    ensures { IfOk result (λ plan. IsSwapPlan out.now bytes.now plan (written_answer out.now (turned table.now))) }
{
    let order = other_order(table.header().order());
    match Turning::new(alloc, table, bytes, order)? {
        Some(turning) => Ok(Plan::Turning(turning)),
        None => Ok(Plan::Answered(write_turned(alloc, out, table)?)),
    }
}

/// The plan for the bytes of a file.
fn plan_file(alloc: Global, name: &str, out: &str, bytes: &[u8]) -> Result<Plan, AllocError>
    ensures { IfOk result (λ plan. IsSwapPlan out.now bytes.now plan (swap_bytes_answer name.now out.now bytes.now)) }
{
    match TableView::open(alloc, bytes, None) {
        Ok(table) => plan_table(alloc, out, &table, bytes),
        Err(PlaceError::Place(place)) => Ok(Plan::Answered(fault(alloc, name, place)?)),
        Err(PlaceError::NoMemory) => Err(AllocError),
    }
}

/// The reply of making the table of the bytes of a file that become it.
fn turn(alloc: Global, out: &str, turning: Turning, bytes: Vec<u8>) -> Result<Reply, AllocError>
    requires { HasRoom turning bytes.items }
    ensures { IfOk result (λ reply. reply ≡ turned_answer out.now turning bytes.items) }
{
    let written = Written {
        table: turning.turn(bytes),
        index: None,
    };
    makes(alloc, files_of(alloc, out, written)?)
}

/// The reply over the bytes of a file of this name. The table is made in the memory of the file where its bytes become it.
fn swap_bytes(alloc: Global, name: &str, out: &str, bytes: Vec<u8>) -> Result<Reply, AllocError>
    ensures { IfOk result (λ reply. reply ≡ swap_bytes_answer name.now out.now bytes.items) }
{
    match plan_file(alloc, name, out, &bytes)? {
        Plan::Turning(turning) => turn(alloc, out, turning, bytes),
        Plan::Answered(reply) => Ok(reply),
    }
}

/// Does `swap`: a table in the other byte order under another name, and the index that this has where rows vary.
pub fn swap<T: Tree>(alloc: Global, request: &SwapRequest, tree: &mut T) -> Result<Reply, Halt>
    ensures told { (files : Files) → T.files tree.old ≡ Some files → ComesTo (λ answer. answer ≡ swap_answer files request.now) result }
    ensures fault { TellsFault result (Halt.Stop Stop.TreeFault) (T.faults tree.old) (T.faults tree.new) }
    ensures files { T.files tree.new ≡ T.files tree.old }
{
    let name = request.file.as_str();
    let bytes = required_file(alloc, tree, name)?;
    Ok(swap_bytes(alloc, name, request.out.as_str(), bytes)?)
}
