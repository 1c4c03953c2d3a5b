//! A file that is fed piece by piece, as a table.

ghost use Rattle.std.specs.Prelude.{◌≡◌, ◌≢◌, ◌≤◌, [], IfOk, Some, length, take};
ghost use Rattle.vpf_source.specs.Files.{Files, bytes_of};
ghost use Rattle.vpf_feed.specs.Inner.Stages.{HoldsFed};
ghost use Rattle.vpf_replies.specs.Halting.{TellsFault};
ghost use Rattle.vpf_table_commands.specs.Inner.Feeding.{IsFedOn, IsFedWhole, IsHaltOf, IsSummed};

use std::alloc::Global;
use vpf_feed::{Summary, TableFeed};
use vpf_replies::{Halt, Stop, fault};
use vpf_source::Tree;
use vpf_triplet::PlaceError;

/// As many bytes one read asks for.
const PIECE: usize = 4_096;

/// What halts the command at an error of a feed: the reply to the fault of the table, or want of memory.
fn halted(alloc: Global, name: &str, error: PlaceError) -> Halt
    ensures told { IsHaltOf name.now error result }
    ensures no_fault { result ≢ Halt.Stop Stop.TreeFault }
{
    let PlaceError::Place(place) = error else {
        return Halt::Stop(Stop::NoMemory);
    };
    match fault(alloc, name, place) {
        Ok(reply) => Halt::Answered(reply),
        Err(_full) => Halt::Stop(Stop::NoMemory),
    }
}

/// Feeds what one read gives from the offset on, and says how many bytes that is.
fn feed_next<T: Tree>(
    alloc: Global,
    tree: &mut T,
    name: &str,
    at: u64,
    buf: &mut [u8],
    feed: &mut TableFeed,
) -> Result<usize, Halt>
    ensures within { IfOk result (λ n. n ≤ length buf.old) }
    ensures fed { (files : Files) → T.files tree.old ≡ Some files → HoldsFed feed.old (take at (bytes_of (files name.now)))
        → IsFedOn name.now (bytes_of (files name.now)) at (length buf.old) feed.new result }
    ensures fault { TellsFault result (Halt.Stop Stop.TreeFault) (T.faults tree.old) (T.faults tree.new) }
    ensures files { T.files tree.new ≡ T.files tree.old }
{
    let Ok(count) = tree.read_at(name, at, buf) else {
        return Err(Halt::Stop(Stop::TreeFault));
    };
    match feed.feed(&buf[..count]) {
        Ok(()) => Ok(count),
        Err(error) => Err(halted(alloc, name, error)),
    }
}

/// Feeds a file of so many bytes, each read before the next is asked for. A read that gives nothing ends the file.
fn feed_file<T: Tree>(
    alloc: Global,
    tree: &mut T,
    name: &str,
    size: u64,
    feed: &mut TableFeed,
) -> Result<(), Halt>
    requires begun { HoldsFed feed.old [] }
    ensures fed { (files : Files) → T.files tree.old ≡ Some files → length (bytes_of (files name.now)) ≡ size
        → IsFedWhole name.now (bytes_of (files name.now)) feed.new result }
    ensures fault { TellsFault result (Halt.Stop Stop.TreeFault) (T.faults tree.old) (T.faults tree.new) }
    ensures files { T.files tree.new ≡ T.files tree.old }
{
    let mut buf = [0; PIECE];
    let mut at = 0;
    while at < size {
        let len = (size - at).min(PIECE as u64) as usize;
        let count = feed_next(alloc, tree, name, at, &mut buf[..len], feed)?;
        if count == 0 {
            return Ok(());
        }
        at += count as u64;
    }
    Ok(())
}

/// What the file of this name, of so many bytes, comes to as a table. It is read in pieces of 4,096 bytes, and no further than its first
/// fault, whose reply then halts the command. A fault of the tree and want of memory stop the run.
pub fn sum_up<T: Tree>(alloc: Global, tree: &mut T, name: &str, size: u64) -> Result<Summary, Halt>
    ensures told { (files : Files) → T.files tree.old ≡ Some files → length (bytes_of (files name.now)) ≡ size
        → IsSummed name.now (bytes_of (files name.now)) result }
    ensures fault { TellsFault result (Halt.Stop Stop.TreeFault) (T.faults tree.old) (T.faults tree.new) }
    ensures files { T.files tree.new ≡ T.files tree.old }
{
    let mut feed = TableFeed::new(alloc)?;
    feed_file(alloc, tree, name, size, &mut feed)?;
    match feed.finish() {
        Ok(summary) => Ok(summary),
        Err(error) => Err(halted(alloc, name, error)),
    }
}
