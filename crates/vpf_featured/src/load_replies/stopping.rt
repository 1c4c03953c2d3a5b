//! The reply to what stops a load.

ghost use Rattle.std.specs.Prelude.{◌≡◌, ◌↔◌, IsErrOf};
ghost use Rattle.vpf_replies.specs.Halting.{ComesTo};
ghost use Rattle.vpf_featured.specs.LoadReplies.Stopping.{IsStopAnswer};

use std::alloc::Global;
use vpf_library_files::loading::LoadStop;
use vpf_replies::{Halt, Refusal, Reply, Stop, fault, kept_disagreement, limit, refuse};

/// The reply to the file that stops a load, or what stops the run: a fault of the tree, or want of memory.
pub fn stopped(alloc: Global, stop: LoadStop) -> Result<Reply, Halt>
    ensures told { ComesTo (IsStopAnswer stop) result }
    ensures fault { IsErrOf result (Halt.Stop Stop.TreeFault) ↔ (stop ≡ LoadStop.Fault) }
{
    match stop {
        LoadStop::Fault => Err(Halt::Stop(Stop::TreeFault)),
        LoadStop::NoMemory => Err(Halt::Stop(Stop::NoMemory)),
        LoadStop::Missing(name) => Ok(refuse(alloc, Refusal::Missing(name.as_str()))?),
        LoadStop::Place(name, place) => Ok(fault(alloc, name.as_str(), place)?),
        LoadStop::Limit(name, passed) => {
            Ok(limit(alloc, passed.what, name.as_str(), passed.found)?)
        }
        LoadStop::Varies(name) => Ok(refuse(alloc, Refusal::Variable(name.as_str()))?),
        LoadStop::Finding(name, finding) => {
            Ok(kept_disagreement(alloc, name.as_str(), &finding)?)
        }
    }
}
