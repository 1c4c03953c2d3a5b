//! What ends a command before its reply is known.

ghost use Rattle.std.specs.Prelude.{◌≡◌, ◌↔◌, IsErrOf};
ghost use Rattle.vpf_replies.specs.declared.halting.Halt.TheVariants as halts;
ghost use Rattle.vpf_replies.specs.declared.halting.Stop.TheVariants as stops;
ghost use Rattle.vpf_replies.specs.Halting.{settled};

use crate::reply::Reply;
use std::alloc::AllocError;

/// What stops a run before its answer is known.
#[derive(Clone, Copy, Debug, PartialEq, Eq)]
pub enum Stop {
    /// A call on the tree failed.
    TreeFault,
    /// Memory ran out.
    NoMemory,
}

impl From<AllocError> for Stop {
    ghost from_gives = { λ _ stop. stop ≡ stops.NoMemory };

    fn from(_: AllocError) -> Self {
        Stop::NoMemory
    }
}

/// What ends a command early.
#[derive(Debug, Drop)]
pub enum Halt {
    /// The reply, where one of the files that it reads decides it.
    Answered(Reply),
    /// The run stops.
    Stop(Stop),
}

impl From<AllocError> for Halt {
    ghost from_gives = { λ _ halt. halt ≡ halts.Stop stops.NoMemory };

    fn from(_: AllocError) -> Self {
        Halt::Stop(Stop::NoMemory)
    }
}

/// The reply of a command, be it halted or not, or what stops the run.
pub fn settle(outcome: Result<Reply, Halt>) -> Result<Reply, Stop>
    ensures reply { result ≡ settled outcome }
    ensures fault { IsErrOf result Stop.TreeFault ↔ IsErrOf outcome (Halt.Stop Stop.TreeFault) }
{
    match outcome {
        Ok(reply) | Err(Halt::Answered(reply)) => Ok(reply),
        Err(Halt::Stop(stop)) => Err(stop),
    }
}
