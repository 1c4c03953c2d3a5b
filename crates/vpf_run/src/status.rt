//! How a run ends.

use std::process::ExitCode;
use vpf_replies::Verdict;

/// How a run ends.
#[derive(Clone, Copy, Debug, PartialEq, Eq)]
pub enum Status {
    /// What was asked for is done.
    Done,
    /// What was asked for is refused.
    Refused,
    /// The words are no command.
    Usage,
    /// A call on the tree failed.
    TreeFault,
    /// A call on the sink failed.
    SinkFault,
    /// Memory ran out.
    NoMemory,
    /// A bound is passed.
    Limit,
}

impl Status {
    ghost use Rattle.std.specs.Prelude.{◌≡◌};
    ghost use Rattle.vpf_run.specs.Statuses.{code_of};

    /// The exit status of the process: 0 to 6, in the order of the variants.
    pub fn code(self) -> u8
        ensures { result ≡ code_of self }
    {
        self as u8
    }
}

impl From<Verdict> for Status {
    ghost use Rattle.std.specs.Prelude.{◌≡◌};
    ghost use Rattle.vpf_run.specs.Statuses.{status_of};

    ghost from_gives = { λ verdict status. status ≡ status_of verdict };

    fn from(verdict: Verdict) -> Self {
        match verdict {
            Verdict::Done => Status::Done,
            Verdict::Refused => Status::Refused,
            Verdict::Usage => Status::Usage,
            Verdict::Limit => Status::Limit,
        }
    }
}

impl From<Status> for ExitCode {
    ghost use Rattle.std.specs.Prelude.{◌≡◌};
    ghost use Rattle.std.specs.Process.{exit_status};
    ghost use Rattle.vpf_run.specs.Statuses.{code_of};

    ghost from_gives = { λ status code. exit_status code ≡ code_of status };

    fn from(status: Status) -> Self {
        ExitCode::from(status.code())
    }
}
