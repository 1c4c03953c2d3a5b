//! The same program, which the gate runs on a file that is no table: its exit status is seen.
#![tactic(auto)]

use std::process::ExitCode;
use vpf_run::{start, words};

fn main(rt: HostRuntime) -> ExitCode {
    start(&rt, words(&rt))
}
