//! Shows, checks, lists and writes tables of Vector Product Format libraries (MIL-STD-2407), and selects their rows.
#![tactic(auto)]

use std::process::ExitCode;
use vpf_run::{start, words};

fn main(rt: HostRuntime) -> ExitCode {
    start(&rt, words(&rt))
}
