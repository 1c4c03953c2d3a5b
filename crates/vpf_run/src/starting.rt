//! The program over the computer.

ghost use Rattle.std.specs.Prelude.{◌≡◌, ◌⊎◌, ℕ, IfErr, IfOk, None, Some, map, string_bytes};
ghost use Rattle.std.specs.Process.{exit_status};
ghost use Rattle.vpf_run.specs.declared.command.Command.TheVariants.{Drill};
ghost use Rattle.vpf_run.specs.Commands.{command_of};
ghost use Rattle.vpf_run.specs.Statuses.{Ends, EndsAsDone, EndsAsUsage, code_of};

use crate::help::{HELP, is_help};
use crate::running::run;
use crate::status::Status;
use std::env::Env;
use std::io::ErrorKind;
use std::process::ExitCode;
use std::rt::Files;
use std::{env, io};
use vpf_source::{FolderTree, StdSink};

/// The line on standard error where memory ran out.
const RAN_OUT: &str = "vpf: out of memory";

/// The words after the program's name, or the status where they can't be had: usage where one of them is no text.
pub fn words<R: Env + AllocGlobal>(rt: &R) -> Result<Vec<String>, Status>
    ensures { IfErr result (λ status. (status ≡ Status.Usage) ⊎ (status ≡ Status.NoMemory)) }
{
    let mut words = Vec::new(rt.alloc());
    let args = match env::args(rt) {
        Ok(args) => args,
        Err(error) if error.kind() == ErrorKind::OutOfMemory => return Err(Status::NoMemory),
        Err(_) => return Err(Status::Usage),
    };
    for word in args.skip(1) {
        if words.push(word).is_err() {
            return Err(Status::NoMemory);
        }
    }
    Ok(words)
}

/// Tells a person on standard error, in one line, what ended a run early: the file or the output with the system's word on it, or that memory
/// ran out. Where help is asked for, the commands are told, a line each. Any other run tells nothing there.
fn tell<R: Eprint, F: Files, O: Print>(
    rt: &R,
    words: &[String],
    status: Status,
    tree: &FolderTree<F>,
    out: &StdSink<O>,
) -> io::Result<()> {
    match (status, tree.trouble(), out.trouble()) {
        (Status::TreeFault, Some(trouble), _) => eprintln!(rt; "vpf: {trouble}"),
        (Status::SinkFault, _, Some(trouble)) => eprintln!(rt; "vpf: standard output: {trouble}"),
        (Status::NoMemory, _, _) => eprintln!(rt; "{RAN_OUT}"),
        (Status::Usage, _, _) if is_help(words) => eprintln!(rt; "{HELP}"),
        _ => Ok(()),
    }
}

/// Does what the words ask over the files of the computer, prints to standard output, and tells what ended the run early.
fn run_here<R: Files + Print + Eprint + AllocGlobal>(rt: &R, words: &[String]) -> Status
    ensures usage { command_of (map string_bytes words.now) ≡ None → EndsAsUsage result }
    ensures drilled { (n : ℕ) → command_of (map string_bytes words.now) ≡ Some (Drill n) → EndsAsDone result }
{
    let mut tree = FolderTree::new(rt.alloc(), rt);
    let mut out = StdSink::new(rt);
    let status = run(rt.alloc(), words, &mut tree, &mut out);
    let _told = tell(rt, words, status, &tree, &out);
    status
}

/// Does what the words ask over the files of the computer, and gives the exit status of the process: the code of the status that `run` ends
/// with, or of that for which there are no words.
///
/// Of a tree that tells no files `run` says how words end that are no command, and how `drill` does; of any other command it says only which
/// faults end it. So does the exit status.
pub fn start<R: Files + Print + Eprint + AllocGlobal>(
    rt: &R,
    words: Result<Vec<String>, Status>,
) -> ExitCode
    ensures usage { IfOk words (λ words. command_of (map string_bytes words.items) ≡ None → Ends EndsAsUsage result) }
    ensures drilled { IfOk words (λ words. (n : ℕ) → command_of (map string_bytes words.items) ≡ Some (Drill n) → Ends EndsAsDone result) }
    ensures unread { IfErr words (λ status. exit_status result ≡ code_of status) }
{
    match words {
        Ok(words) => ExitCode::from(run_here(rt, &words)),
        Err(status) => {
            if status == Status::NoMemory {
                let _told = eprintln!(rt; "{RAN_OUT}");
            }
            ExitCode::from(status)
        }
    }
}
