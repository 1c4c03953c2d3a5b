//! What is to be made and printed.

use crate::verdict::Verdict;
use std::alloc::Global;
use std::marker::Model;
use vpf_source::{Bytes, File};

/// How a command ends where nothing stops it, all that it prints, and the files that it makes before that. It never says that the words are no command.
#[derive(Debug, Drop)]
pub struct Reply {
    verdict: Verdict,
    text: Bytes,
    made: Vec<File>,
}

impl Model for Reply {
    ghost use Rattle.std.specs.Prelude.{◌≢◌};
    ghost use Rattle.vpf_replies.specs.Answer.{Answer};
    ghost use Rattle.vpf_replies.specs.declared.verdict.Verdict.TheVariants as verdicts;

    ghost Value = { Answer };

    ghost view = { λ r. record { verdict = r.verdict; text = r.text; made = r.made.items } };

    ghost invariant = { λ r. r.verdict ≢ verdicts.Usage };
}

impl Reply {
    ghost use Rattle.std.specs.Prelude.{◌≡◌, ◌≢◌, [], string_bytes};

    /// A reply that makes no file.
    pub fn new(alloc: Global, verdict: Verdict, text: String) -> Self
        requires { verdict ≢ Verdict.Usage }
        ensures { result ≡ record { verdict = verdict; text = string_bytes text; made = [] } }
    {
        Reply::of_bytes(alloc, verdict, Bytes::new(text.into_bytes()))
    }

    /// A reply that prints these bytes and makes no file.
    pub fn of_bytes(alloc: Global, verdict: Verdict, text: Bytes) -> Self
        requires { verdict ≢ Verdict.Usage }
        ensures { result ≡ record { verdict = verdict; text = text; made = [] } }
    {
        Reply {
            verdict,
            text,
            made: Vec::new(alloc),
        }
    }

    /// The reply of what is done by making these files.
    pub fn making(text: String, made: Vec<File>) -> Self
        ensures { result ≡ record { verdict = Verdict.Done; text = string_bytes text; made = made.items } }
    {
        Reply {
            verdict: Verdict::Done,
            text: Bytes::new(text.into_bytes()),
            made,
        }
    }

    /// How the command ends, where nothing stops it.
    pub fn verdict(&self) -> Verdict
        ensures value { result ≡ self.now.verdict }
        ensures asked { result ≢ Verdict.Usage }
    {
        self.verdict
    }

    /// All that is printed.
    pub fn text(&self) -> &[u8]
        ensures { result.now ≡ self.now.text }
    {
        self.text.as_slice()
    }

    /// The files to be made, in their order.
    pub fn made(&self) -> &[File]
        ensures { result.now ≡ self.now.made }
    {
        &self.made
    }
}
