//! Which bytes of which files a run asks for, and the first that it asks for twice.

use std::alloc::{AllocError, Global};
use std::collections::BTreeMap;

/// How much of a file was asked for.
#[derive(Clone, Copy)]
struct Touch {
    /// Whether its size was.
    sized: bool,
    /// Where the bytes that were end.
    end: u64,
}

/// What a run asked for, file by file.
#[derive(Drop)]
pub struct Touches {
    alloc: Global,
    files: BTreeMap<String, Touch>,
    again: Option<String>,
}

impl Touches {
    /// Nothing yet.
    pub fn new(alloc: Global) -> Self {
        Touches {
            alloc,
            files: BTreeMap::new(alloc),
            again: None,
        }
    }

    /// The first file of which the size, or a byte, was asked for twice.
    pub fn again(&self) -> Option<&str> {
        match &self.again {
            Some(name) => Some(name.as_str()),
            None => None,
        }
    }

    /// How much of a file was asked for.
    fn touch(&self, name: &str) -> Touch {
        match self.files.get(name) {
            Some(touch) => *touch,
            None => Touch {
                sized: false,
                end: 0,
            },
        }
    }

    /// Keeps how much of a file was asked for.
    fn keep(&mut self, name: &str, touch: Touch) -> Result<(), AllocError> {
        if let Some(kept) = self.files.get_mut(name) {
            *kept = touch;
            return Ok(());
        }
        self.files
            .insert(String::from_str(self.alloc, name)?, touch)?;
        Ok(())
    }

    /// Keeps that a file was asked for twice, unless another was before.
    fn repeat(&mut self, name: &str) -> Result<(), AllocError> {
        if self.again.is_none() {
            self.again = Some(String::from_str(self.alloc, name)?);
        }
        Ok(())
    }

    /// The size of a file is asked for.
    pub fn size(&mut self, name: &str) -> Result<(), AllocError> {
        let touch = self.touch(name);
        if touch.sized {
            self.repeat(name)?;
        }
        let end = touch.end;
        self.keep(name, Touch { sized: true, end })
    }

    /// So many bytes of a file are asked for, from an offset on.
    pub fn read(&mut self, name: &str, at: u64, count: usize) -> Result<(), AllocError> {
        let touch = self.touch(name);
        if count > 0 && at < touch.end {
            self.repeat(name)?;
        }
        let end = touch.end.max(at.saturating_add(count as u64));
        let sized = touch.sized;
        self.keep(name, Touch { sized, end })
    }
}
