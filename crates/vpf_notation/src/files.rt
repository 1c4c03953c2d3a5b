//! Files in memory.

use std::alloc::{AllocError, Global};
use std::collections::BTreeMap;

/// Files by their names, in the order of these.
#[derive(Drop)]
pub struct Files {
    alloc: Global,
    items: BTreeMap<String, Vec<u8>>,
}

impl Files {
    /// No file.
    pub fn new(alloc: Global) -> Self {
        Files {
            alloc,
            items: BTreeMap::new(alloc),
        }
    }

    /// All of them.
    pub fn items(&self) -> &BTreeMap<String, Vec<u8>> {
        &self.items
    }

    /// The bytes of the file of this name.
    pub fn get(&self, name: &str) -> Option<&[u8]> {
        match self.items.get(name) {
            Some(bytes) => Some(bytes),
            None => None,
        }
    }

    /// Makes the file of this name hold these bytes.
    pub fn put(&mut self, name: &str, bytes: Vec<u8>) -> Result<(), AllocError> {
        let name = String::from_str(self.alloc, name)?;
        let _before = self.items.insert(name, bytes)?;
        Ok(())
    }

    /// Takes the file of this name away, and says whether there was one.
    pub fn remove(&mut self, name: &str) -> bool {
        self.items.remove(name).is_some()
    }

    /// Puts a copy of each of these files beside or over what is there.
    pub fn put_all(&mut self, files: &Files) -> Result<(), AllocError> {
        for (name, bytes) in files.items.iter() {
            let bytes = Vec::from_slice(self.alloc, bytes)?;
            self.put(name, bytes)?;
        }
        Ok(())
    }
}
