//! The lines that are written to the error stream.

use dk_base::error::NoMemory;
use dk_base::list::Bytes;
use std::alloc::Global;
use std::fmt;
use std::fmt::Write;

/// What is written so far. Where memory ran out for a part of it, nothing is written at the end.
#[derive(Drop)]
pub(crate) struct Report {
    text: Bytes,
    is_lost: bool,
}

impl Report {
    pub fn new(alloc: Global) -> Self {
        Report {
            text: Bytes::new(alloc),
            is_lost: false,
        }
    }

    /// Memory ran out for something that was to be said.
    pub fn lose(&mut self) {
        self.is_lost = true;
    }

    /// Writes what a message displays.
    pub fn tell<M: fmt::Display>(&mut self, message: &M) {
        if write!(self, "{message}").is_err() {
            self.is_lost = true;
        }
    }

    pub fn put(&mut self, text: &str) {
        if let Err(NoMemory) = self.text.append(text.as_bytes()) {
            self.is_lost = true;
        }
    }

    /// All that was written.
    pub fn into_text(self) -> Result<Bytes, NoMemory> {
        let Report { text, is_lost } = self;
        if is_lost { Err(NoMemory) } else { Ok(text) }
    }
}

impl fmt::Write for Report {
    fn write_str(&mut self, text: &str) -> fmt::Result {
        self.put(text);
        Ok(())
    }
}
