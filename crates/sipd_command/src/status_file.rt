//! The file in which a server says how it is, for Prometheus' textfile collector and whoever else reads it.
use sipd_status::{StatusFault, StatusPlace, memory_said};
use std::alloc::AllocError;
use std::io::{ErrorKind, Write};
use std::rt::Files;
use std::{fs, io};

/// Where the kernel says how much memory a process has (proc(5)).
const PROCESS: &str = "/proc/self/status";

/// A file whose text is written beside it, and takes its name once it is whole.
pub struct StatusFile<'a, R> {
    rt: &'a R,
    path: String,
    part: String,
}

/// Written out, so that it is proved once and not wherever one is dropped.
impl<'a, R> Drop for StatusFile<'a, R> {
    fn drop(self) {
        let StatusFile {
            rt: _,
            path: _,
            part: _,
        } = self;
    }
}

/// Whether a file can be written at a path: one that isn't there yet, or a regular one. A named pipe would wait for who reads it.
fn is_writable<R: Files>(rt: &R, path: &str) -> bool {
    match fs::metadata(rt, path) {
        Ok(found) => found.is_file(),
        Err(e) => e.kind() == ErrorKind::NotFound,
    }
}

impl<'a, R: Files + AllocGlobal> StatusFile<'a, R> {
    /// The file with this path.
    pub fn new(rt: &'a R, path: &str) -> Result<Self, AllocError> {
        Ok(StatusFile {
            rt,
            path: String::from_str(rt.alloc(), path)?,
            part: format!(in rt.alloc(); "{path}.part")?,
        })
    }

    /// Writes a text beside the file, and gives it the name of that.
    fn replace(&self, text: &[u8]) -> io::Result<()> {
        if !is_writable(self.rt, self.part.as_str()) {
            return Err(io::Error::from(ErrorKind::Unsupported));
        }
        let mut file = fs::File::create(self.rt, self.part.as_str())?;
        file.write_all(text)?;
        file.flush()?;
        fs::rename(self.rt, self.part.as_str(), self.path.as_str())
    }
}

impl<'a, R: Files + AllocGlobal> StatusPlace for StatusFile<'a, R> {
    ghost use Rattle.std.specs.Prelude.{None};

    // what a file holds it doesn't tell
    ghost texts = { λ _. None };

    fn put(&mut self, text: &[u8]) -> Result<(), StatusFault> {
        match self.replace(text) {
            Ok(()) => Ok(()),
            Err(e) if e.kind() == ErrorKind::OutOfMemory => Err(StatusFault::NoMemory),
            Err(_) => Err(StatusFault::Device),
        }
    }

    fn memory(&mut self) -> Option<u64> {
        match fs::read(self.rt, PROCESS) {
            Ok(text) => memory_said(text.as_slice()),
            Err(_) => None,
        }
    }
}
