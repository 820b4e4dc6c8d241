//! A reader and a writer that fail once, at a given call.

use std::io;
use std::io::{ErrorKind, Read, Write};

/// A script, given in parts of at most 16 bytes. The call with this number, from 0, fails.
#[derive(Drop)]
pub struct FailingReader<'a> {
    pub script: &'a [u8],
    pub fails: Option<u32>,
    pub kind: ErrorKind,
}

/// What was written, in parts of at most 5 bytes. The write with this number, from 0, fails, or the flush.
#[derive(Drop)]
pub struct FailingWriter {
    pub text: Vec<u8>,
    pub write_fails: Option<u32>,
    pub flush_fails: Option<u32>,
    pub kind: ErrorKind,
}

/// Whether a call is the one that fails, and what is left to count then.
fn counted(fails: Option<u32>) -> (bool, Option<u32>) {
    match fails {
        None => (false, None),
        Some(0) => (true, None),
        Some(more) => (false, Some(more - 1)),
    }
}

impl Read for FailingReader<'_> {
    fn read(&mut self, buffer: &mut [u8]) -> io::Result<usize> {
        let (is_failing, fails) = counted(self.fails);
        self.fails = fails;
        if is_failing {
            return Err(io::Error::from(self.kind));
        }
        let most = buffer.len().min(16);
        self.script.read(&mut buffer[..most])
    }
}

impl Write for FailingWriter {
    fn write(&mut self, text: &[u8]) -> io::Result<usize> {
        let (is_failing, fails) = counted(self.write_fails);
        self.write_fails = fails;
        if is_failing {
            return Err(io::Error::from(self.kind));
        }
        let most = text.len().min(5);
        self.text.extend_from_slice(&text[..most])?;
        Ok(most)
    }

    fn flush(&mut self) -> io::Result<()> {
        let (is_failing, fails) = counted(self.flush_fails);
        self.flush_fails = fails;
        if is_failing {
            return Err(io::Error::from(self.kind));
        }
        Ok(())
    }
}
