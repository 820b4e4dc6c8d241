//! A reader that says how far it is.
ghost use Rattle.std.specs.Prelude.{◌≡◌};

use crate::pace::Pace;
use std::io::Read;
use std::rt::{Clock, Files};
use std::time::Instant;
use std::{fs, io};

/// A reader that gives what another one gives, and says on standard error how far it is, where somebody looks on: at most once a second by
/// the monotonic clock, and not in the first one.
pub struct Watched<'a, Q, R> {
    rt: &'a Q,
    pub reader: R,
    /// What is read, in a word or two.
    what: &'a str,
    /// How many bytes that has, if it is known.
    whole: Option<u64>,
    /// When it began, where somebody looks on.
    start: Option<Instant>,
    pace: Pace,
}

/// Written out, so that it is proved once and not wherever one is dropped.
impl<'a, Q, R: Drop> Drop for Watched<'a, Q, R> {
    fn drop(self) {
        let Watched {
            rt: _,
            reader: _,
            what: _,
            whole: _,
            start: _,
            pace: _,
        } = self;
    }
}

impl<'a, Q: Clock, R> Watched<'a, Q, R> {
    /// Nothing read yet; nothing is ever said, where nobody looks on.
    pub fn new(rt: &'a Q, reader: R, what: &'a str, whole: Option<u64>, seen: bool) -> Self
        ensures { result.reader ≡ reader }
    {
        let start = if seen { Instant::now(rt).ok() } else { None };
        Watched {
            rt,
            reader,
            what,
            whole,
            start,
            pace: Pace::new(0),
        }
    }
}

/// How many milliseconds passed since a moment of the monotonic clock, where it can be read.
fn passed_since<Q: Clock>(rt: &Q, start: Instant) -> Option<u64> {
    let passed = start.elapsed(rt).ok()?;
    u64::try_from(passed.as_millis()).ok()
}

impl<'a, Q: Clock + Eprint + AllocGlobal, R> Watched<'a, Q, R> {
    /// Says how far it is, so many bytes further, if it is time for that.
    fn go_on(&mut self, count: u64)
        ensures { self.new.reader ≡ self.old.reader }
    {
        let Some(start) = self.start else {
            return;
        };
        let Some(passed) = passed_since(self.rt, start) else {
            return;
        };
        if !self.pace.add(count, passed) {
            return;
        }
        if let Ok(line) = self
            .pace
            .line(self.rt.alloc(), self.what.as_bytes(), self.whole)
        {
            say(self.rt, line.as_slice());
        }
    }
}

/// Says a line.
fn say<Q: Eprint>(rt: &Q, line: &[u8]) {
    if let Ok(text) = str::from_utf8(line) {
        let _ = eprintln!(rt; "{text}");
    }
}

impl<'a, Q: Clock + Eprint + AllocGlobal, R: Read> Read for Watched<'a, Q, R> {
    ghost remaining = { λ w. R.remaining w.reader };

    fn read(&mut self, buffer: &mut [u8]) -> io::Result<usize> {
        match self.reader.read(buffer) {
            Ok(count) => {
                self.go_on(count as u64);
                Ok(count)
            }
            Err(e) => Err(e),
        }
    }
}

/// How many bytes the file of a path has, if it is one and that is known.
pub fn size_of_file<R: Files>(rt: &R, path: &str) -> Option<u64> {
    match fs::metadata(rt, path) {
        Ok(found) if found.is_file() => Some(found.len()),
        _ => None,
    }
}
