//! A reader of a record's file that takes out the lines with digests, and fails where one disagrees.
ghost use Rattle.std.specs.Prelude.{◌≡◌, ◌≤◌, length};

use crate::digesting::Digesting;
use crate::follows::{Follows, LONGEST, read_follows};
use crate::line::part_of_line;
use crate::seal::{Front, SIZE, front_of, front_of_second, seal_line};
use crate::window::Window;
use std::alloc::{AllocError, Global};
use std::io;
use std::io::{ErrorKind, Read};

/// A reader that gives what another one gives of a record's file, line by line, without the lines that hold digests, and without the second one,
/// where that says which record is followed. It fails with `InvalidData` at the first digest that isn't that of what stands before it, and gives
/// nothing more. A file that ends in such a line that was cut ends in front of that. It takes memory where it is made, and for a second line of that
/// kind.
pub struct Unsealing<R> {
    pub inner: R,
    alloc: Global,
    window: Window,
    /// Whether the front of a line was given, or stands at the file's end.
    is_inside: bool,
    digesting: Digesting,
    /// How many lines were passed.
    lines: u64,
    /// How many of them held digests.
    seals: u64,
    /// The digest in the last line that was passed, where that held one.
    ending: Option<[u8; 32]>,
    /// Which record is followed, where that was said, and isn't handed out.
    follows: Option<Follows>,
    /// Whether it was said.
    has_followed: bool,
    /// Whether one disagreed, which is the line behind those.
    has_changed: bool,
}

/// Written out, so that it is proved once and not wherever one is dropped.
impl<R: Drop> Drop for Unsealing<R> {
    fn drop(self) {
        let Unsealing {
            inner: _,
            alloc: _,
            window: _,
            is_inside: _,
            digesting: _,
            lines: _,
            seals: _,
            ending: _,
            follows: _,
            has_followed: _,
            has_changed: _,
        } = self;
    }
}

/// What stands at the front of a line behind so many others.
fn front_of_line(bytes: &[u8], lines: u64) -> Front {
    if lines == 1 {
        front_of_second(bytes)
    } else {
        front_of(bytes)
    }
}

/// That a digest disagrees.
fn disagrees() -> io::Error {
    io::Error::from(ErrorKind::InvalidData)
}

/// Puts bytes at the front of a room.
fn put_front(room: &mut [u8], bytes: &[u8])
    requires { length bytes.now ≤ length room.old }
    ensures { length room.new ≡ length room.old }
{
    room[..bytes.len()].copy_from_slice(bytes);
}

impl<R> Unsealing<R> {
    /// What a reader has, from the front of a file. `AllocError` is the only refusal.
    pub fn new(alloc: Global, inner: R) -> Result<Self, AllocError>
    where
        R: Drop,
    {
        let window = Window::new(alloc)?;
        Ok(Unsealing {
            inner,
            alloc,
            window,
            is_inside: false,
            digesting: Digesting::new(),
            lines: 0,
            seals: 0,
            ending: None,
            follows: None,
            has_followed: false,
            has_changed: false,
        })
    }

    /// How many lines that hold digests of the file were passed.
    pub fn seals(&self) -> u64 {
        self.seals
    }

    /// How many lines were passed that aren't given: a line that is given stands so many lines further on in the file.
    pub fn hidden(&self) -> u64 {
        if self.has_followed {
            self.seals.saturating_add(1)
        } else {
            self.seals
        }
    }

    /// Which record this one follows, where that was passed: once, and none behind that.
    pub fn follows(&mut self) -> Option<Follows> {
        self.follows.take()
    }

    /// The digest in the last line that was passed, where that holds one.
    pub fn end_digest(&self) -> Option<[u8; 32]> {
        self.ending
    }

    /// The line of the file from which on it disagrees with its digests, counted from 1, where one was read that does.
    pub fn changed(&self) -> Option<u64> {
        if self.has_changed {
            Some(self.lines.saturating_add(1))
        } else {
            None
        }
    }

    /// The digest of what was passed, which is that of the file where it was read to its end. `AllocError` is the only
    /// refusal.
    pub fn digest(&self) -> Result<[u8; 32], AllocError> {
        self.digesting.digest()
    }

    /// Whether something was passed behind the last line that holds a digest, and ends a line.
    pub fn wants_seal(&self) -> bool {
        !self.is_inside && self.ending.is_none() && self.lines > 0
    }

    /// Passes so many bytes, which are a line or a part of one.
    fn pass(&mut self, count: usize, ends: bool) {
        let unread = self.window.unread();
        let part = match unread.get(..count) {
            Some(part) => part,
            None => unread,
        };
        self.digesting.take(part);
        self.window.pass(count);
        if ends {
            self.lines = self.lines.saturating_add(1);
        }
    }

    /// Passes a line that holds a digest, if it is that of what stands before it; whether it is.
    fn pass_seal(&mut self) -> Result<bool, AllocError> {
        let digest = self.digesting.digest()?;
        let line = seal_line(&digest);
        if !self.window.unread().starts_with(&line) {
            self.has_changed = true;
            return Ok(false);
        }
        self.pass(SIZE, true);
        self.seals = self.seals.saturating_add(1);
        self.ending = Some(digest);
        Ok(true)
    }

    /// Passes the second line, if it says which record is followed; whether it does.
    fn pass_follows(&mut self) -> Result<bool, AllocError> {
        let unread = self.window.unread();
        let (count, _) = part_of_line(unread, LONGEST);
        let Some(follows) = read_follows(self.alloc, &unread[..count])? else {
            return Ok(false);
        };
        self.pass(count, true);
        self.follows = Some(follows);
        self.has_followed = true;
        Ok(true)
    }

    /// At the end of the file, where too few bytes stand there: the front of a line that holds a digest isn't given. Whether it is one: a whole
    /// line that begins so disagrees.
    fn finish(&mut self) -> bool {
        if self.is_inside {
            return true;
        }
        if self.window.unread().iter().any(|byte| *byte == b'\n') {
            self.has_changed = true;
            return false;
        }
        self.is_inside = !self.window.unread().is_empty();
        self.window.pass(LONGEST);
        true
    }

    /// What stands at the front of what was read.
    fn front(&self) -> Front {
        let unread = self.window.unread();
        if !self.is_inside {
            return front_of_line(unread, self.lines);
        }
        if unread.is_empty() {
            Front::Short
        } else {
            Front::Other
        }
    }

    /// Gives of what was read as much as there is room for, up to the end of a line; how many bytes.
    fn give(&mut self, room: &mut [u8]) -> usize
        ensures { result ≤ length room.new }
    {
        let unread = self.window.unread();
        let (count, ends) = part_of_line(unread, room.len());
        put_front(room, &unread[..count]);
        self.is_inside = !ends && (self.is_inside || count > 0);
        self.pass(count, ends);
        if count > 0 {
            self.ending = None;
        }
        count
    }
}

impl<R: Read> Unsealing<R> {
    /// Ends what is given.
    fn end(&mut self) -> io::Result<()> {
        if self.finish() {
            Ok(())
        } else {
            Err(disagrees())
        }
    }

    /// Reads until what can be given stands there, or nothing is left.
    fn settle(&mut self) -> io::Result<()> {
        for _ in 0..u64::MAX {
            match self.front() {
                Front::Other => return Ok(()),
                Front::Seal => {
                    if !self.pass_seal()? {
                        return Err(disagrees());
                    }
                }
                Front::Follows => {
                    if !self.pass_follows()? {
                        return Ok(());
                    }
                }
                Front::Short => {
                    if self.window.fill(&mut self.inner)? == 0 {
                        return self.end();
                    }
                }
            }
        }
        Ok(())
    }
}

impl<R: Read> Read for Unsealing<R> {
    fn read(&mut self, buffer: &mut [u8]) -> io::Result<usize> {
        if self.has_changed {
            return Err(disagrees());
        }
        self.settle()?;
        Ok(self.give(buffer))
    }
}
