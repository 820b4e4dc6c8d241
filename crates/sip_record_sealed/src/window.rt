//! What is read of a file and not given yet.
ghost use Rattle.std.specs.Prelude.{◌≡◌, ◌≤◌, ◌+◌, length, IfOk, vec_len};

use std::alloc::{AllocError, Global};
use std::io;
use std::io::Read;
use std::marker::Model;

/// How many bytes are held at most.
const ROOM: usize = 8192;

/// What is read of a file and not given yet, in room that is made once.
#[derive(Drop)]
pub(crate) struct Window {
    buffer: Vec<u8>,
    start: usize,
    end: usize,
}

impl Model for Window {
    ghost use Rattle.std.specs.Prelude.{◌≡◌, ◌≤◌, ℕ, List, vec_len};
    ghost use Rattle.std.specs.List.{slice_range};

    ghost Value = { List ℕ };

    ghost view = { λ w. slice_range w.buffer.items w.start w.end };

    ghost invariant = { λ w. (w.start ≤ w.end) × (w.end ≤ 8192) × (vec_len w.buffer ≡ 8192) };
}

fn zeros(alloc: Global, count: usize) -> Result<Vec<u8>, AllocError>
    ensures { IfOk result (λ v. vec_len v ≡ count) }
{
    vec![in alloc; 0; count]
}

/// Moves the bytes from a place up to another to the front of a room.
fn move_front(room: &mut [u8], start: usize, end: usize)
    requires { (start ≤ end) × (end ≤ length room.old) }
    ensures { length room.new ≡ length room.old }
{
    room.copy_within(start..end, 0);
}

/// Reads bytes behind those that stand in a room already; how many came, 0 at the end, or where there is no room.
fn read_behind<R: Read>(inner: &mut R, room: &mut [u8], end: usize) -> io::Result<usize>
    requires { end ≤ length room.old }
    ensures within { IfOk result (λ count. end + count ≤ length room.new) }
    ensures len { length room.new ≡ length room.old }
{
    inner.read(&mut room[end..])
}

impl Window {
    /// Nothing read. `AllocError` is the only refusal.
    pub(crate) fn new(alloc: Global) -> Result<Window, AllocError> {
        let buffer = zeros(alloc, ROOM)?;
        Ok(Window {
            buffer,
            start: 0,
            end: 0,
        })
    }

    /// The bytes that were read and not given yet.
    pub(crate) fn unread(&self) -> &[u8]
        ensures { result.now ≡ self.now }
    {
        &self.buffer[self.start..self.end]
    }

    /// So many of them, or all, are given.
    pub(crate) fn pass(&mut self, count: usize) {
        let most = self.end - self.start;
        self.start += count.min(most);
    }

    /// Reads more behind them; how many bytes, 0 at the end, or where there is no room.
    pub(crate) fn fill<R: Read>(&mut self, inner: &mut R) -> io::Result<usize> {
        let size = self.end - self.start;
        move_front(self.buffer.as_mut_slice(), self.start, self.end);
        self.start = 0;
        self.end = size;
        let count = read_behind(inner, self.buffer.as_mut_slice(), size)?;
        self.end = size + count;
        Ok(count)
    }
}
