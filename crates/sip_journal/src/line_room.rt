ghost use Rattle.std.specs.Prelude.{◌≡◌, ◌≤◌, ◌+◌, ◌++◌, ◌∷◌, [], length};
ghost use Rattle.sip_replay_script.specs.Escaped.{escaped};

use sip_replay_script::put_escaped;
use std::alloc::{AllocError, Global};
use std::marker::Model;

/// The room for the longest line: what stands in front of a datagram's text, three bytes for each of 65,508, and LF.
const ROOM: usize = 196_733;

/// Room that is made once, for the line of any datagram, and for a line of a configuration.
#[derive(Drop)]
pub(crate) struct LineRoom {
    block: Vec<u8>,
}

impl Model for LineRoom {
    ghost use Rattle.std.specs.Prelude.{ℕ, List, ◌≤◌};
    ghost use Rattle.std.specs.Vec.{vec_capacity};

    ghost Value = { List ℕ };

    ghost view = { λ r. r.block.items };

    ghost invariant = { λ r. 196733 ≤ vec_capacity r.block };
}

impl LineRoom {
    /// No line yet. `AllocError` is the only refusal.
    pub(crate) fn new(alloc: Global) -> Result<Self, AllocError> {
        Ok(LineRoom {
            block: Vec::with_capacity(alloc, ROOM)?,
        })
    }

    /// The line of a datagram: what stands in front of its text, the text, and LF. Takes no memory.
    pub(crate) fn line(&mut self, front: &[u8], bytes: &[u8]) -> &[u8]
        requires front { length front.now ≤ 208 }
        requires bytes { length bytes.now ≤ 65508 }
        ensures { result.now ≡ front.now ++ (escaped bytes.now ++ 10 ∷ []) }
    {
        self.set(front, bytes);
        self.block.as_slice()
    }

    /// Makes it that line.
    fn set(&mut self, front: &[u8], bytes: &[u8])
        requires front { length front.now ≤ 208 }
        requires bytes { length bytes.now ≤ 65508 }
        ensures { self.new ≡ front.now ++ (escaped bytes.now ++ 10 ∷ []) }
    {
        self.block.clear();
        self.block.extend_from_slice(front).unwrap();
        let most = front.len() + 3 * bytes.len();
        self.block.resize(most, 0).unwrap();
        let end = put_escaped(self.block.as_mut_slice(), front.len(), bytes);
        self.block.truncate(end);
        self.end();
    }

    /// A line of its own: what it begins with, other bytes, and LF. Takes no memory.
    pub(crate) fn plain(&mut self, front: &[u8], bytes: &[u8]) -> &[u8]
        requires { length front.now + length bytes.now ≤ 196732 }
        ensures { result.now ≡ front.now ++ (bytes.now ++ 10 ∷ []) }
    {
        self.set_plain(front, bytes);
        self.block.as_slice()
    }

    /// Makes it that line.
    fn set_plain(&mut self, front: &[u8], bytes: &[u8])
        requires { length front.now + length bytes.now ≤ 196732 }
        ensures { self.new ≡ front.now ++ (bytes.now ++ 10 ∷ []) }
    {
        self.block.clear();
        self.block.extend_from_slice(front).unwrap();
        self.block.extend_from_slice(bytes).unwrap();
        self.end();
    }

    /// Ends the line.
    fn end(&mut self)
        requires { length self.old ≤ 196732 }
        ensures { self.new ≡ self.old ++ 10 ∷ [] }
    {
        self.block.push_reserved(b'\n');
    }
}
