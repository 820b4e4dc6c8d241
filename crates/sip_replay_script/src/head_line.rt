ghost use Rattle.std.specs.Prelude.{◌≡◌, ◌≤◌, ◌<◌, ◌+◌, ◌++◌, ◌∷◌, [], decimal, length};
ghost use Rattle.sip_uri.specs.Addresses.{addr_text};

use crate::front;
use sip_uri::Addr;
use std::marker::Model;

/// The room for a head line, in bytes: nine numbers, each as if it had 20 digits, and what stands between them.
const ROOM: usize = 208;

/// A head line, made from its last byte to its first in room of its own: so it takes no memory.
#[derive(Drop)]
pub struct DatagramHeadLine {
    room: [u8; 208],
    start: usize,
}

impl Model for DatagramHeadLine {
    ghost use Rattle.std.specs.Prelude.{ℕ, List, ◌≤◌, drop};

    ghost Value = { List ℕ };

    ghost view = { λ h. drop h.start h.room };

    ghost invariant = { λ h. h.start ≤ 208 };
}

impl DatagramHeadLine {
    /// Nothing yet.
    #[tactic(auto, using(std::proofs::lemmas::List::drop_all))]
    pub(crate) fn new() -> Self
        ensures { result ≡ [] }
    {
        DatagramHeadLine {
            room: [0; 208],
            start: ROOM,
        }
    }

    /// Puts a byte in front.
    #[inline]
    pub(crate) fn put(&mut self, byte: u8)
        requires { length self.old < 208 }
        ensures text { self.new ≡ byte ∷ self.old }
        ensures size { length self.new ≡ length self.old + 1 }
    {
        self.start = front::put_byte(&mut self.room, self.start, byte);
    }

    /// Puts a word in front.
    #[inline(always)]
    pub(crate) fn put_word(&mut self, word: &[u8])
        requires { length self.old + length word.now ≤ 208 }
        ensures text { self.new ≡ word.now ++ self.old }
        ensures size { length self.new ≡ length self.old + length word.now }
    {
        self.start = front::put_word(&mut self.room, self.start, word);
    }

    /// Puts a number in decimal in front.
    pub(crate) fn put_number(&mut self, number: u64)
        requires { length self.old + 20 ≤ 208 }
        ensures text { self.new ≡ decimal number ++ self.old }
        ensures size { length self.new ≤ length self.old + 20 }
    {
        self.start = front::put_number(&mut self.room, self.start, number);
    }

    /// Puts an address as `IP:PORT` in front.
    pub(crate) fn put_addr(&mut self, addr: Addr)
        requires { length self.old + 104 ≤ 208 }
        ensures text { self.new ≡ addr_text addr ++ self.old }
        ensures size { length self.new ≤ length self.old + 104 }
    {
        self.start = front::put_addr(&mut self.room, self.start, addr);
    }

    /// Its bytes.
    pub fn as_slice(&self) -> &[u8]
        ensures { result.now ≡ self.now }
    {
        &self.room[self.start..]
    }
}
