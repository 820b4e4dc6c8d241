//! The addresses that a dialog holds (RFC 3261 12.1.1, 12.2.1.2: its remote targets and route sets), in room of their own.
ghost use Rattle.std.specs.Prelude.{◌≡◌, ◌≤◌, true, []};
ghost use Rattle.std.specs.List.{list_any};
ghost use Rattle.sip_dialog.specs.Addresses.{is_same_addr, with_address, with_addresses};

use sip_uri::Addr;
use std::marker::Model;

/// How many addresses a dialog holds.
const HELD: usize = 16;

/// Whether two addresses are one. Takes no memory.
pub fn is_same_addr(a: Addr, b: Addr) -> bool
    ensures { result ≡ is_same_addr a b }
{
    a.ip.as_slice() == b.ip.as_slice() && a.port == b.port
}

/// Only where two lists have the same addresses, in their order.
fn same_addresses(left: &[Addr], right: &[Addr]) -> bool
    ensures { result ≡ true → left.now ≡ right.now }
{
    if left.len() != right.len() {
        return false;
    }
    for at in 0..left.len() {
        if !left[at].is_same(right[at]) {
            return false;
        }
    }
    true
}

/// The addresses that a dialog holds, in the order in which they were learnt, seen as the list of them.
/// The room for all of them is its own, so learning one takes no memory.
#[derive(Drop)]
pub(crate) struct Addresses {
    held: [Addr; HELD],
    count: usize,
}

impl Model for Addresses {
    ghost use Rattle.std.specs.Prelude.{List, ◌≤◌, take};
    ghost use Rattle.sip_uri.specs.declared.addr.Addr.{Addr};

    ghost Value = { List Addr };

    ghost view = { λ a. take a.count a.held };

    ghost invariant = { λ a. a.count ≤ 16 };
}

impl Addresses {
    /// No address.
    pub(crate) fn new() -> Self
        ensures { result ≡ [] }
    {
        let nowhere = Addr {
            ip: [0; 4],
            port: 0,
        };
        Addresses {
            held: [nowhere; HELD],
            count: 0,
        }
    }

    /// Whether an address is held.
    pub(crate) fn holds(&self, address: Addr) -> bool
        ensures { result ≡ list_any (is_same_addr address) self.now }
    {
        self.held[..self.count]
            .iter()
            .any(|held| is_same_addr(address, *held))
    }

    /// Only where others are the same, in their order.
    pub(crate) fn is_same(&self, other: &Addresses) -> bool
        ensures { result ≡ true → self.now ≡ other.now }
    {
        let held = &self.held[..self.count];
        same_addresses(held, &other.held[..other.count])
    }

    /// Learns one more address, unless it is held or 16 are.
    pub(crate) fn add(&mut self, address: Addr)
        ensures { self.new ≡ with_address self.old address }
    {
        if self.holds(address) || self.count >= HELD {
            return;
        }
        self.held[self.count] = address;
        self.count += 1;
    }

    #[tactic(auto, using(std::proofs::lemmas::List::at_drop_more, std::proofs::lemmas::List::drop_all))]
    /// Learns some more addresses, in their order.
    pub(crate) fn add_all(&mut self, addresses: &[Addr])
        ensures { self.new ≡ with_addresses self.old addresses.now }
    {
        for address in addresses {
            self.add(*address);
        }
    }
}
