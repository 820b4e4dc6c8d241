ghost use Rattle.std.specs.Prelude.{◌≡◌, IfOk, IfErr};
ghost use Rattle.sip_hops.specs.HostAddress as Definitions;
ghost use Rattle.sip_hops.specs.Hop.{hop_of};
ghost use Rattle.sip_hops.specs.declared.error.HopsError.TheVariants.{NoMemory};

use crate::address_table::AddressTable;
use crate::error::HopsError;
use crate::hop::Hop;
use crate::host_address::HostAddress;
use crate::way::{is_by_udp, port_or_default};
use sip_text::Items;
use sip_uri::{Addr, Uri, ip_of};
use std::alloc::Global;
use std::marker::Model;

/// The configured tables that give the next hop its address, in place of DNS (RFC 3263): the address table for
/// URIs, and the hops for rules. A call costs no more with many rows, and none but [`Hops::new`] takes memory.
pub struct Hops {
    addresses: AddressTable,
    hops: Items<Hop>,
}

/// Written out, so that it is proved once and not wherever one is dropped.
impl Drop for Hops {
    fn drop(self) {
        let Hops {
            addresses: _,
            hops: _,
        } = self;
    }
}

impl Model for Hops {
    ghost use Rattle.sip_hops.specs.Hops.{HopTables};

    ghost Value = { HopTables };

    ghost view = { λ h. record { addresses = h.addresses; hops = h.hops } };
}

impl Hops {
    /// Tables of these rows and hops. Where two rows are for one host and port, the first counts. `NoMemory` is the
    /// only refusal.
    pub fn new(
        alloc: Global,
        addresses: Items<HostAddress>,
        hops: Items<Hop>,
    ) -> Result<Self, HopsError>
        ensures addresses { IfOk result (λ tables. tables.addresses ≡ addresses) }
        ensures hops { IfOk result (λ tables. tables.hops ≡ hops) }
        ensures refused { IfErr result (λ e. e ≡ NoMemory) }
    {
        let addresses = AddressTable::new(alloc, addresses)?;
        Ok(Hops { addresses, hops })
    }

    /// The address of a host and a port: a dotted IPv4 address is itself, any other host is looked up, without case.
    /// Takes no memory.
    pub fn address_at(&self, host: &[u8], port: u16) -> Option<Addr>
        ensures { result ≡ Definitions.address_at self.now.addresses host.now port }
    {
        match ip_of(host) {
            Some(ip) => Some(Addr { ip, port }),
            None => self.addresses.find(host, port),
        }
    }

    /// The address to which a request for a URI goes, by its host and its port, 5060 where none is written. A
    /// `sips` URI has none, nor one with a `maddr` or a `transport` other than udp, nor one that no row is for.
    /// Takes no memory.
    pub fn address_of(&self, uri: &Uri) -> Option<Addr>
        ensures { result ≡ Definitions.address_of self.now.addresses uri.now }
    {
        if !is_by_udp(uri) {
            return None;
        }
        let port = port_or_default(&uri.port)?;
        self.address_at(uri.host.as_slice(), port)
    }

    /// The address of the hop at a place of the list, counted from 0. Takes no memory.
    pub fn hop(&self, place: usize) -> Option<Addr>
        ensures { result ≡ hop_of self.now.hops place }
    {
        let hop = self.hops.as_slice().get(place)?;
        Some(hop.address)
    }
}
