//! The configured addresses of hosts, found by host and port: no name is resolved.
//! An address in dotted form isn't looked up here.
ghost use Rattle.std.specs.Prelude.{◌≡◌, length, find, option_map, nat_eq, IfOk, OnOk};
ghost use Rattle.std.specs.HashMap.{get, IsEmpty};
ghost use Rattle.sip_hops.specs.Code as Codes;
ghost use Rattle.sip_hops.specs.HostAddress.{is_row_for};

use crate::code::code_of;
use crate::host_address::HostAddress;
use sip_text::{Items, same_no_case};
use sip_uri::Addr;
use std::alloc::{AllocError, Global};
use std::collections::HashMap;
use std::marker::Model;

/// Rows in their order, found by a code of their host and port: the code leads to the first row with it, and each
/// row to the next one with its code.
pub(crate) struct AddressTable {
    rows: Items<HostAddress>,
    firsts: HashMap<u64, usize>,
    nexts: Vec<Option<usize>>,
}

/// Written out, so that it is proved once and not wherever one is dropped.
impl Drop for AddressTable {
    fn drop(self) {
        let AddressTable {
            rows: _,
            firsts: _,
            nexts: _,
        } = self;
    }
}

impl Model for AddressTable {
    ghost use Rattle.std.specs.Prelude.{List, nat_eq};
    ghost use Rattle.std.specs.HashMap.{get};
    ghost use Rattle.sip_hops.specs.declared.host_address.HostAddress.{HostAddress};
    ghost use Rattle.sip_hops.specs.Code.{AreChained};

    ghost Value = { List HostAddress };

    ghost view = { λ t. t.rows };

    ghost invariant = { λ t. AreChained t.rows (λ code. get nat_eq t.firsts code) t.nexts.items };
}

/// Chains rows by their codes, from the last to the first, so that each leads on to one that is chained.
fn chain(
    rows: &[HostAddress],
    firsts: &mut HashMap<u64, usize>,
    nexts: &mut [Option<usize>],
) -> Result<(), AllocError>
    requires none { IsEmpty firsts.old }
    requires as_many { length nexts.old ≡ length rows.now }
    ensures { OnOk result (Codes.AreChained rows.now (λ code. get nat_eq firsts.new code) nexts.new) }
{
    let mut at = rows.len();
    while at > 0 {
        at -= 1;
        let row = &rows[at];
        nexts[at] = firsts.insert(code_of(row.host.as_slice(), row.port), at)?;
    }
    Ok(())
}

/// Whether a row is for a host, compared without case, and a port.
fn is_row_for(row: &HostAddress, host: &[u8], port: u16) -> bool
    ensures { result ≡ is_row_for host.now port row.now }
{
    same_no_case(row.host.as_slice(), host) && row.port == port
}

impl AddressTable {
    /// The rows, in this order. `AllocError` is the only refusal.
    pub(crate) fn new(alloc: Global, rows: Items<HostAddress>) -> Result<Self, AllocError>
        ensures { IfOk result (λ table. table ≡ rows) }
    {
        let count = rows.as_slice().len();
        let mut firsts = HashMap::new(alloc);
        let mut nexts = vec![in alloc; None; count]?;
        chain(rows.as_slice(), &mut firsts, nexts.as_mut_slice())?;
        Ok(AddressTable {
            rows,
            firsts,
            nexts,
        })
    }

    /// The address of the first row for a host and a port. Takes no memory, and its time is that of the rows with
    /// one code, however many others there are. It stands apart, so that a dotted address, which is not looked up, costs
    /// no more than its digits.
    #[inline(never)]
    pub(crate) fn find(&self, host: &[u8], port: u16) -> Option<Addr>
        ensures { result ≡ option_map (λ row. row.address) (find (is_row_for host.now port) self.now) }
    {
        let rows = self.rows.as_slice();
        if rows.is_empty() {
            // Most servers have no row, and no code is made then.
            return None;
        }
        let mut place = self.firsts.get(&code_of(host, port)).copied();
        while let Some(at) = place {
            let row = &rows[at];
            if is_row_for(row, host, port) {
                return Some(row.address);
            }
            place = self.nexts[at];
        }
        None
    }
}
