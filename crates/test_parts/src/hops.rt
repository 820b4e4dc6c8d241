use sip_hops::{Hops, HopsError, HostAddress};
use sip_text::{Bytes, Items};
use sip_uri::{Addr, parse_uri};
use std::alloc::{AllocError, Global};
use test_forms::gives_text;

/// Hosts, and the ports of 127.0.0.1 that they lead to. The last is the first one's, in capitals.
const ROWS: &[(&[u8], u16)] = &[
    (b"pc.host.com", 5091),
    (b"[::1]", 5094),
    (b"PC.host.com", 5093),
];

fn local(port: u16) -> Addr {
    Addr {
        ip: [127, 0, 0, 1],
        port,
    }
}

fn push_rows(alloc: Global, rows: &mut Items<HostAddress>) -> Result<(), AllocError> {
    for (host, at) in ROWS {
        rows.push(HostAddress {
            host: Bytes::copy(alloc, host)?,
            port: 5060,
            address: local(*at),
        })?;
    }
    Ok(())
}

fn tables(alloc: Global) -> Result<Hops, HopsError> {
    let mut rows = Items::new(alloc);
    push_rows(alloc, &mut rows)?;
    Hops::new(alloc, rows, Items::new(alloc))
}

/// Whether the first row of a host gives a URI its address.
fn finds_first(alloc: Global, tables: &Hops) -> bool {
    match parse_uri(alloc, b"sip:x@PC.host.com") {
        Ok(uri) => tables.address_of(&uri) == Some(local(5091)),
        Err(_) => false,
    }
}

pub(crate) fn is_found(alloc: Global) -> bool {
    match tables(alloc) {
        Ok(tables) => finds_first(alloc, &tables),
        Err(_) => false,
    }
}

pub(crate) fn no_memory_printed(alloc: Global) -> bool {
    gives_text(HopsError::NoMemory.to_string(alloc), "out of memory")
}
