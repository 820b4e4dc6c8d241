use sip_text::Bytes;

/// Whether these bytes are given.
pub(crate) fn gives_bytes<E: Drop>(given: Result<Bytes, E>, wanted: &[u8]) -> bool {
    match given {
        Ok(bytes) => bytes.as_slice() == wanted,
        Err(_) => false,
    }
}

/// Whether this is a place of this host and this port.
pub(crate) fn is_place(
    place: Option<(&[u8], Option<u16>)>,
    host: &[u8],
    port: Option<u16>,
) -> bool {
    match place {
        Some((found, number)) => found == host && number == port,
        None => false,
    }
}
