use sip_header::Expires;
use sip_location::{Contacts, LocationError, Locations, Registration};
use sip_text::{Bytes, Text};
use sip_uri::Aor;
use std::alloc::{AllocError, Global};

/// What a REGISTER asks for Mufasa, with one Contact.
fn registration(alloc: Global) -> Result<Registration<'static>, AllocError> {
    let contacts = Contacts::read(alloc, &[b"<sip:Mufasa@127.0.0.1>".as_slice()])?;
    Ok(Registration {
        aor: Aor {
            user: Bytes::copy(alloc, b"Mufasa")?,
            host: Bytes::copy(alloc, b"host.com")?,
        },
        contacts,
        expires: Expires::Absent,
        call_id: Text::new(b"c1"),
        cseq: 1,
    })
}

/// Whether a REGISTER binds its contact, and the same one later is refused.
fn is_taken_once(alloc: Global, request: &Registration<'_>) -> bool {
    match Locations::new(alloc) {
        Ok(mut locations) => {
            let taken = locations.update(request, 1_000);
            let again = locations.update(request, 2_000);
            taken.is_ok()
                && again == Err(LocationError::OldCSeq)
                && locations.count(&request.aor, 2_000) == 1
        }
        Err(_) => false,
    }
}

pub(crate) fn updates(alloc: Global) -> bool {
    match registration(alloc) {
        Ok(request) => is_taken_once(alloc, &request),
        Err(_) => false,
    }
}
