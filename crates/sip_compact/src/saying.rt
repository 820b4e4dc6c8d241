//! A datagram read for what tells whether it matters.
use crate::seen::{Asks, Method, SeenMessage};
use sip_digest::word_of;
use sip_header::{
    ContactItem, CoreFields, Expires, HeaderError, contact_expires, contact_of, core_of,
    expires_of, tag_of,
};
use sip_header_credentials::credentials_of;
use sip_message::view;
use sip_message_fields::{FieldName, ViewName};
use sip_message_form::{View, ViewError, ViewRefusal, ViewStart};
use sip_uri::Aor;
use sip_uri_ref::UriRef;
use std::alloc::{AllocError, Global};

/// For how long a contact is bound where it doesn't say, in seconds, and at most.
const HOUR: u64 = 3_600;

const DAY: u64 = 86_400;

/// What a datagram says; none where it says no message, or none that anything could come of. `AllocError` is the only refusal.
pub(crate) fn seen_in(alloc: Global, bytes: &[u8]) -> Result<Option<SeenMessage>, AllocError> {
    match view(alloc, bytes) {
        Ok(message) => seen_of(alloc, &message),
        Err(error) => refused(&error),
    }
}

/// What isn't a message.
fn refused(error: &ViewError<'_>) -> Result<Option<SeenMessage>, AllocError> {
    match error.refusal() {
        ViewRefusal::NoMemory => Err(AllocError),
        ViewRefusal::NotSip
        | ViewRefusal::BadField
        | ViewRefusal::ShortBody(_)
        | ViewRefusal::TooLong
        | ViewRefusal::TooManyFields => Ok(None),
    }
}

/// What a message says, if it has From, To, Call-ID and CSeq.
fn seen_of(alloc: Global, message: &View<'_>) -> Result<Option<SeenMessage>, AllocError> {
    match core_of(alloc, message) {
        Ok(core) => Ok(Some(seen_by(alloc, message, &core)?)),
        Err(HeaderError::NoMemory) => Err(AllocError),
        Err(_) => Ok(None),
    }
}

fn seen_by(
    alloc: Global,
    message: &View<'_>,
    core: &CoreFields<'_>,
) -> Result<SeenMessage, AllocError> {
    let method = Method::of(core.cseq.method.as_slice());
    let call_id = Vec::from_slice(alloc, core.call_id.as_slice())?;
    let nonce = nonce_in(alloc, method, message)?;
    let target = target_of(alloc, method, message, core)?;
    let asks = asks_in(alloc, message)?;
    let lesson = lesson_of(alloc, message)?;
    Ok(SeenMessage {
        status: status_of(message),
        method,
        call_id,
        sequence: core.cseq.number,
        has_to_tag: tag_of(core.to.parameters()).is_some(),
        nonce,
        target,
        asks,
        lesson,
    })
}

/// The status of a response.
fn status_of(message: &View<'_>) -> Option<u16> {
    match message.start() {
        ViewStart::Request { .. } => None,
        ViewStart::Status { code, .. } => Some(*code),
    }
}

/// The address of record that a request is for: of a REGISTER that of its To, of any other that of its Request-URI.
fn target_of(
    alloc: Global,
    method: Method,
    message: &View<'_>,
    core: &CoreFields<'_>,
) -> Result<Option<Aor>, AllocError> {
    let ViewStart::Request { uri, .. } = message.start() else {
        return Ok(None);
    };
    match method {
        Method::Register => core.to.aor(alloc),
        Method::Invite | Method::Ack | Method::Bye | Method::Cancel | Method::Other => {
            aor_in(alloc, uri)
        }
    }
}

fn aor_in(alloc: Global, uri: &[u8]) -> Result<Option<Aor>, AllocError> {
    match UriRef::of(alloc, uri)? {
        Some(uri) => Ok(Some(uri.aor(alloc)?)),
        None => Ok(None),
    }
}

/// The word of the first credential's nonce that names one (RFC 3261 22.2, 22.3).
fn nonce_in(alloc: Global, method: Method, message: &View<'_>) -> Result<Option<u128>, AllocError> {
    let name = credentials_field(method);
    for field in message.fields().as_slice() {
        if field.name().is_same(&name) {
            let word = word_in(alloc, field.value().as_slice())?;
            if word.is_some() {
                return Ok(word);
            }
        }
    }
    Ok(None)
}

fn credentials_field(method: Method) -> FieldName {
    match method {
        Method::Register => FieldName::Authorization,
        Method::Invite | Method::Ack | Method::Bye | Method::Cancel | Method::Other => {
            FieldName::ProxyAuthorization
        }
    }
}

/// The word that the nonce of a credential names.
fn word_in(alloc: Global, value: &[u8]) -> Result<Option<u128>, AllocError> {
    let Some(credentials) = credentials_of(alloc, value)? else {
        return Ok(None);
    };
    match &credentials.nonce {
        Some(nonce) => Ok(word_of(nonce.as_slice())),
        None => Ok(None),
    }
}

/// What the first contact of a message asks (RFC 3261 10.2).
fn asks_in(alloc: Global, message: &View<'_>) -> Result<Asks, AllocError> {
    let Some(value) = message.fields().first(&FieldName::Contact) else {
        return Ok(Asks::Nothing);
    };
    match contact_of(alloc, value)? {
        Some(item) => Ok(asked_by(&item, expires_of(message.fields()))),
        None => Ok(Asks::Nothing),
    }
}

/// What a contact asks of a message that says for how long all of its contacts are to be bound.
fn asked_by(item: &ContactItem<'_>, all: Expires) -> Asks {
    match item {
        ContactItem::Star => Asks::AllGo,
        ContactItem::Address(_) => Asks::Lasts(lasting(contact_expires(item), all)),
    }
}

/// For how many milliseconds a contact is bound that says so itself, of a message that says so for all.
fn lasting(own: Expires, all: Expires) -> u64 {
    match own {
        Expires::Absent => milliseconds(all),
        Expires::Seconds(_) | Expires::Malformed => milliseconds(own),
    }
}

fn milliseconds(said: Expires) -> u64 {
    match said {
        Expires::Seconds(seconds) => seconds.min(DAY) * 1_000,
        Expires::Absent | Expires::Malformed => HOUR * 1_000,
    }
}

/// Whether a field of this name teaches a dialog where it leads (RFC 3261 12.1).
fn is_teaching(name: &ViewName<'_>) -> bool {
    if name.is_same(&FieldName::Contact) {
        return true;
    }
    name.is_same(&FieldName::RecordRoute)
}

/// The contacts and recorded routes of a message, each with LF.
fn lesson_of(alloc: Global, message: &View<'_>) -> Result<Vec<u8>, AllocError> {
    let mut lesson = Vec::new(alloc);
    for field in message.fields().as_slice() {
        if is_teaching(field.name()) {
            lesson.extend_from_slice(field.value().as_slice())?;
            lesson.push(b'\n')?;
        }
    }
    Ok(lesson)
}
