//! What a datagram asked for, and how it proved that.
ghost use Rattle.std.specs.Prelude.{◌≡◌, ◌&&◌, not, IfOk};
ghost use Rattle.sipd_sources.specs.Asked as Definitions;
ghost use Rattle.sipd_sources.specs.Claims as Claims;

use crate::claims::{answers_stale, given_in};
use sip_audit::{AuditOperation, Record};
use sip_event::{Packet, StepOut};
use sip_text::Bytes;
use sipd_report::is_challenge;
use std::alloc::{AllocError, Global};

/// What came of a datagram: whether it was asked for a credential, was proven by one, and gave a wrong one, and which name it tried, if it
/// tried one.
pub(crate) struct Asked {
    pub challenged: bool,
    pub proven: bool,
    pub wrong: bool,
    pub name: Option<Bytes>,
}

/// Written out, so that it is proved once and not wherever one is dropped.
impl Drop for Asked {
    fn drop(self) {
        let Asked {
            challenged: _,
            proven: _,
            wrong: _,
            name: _,
        } = self;
    }
}

/// Nothing.
fn nothing() -> Asked
    ensures { result ≡ Definitions.nothing }
{
    Asked {
        challenged: false,
        proven: false,
        wrong: false,
        name: None,
    }
}

fn is_registration(operation: AuditOperation) -> bool
    ensures { result ≡ Definitions.is_registration operation }
{
    match operation {
        AuditOperation::Register => true,
        AuditOperation::List => true,
        AuditOperation::Send => false,
    }
}

/// The user whom a REGISTER names.
fn registered(record: &Record) -> Result<Option<Bytes>, AllocError>
    ensures { IfOk result (λ name. name ≡ Definitions.registered record.now) }
{
    if is_registration(record.operation) {
        return Ok(Some(record.target.user.clone()?));
    }
    Ok(None)
}

/// The name that a request tried: that of its credentials, or else whom it names as a REGISTER.
fn name_by(given: Option<Option<Bytes>>, record: &Record) -> Result<Option<Bytes>, AllocError>
    ensures { IfOk result (λ name. name ≡ Definitions.name_by given record.now) }
{
    match given {
        Some(Some(name)) => Ok(Some(name)),
        Some(None) => registered(record),
        None => registered(record),
    }
}

/// Whether credentials were wrong that a request gave: it was challenged, and not since their nonce alone was.
fn is_wrong(
    alloc: Global,
    challenged: bool,
    given: bool,
    packets: &[Packet],
) -> Result<bool, AllocError>
    ensures { IfOk result (λ is. is ≡ (challenged && given && not (Claims.answers_stale packets.now))) }
{
    if !challenged {
        return Ok(false);
    }
    if !given {
        return Ok(false);
    }
    let stale = answers_stale(alloc, packets)?;
    Ok(!stale)
}

/// What came of a datagram of which policy was asked.
fn asked_by(
    alloc: Global,
    realm: &[u8],
    bytes: &[u8],
    packets: &[Packet],
    record: &Record,
) -> Result<Asked, AllocError>
    ensures { IfOk result (λ asked. asked ≡ Definitions.asked_by realm.now bytes.now packets.now record.now) }
{
    let given = given_in(alloc, realm, bytes)?;
    let challenged = is_challenge(record.outcome);
    let wrong = is_wrong(alloc, challenged, given.is_some(), packets)?;
    let name = name_by(given, record)?;
    Ok(Asked {
        challenged,
        proven: record.who.is_some(),
        wrong,
        name,
    })
}

/// What came of a datagram, by what its step recorded.
fn asked_with(
    alloc: Global,
    realm: &[u8],
    bytes: &[u8],
    packets: &[Packet],
    records: &[Record],
) -> Result<Asked, AllocError>
    ensures { IfOk result (λ asked. asked ≡ Definitions.asked_with realm.now bytes.now packets.now records.now) }
{
    match records.split_first() {
        Some((record, _)) => asked_by(alloc, realm, bytes, packets, record),
        None => Ok(nothing()),
    }
}

/// The same, by what its step put out.
pub(crate) fn asked_in(
    alloc: Global,
    realm: &[u8],
    bytes: &[u8],
    out: &StepOut,
) -> Result<Asked, AllocError>
    ensures { IfOk result (λ asked. asked ≡ Definitions.asked_with realm.now bytes.now out.now.packets out.now.records) }
{
    asked_with(
        alloc,
        realm,
        bytes,
        out.packets.as_slice(),
        out.records.as_slice(),
    )
}
