//! From, To, Call-ID and CSeq of a message read together, each of which stands once (RFC 3261 8.1.1).
//! Via and Max-Forwards, which a request needs too, are read apart.
ghost use Rattle.sip_header.specs.CoreFields.{Gives, core_in, core_of};
ghost use Rattle.sip_header.specs.Found.{value_in, address_in, call_id_found, cseq_found};

use crate::core_values::{Found, core_values};
use crate::cseq::{CSeq, cseq_of};
use crate::error::HeaderError;
use crate::written_address::{WrittenAddress, written_address_of};
use sip_message_form::View;
use sip_message_form::fields::{FieldName, ViewFields};
use sip_text::Text;
use std::alloc::Global;

/// The fields that every message needs (RFC 3261 8.1.1).
pub struct CoreFields<'a> {
    pub from: WrittenAddress<'a>,
    pub to: WrittenAddress<'a>,
    /// Not empty.
    pub call_id: Text<'a>,
    pub cseq: CSeq<'a>,
}

/// Written out, so that it is proved once and not wherever these fields are dropped.
impl<'a> Drop for CoreFields<'a> {
    fn drop(self) {
        let CoreFields {
            from: _,
            to: _,
            call_id: _,
            cseq: _,
        } = self;
    }
}

/// The one value of a field.
fn the_one<'v>(found: &Found<'v>, name: FieldName) -> Result<&'v [u8], HeaderError>
    ensures { Gives (λ x. x.now) result (value_in name found.now) }
{
    match found {
        Found::Nowhere => Err(HeaderError::Missing(name)),
        Found::Once(value) => Ok(value.as_slice()),
        Found::Again => Err(HeaderError::Malformed(name)),
    }
}

/// What the one From or To says.
fn name_addr_in<'v>(
    alloc: Global,
    found: &Found<'v>,
    name: FieldName,
) -> Result<WrittenAddress<'v>, HeaderError>
    ensures { Gives (λ address. address) result (address_in name found.now) }
{
    match found {
        Found::Nowhere => Err(HeaderError::Missing(name)),
        Found::Again => Err(HeaderError::Malformed(name)),
        Found::Once(value) => match written_address_of(alloc, value.as_slice())? {
            Some(address) => Ok(address),
            None => Err(HeaderError::Malformed(name)),
        },
    }
}

/// The one Call-ID.
fn call_id_in<'v>(found: &Found<'v>) -> Result<Text<'v>, HeaderError>
    ensures { Gives (λ call_id. call_id) result (call_id_found found.now) }
{
    let value = the_one(found, FieldName::CallId)?;
    if value.is_empty() {
        return Err(HeaderError::Malformed(FieldName::CallId));
    }
    Ok(Text::new(value))
}

/// What the one CSeq says. It stands apart: read among the other fields, each of its digits takes two instructions more.
#[inline(never)]
fn cseq_in<'v>(found: &Found<'v>) -> Result<CSeq<'v>, HeaderError>
    ensures { Gives (λ cseq. cseq) result (cseq_found found.now) }
{
    let value = the_one(found, FieldName::CSeq)?;
    cseq_of(value).ok_or(HeaderError::Malformed(FieldName::CSeq))
}

#[tactic(auto, using(crate::proofs::FoundValues::value_is), unfolding(crate::specs::CoreFields::core_in))]
fn read_core<'v>(alloc: Global, fields: &'v ViewFields<'_>) -> Result<CoreFields<'v>, HeaderError>
    ensures { Gives (λ core. core) result (core_in fields.now) }
{
    let found = core_values(fields.as_slice());
    let from = name_addr_in(alloc, &found.from, FieldName::From)?;
    let to = name_addr_in(alloc, &found.to, FieldName::To)?;
    let call_id = call_id_in(&found.call_id)?;
    let cseq = cseq_in(&found.cseq)?;
    Ok(CoreFields {
        from,
        to,
        call_id,
        cseq,
    })
}

/// What From, To, Call-ID and CSeq of a message say. Missing or Malformed names the first of these that is
/// missing, or that is repeated or malformed. A Call-ID isn't empty.
pub fn core_of<'v>(alloc: Global, message: &'v View<'_>) -> Result<CoreFields<'v>, HeaderError>
    ensures { Gives (λ core. core) result (core_of message.now) }
{
    read_core(alloc, message.fields())
}
