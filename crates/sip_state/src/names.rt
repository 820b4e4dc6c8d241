//! Call-ID and tags of a request, and the dialogs that it and its answers name by them (RFC 3261 12.1.1, 12.2.2).
ghost use Rattle.std.specs.Prelude.{◌≡◌, IfOk, is_some, []};
ghost use Rattle.std.specs.Option.{unwrap_or};
ghost use Rattle.sip_header.specs.Parameters as Tags;
ghost use Rattle.sip_state.specs.Names as Spec;

use sip_base::Shared;
use sip_dialog::DialogId;
use sip_header::{CoreFields, HeaderError, Parameters, core_of, tag_of};
use sip_message_form::View;
use sip_text::Bytes;
use std::alloc::{AllocError, Global};

/// What names the dialogs of a request (RFC 3261 12). Each of them shares its Call-ID and its From tag.
pub struct DialogNames {
    pub call_id: Shared<Bytes>,
    /// Empty where From has no tag.
    pub from_tag: Shared<Bytes>,
    pub to_tag: Option<Bytes>,
}

/// Written out, so that it is proved once and not wherever names are dropped.
impl Drop for DialogNames {
    fn drop(self) {
        let DialogNames {
            call_id: _,
            from_tag: _,
            to_tag: _,
        } = self;
    }
}

/// The tag of From, or an empty one.
fn from_tag(alloc: Global, parameters: &Parameters<'_>) -> Result<Bytes, AllocError>
    ensures { IfOk result (λ tag. tag ≡ unwrap_or (Tags.tag_of parameters.now) []) }
{
    match tag_of(parameters) {
        Some(tag) => Bytes::copy(alloc, tag),
        None => Ok(Bytes::new(alloc)),
    }
}

/// The tag of To, if there is one.
fn to_tag(alloc: Global, parameters: &Parameters<'_>) -> Result<Option<Bytes>, AllocError>
    ensures { IfOk result (λ tag. tag ≡ Tags.tag_of parameters.now) }
{
    match tag_of(parameters) {
        Some(tag) => Ok(Some(Bytes::copy(alloc, tag)?)),
        None => Ok(None),
    }
}

impl DialogNames {
    /// What the core fields of a request say of its dialogs. `AllocError` is the only refusal.
    pub fn of(alloc: Global, core: &CoreFields<'_>) -> Result<Self, AllocError>
        ensures { IfOk result (λ names. names ≡ Spec.names_of core.now) }
    {
        let call_id = Shared::new(alloc, Bytes::copy(alloc, core.call_id.as_slice())?)?;
        let from_tag = Shared::new(alloc, from_tag(alloc, core.from.parameters())?)?;
        let to_tag = to_tag(alloc, core.to.parameters())?;
        Ok(DialogNames {
            call_id,
            from_tag,
            to_tag,
        })
    }

    /// What a request says of its dialogs that names this one: they share its Call-ID and its From tag. `AllocError` is the
    /// only refusal.
    pub fn of_dialog(alloc: Global, id: &DialogId) -> Result<Self, AllocError>
        ensures { IfOk result (λ names. names ≡ Spec.names_within id.now) }
    {
        let call_id = id.call_id.clone()?;
        let from_tag = id.from_tag.clone()?;
        let to_tag = Bytes::copy(alloc, id.to_tag.as_slice())?;
        Ok(DialogNames {
            call_id,
            from_tag,
            to_tag: Some(to_tag),
        })
    }
}

/// What names the dialogs of a request, if its core fields are read.
/// It is there for what is kept of a request that is answered here, of which no step asks it.
pub(crate) fn names_in(alloc: Global, request: &View<'_>) -> Result<Option<DialogNames>, AllocError>
    ensures { IfOk result (λ names. names ≡ Spec.names_in request.now) }
{
    match core_of(alloc, request) {
        Ok(core) => Ok(Some(DialogNames::of(alloc, &core)?)),
        Err(HeaderError::NoMemory) => Err(AllocError),
        Err(_) => Ok(None),
    }
}

/// The same, where they may have been made before.
pub(crate) fn names_by(
    alloc: Global,
    request: &View<'_>,
    made: Option<DialogNames>,
) -> Result<Option<DialogNames>, AllocError>
    requires { Spec.AreNames request.now made }
    ensures { IfOk result (λ names. names ≡ Spec.names_in request.now) }
{
    match made {
        Some(names) => Ok(Some(names)),
        None => names_in(alloc, request),
    }
}

/// The dialog with a tag of To.
fn id_to(alloc: Global, names: &DialogNames, to_tag: &[u8]) -> Result<DialogId, AllocError>
    ensures { IfOk result (λ id. id ≡ record { call_id = names.now.call_id; from_tag = names.now.from_tag; to_tag = to_tag.now }) }
{
    let call_id = names.call_id.clone()?;
    let from_tag = names.from_tag.clone()?;
    let to_tag = Bytes::copy(alloc, to_tag)?;
    Ok(DialogId {
        call_id,
        from_tag,
        to_tag,
    })
}

/// Whether the request names a dialog.
pub(crate) fn names_dialog(names: &Option<DialogNames>) -> bool
    ensures { result ≡ is_some (Spec.dialog_by names.now) }
{
    match names {
        Some(names) => names.to_tag.is_some(),
        None => false,
    }
}

/// The dialog that the request names, if its To has a tag.
pub(crate) fn dialog_by(
    alloc: Global,
    names: &Option<DialogNames>,
) -> Result<Option<DialogId>, AllocError>
    ensures { IfOk result (λ id. id ≡ Spec.dialog_by names.now) }
{
    let Some(names) = names else {
        return Ok(None);
    };
    match &names.to_tag {
        Some(to_tag) => Ok(Some(id_to(alloc, names, to_tag.as_slice())?)),
        None => Ok(None),
    }
}

/// The dialog that an answer with a tag of To names.
pub(crate) fn dialog_to(
    alloc: Global,
    names: &Option<DialogNames>,
    to_tag: &[u8],
) -> Result<Option<DialogId>, AllocError>
    ensures { IfOk result (λ id. id ≡ Spec.dialog_to to_tag.now names.now) }
{
    match names {
        Some(names) => Ok(Some(id_to(alloc, names, to_tag)?)),
        None => Ok(None),
    }
}
