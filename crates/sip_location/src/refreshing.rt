//! A REGISTER that asks for the one binding again that its address of record has, as most do: a binding is refreshed before
//! it expires (RFC 3261 10.2.4). Its Contact has the text that is kept, which is known to be a URI's, so neither of them is read: of
//! the Contact only the parameters behind its brackets are.
ghost use Rattle.std.specs.Prelude.{◌≡◌, ◌<◌, ◌≤◌, ◌^◌, ◌∷◌, [], true, None, IfOk, IfSome};
ghost use Rattle.std.specs.Str.{byte};
ghost use Rattle.sip_text.specs.Splits.{split_at_byte};
ghost use Rattle.sip_uri.specs.Uri.{text_of};
ghost use Rattle.sip_location.specs.KeptBinding.{binding_of, IsUriText};
ghost use Rattle.sip_location.specs.Newer as Newer;
ghost use Rattle.sip_location.specs.Refreshing.{asked_by, semicolons, IsContactOf, IsAskedAgain, IsMade};

use crate::interval::{MINUTE, granted, own_or};
use crate::read_binding::is_live_row;
use crate::registration::Refresh;
use crate::row::BindingRow;
use crate::rows::BindingRows;
use sip_header::{Parameters, parameters_behind_bracket, parameters_expires};
use sip_text::{same_bytes, split_once};
use std::alloc::{AllocError, Global};

/// The row of the only binding that is kept.
fn only_row(rows: &[BindingRow]) -> Option<&BindingRow>
    ensures { IfSome result (λ row. rows.now ≡ row.now ∷ []) }
{
    let (row, others) = rows.split_first()?;
    if others.is_empty() { Some(row) } else { None }
}

/// Whether no `;` stands in a text.
fn has_no_semicolon(text: &[u8]) -> bool
    ensures { result ≡ true → split_at_byte (byte ";") text.now ≡ None }
{
    split_once(text, b';').is_none()
}

/// Whether at most one `;` stands in a text, so that a URI of this text has at most one parameter, and equals itself. `false` says
/// nothing.
fn has_few_semicolons(text: &[u8]) -> bool
    ensures { result ≡ true → semicolons text.now ≤ 1 }
{
    match split_once(text, b';') {
        Some((_, rest)) => has_no_semicolon(rest),
        None => true,
    }
}

/// The parameters behind the brackets of the value of a Contact in which this text of a URI stands, if that URI equals itself. None
/// says nothing.
fn behind_contact_of<'v>(value: &'v [u8], text: &[u8]) -> Option<Parameters<'v>>
    requires { IsUriText text.now }
    ensures { IfSome result (λ parameters. IsContactOf value.now text.now parameters) }
{
    let Some((b'<', rest)) = value.split_first() else {
        return None;
    };
    if rest.len() < text.len() {
        return None;
    }
    let (uri, end) = rest.split_at(text.len());
    if !same_bytes(uri, text) {
        return None;
    }
    let Some((b'>', behind)) = end.split_first() else {
        return None;
    };
    if !has_few_semicolons(text) {
        return None;
    }
    let parameters = parameters_behind_bracket(behind)?;
    Some(parameters)
}

/// Whether a binding was made in the same Call-ID by a CSeq that isn't lower.
fn is_of_call(row: &BindingRow, request: &Refresh<'_>) -> bool
    ensures { result ≡ Newer.is_of_call (asked_by request.now) (binding_of request.now.aor.now row.now) }
{
    same_bytes(row.call_id(), request.call_id) && request.cseq <= row.cseq()
}

/// For how many seconds a REGISTER asks for a binding again, if it does. None says nothing.
fn asked_again(request: &Refresh<'_>, row: &BindingRow, now: u64) -> Option<u64>
    ensures asked { IfSome result (IsAskedAgain (asked_by request.now) request.now.contact.now (text_of row.now.uri)
        (binding_of request.now.aor.now row.now) now) }
    ensures small { IfSome result (λ seconds. seconds ≤ 86400) }
{
    if !is_live_row(row, now) {
        return None;
    }
    if is_of_call(row, request) {
        return None;
    }
    let parameters = behind_contact_of(request.contact, row.uri_text())?;
    let seconds = granted(own_or(parameters_expires(&parameters), request.expires));
    if seconds < MINUTE {
        return None;
    }
    Some(seconds)
}

/// What is to be kept of an address of record whose only binding is asked for again. None says nothing.
pub(crate) fn refreshed(
    alloc: Global,
    rows: &[BindingRow],
    request: &Refresh<'_>,
    now: u64,
) -> Result<Option<BindingRows>, AllocError>
    requires { now < 2 ^ 62 }
    ensures { IfOk result (λ made. IfSome made (IsMade rows.now (asked_by request.now) now)) }
{
    let Some(row) = only_row(rows) else {
        return Ok(None);
    };
    let Some(seconds) = asked_again(request, row, now) else {
        return Ok(None);
    };
    let expires_at = now + 1000 * seconds;
    let text = row.uri_text();
    let row = BindingRow::new(alloc, text, request.call_id, request.cseq, expires_at)?;
    Ok(Some(BindingRows::one(alloc, row)?))
}
