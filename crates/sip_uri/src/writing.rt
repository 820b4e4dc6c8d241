//! The text of a URI written (RFC 3261 19.1.1), in one piece of memory of its length.
ghost use Rattle.std.specs.Prelude.{◌≡◌, ◌++◌, ◌∷◌, IfOk, OnOk};
ghost use Rattle.std.specs.List.{flat_map};
ghost use Rattle.sip_uri.specs.Uri.{behind_mark, userinfo_text, parameter_text, header_text, headers_text, rest_text, text_of};

use crate::headers::UriHeader;
use crate::parameters::UriParameter;
use crate::uri::Uri;
use crate::user::UserInfo;
use sip_text::Bytes;
use std::alloc::{AllocError, Global};

/// Adds a text behind a byte, if there is one.
fn write_behind(out: &mut Bytes, mark: u8, text: &Option<Bytes>) -> Result<(), AllocError>
    ensures { OnOk result (out.new ≡ out.old ++ behind_mark mark text.now) }
{
    if let Some(text) = text {
        out.push(mark)?;
        out.extend(text.as_slice())?;
    }
    Ok(())
}

fn write_userinfo(out: &mut Bytes, userinfo: &Option<UserInfo>) -> Result<(), AllocError>
    ensures { OnOk result (out.new ≡ out.old ++ userinfo_text userinfo.now) }
{
    if let Some(userinfo) = userinfo {
        out.extend(userinfo.user.as_slice())?;
        write_behind(out, b':', &userinfo.password)?;
        out.extend(b"@")?;
    }
    Ok(())
}

fn write_parameter(out: &mut Bytes, parameter: &UriParameter) -> Result<(), AllocError>
    ensures { OnOk result (out.new ≡ out.old ++ parameter_text parameter.now) }
{
    out.push(b';')?;
    out.extend(parameter.name.as_slice())?;
    write_behind(out, b'=', &parameter.value)
}

fn write_parameters(out: &mut Bytes, parameters: &[UriParameter]) -> Result<(), AllocError>
    ensures { OnOk result (out.new ≡ out.old ++ flat_map parameter_text parameters.now) }
{
    for parameter in parameters {
        write_parameter(out, parameter)?;
    }
    Ok(())
}

/// Adds a header behind its `?` or `&`.
fn write_header(out: &mut Bytes, mark: u8, header: &UriHeader) -> Result<(), AllocError>
    ensures { OnOk result (out.new ≡ out.old ++ mark ∷ header_text header.now) }
{
    out.push(mark)?;
    out.extend(header.name.as_slice())?;
    out.push(b'=')?;
    out.extend(header.value.as_slice())
}

fn write_other_headers(out: &mut Bytes, headers: &[UriHeader]) -> Result<(), AllocError>
    ensures { OnOk result (out.new ≡ out.old ++ flat_map (λ h. 38 ∷ header_text h) headers.now) }
{
    for header in headers {
        write_header(out, b'&', header)?;
    }
    Ok(())
}

fn write_headers(out: &mut Bytes, headers: &[UriHeader]) -> Result<(), AllocError>
    ensures { OnOk result (out.new ≡ out.old ++ headers_text headers.now) }
{
    let Some((first, others)) = headers.split_first() else {
        return Ok(());
    };
    write_header(out, b'?', first)?;
    write_other_headers(out, others)
}

/// Adds what stands behind the scheme's `:`.
fn write_rest(out: &mut Bytes, uri: &Uri) -> Result<(), AllocError>
    ensures { OnOk result (out.new ≡ out.old ++ rest_text uri.now) }
{
    write_userinfo(out, &uri.userinfo)?;
    out.extend(uri.host.as_slice())?;
    write_behind(out, b':', &uri.port)?;
    write_parameters(out, uri.parameters.as_slice())?;
    write_headers(out, uri.headers.as_slice())
}

/// The bytes of a text behind a byte, if there is one.
fn room_behind(text: &Option<Bytes>) -> usize {
    match text {
        Some(text) => text.as_slice().len().saturating_add(1),
        None => 0,
    }
}

fn userinfo_room(userinfo: &Option<UserInfo>) -> usize {
    match userinfo {
        Some(userinfo) => userinfo
            .user
            .as_slice()
            .len()
            .saturating_add(room_behind(&userinfo.password))
            .saturating_add(1),
        None => 0,
    }
}

fn parameters_room(parameters: &[UriParameter]) -> usize {
    let mut room = 0usize;
    for parameter in parameters {
        room = room
            .saturating_add(parameter.name.as_slice().len())
            .saturating_add(room_behind(&parameter.value))
            .saturating_add(1);
    }
    room
}

fn headers_room(headers: &[UriHeader]) -> usize {
    let mut room = 0usize;
    for header in headers {
        room = room
            .saturating_add(header.name.as_slice().len())
            .saturating_add(header.value.as_slice().len())
            .saturating_add(2);
    }
    room
}

/// The bytes that the text of a URI takes, so that it is written without growing.
fn room_for(uri: &Uri) -> usize {
    uri.scheme
        .text()
        .len()
        .saturating_add(userinfo_room(&uri.userinfo))
        .saturating_add(uri.host.as_slice().len())
        .saturating_add(room_behind(&uri.port))
        .saturating_add(parameters_room(uri.parameters.as_slice()))
        .saturating_add(headers_room(uri.headers.as_slice()))
        .saturating_add(1)
}

/// The text of a URI: its scheme in lower case, all else as it is kept (RFC 3261 19.1.1).
pub fn write_uri(alloc: Global, uri: &Uri) -> Result<Bytes, AllocError>
    ensures { IfOk result (λ text. text ≡ text_of uri.now) }
{
    let mut out = Bytes::with_room(alloc, room_for(uri))?;
    out.extend(uri.scheme.text())?;
    out.push(b':')?;
    write_rest(&mut out, uri)?;
    Ok(out)
}
