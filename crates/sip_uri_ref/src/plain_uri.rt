//! `sip` URIs without parameters and headers whose user, if they have one, is of bytes of a host name: as most are. Of one its
//! text is kept, and where its user and its host stand there, so that each byte is read once and no URI is made.
ghost use Rattle.std.specs.Prelude.{◌≡◌, ◌≤◌, ◌-◌, length, take, drop, Ok, IfOk, IfSome};
ghost use Rattle.sip_uri.specs.Aor as Aors;
ghost use Rattle.sip_uri.specs.Port.{port_number};
ghost use Rattle.sip_uri_ref.specs.PlainUri as Spec;
ghost use Rattle.sip_uri_ref.specs.PlainUri.{IsRefAt, IsBare};
ghost use Rattle.sip_uri.specs.Reading.{reading_of};

use sip_text::{Bytes, Text, lower_case};
use sip_uri::{Aor, Uri, UriError, parse_uri, plain_parts};
use std::alloc::{AllocError, Global};
use std::marker::Model;

/// A plain `sip` URI in its text.
#[derive(Drop)]
pub(crate) struct PlainUri<'a> {
    text: Text<'a>,
    /// How many bytes its user has; 0: it has none.
    user: u16,
    /// How many bytes its host has.
    host: u16,
    port: Option<u16>,
}

impl<'a> Model for PlainUri<'a> {
    ghost use Rattle.sip_uri.specs.declared.uri.Uri.{Uri};
    ghost use Rattle.sip_uri_ref.specs.PlainUri.{uri_said, IsPlainText};

    ghost Value = { Uri };

    ghost view = { λ u. uri_said u.text };

    ghost invariant = { λ u. IsPlainText u.text u.user u.host u.port };
}

/// How many bytes a part has. A text of 64 KiB or more has no plain URI.
#[inline]
fn length_of(part: &[u8]) -> Option<u16>
    ensures { IfSome result (λ n. n ≡ length part.now) }
{
    u16::try_from(part.len()).ok()
}

/// What stands in a text before its rest, and the rest.
#[inline]
fn cut_before<'v>(text: &'v [u8], rest: &[u8]) -> (&'v [u8], &'v [u8])
    requires { length rest.now ≤ length text.now }
    ensures front { result.0.now ≡ take (length text.now - length rest.now) text.now }
    ensures rest { result.1.now ≡ drop (length text.now - length rest.now) text.now }
{
    text.split_at(text.len() - rest.len())
}

/// Where the host begins, by how many bytes the user has.
#[inline]
fn host_begins(user: u16) -> usize
    ensures { result ≡ Spec.host_begins user }
{
    if user == 0 { 4 } else { usize::from(user) + 5 }
}

impl<'a> PlainUri<'a> {
    /// The one at the front of a text, and what follows it. None says nothing. Takes no memory.
    #[inline]
    pub(crate) fn at(text: &'a [u8]) -> Option<(Self, &'a [u8])>
        ensures { IfSome result (λ x. IsRefAt text.now x.0 x.1.now) }
    {
        let (user, host, port, rest) = plain_parts(text)?;
        let user = length_of(user)?;
        let host = length_of(host)?;
        let (uri, rest) = cut_before(text, rest);
        let text = Text::new(uri);
        Some((
            PlainUri {
                text,
                user,
                host,
                port,
            },
            rest,
        ))
    }

    /// The one that a text is. None says nothing. Takes no memory.
    #[inline]
    pub(crate) fn of(text: &'a [u8]) -> Option<Self>
        ensures { IfSome result (λ uri. reading_of text.now ≡ Ok uri) }
    {
        let (uri, behind) = PlainUri::at(text)?;
        if !behind.is_empty() {
            return None;
        }
        Some(uri)
    }

    /// Its user without escapes, of which it has none; empty where it has no user.
    #[inline]
    fn user(&self) -> &'a [u8]
        ensures { result.now ≡ Aors.user_named self.now.userinfo }
    {
        &self.text.as_slice()[4..][..usize::from(self.user)]
    }

    /// Its host. Takes no memory.
    #[inline]
    pub(crate) fn host(&self) -> &'a [u8]
        ensures { result.now ≡ self.now.host }
    {
        &self.text.as_slice()[host_begins(self.user)..][..usize::from(self.host)]
    }

    /// The number of its port, if one is written. Takes no memory.
    #[inline]
    pub(crate) fn port(&self) -> Option<u16>
        ensures number { result ≡ port_number self.now.port }
        ensures bare { IsBare self.now }
    {
        self.port
    }

    /// The address of record that it names (RFC 3261 10.3 step 5).
    pub(crate) fn aor(&self, alloc: Global) -> Result<Aor, AllocError>
        ensures { IfOk result (λ aor. aor ≡ Aors.aor_of self.now) }
    {
        let user = Bytes::copy(alloc, self.user())?;
        let host = lower_case(alloc, self.host())?;
        Ok(Aor { user, host })
    }

    /// It, made.
    pub(crate) fn to_uri(&self, alloc: Global) -> Result<Uri, AllocError>
        ensures { IfOk result (λ uri. uri ≡ self.now) }
    {
        match parse_uri(alloc, self.text.as_slice()) {
            Ok(uri) => Ok(uri),
            Err(UriError::NoMemory | UriError::Scheme | UriError::Syntax) => Err(AllocError),
        }
    }
}
