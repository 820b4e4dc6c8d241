//! SIP and SIPS URIs lent by who read them, so that each is read once: its host, its port and its address of record are asked of it.
ghost use Rattle.std.specs.Prelude.{◌≡◌, IfOk, IfSome, Ok, is_some, false};
ghost use Rattle.std.specs.Result.{result_ok};
ghost use Rattle.sip_uri.specs.Aor as Aors;
ghost use Rattle.sip_uri.specs.Port.{port_number};
ghost use Rattle.sip_uri_ref.specs.PlainUri.{IsRefAt, IsBare};
ghost use Rattle.sip_uri.specs.Reading.{reading_of};

use crate::plain_uri::PlainUri;
use crate::uri_form::UriForm;
use sip_uri::{Aor, Uri, aor_of, uri_in};
use std::alloc::{AllocError, Global};
use std::marker::Model;

/// A SIP or SIPS URI (RFC 3261 19.1.1) as it was read: of one of the plainest form, as most are, no URI is made, but its text is
/// kept, with where its user and its host stand there.
#[derive(Drop)]
pub struct UriRef<'a> {
    form: UriForm<'a>,
}

impl<'a> Model for UriRef<'a> {
    ghost use Rattle.sip_uri.specs.declared.uri.Uri.{Uri};
    ghost use Rattle.sip_uri_ref.specs.UriForm.{form_seen};

    ghost Value = { Uri };

    ghost view = { λ u. form_seen u.form };
}

/// What is read of a text of any form. It stands apart, so that no room is made for a URI where none is read.
#[inline(never)]
fn read_any<'v>(alloc: Global, text: &[u8]) -> Result<Option<UriRef<'v>>, AllocError>
    ensures { IfOk result (λ uri. uri ≡ result_ok (reading_of text.now)) }
{
    match uri_in(alloc, text)? {
        Some(uri) => Ok(Some(UriRef::made(alloc, uri)?)),
        None => Ok(None),
    }
}

fn copied(uri: &Uri) -> Result<Uri, AllocError>
    ensures { IfOk result (λ copy. copy ≡ uri.now) }
{
    uri.clone()
}

impl<'a> UriRef<'a> {
    /// The plain one at the front of a text, and what follows it: a `sip` URI without parameters and headers whose user, if it
    /// has one, is of bytes of a host name, so that each byte is read once. None says nothing. Takes no memory.
    #[inline]
    pub fn plain_at(text: &'a [u8]) -> Option<(Self, &'a [u8])>
        ensures { IfSome result (λ x. IsRefAt text.now x.0 x.1.now) }
    {
        let (uri, rest) = PlainUri::at(text)?;
        Some((
            UriRef {
                form: UriForm::Plain(uri),
            },
            rest,
        ))
    }

    /// The plain one that a text is. None says nothing. Takes no memory.
    #[inline]
    pub fn plain_of(text: &'a [u8]) -> Option<Self>
        ensures says { IfSome result (λ uri. reading_of text.now ≡ Ok uri) }
        ensures bare { IfSome result (λ uri. IsBare uri) }
    {
        let uri = PlainUri::of(text)?;
        let _port = uri.port();
        Some(UriRef {
            form: UriForm::Plain(uri),
        })
    }

    /// The one that a text writes, of any form; None where it writes none. `AllocError` is the only refusal.
    #[inline]
    pub fn of(alloc: Global, text: &'a [u8]) -> Result<Option<Self>, AllocError>
        ensures { IfOk result (λ uri. uri ≡ result_ok (reading_of text.now)) }
    {
        match UriRef::plain_of(text) {
            Some(uri) => Ok(Some(uri)),
            None => read_any(alloc, text),
        }
    }

    /// One that was made. `AllocError` is the only refusal.
    pub fn made(alloc: Global, uri: Uri) -> Result<Self, AllocError>
        ensures { IfOk result (λ made. made ≡ uri) }
    {
        let uri = Box::new(alloc, uri)?;
        Ok(UriRef {
            form: UriForm::Made(uri),
        })
    }

    /// The URI that was made; None where it is of the plainest form. Takes no memory.
    #[inline]
    pub fn as_made(&self) -> Option<&Uri>
        ensures made { IfSome result (λ uri. uri.now ≡ self.now) }
        ensures plain { is_some result ≡ false → IsBare self.now }
    {
        match &self.form {
            UriForm::Plain(uri) => {
                let _port = uri.port();
                None
            }
            UriForm::Made(uri) => Some(uri),
        }
    }

    /// Its host. Takes no memory.
    #[inline]
    pub fn host(&self) -> &[u8]
        ensures { result.now ≡ self.now.host }
    {
        match &self.form {
            UriForm::Plain(uri) => uri.host(),
            UriForm::Made(uri) => uri.host.as_slice(),
        }
    }

    /// The number of its port, if one is written. Takes no memory.
    #[inline]
    pub fn port(&self) -> Option<u16>
        ensures { result ≡ port_number self.now.port }
    {
        match &self.form {
            UriForm::Plain(uri) => uri.port(),
            UriForm::Made(uri) => uri.port_number(),
        }
    }

    /// The address of record that it names (RFC 3261 10.3 step 5). `AllocError` is the only refusal.
    pub fn aor(&self, alloc: Global) -> Result<Aor, AllocError>
        ensures { IfOk result (λ aor. aor ≡ Aors.aor_of self.now) }
    {
        match &self.form {
            UriForm::Plain(uri) => uri.aor(alloc),
            UriForm::Made(uri) => aor_of(alloc, uri),
        }
    }

    /// It, made or copied. `AllocError` is the only refusal.
    pub fn to_uri(&self, alloc: Global) -> Result<Uri, AllocError>
        ensures { IfOk result (λ uri. uri ≡ self.now) }
    {
        match &self.form {
            UriForm::Plain(uri) => uri.to_uri(alloc),
            UriForm::Made(uri) => copied(uri),
        }
    }
}
