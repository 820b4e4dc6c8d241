//! The Request-URI of a request as checks, policy and targets ask it: its host, its address, its address of record.
//! It is read once; of the plainest, as of most, no URI is made.
ghost use Rattle.std.specs.Prelude.{◌≡◌, is_some, option_map, IfOk};
ghost use Rattle.std.specs.Option.{option_and_then};
ghost use Rattle.std.specs.Result.{result_ok};
ghost use Rattle.sip_uri.specs.Reading.{reading_of};
ghost use Rattle.sip_hops.specs.HostAddress.{address_of};
ghost use Rattle.sip_location.specs.Registering as Naming;

use crate::uri_address::address_in;
use sip_hops::Hops;
use sip_text::Bytes;
use sip_uri::{Addr, Aor, Uri};
use sip_uri_ref::UriRef;
use std::alloc::{AllocError, Global};
use std::marker::Model;

/// The SIP or SIPS URI that a request is for, if its Request-URI is one.
pub struct RequestUri<'a> {
    uri: Option<UriRef<'a>>,
}

/// Written out, so that it is proved once and not wherever one is dropped.
impl<'a> Drop for RequestUri<'a> {
    fn drop(self) {
        let RequestUri { uri: _ } = self;
    }
}

impl<'a> Model for RequestUri<'a> {
    ghost use Rattle.std.specs.Prelude.{Option};
    ghost use Rattle.sip_uri.specs.declared.uri.Uri.{Uri};

    ghost Value = { Option Uri };

    ghost view = { λ r. r.uri };
}

/// What names nobody: in the server no step asks it of what is no URI.
fn nobody(alloc: Global) -> Aor
    ensures { result ≡ Naming.nobody }
{
    Aor {
        user: Bytes::new(alloc),
        host: Bytes::new(alloc),
    }
}

impl<'a> RequestUri<'a> {
    /// That of a request whose Request-URI is this text. `AllocError` is the only refusal.
    #[inline]
    pub fn of(alloc: Global, text: &'a [u8]) -> Result<Self, AllocError>
        ensures { IfOk result (λ uri. uri ≡ result_ok (reading_of text.now)) }
    {
        let uri = UriRef::of(alloc, text)?;
        Ok(RequestUri { uri })
    }

    /// Whether there is one. Takes no memory.
    pub fn is_some(&self) -> bool
        ensures { result ≡ is_some self.now }
    {
        self.uri.is_some()
    }

    /// Its host. Takes no memory.
    pub fn host(&self) -> Option<&[u8]>
        ensures { option_map (λ host. host.now) result ≡ option_map (λ uri. uri.host) self.now }
    {
        match &self.uri {
            Some(uri) => Some(uri.host()),
            None => None,
        }
    }

    /// The address to which a request for it goes, if it has one. Takes no memory.
    pub fn address(&self, hops: &Hops) -> Option<Addr>
        ensures { result ≡ option_and_then (address_of hops.now.addresses) self.now }
    {
        match &self.uri {
            Some(uri) => address_in(uri, hops),
            None => None,
        }
    }

    /// The address of record that it names, or what names nobody. `AllocError` is the only refusal.
    pub fn aor(&self, alloc: Global) -> Result<Aor, AllocError>
        ensures { IfOk result (λ aor. aor ≡ Naming.aor_or_nobody self.now) }
    {
        match &self.uri {
            Some(uri) => uri.aor(alloc),
            None => Ok(nobody(alloc)),
        }
    }

    /// It, made or copied. `AllocError` is the only refusal.
    pub fn to_uri(&self, alloc: Global) -> Result<Option<Uri>, AllocError>
        ensures { IfOk result (λ uri. uri ≡ self.now) }
    {
        match &self.uri {
            Some(uri) => Ok(Some(uri.to_uri(alloc)?)),
            None => Ok(None),
        }
    }
}
