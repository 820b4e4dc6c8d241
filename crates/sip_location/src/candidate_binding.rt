//! A binding while a REGISTER is planned (RFC 3261 10.3 step 7), told from others by its URI. What is kept of it is a
//! `BindingRow`.
ghost use Rattle.std.specs.Prelude.{◌≡◌, ◌+◌, ◌*◌, ◌<◌, ◌≤◌, ◌^◌, IfOk};
ghost use Rattle.sip_uri.specs.Uri.{IsValid};
ghost use Rattle.sip_location.specs.KeptBinding.{binding_of, kept_of};
ghost use Rattle.sip_location.specs.Registration as Definitions;

use crate::registration::Registration;
use crate::row::BindingRow;
use sip_uri::{Aor, write_uri};
use sip_uri_equality::Ordered;
use std::alloc::{AllocError, Global};
use std::marker::Model;

/// A binding that an address of record may have after a REGISTER, of which all is lent: one that it has, or one that is
/// asked for.
#[derive(Drop)]
pub(crate) struct CandidateBinding<'a> {
    aor: &'a Aor,
    uri: Ordered<'a>,
    /// The text of the URI, of one that is kept.
    text: Option<&'a [u8]>,
    call_id: &'a [u8],
    cseq: u32,
    expires_at: u64,
}

impl<'a> Model for CandidateBinding<'a> {
    ghost use Rattle.std.specs.Prelude.{option_map};
    ghost use Rattle.sip_location.specs.declared.binding.Binding.{Binding};
    ghost use Rattle.sip_location.specs.KeptBinding.{IsWithText};

    ghost Value = { Binding };

    ghost view = { λ c. record { aor = c.aor.now; uri = c.uri; call_id = c.call_id.now; cseq = c.cseq; expires_at = c.expires_at } };

    ghost invariant = { λ c. IsWithText c.uri (option_map (λ t. t.now) c.text) };
}

impl<'a> CandidateBinding<'a> {
    /// One that is kept, whose URI was read.
    pub(crate) fn kept(aor: &'a Aor, row: &'a BindingRow, uri: Ordered<'a>) -> Self
        requires read { uri ≡ row.now.uri }
        requires valid { IsValid uri }
        ensures { result ≡ binding_of aor.now row.now }
    {
        CandidateBinding {
            aor,
            uri,
            text: Some(row.uri_text()),
            call_id: row.call_id(),
            cseq: row.cseq(),
            expires_at: row.expires_at(),
        }
    }

    /// One that is asked for.
    pub(crate) fn bound(
        request: &'a Registration<'_>,
        now: u64,
        uri: Ordered<'a>,
        seconds: u64,
    ) -> Self
        requires valid { IsValid uri }
        requires now { now < 2 ^ 62 }
        requires small { seconds ≤ 86400 }
        ensures { result ≡ Definitions.bound request.now now uri.entry seconds }
    {
        CandidateBinding {
            aor: &request.aor,
            uri,
            text: None,
            call_id: request.call_id.as_slice(),
            cseq: request.cseq,
            expires_at: now + 1000 * seconds,
        }
    }

    /// Its URI, put in order for all that it is compared with.
    pub(crate) fn uri(&self) -> &Ordered<'a>
        ensures { result.now ≡ self.now.uri }
    {
        &self.uri
    }

    /// The Call-ID of the REGISTER that made it, or asks for it.
    pub(crate) fn call_id(&self) -> &'a [u8]
        ensures { result.now ≡ self.now.call_id }
    {
        self.call_id
    }

    /// The number of that REGISTER's CSeq.
    pub(crate) fn cseq(&self) -> u32
        ensures { result ≡ self.now.cseq }
    {
        self.cseq
    }

    /// What is kept of it: the text of a URI is written but once.
    pub(crate) fn row(&self, alloc: Global) -> Result<BindingRow, AllocError>
        ensures { IfOk result (λ row. row ≡ kept_of self.now) }
    {
        match self.text {
            Some(text) => BindingRow::new(alloc, text, self.call_id, self.cseq, self.expires_at),
            None => {
                let text = write_uri(alloc, self.uri.uri())?;
                BindingRow::new(
                    alloc,
                    text.as_slice(),
                    self.call_id,
                    self.cseq,
                    self.expires_at,
                )
            }
        }
    }
}
