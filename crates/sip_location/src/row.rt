//! A binding as it is kept (RFC 3261 10.3): its URI and its Call-ID in one block of memory, and how it is compared with others.
ghost use Rattle.std.specs.Prelude.{◌≡◌, ◌≤◌, ◌++◌, true, length, take, IfOk};
ghost use Rattle.std.specs.Box.{boxed_slice_items};
ghost use Rattle.sip_uri.specs.Uri.{text_of, IsValid};
ghost use Rattle.sip_location.specs.KeptBinding.{uri_in, kept_in, IsUriText};

use crate::block::joined;
use sip_text::same_bytes;
use sip_uri::{Uri, UriError, parse_uri};
use std::alloc::{AllocError, Global};
use std::boxed::BoxedSlice;
use std::marker::Model;

/// A binding as it is kept under its address of record: in one block of memory the text of its URI, and behind it the
/// Call-ID.
#[derive(Drop)]
pub(crate) struct BindingRow {
    block: BoxedSlice<u8, Global>,
    expires_at: u64,
    uri_length: u32,
    cseq: u32,
}

impl Model for BindingRow {
    ghost use Rattle.std.specs.Prelude.{◌≤◌, length, take};
    ghost use Rattle.std.specs.Box.{boxed_slice_items};
    ghost use Rattle.sip_location.specs.KeptBinding.{KeptBinding, kept_in, IsUriText};

    ghost Value = { KeptBinding };

    ghost view = { λ r. kept_in (boxed_slice_items r.block) r.uri_length r.cseq r.expires_at };

    ghost invariant = { λ r. (r.uri_length ≤ length (boxed_slice_items r.block)) × IsUriText (take r.uri_length (boxed_slice_items r.block)) };
}

impl BindingRow {
    ghost use Rattle.sip_location.specs.KeptBinding.{kept_in};

    /// The row of the text of a URI, a Call-ID and two numbers. A text of 4 GiB or more, which no datagram brings, is
    /// refused as want of memory.
    pub(crate) fn new(
        alloc: Global,
        text: &[u8],
        call_id: &[u8],
        cseq: u32,
        expires_at: u64,
    ) -> Result<BindingRow, AllocError>
        requires { IsUriText text.now }
        ensures { IfOk result (λ row. row ≡ kept_in (text.now ++ call_id.now) (length text.now) cseq expires_at) }
    {
        let uri_length = u32::try_from(text.len()).map_err(|_| AllocError)?;
        let block = joined(alloc, text, call_id)?;
        Ok(BindingRow {
            block,
            expires_at,
            uri_length,
            cseq,
        })
    }

    /// The text of its URI.
    pub(crate) fn uri_text(&self) -> &[u8]
        ensures says { result.now ≡ text_of self.now.uri }
        ensures reads { IsUriText result.now }
        ensures uri { uri_in result.now ≡ self.now.uri }
    {
        &self.block.as_slice()[..self.uri_length as usize]
    }

    /// Its Call-ID.
    pub(crate) fn call_id(&self) -> &[u8]
        ensures { result.now ≡ self.now.call_id }
    {
        &self.block.as_slice()[self.uri_length as usize..]
    }

    pub(crate) fn cseq(&self) -> u32
        ensures { result ≡ self.now.cseq }
    {
        self.cseq
    }

    pub(crate) fn expires_at(&self) -> u64
        ensures { result ≡ self.now.expires_at }
    {
        self.expires_at
    }

    /// Only where another row has its CSeq, and lives as long.
    fn counts_as(&self, other: &BindingRow) -> bool
        ensures { result ≡ true → (self.now.cseq ≡ other.now.cseq) × (self.now.expires_at ≡ other.now.expires_at) }
    {
        self.cseq == other.cseq && self.expires_at == other.expires_at
    }

    /// Only where another row says the same. Takes no memory.
    pub(crate) fn is_same(&self, other: &BindingRow) -> bool
        ensures { result ≡ true → self.now ≡ other.now }
    {
        if !self.counts_as(other) {
            return false;
        }
        if !same_bytes(self.call_id(), other.call_id()) {
            return false;
        }
        same_bytes(self.uri_text(), other.uri_text())
    }

    /// Its URI, which is read.
    pub(crate) fn uri(&self, alloc: Global) -> Result<Uri, AllocError>
        ensures says { IfOk result (λ uri. uri ≡ self.now.uri) }
        ensures valid { IfOk result (λ uri. IsValid uri) }
    {
        match parse_uri(alloc, self.uri_text()) {
            Ok(uri) => Ok(uri),
            Err(UriError::NoMemory | UriError::Scheme | UriError::Syntax) => Err(AllocError),
        }
    }
}
