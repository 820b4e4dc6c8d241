ghost use Rattle.std.specs.Prelude.{◌≡◌};
ghost use Rattle.sip_uri.specs.Uri.{text_of};
ghost use Rattle.sip_location.specs.KeptBinding.{uri_in, IsUriText};

use crate::aor_ref::AorRef;
use crate::row::BindingRow;
use sip_text::Bytes;
use sip_uri::{Aor, Uri};
use std::marker::Model;

/// A binding as contracts see it: an address of record, the URI of a contact where its user can be reached, the Call-ID
/// and the CSeq number of the REGISTER that made it, and the moment at which it expires, in milliseconds
/// (RFC 3261 10.3). The location service keeps none of them in this form: it lends them as [`BindingRef`].
pub struct Binding {
    pub aor: Aor,
    pub uri: Uri,
    pub call_id: Bytes,
    pub cseq: u32,
    pub expires_at: u64,
}

/// Written out, so that it is proved once and not wherever a binding is dropped.
impl Drop for Binding {
    fn drop(self) {
        let Binding {
            aor: _,
            uri: _,
            call_id: _,
            cseq: _,
            expires_at: _,
        } = self;
    }
}

/// A binding, lent as it is kept: its URI as it was written, under its address of record.
#[derive(Drop)]
pub struct BindingRef<'a> {
    aor: AorRef<'a>,
    row: &'a BindingRow,
}

impl<'a> Model for BindingRef<'a> {
    ghost use Rattle.sip_location.specs.declared.binding.Binding.{Binding};
    ghost use Rattle.sip_location.specs.KeptBinding.{binding_of};

    ghost Value = { Binding };

    ghost view = { λ b. binding_of b.aor b.row.now };
}

impl<'a> BindingRef<'a> {
    ghost use Rattle.sip_location.specs.KeptBinding.{binding_of};

    pub(crate) fn new(aor: AorRef<'a>, row: &'a BindingRow) -> Self
        ensures { result ≡ binding_of aor.entry row.now }
    {
        BindingRef { aor, row }
    }

    /// Its address of record: only tests ask for it, where a step was refused its memory.
    pub fn aor(&self) -> AorRef<'a>
        ensures { result ≡ self.now.aor }
    {
        self.aor.again()
    }

    /// The text of its URI. Takes no memory.
    pub fn uri_text(&self) -> &'a [u8]
        ensures says { result.now ≡ text_of self.now.uri }
        ensures reads { IsUriText result.now }
        ensures uri { uri_in result.now ≡ self.now.uri }
    {
        self.row.uri_text()
    }

    /// The Call-ID of the REGISTER that made it: only tests ask for it, where a step was refused its memory.
    pub fn call_id(&self) -> &'a [u8]
        ensures { result.now ≡ self.now.call_id }
    {
        self.row.call_id()
    }

    /// The number of that REGISTER's CSeq.
    pub fn cseq(&self) -> u32
        ensures { result ≡ self.now.cseq }
    {
        self.row.cseq()
    }

    /// The moment at which it expires, in milliseconds.
    pub fn expires_at(&self) -> u64
        ensures { result ≡ self.now.expires_at }
    {
        self.row.expires_at()
    }
}
