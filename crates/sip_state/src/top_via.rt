//! The top Via of a request and its source, read together: the value that the Via gets (RFC 3261 18.2.1), and where answers go (18.2.2).
ghost use Rattle.std.specs.Prelude.{◌≡◌, IfOk, Some};
ghost use Rattle.sip_edit.specs.ReceivedRequest.{at_port, top_via};
ghost use Rattle.sip_state.specs.TopVia.{IsTopVia};

use sip_edit::received_top;
use sip_header::Via;
use sip_message_fields::FieldName;
use sip_message_form::View;
use sip_text::Bytes;
use sip_uri::Addr;
use std::alloc::{AllocError, Global};

/// What the top Via of a request says that came from an address.
#[derive(Drop)]
pub(crate) struct TopVia {
    pub(crate) source: Addr,
    /// The value that it gets.
    pub(crate) value: Bytes,
    /// The port to which the answers go, none where it is the source's.
    pub(crate) port: Option<u16>,
}

impl TopVia {
    /// What the top Via of a request that came from an address says, as it was read.
    #[tactic(auto, using(crate::proofs::Received::none_edited, crate::proofs::Received::on_top, crate::proofs::Received::edited, crate::proofs::Received::answered))]
    pub(crate) fn of(
        alloc: Global,
        request: &View<'_>,
        via: &Via<'_>,
        from: Addr,
    ) -> Result<Self, AllocError>
        requires { top_via request.now ≡ Some via.now }
        ensures via { IfOk result (λ via. IsTopVia request.now via) }
        ensures source { IfOk result (λ via. via.source ≡ from) }
    {
        let Some(value) = request.fields().first(&FieldName::Via) else {
            unreachable!();
        };
        let (value, port) = received_top(alloc, via, value, from)?;
        Ok(TopVia {
            source: from,
            value,
            port,
        })
    }

    /// Where the answers go. Takes no memory.
    pub(crate) fn reply_to(&self) -> Addr
        ensures { result ≡ at_port self.now.port self.now.source }
    {
        let ip = self.source.ip;
        let port = self.port.unwrap_or(self.source.port);
        Addr { ip, port }
    }
}
