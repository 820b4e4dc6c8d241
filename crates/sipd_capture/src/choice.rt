use sip_text::Bytes;

/// Which datagrams stand in a capture, and how.
#[derive(Drop)]
pub struct CaptureChoice {
    /// Those with this Call-ID; all, where none is named.
    pub call_id: Option<Bytes>,
    /// Whether credentials and bodies are hidden.
    pub hide: bool,
}
