use crate::known_method::KnownMethod;
use sip_text::Bytes;

/// Where the bytes of a method stand.
#[derive(Drop)]
pub(crate) enum MethodText {
    /// In no memory: it is one that phones send.
    Known(KnownMethod),
    /// In a block of their own, so that the others are small.
    Other(Box<Bytes>),
}
