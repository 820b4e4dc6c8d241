ghost use Rattle.sip_transport.specs.Told.{IsWritable};

use crate::datagram::HeardDatagram;

/// A datagram that a link over memory hears, before which so many receives heard nothing, and whether it was set aside then.
#[derive(Drop)]
pub(crate) struct Posted {
    pub(crate) silent: u64,
    pub(crate) is_aside: bool,
    pub(crate) datagram: HeardDatagram,
    ghost writable: { IsWritable datagram.from datagram.bytes },
}
