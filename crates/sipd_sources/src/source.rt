//! What is known of an address, and what a datagram adds to that.
ghost use Rattle.std.specs.Prelude.{◌≡◌};
ghost use Rattle.sipd_sources.specs.Source as Definitions;

/// A moment in milliseconds, and by how many minutes the office's clock was ahead of UTC then.
#[derive(Clone, Copy)]
pub struct SourceMoment {
    pub at: u64,
    pub offset: i16,
}

/// What a datagram adds to its address: whether it was asked for a credential, was proven by one, gave a wrong one, and tried a name that the
/// address hadn't tried before.
#[derive(Clone, Copy)]
pub(crate) struct Mark {
    pub challenged: bool,
    pub proven: bool,
    pub wrong: bool,
    pub is_new: bool,
}

/// What an IPv4 address did: how many datagrams came from there; how many of them were asked for a credential, were proven by one, and gave a
/// wrong one; how many names they tried; and when the first and the last came.
#[derive(Clone, Copy)]
pub struct Source {
    pub ip: [u8; 4],
    pub heard: u64,
    pub challenged: u64,
    pub proven: u64,
    pub wrong: u64,
    pub names: u64,
    pub first: SourceMoment,
    pub last: SourceMoment,
}

/// A count, and one more, if something is so.
fn counted(count: u64, is: bool) -> u64
    ensures { result ≡ Definitions.counted count is }
{
    if is {
        return count.saturating_add(1);
    }
    count
}

/// The number of an address, by which addresses stand in order.
pub(crate) fn number_of(ip: [u8; 4]) -> u32
    ensures { result ≡ Definitions.number_of ip }
{
    u32::from(ip[0]) * 16_777_216
        + u32::from(ip[1]) * 65_536
        + u32::from(ip[2]) * 256
        + u32::from(ip[3])
}

impl Source {
    /// An address from which nothing came, up to a moment.
    pub(crate) fn silent(ip: [u8; 4], moment: SourceMoment) -> Source
        ensures { result ≡ Definitions.silent ip moment }
    {
        Source {
            ip,
            heard: 0,
            challenged: 0,
            proven: 0,
            wrong: 0,
            names: 0,
            first: moment,
            last: moment,
        }
    }

    /// One more datagram, which came at a moment.
    pub(crate) fn hearing(self, moment: SourceMoment, mark: Mark) -> Source
        ensures { result ≡ Definitions.heard_more moment mark self }
    {
        let ip = self.ip;
        Source {
            ip,
            heard: self.heard.saturating_add(1),
            challenged: counted(self.challenged, mark.challenged),
            proven: counted(self.proven, mark.proven),
            wrong: counted(self.wrong, mark.wrong),
            names: counted(self.names, mark.is_new),
            first: self.first,
            last: moment,
        }
    }
}
