use sip_hops::{Hop, HostAddress};
use sip_policy::{Rule, Users};
use sip_route::Own;
use sip_text::{Bytes, Items};

/// What a server is told before it starts.
pub struct Config {
    /// Where it is.
    pub own: Own,
    /// The UDP port that it binds, at the IPv4 address of its own. `own.port` is the one by which others
    /// know it.
    pub bound_port: u16,
    /// The realm of its challenges (RFC 2617 1.2).
    pub realm: Bytes,
    /// No two have one name.
    pub users: Users,
    /// The first that holds at the minute of a request and matches it decides.
    pub rules: Items<Rule>,
    /// How many minutes the time of day of the rules' windows is ahead of UTC, -720 to 840.
    pub offset: i16,
    /// The hops that rules send to, by their places.
    pub hops: Items<Hop>,
    /// The addresses of hosts.
    pub addresses: Items<HostAddress>,
}

/// Written out, so that it is proved once and not wherever one is dropped.
impl Drop for Config {
    fn drop(self) {
        let Config {
            own: _,
            bound_port: _,
            realm: _,
            users: _,
            rules: _,
            offset: _,
            hops: _,
            addresses: _,
        } = self;
    }
}
