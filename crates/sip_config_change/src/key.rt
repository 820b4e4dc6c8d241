ghost use Rattle.std.specs.Prelude.{◌≡◌};
ghost use Rattle.sip_config_change.specs.FrameKey.{name_of};

use std::fmt;

/// A key of the configuration file that says something of the frame.
#[derive(Clone, Copy, Debug, PartialEq, Eq)]
pub enum FrameKey {
    /// How the server calls itself in Via and Record-Route.
    Host,
    /// The port that goes with it.
    Port,
    /// The IPv4 address at which it serves. The port that is bound there is no part of the frame.
    Address,
    /// The domains that it serves, in their order.
    Domains,
    /// The realm of its challenges.
    Realm,
}

impl FrameKey {
    /// How the configuration file calls it.
    pub fn name(self) -> &'static str
        ensures { result.now ≡ name_of self }
    {
        match self {
            FrameKey::Host => "host",
            FrameKey::Port => "port",
            FrameKey::Address => "address",
            FrameKey::Domains => "domains",
            FrameKey::Realm => "realm",
        }
    }
}

impl fmt::Display for FrameKey {
    ghost use Rattle.std.specs.Prelude.{Some};
    ghost use Rattle.sip_config_change.specs.FrameKey.{name_of};

    ghost output = { λ key. Some (name_of key) };

    fn fmt<W: fmt::Write>(&self, f: &mut fmt::Formatter<W>) -> fmt::Result {
        f.write_str(self.name())
    }
}
