ghost use Rattle.std.specs.Prelude.{◌≡◌};

use sip_dialog_updates::state::Server;
use sip_hops::Hops;

/// What the steps are configured by, lent: the server, and the tables of its addresses.
#[derive(Drop)]
pub struct Configured<'a> {
    pub server: &'a Server,
    pub hops: &'a Hops,
    pub ghost rows: { hops.now.addresses ≡ server.now.config.addresses },
}
