ghost use Rattle.std.specs.Prelude.{◌≡◌};
ghost use Rattle.sipd_ask.specs.Destination as Definitions;

use sip_config_types::Config;
use sip_policy::{Decision, Operation, is_users_address};
use sip_uri::Aor;

/// Where a request goes that policy decided about.
#[derive(Clone, Copy)]
pub enum Destination {
    /// Nowhere: it is denied or challenged.
    Nowhere,
    /// To the registrar, which takes it for a configured user of an own domain.
    Registrar,
    /// To the live bindings of its address of record; without one it is answered 480.
    Bindings,
    /// To the hop at this place of the configured list, counted from 0.
    Hop(usize),
    /// Nowhere: its address of record is no configured user's in an own domain, 404.
    NotFound,
}

/// What is let through without a hop.
fn let_through(config: &Config, operation: &Operation, aor: &Aor) -> Destination
    ensures { result ≡ Definitions.let_through config.now operation.now aor.now }
{
    if !is_users_address(&config.users, config.own.domains.as_slice(), aor) {
        return Destination::NotFound;
    }
    match operation {
        Operation::Register | Operation::List => Destination::Registrar,
        Operation::Send(_) => Destination::Bindings,
    }
}

/// Where a request for an address of record goes, by what policy decided. Takes no memory.
pub fn destination_of(
    config: &Config,
    operation: &Operation,
    aor: &Aor,
    decision: Decision,
) -> Destination
    ensures { result ≡ Definitions.destination_of config.now operation.now aor.now decision }
{
    match (decision, operation) {
        (Decision::Deny(_), _) => Destination::Nowhere,
        (Decision::Challenge, _) => Destination::Nowhere,
        (Decision::Via(_, place), Operation::Send(_)) => Destination::Hop(place),
        _ => let_through(config, operation, aor),
    }
}
