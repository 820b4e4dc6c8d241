ghost use Rattle.std.specs.Prelude.{◌≡◌};

use crate::aor_bindings::AorBindings;
use crate::live::Bindings;
use std::marker::Model;

/// The bindings that an address of record is to have, as [`Locations::plan`](crate::Locations::plan) makes it
/// for [`Locations::apply`](crate::Locations::apply).
#[derive(Drop)]
pub struct RegisterPlan {
    pub(crate) filed: AorBindings,
}

impl Model for RegisterPlan {
    ghost use Rattle.sip_location.specs.AorBindings.{bindings_of};
    ghost use Rattle.sip_location.specs.Locations.{Planned};

    ghost Value = { Planned };

    ghost view = { λ p. record { aor = p.filed.aor; bindings = bindings_of p.filed.aor p.filed.rows } };
}

impl RegisterPlan {
    /// The live bindings of the address of record after the request, in their order: what the 200 lists (RFC 3261 10.3
    /// step 8). Takes no memory.
    pub fn bindings(&self) -> Bindings<'_>
        ensures { result ≡ self.now.bindings }
    {
        Bindings::new(self.filed.aor.lent(), self.filed.rows.as_slice())
    }
}
