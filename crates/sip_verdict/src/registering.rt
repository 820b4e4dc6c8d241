ghost use Rattle.std.specs.Prelude.{◌≡◌};
ghost use Rattle.sip_verdict.specs.Registering.{plan_in};

use sip_location::RegisterPlan;
use sip_message_fields::Fields;

/// What a REGISTER that was let through comes to (RFC 3261 10.3).
pub enum Registering {
    /// The bindings that its address of record is to have.
    Planned(RegisterPlan),
    /// It is refused with this status and these further fields.
    Refused(u16, Fields),
}

/// Written out, so that it is proved once and not wherever one is dropped. One is dropped only for want of memory.
impl Drop for Registering {
    fn drop(self) {
        match self {
            Registering::Planned(_) => {}
            Registering::Refused(_, _) => {}
        }
    }
}

impl Registering {
    /// The bindings that are planned, unless it is refused.
    pub fn into_plan(self) -> Option<RegisterPlan>
        ensures { result ≡ plan_in self }
    {
        match self {
            Registering::Planned(plan) => Some(plan),
            Registering::Refused(_, _) => None,
        }
    }
}
