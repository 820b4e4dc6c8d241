ghost use Rattle.std.specs.Prelude.{◌≡◌, ◌≤◌, ℕ, List, false, Ok};
ghost use Rattle.sip_auth.specs.Proof.{used};
ghost use Rattle.sip_fork.specs.Firing.{KeepsOrder};
ghost use Rattle.sip_timers.specs.declared.timer.Timer.{Timer};
ghost use Rattle.sip_location.specs.Locations.{of_aor, IsPlan};
ghost use Rattle.sip_location.specs.Registration.{registered};
ghost use Rattle.sip_location.specs.Sameness.{SameOutcome};
ghost use Rattle.sip_location.specs.declared.registration.Registration.{Registration};
ghost use Rattle.sip_digest.specs.Nonces.{issued};
ghost use Rattle.sip_uri.specs.Aor.{is_same_aor};
ghost use Rattle.sip_uri.specs.declared.aor.Aor.{Aor};
ghost use Rattle.sip_proxy.specs.Proxy.{with_bindings, with_nonces};

use crate::proxy::Proxy;
use sip_auth::Proof;
use sip_location::RegisterPlan;
use sip_timers::Timers;

impl<T: Timers> Proxy<T> {
    /// The count of a right credential is used, whatever becomes of the request (RFC 2617 3.2.2: nonce-count). Takes no
    /// memory.
    pub fn spend(&mut self, proof: &Proof<'_>, now: u64)
        ensures state { self.new.state ≡ with_nonces (used self.old.state.nonces now proof.now) self.old.state }
        ensures timers { self.new.timers ≡ self.old.timers }
        ensures queue { (old : List Timer) → KeepsOrder old self.old.timers self.old.state.requests → KeepsOrder old self.new.timers self.new.state.requests }
        ensures room { self.new.room ≡ self.old.room }
        ensures secrets { self.new.secrets ≡ self.old.secrets }
    {
        proof.spend(&mut self.nonces, now);
    }

    /// Issues the nonce of a word, unless it lives. The oldest of 4,096 gives way. Takes no memory.
    pub fn issue(&mut self, word: u128, now: u64)
        ensures state { self.new.state ≡ with_nonces (issued self.old.state.nonces word now) self.old.state }
        ensures timers { self.new.timers ≡ self.old.timers }
        ensures queue { (old : List Timer) → KeepsOrder old self.old.timers self.old.state.requests → KeepsOrder old self.new.timers self.new.state.requests }
        ensures room { self.new.room ≡ self.old.room }
        ensures secrets { self.new.secrets ≡ self.old.secrets }
    {
        self.nonces.issue(word, now);
    }

    /// Gives the address of record of a plan its bindings, in place of all that it has. Takes no memory.
    pub fn register(&mut self, plan: RegisterPlan)
        requires { 1 ≤ self.old.room }
        ensures own { of_aor plan.aor self.new.state.bindings ≡ plan.bindings }
        ensures others { (other : Aor) → is_same_aor other plan.aor ≡ false → of_aor other self.new.state.bindings
            ≡ of_aor other self.old.state.bindings }
        ensures registered { (r : Registration) (now : ℕ) → IsPlan self.old.state.bindings r now plan
            → SameOutcome now (Ok self.new.state.bindings) (registered self.old.state.bindings r now) }
        ensures rest { self.new.state ≡ with_bindings self.new.state.bindings self.old.state }
        ensures timers { self.new.timers ≡ self.old.timers }
        ensures queue { (old : List Timer) → KeepsOrder old self.old.timers self.old.state.requests → KeepsOrder old self.new.timers self.new.state.requests }
        ensures secrets { self.new.secrets ≡ self.old.secrets }
    {
        self.locations.apply(plan);
    }
}
