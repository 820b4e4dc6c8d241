ghost use Rattle.std.specs.Prelude.{◌≤◌, ◌<◌, ◌+◌, ◌^◌, ℕ};
ghost use Rattle.sip_dialog_updates.specs.state.declared.open_request.OpenRequest.{OpenRequest};
ghost use Rattle.sip_request.specs.Near.{IsNear};
ghost use Rattle.sip_request.specs.transactions_model.Near.{IsWithin};

use sip_request::transactions_model::timers::timers_are_near;

/// Each timer that a request names is due before any moment more than 185,000 ms behind the bound to which its moments
/// are near: soon enough to be set, where timers were asked for by the millisecond before the bound; and at a moment of
/// 64 bits, where the bound is below 2^62.
pub fn near_of_within()
    ensures before { (bound moment : ℕ) (r : OpenRequest) → bound + 185000 < moment → IsWithin bound r → IsNear moment r }
    ensures set { (bound reached : ℕ) (r : OpenRequest) → bound ≤ reached + 1 → IsWithin bound r → IsNear (reached + 2 ^ 30) r }
    ensures counted { (bound : ℕ) (r : OpenRequest) → bound < 2 ^ 62 → IsWithin bound r → IsNear (2 ^ 64) r }
{
    timers_are_near();
}
