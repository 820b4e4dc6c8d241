ghost use Rattle.std.specs.Prelude.{◌≡◌, ◌≢◌, ◌<◌, ◌≤◌, ℕ, List, length, All, Ok, false};
ghost use Rattle.sip_uri.specs.declared.aor.Aor.{Aor};
ghost use Rattle.sip_location.specs.declared.binding.Binding.{Binding};
ghost use Rattle.sip_location.specs.declared.registration.Registration.{Registration};
ghost use Rattle.sip_location.specs.Binding.{live};
ghost use Rattle.sip_location.specs.Registration.{edited, registered};
ghost use Rattle.sip_location.specs.Sameness.{SameBindings, SameOutcome};
ghost use Rattle.sip_uri.specs.Aor.{is_same_aor};

/// No live binding has expired.
pub fn live_bindings_have_not_expired()
    ensures { (aor : Aor) (now : ℕ) (rows : List Binding) → All (λ b. now < b.expires_at) (live aor now rows) }
{}

/// A REGISTER leaves every other address of record its bindings, at every moment (RFC 3261 10.3).
pub fn other_addresses_are_untouched()
    ensures { (rows after : List Binding) (r : Registration) (now moment : ℕ) (other : Aor) → registered rows r now ≡ Ok after
        → other ≢ r.aor → live other moment after ≡ live other moment rows }
{}

/// After a REGISTER the live bindings of its address of record are those that it had, edited by the
/// contacts in their order (RFC 3261 10.3).
pub fn live_bindings_are_edited()
    ensures { (rows after : List Binding) (r : Registration) (now : ℕ) → registered rows r now ≡ Ok after → live r.aor now after ≡ edited rows r now }
{}

/// An address of record with at most 16 live bindings has no more after a REGISTER.
pub fn at_most_sixteen()
    ensures { (rows after : List Binding) (r : Registration) (now : ℕ) → registered rows r now ≡ Ok after → length (live r.aor now rows)
        ≤ 16 → length (live r.aor now after) ≤ 16 }
{}

/// Where no address of record has more than 16 bindings that live at a moment, none has after a REGISTER,
/// whichever moment that is.
pub fn none_above_sixteen()
    ensures { (rows after : List Binding) (r : Registration) (now moment : ℕ) → registered rows r now ≡ Ok after
        → ((aor : Aor) → length (live aor moment rows) ≤ 16) → (aor : Aor) → length (live aor moment after) ≤ 16 }
{}

/// Rows that say the same do so in either order, through third rows, and from every later moment on.
pub fn same_bindings()
    ensures itself { (from : ℕ) (rows : List Binding) → SameBindings from rows rows }
    ensures turned { (from : ℕ) (left right : List Binding) → SameBindings from left right → SameBindings from right left }
    ensures joined { (from : ℕ) (left middle right : List Binding) → SameBindings from left middle → SameBindings from middle right
        → SameBindings from left right }
    ensures later { (from later : ℕ) (left right : List Binding) → from ≤ later → SameBindings from left right → SameBindings later left right }
{}

/// Rows say the same from a moment on where they do at that moment.
pub fn same_at_once()
    ensures { (now : ℕ) (left right : List Binding) → ((aor : Aor) → live aor now left ≡ live aor now right) → SameBindings now left right }
{}

/// A REGISTER has the same outcome over rows that say the same from its moment on.
pub fn registered_same()
    ensures { (left right : List Binding) (r : Registration) (now : ℕ) → SameBindings now left right
        → SameOutcome now (registered left r now) (registered right r now) }
{}

/// Rows say the same as those after a REGISTER where its address of record has the edited bindings, and
/// every other those that it had.
pub fn same_as_registered()
    ensures { (rows new after : List Binding) (r : Registration) (now : ℕ) → registered rows r now ≡ Ok after
        → ((other : Aor) → is_same_aor other r.aor ≡ false → live other now new ≡ live other now rows) → live r.aor now new
        ≡ edited rows r now → SameBindings now new after }
{}
