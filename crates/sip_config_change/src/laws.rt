ghost use Rattle.std.specs.Prelude.{◌≡◌, ◌↔◌, false, Some, None};
ghost use Rattle.sip_config_types.specs.declared.config.Config.{Config};
ghost use Rattle.sip_config_change.specs.declared.key.FrameKey.{FrameKey};
ghost use Rattle.sip_config_change.specs.Frame.{is_kept, frame_key_of};

/// No key differs exactly where the own place and the realm are the same.
pub fn frame_is_place_and_realm()
    ensures { (old new : Config) → (frame_key_of old new ≡ None) ↔ ((new.own ≡ old.own) × (new.realm ≡ old.realm)) }
{}

/// Where no key differs, the new configuration is its own policy in the frame of the old one.
pub fn policy_in_the_old_frame_is_new()
    ensures { (old new : Config) → frame_key_of old new ≡ None → record new { own = old.own; realm = old.realm } ≡ new }
{}

/// A key that is given differs; then the own place or the realm does.
pub fn given_key_differs()
    ensures differs { (old new : Config) (key : FrameKey) → frame_key_of old new ≡ Some key → is_kept old new key ≡ false }
    ensures other_frame { (old new : Config) (key : FrameKey) → frame_key_of old new ≡ Some key
        → ¬ ((new.own ≡ old.own) × (new.realm ≡ old.realm)) }
{}
