ghost use Rattle.std.specs.Prelude.{◌≡◌, ◌↔◌, true, None};
ghost use Rattle.sip_config_types.specs.declared.config.Config.{Config};
ghost use Rattle.sip_config_change.specs.Frame.{frame_key_of};
ghost use Rattle.sipd_changes.specs.Changes.{changes_of, can_be_taken};

/// A server that runs can take exactly a configuration of the same frame, at the same bound port.
pub fn taken_where_the_frame_is_kept()
    ensures { (old new : Config) → (can_be_taken (changes_of old new) ≡ true)
        ↔ ((frame_key_of old new ≡ None) × (old.bound_port ≡ new.bound_port)) }
{}
