ghost use Rattle.std.specs.Prelude.{◌≡◌, ℕ, Option};
ghost use Rattle.sip_replay_script.specs.Devices.{later};
ghost use Rattle.sipd_old_record.specs.Readers.{WasAsked};

/// How often a reader was asked, where it tells that: a reader that may not be asked any more was asked as often as it might be; and what was
/// asked of it before counts.
pub fn asks_add_up()
    ensures spent { (asks n : ℕ) (before now : Option ℕ) → later asks now ≡ later n before → asks ≡ 0 → WasAsked n before now }
    ensures before { (n : ℕ) (before middle now : Option ℕ) → WasAsked 0 before middle → WasAsked n middle now → WasAsked n before now }
    ensures further { (asks n : ℕ) (before middle now : Option ℕ) → later asks middle ≡ later n before → WasAsked asks middle now → WasAsked n before now }
{}
