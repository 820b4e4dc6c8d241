ghost use Rattle.std.specs.Prelude.{◌≡◌, [], ◌∷◌, true, false, Some, None};
ghost use Rattle.sip_guard.specs.Allowance.{admits, behind};
ghost use Rattle.sip_guard.specs.Limits.{limit_of};
ghost use Rattle.sip_guard.specs.Rates.{handed_on, used_by};
ghost use Rattle.sip_guard.specs.Sources.{finds_room, used_of};
ghost use Rattle.sip_guard.specs.Unheard.{none_unheard, noted};
ghost use Rattle.sip_guard.specs.Guard.{hearing, is_within};
ghost use Rattle.sip_guard.specs.Examples.{one_a_second, six_moments, desk, scanner, tables, full, desk_always};

/// Twenty a second, and forty at once; neither none nor more than a million a second.
pub fn limit_example()
    ensures twenty { limit_of 20 ≡ Some (record { per_second = 20; burst = 40 }) }
    ensures most { limit_of 1000000 ≡ Some (record { per_second = 1000000; burst = 2000000 }) }
    ensures none { limit_of 0 ≡ None }
    ensures more { limit_of 1000001 ≡ None }
{}

/// Of three datagrams at once two are handed on, one a second later, none half a second behind that, and one another half later.
pub fn allowance_example()
    ensures first { admits one_a_second 0 0 ≡ true }
    ensures number { behind one_a_second 0 0 ≡ 1000 }
    ensures third { admits one_a_second 2000 0 ≡ false }
    ensures handed_on { handed_on one_a_second six_moments ≡ 2000 ∷ 1000 ∷ 0 ∷ 0 ∷ [] }
    ensures used { used_by one_a_second six_moments ≡ 4000 }
{}

/// A source has the greater of its two numbers, and 0 where it isn't kept. It finds room among few others.
pub fn sources_example()
    ensures kept { used_of desk (tables ((desk, 7) ∷ []) ((scanner, 5) ∷ (desk, 3) ∷ [])) ≡ 7 }
    ensures other { used_of scanner (tables ((desk, 7) ∷ []) []) ≡ 0 }
    ensures room { finds_room 0 scanner (tables ((desk, 7) ∷ []) []) ≡ true }
{}

/// Among as many sources as there is room for, one that is kept finds room, and another one once none of the earlier ones is past
/// the moment.
pub fn full_table_example()
    ensures kept { finds_room 6 desk full ≡ true }
    ensures none { finds_room 6 scanner full ≡ false }
    ensures idle { finds_room 7 scanner full ≡ true }
{}

/// Two datagrams of a scanner and one of a desk phone that weren't handed on are three, two of the scanner and one of the phone.
pub fn unheard_example()
    ensures { noted (noted (noted none_unheard scanner) desk) scanner
        ≡ record { total = 3; sources = record { ip = scanner; count = 2 } ∷ record { ip = desk; count = 1 } ∷ [] } }
{}

/// Of two sources that used up their allowance, the one that is heard always is heard; and where that is to be the other one from now on,
/// that one alone.
pub fn always_example()
    ensures desk { is_within desk_always desk ≡ true }
    ensures scanner { is_within desk_always scanner ≡ false }
    ensures scanner_then { is_within (hearing (scanner ∷ []) desk_always) scanner ≡ true }
    ensures desk_then { is_within (hearing (scanner ∷ []) desk_always) desk ≡ false }
{}
