ghost use Rattle.std.specs.Prelude.{◌≡◌, [], None, codes, ◌∷◌, Some};
ghost use Rattle.sipd_calls.specs.Example.{carols_call};
ghost use Rattle.sipd_standing.specs.Standing.{if_standing};
ghost use Rattle.sipd_standing.specs.PhoneCells.{left_cell, source_cell};

/// A call that is talked, one that rings, and one that is over.
pub fn standing_example()
    ensures talks { if_standing None 86411000 (record carols_call { ending = None })
        ≡ codes "7      01-02 01:00:08 carol        ivan                 30    talks   0:03\n" }
    ensures rings { if_standing None 86411000 (record carols_call { answer = None; ending = None })
        ≡ codes "7      01-02 01:00:00 carol        ivan                 30    rings   0:11\n" }
    ensures over { if_standing None 86411000 carols_call ≡ [] }
{}

/// How long a binding still lives, and where its REGISTER came from.
pub fn phone_cells_example()
    ensures short { left_cell 301 ≡ codes "5:01    " }
    ensures long { left_cell 3600 ≡ codes "1:00:00 " }
    ensures source { source_cell (Some (record { ip = 192 ∷ 0 ∷ 2 ∷ 2 ∷ []; port = 5060 })) ≡ codes "192.0.2.2:5060\n" }
{}
