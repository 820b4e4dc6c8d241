ghost use Rattle.std.specs.Prelude.{◌≡◌, [], ◌∷◌, codes, true, false, map};
ghost use Rattle.sip_dialog.specs.Dialogs.{is_in_dialog, learnt, renewed, taught, without_dialog, after_invite};
ghost use Rattle.sip_dialog.specs.Examples.{at_port, call_of, success, ringing, one_call};

/// A request with the call's tags, in either order, is in the dialog where it goes to an address that
/// this holds, and no other is. After a 2xx to a BYE none is.
pub fn dialog_targets()
    ensures callee { is_in_dialog 64000 one_call (call_of (codes "f1") (codes "t1")) (at_port 5082) ≡ true }
    ensures caller { is_in_dialog 64000 one_call (call_of (codes "t1") (codes "f1")) (at_port 5070) ≡ true }
    ensures other_tag { is_in_dialog 64000 one_call (call_of (codes "f1") (codes "t9")) (at_port 5082) ≡ false }
    ensures other_address { is_in_dialog 64000 one_call (call_of (codes "f1") (codes "t1")) (at_port 9) ≡ false }
    ensures other_call { is_in_dialog 64000 one_call (record (call_of (codes "f1") (codes "t1")) { call_id = codes "K1" }) (at_port 5082) ≡ false }
    ensures ended { is_in_dialog 65000 (without_dialog 64000 (call_of (codes "t1") (codes "f1")) one_call)
        (call_of (codes "f1") (codes "t1")) (at_port 5082) ≡ false }
{}

/// A call whose INVITE came at 62,000 ms is known until twelve hours later, unless a request renews it.
/// When the INVITE leaves, the dialogs without a 2xx end.
pub fn dialog_lifetime()
    ensures last { is_in_dialog 43261999 one_call success.id (at_port 5082) ≡ true }
    ensures past { is_in_dialog 43262000 one_call success.id (at_port 5082) ≡ false }
    ensures renewed { is_in_dialog 43262000 (renewed 100000 success.id [] one_call) success.id (at_port 5082) ≡ true }
    ensures too_late { renewed 43262000 success.id [] one_call ≡ [] }
    ensures unconfirmed { after_invite 94000 4 (learnt 63500 ringing one_call) ≡ one_call }
    ensures confirmed { map (λ d. d.has_success) (learnt 64500 (record ringing { is_success = true }) (learnt 63500 ringing one_call))
        ≡ true ∷ true ∷ [] }
{}

/// An address that is held takes no second place, and after 16 none is learnt.
pub fn dialog_addresses()
    ensures once { map (λ d. d.addresses) one_call ≡ (at_port 5070 ∷ at_port 5082 ∷ []) ∷ [] }
    ensures sixteen { map (λ d. d.addresses) (taught 64000 success.id (map at_port (codes "abcdefghijklmnopq")) one_call)
        ≡ (at_port 5070 ∷ at_port 5082 ∷ map at_port (codes "abcdefghijklmn")) ∷ [] }
{}
