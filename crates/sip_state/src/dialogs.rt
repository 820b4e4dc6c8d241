ghost use Rattle.std.specs.Prelude.{◌≡◌, [], codes, true, false};
ghost use Rattle.sip_hops.specs.Examples as Places;
ghost use Rattle.sip_dialog.specs.Dialogs.{is_in_dialog};
ghost use Rattle.sip_state.specs.Dialogs.{after_request, after_leaving};
ghost use Rattle.sip_state.specs.DialogExamples as Call;

/// A 180 makes the dialog known. Where the INVITE leaves and only that went to the caller, the dialog ends; it
/// stays where a 200 went (RFC 3261 12.3).
pub fn early_dialogs()
    ensures known { is_in_dialog 63000 (Call.answered_with 180) Call.call (Places.local 5082) ≡ true }
    ensures ended { after_leaving 95000 Call.left (Call.answered_with 180) ≡ [] }
    ensures confirmed { is_in_dialog 95000 (after_leaving 95000 Call.left (Call.answered_with 200)) Call.call (Places.local 5082) ≡ true }
    ensures refused { Call.answered_with 486 ≡ [] }
    ensures trying { Call.answered_with 100 ≡ [] }
{}

/// A request of the caller's in the dialog whose Contact is another one tells the dialog that address, and
/// the callee's requests may go there (RFC 3261 12.2.1.2).
pub fn target_refresh()
    ensures before { is_in_dialog 71000 (Call.answered_with 200) (Call.call_of (codes "t1") (codes "f1")) (Places.local 5099) ≡ false }
    ensures after { is_in_dialog 71000 (after_request Call.sample 70000 Call.call (Call.moved (codes "INVITE")) (Call.answered_with 200))
        (Call.call_of (codes "t1") (codes "f1")) (Places.local 5099) ≡ true }
{}

/// A dialog is known for twelve hours after its last request, and not after its INVITE.
pub fn renewed_dialog()
    ensures last { is_in_dialog 43261999 (Call.answered_with 200) Call.call (Places.local 5082) ≡ true }
    ensures over { is_in_dialog 43262000 (Call.answered_with 200) Call.call (Places.local 5082) ≡ false }
    ensures renewed { is_in_dialog 43269999 (after_request Call.sample 70000 Call.call (Call.moved (codes "INVITE"))
        (Call.answered_with 200)) Call.call (Places.local 5082) ≡ true }
{}

/// The callee's BYE may go to the address that the INVITE came from, also where that had no Contact, and to
/// its Contact where it had one.
pub fn callers_addresses()
    ensures source { is_in_dialog 70000 Call.answered_without_contact (Call.call_of (codes "t1") (codes "f1")) (Places.local 5070) ≡ true }
    ensures contact { is_in_dialog 70000 (Call.answered_with 200) (Call.call_of (codes "t1") (codes "f1")) (Places.local 5071) ≡ true }
    ensures other { is_in_dialog 70000 Call.answered_without_contact (Call.call_of (codes "t1") (codes "f1")) (Places.local 5071) ≡ false }
{}

/// A 2xx to a BYE ends the dialog, and no other answer does (RFC 3261 15).
pub fn ended_dialog()
    ensures accepted { Call.bye_answered 200 ≡ [] }
    ensures refused { is_in_dialog 71000 (Call.bye_answered 500) Call.call (Places.local 5082) ≡ true }
{}
