ghost use Rattle.std.specs.Prelude.{◌≡◌, ◌↔◌, ◌≤◌, ℕ, List, length, true, false};
ghost use Rattle.sip_uri.specs.declared.addr.Addr.{Addr};
ghost use Rattle.sip_dialog.specs.declared.dialog.DialogId.{DialogId};
ghost use Rattle.sip_dialog.specs.declared.dialog.Dialog.{Dialog};
ghost use Rattle.sip_dialog.specs.declared.dialog.InviteAnswer.{InviteAnswer};
ghost use Rattle.sip_dialog.specs.DialogId.{is_same_dialog};
ghost use Rattle.sip_dialog.specs.Addresses.{with_addresses};
ghost use Rattle.sip_dialog.specs.Dialogs.{IsInDialog, is_in_dialog, edited, learnt, known, without_dialog, after_invite};
ghost use Rattle.sip_dialog.specs.Sameness.{as_seen, SameDialogs};

/// The test says exactly which requests are in a dialog (RFC 3261 12.2.2).
pub fn in_dialog_is_a_test()
    ensures { (now : ℕ) (dialogs : List Dialog) (id : DialogId) (address : Addr)
        → (is_in_dialog now dialogs id address ≡ true) ↔ IsInDialog now dialogs id address }
{}

/// Both sides of a call name one dialog.
pub fn tags_in_either_order()
    ensures symmetric { (a b : DialogId) → is_same_dialog a b ≡ is_same_dialog b a }
    ensures swapped { (a b : DialogId) → is_same_dialog a (record { call_id = b.call_id; from_tag = b.to_tag; to_tag = b.from_tag })
        ≡ is_same_dialog a b }
{}

/// A dialog holds at most 16 addresses.
pub fn at_most_sixteen_addresses()
    ensures { (held more : List Addr) → length held ≤ 16 → length (with_addresses held more) ≤ 16 }
{}

/// At most 4,096 dialogs are known.
pub fn at_most_4096_known()
    ensures { (now : ℕ) (a : InviteAnswer) (dialogs : List Dialog) → length (known now dialogs) ≤ 4096 → length (learnt now a dialogs) ≤ 4096 }
{}

/// Lists that say the same do so in either order, through a third list, and at every later moment.
pub fn same_dialogs()
    ensures itself { (now : ℕ) (dialogs : List Dialog) → SameDialogs now dialogs dialogs }
    ensures turned { (now : ℕ) (left right : List Dialog) → SameDialogs now left right → SameDialogs now right left }
    ensures joined { (now : ℕ) (left middle right : List Dialog) → SameDialogs now left middle → SameDialogs now middle right
        → SameDialogs now left right }
    ensures later { (now later : ℕ) (left right : List Dialog) → now ≤ later → SameDialogs now left right → SameDialogs later left right }
{}

/// Of lists that say the same either tells which requests are in a dialog.
pub fn in_dialog_same()
    ensures { (now : ℕ) (left right : List Dialog) (id : DialogId) (address : Addr) → SameDialogs now left right
        → is_in_dialog now left id address ≡ is_in_dialog now right id address }
{}

/// Lists that say the same do so after an edit of a dialog, after an answer to an INVITE, after a BYE, and
/// after an INVITE left.
pub fn learning_keeps_sameness()
    ensures edited { (now : ℕ) (id : DialogId) (edit : Dialog → Dialog) (left right : List Dialog) → SameDialogs now left right
        → SameDialogs now (edited now id edit left) (edited now id edit right) }
    ensures learnt { (now : ℕ) (a : InviteAnswer) (left right : List Dialog) → SameDialogs now left right
        → SameDialogs now (learnt now a left) (learnt now a right) }
    ensures without { (now : ℕ) (id : DialogId) (left right : List Dialog) → SameDialogs now left right
        → SameDialogs now (without_dialog now id left) (without_dialog now id right) }
    ensures after_invite { (now number : ℕ) (left right : List Dialog) → SameDialogs now left right
        → SameDialogs now (after_invite now number left) (after_invite now number right) }
{}

/// Later steps see all of a dialog until a 2xx to its INVITE is forwarded, and then all but which INVITE began it (RFC 3261 12.1,
/// 12.3).
pub fn seen_until_confirmed()
    ensures early { (d : Dialog) → d.has_success ≡ false → as_seen d ≡ d }
    ensures confirmed { (d : Dialog) (number : ℕ) → d.has_success ≡ true → as_seen (record d { number = number }) ≡ as_seen d }
{}
