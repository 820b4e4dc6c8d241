ghost use Rattle.std.specs.Prelude.{◌≡◌, ◌++◌, ℕ, List};
ghost use Rattle.sip_dialog.specs.declared.dialog.Dialog.{Dialog};
ghost use Rattle.sip_dialog.specs.Sameness.{SameDialogs};
ghost use Rattle.sip_dialog_updates.specs.declared.dialog_update.DialogUpdate.{DialogUpdate};
ghost use Rattle.sip_dialog_updates.specs.DialogUpdates.{after_updates};

/// Lists that say the same of the known dialogs do so after the same updates.
pub fn updates_keep_sameness()
    ensures { (now : ℕ) (updates : List DialogUpdate) (left right : List Dialog) → SameDialogs now left right
        → SameDialogs now (after_updates now updates left) (after_updates now updates right) }
{}

/// Updates behind others are taken after them.
pub fn updates_in_order()
    ensures { (now : ℕ) (front back : List DialogUpdate) (dialogs : List Dialog) → after_updates now (front ++ back) dialogs
        ≡ after_updates now back (after_updates now front dialogs) }
{}
