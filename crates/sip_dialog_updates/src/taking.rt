ghost use Rattle.std.specs.Prelude.{◌≡◌, ◌≤◌};
ghost use Rattle.sip_dialog.specs.Sameness.{SameDialogs};
ghost use Rattle.sip_dialog_updates.specs.DialogUpdates.{after_updates, beginnings};

use crate::dialog_update::DialogUpdate;
use sip_dialog::Dialogs;

/// The dialogs take some updates, in their order.
pub(crate) fn take_all(dialogs: &mut Dialogs, updates: Vec<DialogUpdate>, now: u64)
    requires { beginnings updates.items ≤ dialogs.old.room }
    ensures taken { SameDialogs now dialogs.new.dialogs (after_updates now updates.items dialogs.old.dialogs) }
    ensures secret { dialogs.new.secret ≡ dialogs.old.secret }
{
    let mut left = updates;
    left.reverse();
    while let Some(update) = left.pop() {
        update.take(dialogs, now);
    }
}
