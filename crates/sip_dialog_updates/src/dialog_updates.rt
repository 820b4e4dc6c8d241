//! All that a step tells the dialogs: collected before it is taken, and given to them with it. The dialogs are kept in `sip_dialog`.
ghost use Rattle.std.specs.Prelude.{◌≡◌, ◌≤◌, ◌+◌, [], ℕ, List, count_by, IfErr, OnOk};
ghost use Rattle.std.specs.List.{list_any};
ghost use Rattle.sip_dialog.specs.declared.dialog.Dialog.{Dialog};
ghost use Rattle.sip_dialog.specs.declared.error.DialogError.TheVariants.{NoMemory};
ghost use Rattle.sip_dialog.specs.Sameness.{SameDialogs};
ghost use Rattle.sip_state.specs.Dialogs as Definitions;
ghost use Rattle.sip_dialog_updates.specs.DialogUpdates.{after_updates, beginnings, may_begin};
ghost use Rattle.sip_dialog_updates.specs.Telling.{Adds, is_early_or_success};

use crate::answers::put_answer;
use crate::calls::is_left_invite;
use crate::contact_addresses::addresses_of;
use crate::dialog_update::DialogUpdate;
use crate::taking::take_all;
use sip_dialog::{DialogError, DialogId, Dialogs};
use sip_hops::Hops;
use sip_message_form::View;
use sip_state::{OpenRequest, Upward};
use std::alloc::{AllocError, Global};
use std::marker::Model;

/// What a step tells the dialogs, in its order, seen as the list of it. It is read and made before anything changes;
/// then [`DialogUpdates::reserve`] makes room, and [`DialogUpdates::take`] changes the dialogs and is never refused. Updates to
/// which something could not be added have a part of it, and are to be dropped.
#[derive(Drop)]
pub struct DialogUpdates {
    list: Vec<DialogUpdate>,
}

impl Model for DialogUpdates {
    ghost use Rattle.std.specs.Prelude.{List};
    ghost use Rattle.sip_dialog_updates.specs.declared.dialog_update.DialogUpdate.{DialogUpdate};

    ghost Value = { List DialogUpdate };

    ghost view = { λ l. l.list.items };
}

/// Adds what the answers tell that go to the caller of a request.
fn put_answers(
    alloc: Global,
    hops: &Hops,
    list: &mut Vec<DialogUpdate>,
    request: &OpenRequest,
    upward: &[Upward],
) -> Result<(), AllocError>
    ensures told { OnOk result (Adds hops.now.addresses list.old.items list.new.items
        (λ server now dialogs. Definitions.after_answers server now request.now upward.now dialogs)) }
    ensures room { OnOk result (beginnings list.new.items ≤ beginnings list.old.items + count_by is_early_or_success upward.now) }
{
    for up in upward {
        put_answer(alloc, hops, list, request, up)?;
    }
    Ok(())
}

/// Adds that an INVITE left the open requests, if it did.
fn put_leaving(list: &mut Vec<DialogUpdate>, request: &OpenRequest) -> Result<(), AllocError>
    ensures told { OnOk result ((now : ℕ) (dialogs : List Dialog) → after_updates now list.new.items dialogs
        ≡ Definitions.after_leaving now request.now (after_updates now list.old.items dialogs)) }
    ensures room { OnOk result (beginnings list.new.items ≡ beginnings list.old.items) }
{
    if is_left_invite(request) {
        list.push(DialogUpdate::Expire(request.number))?;
    }
    Ok(())
}

impl DialogUpdates {
    /// No update. Takes no memory.
    pub fn new(alloc: Global) -> Self
        ensures { result ≡ [] }
    {
        DialogUpdates {
            list: Vec::new(alloc),
        }
    }

    /// Adds what a request tells its dialog that is sent on (RFC 3261 12.2). `AllocError` is the only refusal.
    pub fn add_request(
        &mut self,
        alloc: Global,
        hops: &Hops,
        id: DialogId,
        request: &View<'_>,
    ) -> Result<(), AllocError>
        ensures told { OnOk result (Adds hops.now.addresses self.old self.new
            (λ server now dialogs. Definitions.after_request server now id request.now dialogs)) }
        ensures room { OnOk result (beginnings self.new ≡ beginnings self.old) }
    {
        let addresses = addresses_of(alloc, hops, request)?;
        self.list.push(DialogUpdate::Renew { id, addresses })?;
        Ok(())
    }

    /// Adds what a change of an open request tells the dialogs: the answers that go to the caller with it, and that the
    /// request stays open no longer if it doesn't (RFC 3261 12.1, 12.3, 15). `AllocError` is the only refusal.
    pub fn add_change(
        &mut self,
        alloc: Global,
        hops: &Hops,
        request: &OpenRequest,
        upward: &[Upward],
    ) -> Result<(), AllocError>
        ensures told { OnOk result (Adds hops.now.addresses self.old self.new
            (λ server now dialogs. Definitions.after_leaving now request.now (Definitions.after_answers server now request.now upward.now dialogs))) }
        ensures room { OnOk result (beginnings self.new ≤ beginnings self.old + count_by is_early_or_success upward.now) }
    {
        put_answers(alloc, hops, &mut self.list, request, upward)?;
        put_leaving(&mut self.list, request)
    }

    /// Whether a dialog may become known.
    fn may_begin(&self) -> bool
        ensures { result ≡ list_any may_begin self.now }
    {
        self.list
            .iter()
            .any(|update| matches!(update, DialogUpdate::Learn(_)))
    }

    /// Makes room for one more dialog if the updates may make one known. `NoMemory` is the only refusal.
    pub fn reserve(&self, dialogs: &mut Dialogs) -> Result<(), DialogError>
        ensures dialogs { dialogs.new.dialogs ≡ dialogs.old.dialogs }
        ensures ok { OnOk result (beginnings self.now ≤ 1 → beginnings self.now ≤ dialogs.new.room) }
        ensures err { IfErr result (λ e. e ≡ NoMemory) }
        ensures room { dialogs.old.room ≤ dialogs.new.room }
        ensures secret { dialogs.new.secret ≡ dialogs.old.secret }
    {
        if !self.may_begin() {
            return Ok(());
        }
        dialogs.reserve()
    }

    /// The dialogs take the updates, in their order. Takes no memory.
    pub fn take(self, dialogs: &mut Dialogs, now: u64)
        requires { beginnings self ≤ dialogs.old.room }
        ensures taken { SameDialogs now dialogs.new.dialogs (after_updates now self dialogs.old.dialogs) }
        ensures secret { dialogs.new.secret ≡ dialogs.old.secret }
    {
        let DialogUpdates { list } = self;
        take_all(dialogs, list, now);
    }
}
