//! What an answer that goes to the caller tells of dialogs (RFC 3261 12.1, 15): one begins, learns addresses, or ends.
ghost use Rattle.std.specs.Prelude.{◌≡◌, ◌≤◌, ◌<◌, ◌+◌, ◌&&◌, ◌++◌, ◌∷◌, nat_le, codes, if◌then◌else◌, IfOk, OnOk};
ghost use Rattle.std.specs.Option.{option_to_list};
ghost use Rattle.std.specs.Str.{bytes_eq};
ghost use Rattle.sip_hops.specs.HostAddress.{address_of};
ghost use Rattle.sip_dialog.specs.Addresses.{addresses_in};
ghost use Rattle.sip_state.specs.declared.server.Server.{Server};
ghost use Rattle.sip_state.specs.State as States;
ghost use Rattle.sip_state.specs.Dialogs as Dialogs;
ghost use Rattle.sip_dialog_updates.specs.DialogUpdates.{beginnings};
ghost use Rattle.sip_dialog_updates.specs.Telling.{Adds, is_early_or_success};

use crate::calls::is_bye;
use crate::contact_addresses::{given_by, put_kept};
use crate::dialog_update::DialogUpdate;
use crate::naming::answered_dialog;
use sip_dialog::{DialogId, InviteAnswer};
use sip_hops::Hops;
use sip_state::{OpenRequest, Upward, is_invite, is_success};
use sip_text::Items;
use sip_uri::Addr;
use std::alloc::{AllocError, Global};

/// For how many addresses room is made at once: an INVITE and its answer mostly give no more.
const USUAL: usize = 8;

/// Whether an answer ends the dialog of its request: a 2xx to a BYE (RFC 3261 15).
fn ends_dialog(request: &OpenRequest, up: &Upward) -> bool
    ensures { result ≡ (bytes_eq request.now.key.method (codes "BYE") && States.is_success up.now.status) }
{
    is_bye(request) && is_success(up.status)
}

/// Adds what an answer to a request of a dialog tells it (RFC 3261 15).
fn put_within(
    alloc: Global,
    hops: &Hops,
    list: &mut Vec<DialogUpdate>,
    request: &OpenRequest,
    up: &Upward,
    id: DialogId,
) -> Result<(), AllocError>
    ensures told { OnOk result (Adds hops.now.addresses list.old.items list.new.items
        (λ server now dialogs. Dialogs.after_answer_within server now request.now up.now id dialogs)) }
    ensures room { OnOk result (beginnings list.new.items ≡ beginnings list.old.items) }
{
    if ends_dialog(request, up) {
        list.push(DialogUpdate::End(id))?;
        return Ok(());
    }
    let addresses = given_by(alloc, hops, up.message.get())?;
    list.push(DialogUpdate::Teach { id, addresses })?;
    Ok(())
}

/// The address that an INVITE came from, and that of the branch which answered it, if it is known.
fn both_ends(alloc: Global, request: &OpenRequest, up: &Upward) -> Result<Items<Addr>, AllocError>
    ensures { IfOk result (λ addresses. addresses ≡ request.now.request.source ∷ option_to_list up.now.target) }
{
    let mut addresses = Items::with_room(alloc, USUAL)?;
    addresses.push(request.request.get().source())?;
    if let Some(target) = up.target {
        addresses.push(target)?;
    }
    Ok(addresses)
}

/// The addresses that an answer to an INVITE tells the dialog that it begins.
fn invite_addresses(
    alloc: Global,
    hops: &Hops,
    request: &OpenRequest,
    up: &Upward,
) -> Result<Items<Addr>, AllocError>
    ensures { IfOk result (λ addresses. addresses ≡ request.now.request.source ∷ option_to_list up.now.target
        ++ addresses_in (address_of hops.now.addresses) request.now.request.message.fields
        ++ addresses_in (address_of hops.now.addresses) up.now.message.fields) }
{
    let mut addresses = both_ends(alloc, request, up)?;
    let invite = request.request.get();
    invite.put_addresses(alloc, hops, &mut addresses)?;
    put_kept(alloc, hops, &mut addresses, up.message.get())?;
    Ok(addresses)
}

/// What an answer to an INVITE tells of the dialog that it names.
fn invite_answer(
    alloc: Global,
    hops: &Hops,
    request: &OpenRequest,
    up: &Upward,
    id: DialogId,
) -> Result<InviteAnswer, AllocError>
    ensures { IfOk result (λ answer. (server : Server) → server.config.addresses ≡ hops.now.addresses → answer
        ≡ Dialogs.invite_answer server request.now up.now id) }
{
    let addresses = invite_addresses(alloc, hops, request, up)?;
    Ok(InviteAnswer {
        id,
        number: request.number,
        arrived_at: request.arrived_at,
        is_success: is_success(up.status),
        addresses,
    })
}

/// Adds what an answer above 100 to an INVITE tells of the dialog that it begins (RFC 3261 12.1).
fn put_invite(
    alloc: Global,
    hops: &Hops,
    list: &mut Vec<DialogUpdate>,
    request: &OpenRequest,
    up: &Upward,
    id: DialogId,
) -> Result<(), AllocError>
    ensures told { OnOk result (Adds hops.now.addresses list.old.items list.new.items
        (λ server now dialogs. Dialogs.after_invite_answer server now request.now up.now id dialogs)) }
    ensures room { OnOk result (beginnings list.new.items ≤ beginnings list.old.items + (if nat_le up.now.status 299 then 1 else 0)) }
{
    if up.status <= 299 {
        let answer = invite_answer(alloc, hops, request, up, id)?;
        list.push(DialogUpdate::Learn(answer))?;
        return Ok(());
    }
    let addresses = given_by(alloc, hops, up.message.get())?;
    list.push(DialogUpdate::Teach { id, addresses })?;
    Ok(())
}

/// Adds what an answer above 100 to a request outside a dialog tells.
fn put_first(
    alloc: Global,
    hops: &Hops,
    list: &mut Vec<DialogUpdate>,
    request: &OpenRequest,
    up: &Upward,
) -> Result<(), AllocError>
    ensures told { OnOk result (Adds hops.now.addresses list.old.items list.new.items
        (λ server now dialogs. Dialogs.after_first_answer server now request.now up.now dialogs)) }
    ensures room { OnOk result (beginnings list.new.items ≤ beginnings list.old.items + (if nat_le up.now.status 299 then 1 else 0)) }
{
    if !is_invite(request) {
        return Ok(());
    }
    let Some(id) = answered_dialog(alloc, request, up.message.get())? else {
        return Ok(());
    };
    put_invite(alloc, hops, list, request, up, id)?;
    Ok(())
}

/// Adds what an answer above 100 tells whose request names a dialog. It stands apart, so that no room is made for a name
/// where none is copied.
#[inline(never)]
fn put_named(
    alloc: Global,
    hops: &Hops,
    list: &mut Vec<DialogUpdate>,
    request: &OpenRequest,
    up: &Upward,
) -> Result<(), AllocError>
    requires { 100 < up.now.status }
    ensures told { OnOk result (Adds hops.now.addresses list.old.items list.new.items
        (λ server now dialogs. Dialogs.after_answer server now request.now up.now dialogs)) }
    ensures room { OnOk result (beginnings list.new.items ≤ beginnings list.old.items + (if is_early_or_success up.now then 1 else 0)) }
{
    let Some(id) = request.request.get().dialog(alloc)? else {
        put_first(alloc, hops, list, request, up)?;
        return Ok(());
    };
    put_within(alloc, hops, list, request, up, id)?;
    Ok(())
}

/// Adds what an answer tells that goes to the caller of a request.
pub(crate) fn put_answer(
    alloc: Global,
    hops: &Hops,
    list: &mut Vec<DialogUpdate>,
    request: &OpenRequest,
    up: &Upward,
) -> Result<(), AllocError>
    ensures told { OnOk result (Adds hops.now.addresses list.old.items list.new.items
        (λ server now dialogs. Dialogs.after_answer server now request.now up.now dialogs)) }
    ensures room { OnOk result (beginnings list.new.items ≤ beginnings list.old.items + (if is_early_or_success up.now then 1 else 0)) }
{
    if up.status <= 100 {
        return Ok(());
    }
    let is_within = request.request.get().names_dialog(alloc)?;
    if is_within {
        put_named(alloc, hops, list, request, up)?;
        return Ok(());
    }
    put_first(alloc, hops, list, request, up)?;
    Ok(())
}
