ghost use Rattle.std.specs.Prelude.{◌≡◌, ℕ, false, ◌-◌, ◌<◌, List, ◌∷◌, ◌++◌, Contains};
ghost use Rattle.std.specs.List.{AllByRecursion};
ghost use Rattle.sip_dialog.specs.declared.dialog.Dialog.{Dialog};
ghost use Rattle.sip_model.specs.state.declared.proxy_state.ProxyState.{ProxyState};
ghost use Rattle.sip_model.specs.state.declared.server.Server.{Server};
ghost use Rattle.sip_model.specs.state.State.{first_state};
ghost use Rattle.sip_model.specs.Run.{Link, IsChain, under};
ghost use Rattle.model_laws.specs.Requests.{HasCome};
ghost use Rattle.sip_message_form.specs.declared.message.Message.{Message};
ghost use Rattle.sip_uri.specs.declared.addr.Addr.{Addr};
ghost use Rattle.sip_model.specs.state.Arrival.{Arrival};
ghost use Rattle.sip_model.specs.Access.{IsWithin};
ghost use Rattle.model_laws.specs.Dialogs.{WasTold, GoesWhereTold, EndsDialog, WasToldAnew, IsInviteOpen};

use sip_model::histories::dialogs_are_taught;
use sip_model::order::{numbers_differ, requests_can_end};
use sip_model::parts::steps_have_parts;

/// Each open request came: a datagram of the history said it, from the address to which its answers go, and the
/// answer that it had last went there. Nothing opens a request but its own datagram.
pub fn open_requests_came()
    ensures { (server : Server) (first : ℕ) (history : List Link) (last : ProxyState)
        → IsChain server (first_state first) history last → AllByRecursion (HasCome history) last.requests }
{
    steps_have_parts();
}

/// Each known dialog was told: an INVITE came, and a 101 to 299 from a branch of it, which went to its caller, named
/// the dialog; each of its addresses is the source of such an INVITE, the address of the branch that answered it, or
/// one that a Contact or a Record-Route of a message of the dialog gave which went through, by the host addresses of the configuration
/// in force as it did; and one of its requests
/// came less than twelve hours ago (RFC 3261 12).
pub fn known_dialogs_were_told()
    ensures { (server : Server) (first : ℕ) (history : List Link) (last : ProxyState)
        → IsChain server (first_state first) history last
        → (d : Dialog) → Contains last.dialogs d → last.moment - d.since < 43200000 → WasTold server history d }
{
    steps_have_parts();
    dialogs_are_taught();
}

/// A request or an ACK of a dialog that is sent on goes to an address of that dialog, of which a request came less
/// than twelve hours before: to the source of an INVITE that began it, to the address of the branch that answered
/// this, or to one that a Contact or a Record-Route of a message of the dialog gave (RFC 3261 16.12).
pub fn requests_go_where_told()
    ensures { (server : Server) (first : ℕ) (link : Link) (history : List Link) (last : ProxyState)
        → IsChain server (first_state first) (link ∷ history) last
        → (a : Arrival) (m : Message) (address : Addr) (within : IsWithin (under server link.config) link.before link.act a m address)
        → GoesWhereTold server history a.now within.id address }
{
    known_dialogs_were_told();
}

/// Once a 2xx to a BYE of a dialog came for its caller the dialog isn't known any more, unless it was told anew in a
/// later step: an answer to an INVITE that names it came for its caller there (RFC 3261 15).
pub fn ended_dialogs_are_told_anew()
    ensures { (server : Server) (first : ℕ) (newer : List Link) (link : Link) (older : List Link) (last : ProxyState)
        → IsChain server (first_state first) (newer ++ link ∷ older) last
        → (d : Dialog) → Contains last.dialogs d → last.moment - d.since < 43200000 → EndsDialog server link d.id
        → WasToldAnew server newer (newer ++ link ∷ older) d.id }
{
    steps_have_parts();
    dialogs_are_taught();
}

/// A known dialog that no 2xx confirmed is known only while the INVITE of its number is open: when that leaves the open
/// requests, whatever its answer was, the dialog is known no longer (RFC 3261 12.3).
pub fn early_dialogs_end_with_their_invite()
    ensures { (server : Server) (first : ℕ) (history : List Link) (last : ProxyState)
        → IsChain server (first_state first) history last
        → (d : Dialog) → Contains last.dialogs d → last.moment - d.since < 43200000 → d.has_success ≡ false → IsInviteOpen last.requests d.number }
{
    numbers_differ();
    requests_can_end();
    dialogs_are_taught();
}
