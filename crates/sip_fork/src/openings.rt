ghost use Rattle.std.specs.Prelude.{◌∷◌, [], ℕ, List};
ghost use Rattle.sip_uri.specs.declared.addr.Addr.{Addr};
ghost use Rattle.sip_message_form.specs.declared.message.Message.{Message};
ghost use Rattle.sip_targets.specs.declared.target.Target.{Target};
ghost use Rattle.sip_dialog_updates.specs.state.Arrival.{Arrival};
ghost use Rattle.sip_dialog_updates.specs.state.declared.server.Server.{Server};
ghost use Rattle.model_steps.specs.context_model.Opening.{arriving, branches_from, closing, dialog_branch, forking, opening};
ghost use Rattle.sip_request.specs.transactions_model.Fits.{IsFinalAnswer};
ghost use Rattle.sip_fork.specs.Keeping.{IsKeptAs};

use sip_request::transactions_model::branches::branches_begin;
use sip_request::transactions_model::fitting_events::opens_fitting;
use sip_request::transactions_model::openings::{answered_at_once, sent_on};

/// A request that comes is opened as it is to be kept, with its own number and key: one that is answered at once, with
/// a final answer; one that is sent to its targets, or on in its dialog (RFC 3261 16.6, 16.12, 17.2).
pub fn openings_keep()
    ensures answered { (a : Arrival) (m : Message) (status : ℕ) (text : List ℕ) → IsFinalAnswer status
        → IsKeptAs a.now (arriving a m) (closing a m status text) }
    ensures targets { (server : Server) (a : Arrival) (m : Message) (targets : List Target)
        → IsKeptAs a.now (arriving a m) (opening server a.now (forking a m (branches_from a.now 1 targets))).request }
    ensures dialog { (server : Server) (a : Arrival) (m : Message) (address : Addr)
        → IsKeptAs a.now (arriving a m) (opening server a.now (forking a m (dialog_branch server a.now m address ∷ []))).request }
{
    opens_fitting();
    answered_at_once();
    sent_on();
    branches_begin();
}
