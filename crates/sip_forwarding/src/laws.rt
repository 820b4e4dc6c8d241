ghost use Rattle.std.specs.Prelude.{◌≡◌, Some};
ghost use Rattle.sip_message_form.specs.declared.message.Message.{Message};
ghost use Rattle.sip_uri.specs.declared.addr.Addr.{Addr};
ghost use Rattle.sip_transaction_table.specs.declared.key.TransactionKey.{TransactionKey};
ghost use Rattle.sip_transaction_table.specs.Key.{key_of};
ghost use Rattle.sip_targets.specs.declared.targets.Targets.{Targets};
ghost use Rattle.sip_dialog_updates.specs.state.Arrival.{Arrival};
ghost use Rattle.sip_dialog_updates.specs.state.declared.server.Server.{Server};
ghost use Rattle.sip_forwarding.specs.context_model.Opening.{opening};
ghost use Rattle.sip_forwarding.specs.Forwarding.{IsOpenable, call_to, call_within};

use model_transactions::branches::branches_begin;
use model_transactions::fitting_events::opens_fitting;
use model_transactions::openings::sent_on;

/// A request that came and is sent to its targets, or on in its dialog, can be opened once its first packets go.
pub(crate) fn opens()
    ensures targets { (server : Server) (a : Arrival) (m : Message) (key : TransactionKey) (targets : Targets)
        → key_of m ≡ Some key → IsOpenable a key (opening server a.now (call_to a m targets)).request }
    ensures dialog { (server : Server) (a : Arrival) (m : Message) (key : TransactionKey) (address : Addr) → key_of m ≡ Some key
        → IsOpenable a key (opening server a.now (call_within server a m address)).request }
{
    opens_fitting();
    sent_on();
    branches_begin();
}
