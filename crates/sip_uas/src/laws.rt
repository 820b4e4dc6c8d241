ghost use Rattle.std.specs.Prelude.{ℕ, Bool, List};
ghost use Rattle.sip_message_form.specs.declared.message.Message.{Message};
ghost use Rattle.sip_transaction_table.specs.declared.key.TransactionKey.{TransactionKey};
ghost use Rattle.sip_dialog_updates.specs.state.Arrival.{Arrival};
ghost use Rattle.sip_dialog_updates.specs.state.declared.proxy_state.ProxyState.{ProxyState};
ghost use Rattle.sip_dialog_updates.specs.state.declared.server.Server.{Server};
ghost use Rattle.sip_verdict.specs.verdict_model.Verdict.{new_verdict};
ghost use Rattle.sip_uas.specs.Asking.{AnswersFinally};

/// Each answer that a verdict gives at once to a request that no open one is found for is final: a refusal by the checks,
/// 503 without room, 481 outside a dialog, and each refusal of a REGISTER (RFC 3261 7.2).
pub fn new_verdict_answers_finally()
    ensures { (server : Server) (state : ProxyState) (a : Arrival) (m : Message) (short : Bool) (method : List ℕ)
        (key : TransactionKey) → AnswersFinally (new_verdict server state a m short method key) }
{}
