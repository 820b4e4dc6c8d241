ghost use Rattle.std.specs.Prelude.{ℕ, Bool, List};
ghost use Rattle.sip_message_form.specs.declared.message.Message.{Message};
ghost use Rattle.sip_transaction_table.specs.declared.key.TransactionKey.{TransactionKey};
ghost use Rattle.sip_verdict.specs.state.Arrival.{Arrival};
ghost use Rattle.sip_verdict.specs.state.declared.proxy_state.ProxyState.{ProxyState};
ghost use Rattle.sip_verdict.specs.state.declared.server.Server.{Server};
ghost use Rattle.sip_verdict.specs.verdict_model.Verdict as Definition;
ghost use Rattle.sip_engine.specs.Delivery.{IsDroppedOrOn, NeedsRoom};

/// An ACK that no server transaction takes is dropped, or goes on in its dialog: nothing answers an ACK (RFC 3261 17.1).
pub(crate) fn acks_are_dropped_or_go_on()
    ensures { (server : Server) (state : ProxyState) (now : ℕ) (m : Message) (short : Bool)
        → IsDroppedOrOn (Definition.ack_verdict server state now m short) }
{}

/// A new request is served only where there is room for one more (this project's profile: 503 without).
pub(crate) fn new_requests_need_room()
    ensures { (server : Server) (state : ProxyState) (a : Arrival) (m : Message) (short : Bool) (method : List ℕ)
        (key : TransactionKey) → NeedsRoom (Definition.is_full state) (Definition.new_verdict server state a m short method key) }
{}
