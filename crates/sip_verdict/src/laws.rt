ghost use Rattle.std.specs.Prelude.{◌≡◌, ◌||◌, ℕ, Bool, List, Some, None, find, if◌then◌else◌};
ghost use Rattle.sip_message_form.specs.declared.message.Message.{Message};
ghost use Rattle.sip_header.specs.declared.via.Via.{Via};
ghost use Rattle.sip_transaction_table.specs.declared.key.TransactionKey.{TransactionKey};
ghost use Rattle.sip_message.specs.Reading.{reading_of};
ghost use Rattle.model_verdict.specs.state.declared.branch.Branch.{Branch};
ghost use Rattle.model_verdict.specs.state.declared.open_request.OpenRequest.{OpenRequest};
ghost use Rattle.model_verdict.specs.state.declared.proxy_state.ProxyState.{ProxyState};
ghost use Rattle.model_verdict.specs.state.declared.server.Server.{Server};
ghost use Rattle.model_verdict.specs.state.Arrival.{Arrival};
ghost use Rattle.model_verdict.specs.state.State.{has_key};
ghost use Rattle.model_verdict.specs.context_model.FoundBranch.{found_branch};
ghost use Rattle.sip_route.specs.declared.own.Own.{Own};
ghost use Rattle.model_verdict.specs.Verdict.{Drop, Respond, message_in, message_verdict, verdict_of, by_open, new_verdict};
ghost use Rattle.sip_verdict.specs.Incoming.{IsResponse, IsRequest};

/// The verdict on a datagram is the one on the message that it says; without one there is none.
pub fn datagrams()
    ensures none { (server : Server) (state : ProxyState) (a : Arrival) (bytes : List ℕ) → message_in (reading_of bytes) ≡ None
        → verdict_of server state a bytes ≡ None }
    ensures said { (server : Server) (state : ProxyState) (a : Arrival) (bytes : List ℕ) (m : Message) (short : Bool)
        → message_in (reading_of bytes) ≡ Some (m, short)
        → verdict_of server state a bytes ≡ Some (m, message_verdict server state a m short) }
{}

/// A response whose branch isn't found is dropped, and so is one without a second Via, but to a CANCEL; any other is taken
/// for the branch (RFC 3261 16.7 step 1, 17.1.3).
pub fn responses()
    ensures lost { (own : Own) (m : Message) (short : Bool) (status : ℕ) (text method : List ℕ) (has_more_vias : Bool)
        → IsResponse own m short status text method has_more_vias
        → (server : Server) (state : ProxyState) (a : Arrival) → server.config.own ≡ own
        → found_branch server text method state.requests ≡ None → message_verdict server state a m short ≡ Drop }
    ensures found { (own : Own) (m : Message) (short : Bool) (status : ℕ) (text method : List ℕ) (has_more_vias : Bool)
        → IsResponse own m short status text method has_more_vias
        → (server : Server) (state : ProxyState) (a : Arrival) → server.config.own ≡ own
        → (r : OpenRequest) (b : Branch) → found_branch server text method state.requests ≡ Some (r, b)
        → message_verdict server state a m short ≡ (if b.is_cancel || has_more_vias then Respond r b status else Drop) }
{}

/// A request with an open key has the verdict of the first open request with it; any other that of a new one (RFC 3261
/// 17.2.3).
pub fn requests()
    ensures new_request { (m : Message) (short : Bool) (method : List ℕ) (via : Via) (key : TransactionKey)
        → IsRequest m short method via key
        → (server : Server) (state : ProxyState) (a : Arrival) → find (has_key key) state.requests ≡ None
        → message_verdict server state a m short ≡ new_verdict server state a m short method key }
    ensures open_request { (m : Message) (short : Bool) (method : List ℕ) (via : Via) (key : TransactionKey)
        → IsRequest m short method via key
        → (server : Server) (state : ProxyState) (a : Arrival) (r : OpenRequest) → find (has_key key) state.requests ≡ Some r
        → message_verdict server state a m short ≡ by_open server state a m short method key (Some r) }
{}
