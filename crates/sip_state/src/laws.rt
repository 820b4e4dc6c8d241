ghost use Rattle.std.specs.Prelude.{◌≡◌, ℕ, Bool, true, List, find, Some, None};
ghost use Rattle.sip_uri.specs.declared.aor.Aor.{Aor};
ghost use Rattle.sip_uri.specs.declared.addr.Addr.{Addr};
ghost use Rattle.sip_transaction_table.specs.declared.key.TransactionKey.{TransactionKey};
ghost use Rattle.sip_digest.specs.Credential.{Credential};
ghost use Rattle.sip_digest.specs.Nonces.{worth_of};
ghost use Rattle.sip_location.specs.Binding.{live};
ghost use Rattle.sip_dialog.specs.Dialogs.{is_in_dialog};
ghost use Rattle.sip_dialog.specs.declared.dialog.Dialog.{Dialog};
ghost use Rattle.sip_dialog.specs.declared.dialog.DialogId.{DialogId};
ghost use Rattle.sip_dialog.specs.Sameness.{SameDialogs};
ghost use Rattle.sip_message_form.specs.declared.message.Message.{Message};
ghost use Rattle.sip_state.specs.declared.server.Server.{Server};
ghost use Rattle.sip_state.specs.declared.open_request.OpenRequest.{OpenRequest};
ghost use Rattle.sip_state.specs.declared.open_request.Upward.{Upward};
ghost use Rattle.sip_state.specs.declared.proxy_state.ProxyState.{ProxyState};
ghost use Rattle.sip_state.specs.State.{has_key, with_one_more};
ghost use Rattle.sip_state.specs.SameState.{SameState};
ghost use Rattle.sip_state.specs.Dialogs.{after_request, after_answers, after_leaving};

/// Each state is the same as itself; states that are the same are so in either order, and through a third.
pub fn same_states()
    ensures itself { (state : ProxyState) → SameState state state }
    ensures turned { (left right : ProxyState) → SameState left right → SameState right left }
    ensures joined { (left middle right : ProxyState) → SameState left middle → SameState middle right → SameState left right }
{}

/// Whatever is asked of a state has the same answer in a state that is the same: the live bindings of an
/// address of record, what a credential is worth, which open request has a key, and whether a request is in
/// a dialog.
pub fn same_states_answer_alike()
    ensures bindings { (left right : ProxyState) (aor : Aor) → SameState left right → live aor left.moment left.bindings
        ≡ live aor right.moment right.bindings }
    ensures credentials { (left right : ProxyState) (a1 : List ℕ) (c : Credential) → SameState left right
        → worth_of left.nonces a1 c left.moment ≡ worth_of right.nonces a1 c right.moment }
    ensures requests { (left right : ProxyState) (key : TransactionKey) → SameState left right → find (has_key key) left.requests
        ≡ find (has_key key) right.requests }
    ensures dialogs { (left right : ProxyState) (id : DialogId) (address : Addr) → SameState left right
        → is_in_dialog left.moment left.dialogs id address ≡ is_in_dialog right.moment right.dialogs id address }
    ensures next { (left right : ProxyState) → SameState left right → left.next ≡ right.next }
{}

/// Dialogs that are the same stay so after a request of one is sent on, after answers went to the caller,
/// and after a request left.
pub fn dialogs_stay_same()
    ensures request { (server : Server) (now : ℕ) (id : DialogId) (m : Message) (left right : List Dialog) → SameDialogs now left right
        → SameDialogs now (after_request server now id m left) (after_request server now id m right) }
    ensures answers { (server : Server) (now : ℕ) (r : OpenRequest) (upward : List Upward) (left right : List Dialog) → SameDialogs now left right
        → SameDialogs now (after_answers server now r upward left) (after_answers server now r upward right) }
    ensures leaving { (now : ℕ) (r : OpenRequest) (left right : List Dialog) → SameDialogs now left right
        → SameDialogs now (after_leaving now r left) (after_leaving now r right) }
{}

/// A request that is opened stands behind all others: the first open request that passes some test stays the
/// first, and the new one is it only where none was.
pub fn opened_stands_last()
    ensures earlier { (test : OpenRequest → Bool) (requests : List OpenRequest) (first r : OpenRequest) → find test requests ≡ Some first
        → find test (with_one_more r requests) ≡ Some first }
    ensures alone { (test : OpenRequest → Bool) (requests : List OpenRequest) (r : OpenRequest) → find test requests ≡ None → test r ≡ true
        → find test (with_one_more r requests) ≡ Some r }
{}
