//! What a datagram makes a server send, send again, record and bind, in bytes, for each kind of request and for responses.
ghost use Rattle.std.specs.Prelude.{◌≡◌, [], ◌∷◌, ℕ, List, Some, false, codes, length};
ghost use Rattle.std.specs.Str.{bytes_eq};
ghost use Rattle.sip_event.specs.declared.event.StepOut.{StepOut};
ghost use Rattle.sip_audit.specs.declared.record.AuditOutcome.TheVariants as AuditOutcome;
ghost use Rattle.sip_model.specs.context_model.Branches.{cancelled, responded};
ghost use Rattle.sip_model.specs.context_model.Opening.{branches_from, dialog_branch, forking};
ghost use Rattle.sip_model.specs.context_model.Sending.{answer_packet, made_answer};
ghost use Rattle.sip_dialog.specs.declared.dialog.DialogId.{DialogId};
ghost use Rattle.sip_message_fields.specs.declared.field.Field.{Field};
ghost use Rattle.sip_message_form.specs.Text.{text_of};
ghost use Rattle.sip_message_form.specs.declared.message.Message.{Message};
ghost use Rattle.sip_uri.specs.declared.addr.Addr.{Addr};
ghost use Rattle.sip_location.specs.Sameness.{SameBindings};
ghost use Rattle.sip_location.specs.declared.binding.Binding.{Binding};
ghost use Rattle.sip_model.specs.steps_model.Effect.{ack_packet, challenge_status, challenges_to, change_packets, contact_fields};
ghost use Rattle.sip_model.specs.steps_model.Effect.{method_of, opening_packets, record_of};
ghost use Rattle.sip_model.specs.steps_model.Step.{arrival_of, moment_of, originals, retransmissions};
ghost use Rattle.sip_edit_response.specs.Extras.{denial_warning};
ghost use Rattle.sip_model.specs.context_model.Retransmission.{acked_again, answers_again};
ghost use Rattle.sip_model.specs.state.declared.branch.Branch.{Branch};
ghost use Rattle.sip_model.specs.state.declared.open_request.OpenRequest.{OpenRequest};
ghost use Rattle.sip_model.specs.state.declared.proxy_state.ProxyState.{ProxyState};
ghost use Rattle.sip_model.specs.state.declared.server.Server.{Server};
ghost use Rattle.sip_targets.specs.Targets.{target_list};
ghost use Rattle.sip_targets.specs.declared.targets.Targets.TheVariants as Targets;
ghost use Rattle.sip_targets.specs.declared.target.Target.{Target};
ghost use Rattle.sip_uri.specs.declared.uri.Uri.{Uri};
ghost use Rattle.sip_model.specs.verdict_model.Verdict as Verdict;
ghost use Rattle.sip_model.specs.verdict_model.declared.question.Question.{Question};
ghost use Rattle.model_laws.specs.Hearing.{Hears};

/// What a request gets that is answered here, in bytes, where nothing goes again: a challenge, the 403 of a denial with its
/// rule in the Warning, the 200 to a REGISTER with the bindings that live, and what is recorded of each (RFC 3261 10.3, 22).
pub fn what_is_answered()
    ensures challenged { (server : Server) (old new : ProxyState) (at word : ℕ) (from : Addr) (bytes : List ℕ) (m : Message) (out : StepOut)
        (q : Question)
        → Hears server old at word from bytes m (Verdict.Challenge q) out new
        → originals out.packets ≡ answer_packet false old.next m from
        (text_of (made_answer server old.next m from (challenge_status q.operation) (challenges_to server (arrival_of old at word from) q))) ∷ [] }
    ensures denied { (server : Server) (old new : ProxyState) (at word : ℕ) (from : Addr) (bytes : List ℕ) (m : Message) (out : StepOut)
        (q : Question) (id : ℕ)
        → Hears server old at word from bytes m (Verdict.Deny q id) out new
        → originals out.packets ≡ answer_packet false old.next m from
        (text_of (made_answer server old.next m from 403 (denial_warning server.config.own id ∷ []))) ∷ [] }
    ensures denial_recorded { (server : Server) (old new : ProxyState) (at word : ℕ) (from : Addr) (bytes : List ℕ) (m : Message)
        (out : StepOut) (q : Question) (id : ℕ)
        → Hears server old at word from bytes m (Verdict.Deny q id) out new
        → out.records ≡ record_of server (arrival_of old at word from) m q (AuditOutcome.Deny id) ∷ [] }
    ensures registered { (server : Server) (old new : ProxyState) (at word : ℕ) (from : Addr) (bytes : List ℕ) (m : Message) (out : StepOut)
        (q : Question) (id : ℕ) (rows : List Binding)
        → Hears server old at word from bytes m (Verdict.Register q id (Verdict.Bound rows)) out new
        → originals out.packets ≡ answer_packet false old.next m from
        (text_of (made_answer server old.next m from 200 (contact_fields (moment_of old at) q.target rows))) ∷ [] }
    ensures refused { (server : Server) (old new : ProxyState) (at word : ℕ) (from : Addr) (bytes : List ℕ) (m : Message) (out : StepOut)
        (status : ℕ) (extras : List Field)
        → Hears server old at word from bytes m (Verdict.Answer status extras) out new
        → originals out.packets ≡ answer_packet false old.next m from (text_of (made_answer server old.next m from status extras)) ∷ [] }
{}

/// What goes out for a call: the request to its targets once a rule let it through, with what is recorded; the request of a
/// dialog to its address; a response, the ACKs and CANCELs that it calls for; an ACK of a 2xx; a CANCEL (RFC 3261 16.6, 16.7,
/// 16.10, 16.11).
pub fn what_is_sent()
    ensures called { (server : Server) (old new : ProxyState) (at word : ℕ) (from : Addr) (bytes : List ℕ) (m : Message) (out : StepOut)
        (q : Question) (id : ℕ) (targets : List Target)
        → Hears server old at word from bytes m (Verdict.Send q id (Targets.Bindings targets)) out new
        → originals out.packets ≡ opening_packets server (moment_of old at)
        (forking (arrival_of old at word from) m (branches_from (moment_of old at) 1 targets)) }
    ensures call_recorded { (server : Server) (old new : ProxyState) (at word : ℕ) (from : Addr) (bytes : List ℕ) (m : Message)
        (out : StepOut) (q : Question) (id : ℕ) (targets : List Target)
        → Hears server old at word from bytes m (Verdict.Send q id (Targets.Bindings targets)) out new
        → out.records ≡ record_of server (arrival_of old at word from) m q (AuditOutcome.Sent id (length targets)) ∷ [] }
    ensures sent_to_hop { (server : Server) (old new : ProxyState) (at word : ℕ) (from : Addr) (bytes : List ℕ) (m : Message)
        (out : StepOut) (q : Question) (id : ℕ) (uri : Uri) (address : Addr)
        → Hears server old at word from bytes m (Verdict.Send q id (Targets.Hop uri address)) out new
        → originals out.packets ≡ opening_packets server (moment_of old at)
        (forking (arrival_of old at word from) m (branches_from (moment_of old at) 1 (target_list (Targets.Hop uri address)))) }
    ensures sent_within { (server : Server) (old new : ProxyState) (at word : ℕ) (from : Addr) (bytes : List ℕ) (m : Message)
        (out : StepOut) (address : Addr) (id : DialogId)
        → Hears server old at word from bytes m (Verdict.InDialog address id) out new
        → originals out.packets ≡ opening_packets server (moment_of old at)
        (forking (arrival_of old at word from) m (dialog_branch server (moment_of old at) m address ∷ [])) }
    ensures responded { (server : Server) (old new : ProxyState) (at word : ℕ) (from : Addr) (bytes : List ℕ) (m : Message) (out : StepOut)
        (r : OpenRequest) (b : Branch) (status : ℕ)
        → Hears server old at word from bytes m (Verdict.Respond r b status) out new
        → originals out.packets ≡ change_packets (responded server (moment_of old at) r b status m) }
    ensures acknowledged { (server : Server) (old new : ProxyState) (at word : ℕ) (from : Addr) (bytes : List ℕ) (m : Message)
        (out : StepOut) (address : Addr) (id : DialogId)
        → Hears server old at word from bytes m (Verdict.AckOn address id) out new
        → originals out.packets ≡ ack_packet server (arrival_of old at word from) m address ∷ [] }
    ensures cancelled { (server : Server) (old new : ProxyState) (at word : ℕ) (from : Addr) (bytes : List ℕ) (m : Message) (out : StepOut)
        (r : OpenRequest)
        → Hears server old at word from bytes m (Verdict.Cancel (Some r)) out new
        → originals out.packets ≡ answer_packet false old.next m from (text_of (made_answer server old.next m from 200 []))
        ∷ change_packets (cancelled server (moment_of old at) r) }
{}

/// What goes again for a datagram: the last answer of the request that it copies, but for an ACK, and the ACK of a further final
/// response, byte for byte (RFC 3261 17.1.1.2, 17.2). A copy changes nothing but the number.
pub fn what_goes_again()
    ensures copied { (server : Server) (old new : ProxyState) (at word : ℕ) (from : Addr) (bytes : List ℕ) (m : Message) (out : StepOut)
        (r : OpenRequest)
        → Hears server old at word from bytes m (Verdict.Copy r) out new → bytes_eq (method_of m.start) (codes "ACK") ≡ false
        → retransmissions out.packets ≡ answers_again r r.answer }
    ensures copies_alone { (server : Server) (old new : ProxyState) (at word : ℕ) (from : Addr) (bytes : List ℕ) (m : Message)
        (out : StepOut) (r : OpenRequest)
        → Hears server old at word from bytes m (Verdict.Copy r) out new → originals out.packets ≡ [] }
    ensures acknowledged { (server : Server) (old new : ProxyState) (at word : ℕ) (from : Addr) (bytes : List ℕ) (m : Message)
        (out : StepOut) (r : OpenRequest) (b : Branch) (status : ℕ)
        → Hears server old at word from bytes m (Verdict.Respond r b status) out new
        → retransmissions out.packets ≡ acked_again server r b status }
{}

/// The bindings after a datagram: those of a REGISTER that a rule let through and that isn't refused (RFC 3261 10.3); a denial
/// and a call change none.
pub fn what_is_bound()
    ensures bound { (server : Server) (old new : ProxyState) (at word : ℕ) (from : Addr) (bytes : List ℕ) (m : Message) (out : StepOut)
        (q : Question) (id : ℕ) (rows : List Binding)
        → Hears server old at word from bytes m (Verdict.Register q id (Verdict.Bound rows)) out new → SameBindings new.moment new.bindings rows }
    ensures denied { (server : Server) (old new : ProxyState) (at word : ℕ) (from : Addr) (bytes : List ℕ) (m : Message) (out : StepOut)
        (q : Question) (id : ℕ)
        → Hears server old at word from bytes m (Verdict.Deny q id) out new → SameBindings new.moment new.bindings old.bindings }
    ensures called { (server : Server) (old new : ProxyState) (at word : ℕ) (from : Addr) (bytes : List ℕ) (m : Message) (out : StepOut)
        (q : Question) (id : ℕ) (targets : List Target)
        → Hears server old at word from bytes m (Verdict.Send q id (Targets.Bindings targets)) out new
        → SameBindings new.moment new.bindings old.bindings }
{}
