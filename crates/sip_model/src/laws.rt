ghost use Rattle.std.specs.Prelude.{◌≡◌, ◌↔◌, ℕ, true, false, List, [], ◌∷◌, map, Contains, Option, Some};
ghost use Rattle.sip_uri.specs.declared.uri.Uri.{Uri};
ghost use Rattle.sip_uri.specs.Aor.{aor_of};
ghost use Rattle.sip_message_form.specs.declared.message.Message.{Message};
ghost use Rattle.sip_header.specs.declared.core_fields.CoreFields.{CoreFields};
ghost use Rattle.sip_route.specs.Way.{request_uri_of};
ghost use Rattle.sip_uri.specs.declared.addr.Addr.{Addr};
ghost use Rattle.sip_hops.specs.Hop.{hop_of};
ghost use Rattle.sip_policy.specs.declared.decision.Decision.{Decision};
ghost use Rattle.sip_policy.specs.User.{is_users_address};
ghost use Rattle.sip_location.specs.declared.binding.Binding.{Binding};
ghost use Rattle.sip_location.specs.Binding.{live};
ghost use Rattle.sip_targets.specs.Target.{target_for};
ghost use Rattle.model_steps.specs.state.declared.server.Server.{Server};
ghost use Rattle.sip_event.specs.declared.event.Event.{Event};
ghost use Rattle.sip_event.specs.declared.packet.Packet.{Packet};
ghost use Rattle.sip_event.specs.declared.event.StepOut.{StepOut};
ghost use Rattle.model_steps.specs.state.declared.proxy_state.ProxyState.{ProxyState};
ghost use Rattle.model_steps.specs.state.State.{first_state};
ghost use Rattle.model_steps.specs.state.Arrival.{Arrival};
ghost use Rattle.model_steps.specs.verdict_model.declared.question.Question.{Question};
ghost use Rattle.model_steps.specs.verdict_model.Verdict.{is_register};
ghost use Rattle.std.specs.List.{AllByRecursion};
ghost use Rattle.sip_digest.specs.declared.algorithm.Algorithm.TheVariants.{Md5};
ghost use Rattle.sip_digest.specs.NonceText.{nonce_text};
ghost use Rattle.sip_auth.specs.Proof.{is_stale};
ghost use Rattle.sip_auth.specs.Offer.{HasMd5Alone};
ghost use Rattle.sip_edit_response.specs.Challenges.{challenge};
ghost use Rattle.model_steps.specs.Effect.{challenge_name, challenges_to};
ghost use Rattle.sip_model.specs.Run.{Link, IsChain, IsRun, under};
ghost use Rattle.sip_model.specs.Bindings.{Arrived, allowed_in};
ghost use Rattle.sip_model.specs.Access.{IsAllowedRegister, decision_on, targets_on, Owes, Access};

/// The REGISTERs of which the bindings after a history are made are exactly those that are valid, new, and
/// let through by the first rule that matches.
pub fn allowed_registers_are_allowed()
    ensures { (server : Server) (state : ProxyState) (a : Arrival) (bytes : List ℕ) (r : Arrived)
        → ((allowed_in server state a bytes ≡ Some r) ↔ IsAllowedRegister server state a bytes r) }
{}

/// Over every run, each step is lawful by its history: over every list of datagrams, timer moments and send
/// faults, each valid new request outside a dialog is sent to exactly the unexpired bindings or the configured
/// hop that the first matching rule gives its proven user; bindings change or are listed exactly as an allowed
/// REGISTER says; every policy denial is a 403 whose Warning names that rule; all else sent belongs to an open
/// request or known dialog.
pub fn every_run_has_access()
    ensures { (server : Server) (first : ℕ) (events : List Event) (until : Option ℕ) (steps : List StepOut) (history : List Link) (last : ProxyState)
        → IsRun server (first_state first) events until steps history last → Access server history }
{}

/// So is each step of every history from a first state.
pub fn every_history_has_access()
    ensures { (server : Server) (first : ℕ) (history : List Link) (last : ProxyState) → IsChain server (first_state first) history last
        → Access server history }
{}

/// Whatever a step owes, it hands out: the ACK of a branch's first 300 to 699; to the caller the response that is
/// passed on, or the best answer once the last branch ends; its CANCEL to each branch that is to be cancelled and was
/// heard; and to a copy of a request, or of a final response, what went for the first.
pub fn owed_is_sent()
    ensures { (server : Server) (first : ℕ) (link : Link) (history : List Link) (last : ProxyState)
        → IsChain server (first_state first) (link ∷ history) last → (p : Packet) → Owes (under server link.config) link p → Contains link.out.packets p }
{}

/// The targets of a request outside a dialog, in the words of the headline: where the first rule that matches
/// allows it and its Request-URI names a user, exactly the unexpired bindings of that address of record, in
/// their order, each with the address of its contact; where that rule sends it by a hop, its Request-URI at
/// the hop's configured address; and of a REGISTER none.
pub fn targets_are_bindings_or_hop()
    ensures bindings { (server : Server) (rows : List Binding) (state : ProxyState) (now : ℕ) (m : Message) (method : List ℕ)
        (core : CoreFields) (id : ℕ) (uri : Uri)
        → is_register method ≡ false → decision_on server state now m method core ≡ Decision.Allow id
        → request_uri_of server.config.own m ≡ Some uri → is_users_address server.config.users server.config.own.domains (aor_of uri) ≡ true
        → targets_on server rows state now m method core ≡ map (λ (b : Binding). target_for server.config.addresses b.uri)
        (live (aor_of uri) now rows) }
    ensures hop { (server : Server) (rows : List Binding) (state : ProxyState) (now : ℕ) (m : Message) (method : List ℕ) (core : CoreFields)
        (id : ℕ) (hop : ℕ) (uri : Uri) (address : Addr)
        → is_register method ≡ false → decision_on server state now m method core ≡ Decision.Via id hop
        → request_uri_of server.config.own m ≡ Some uri → hop_of server.config.hops hop ≡ Some address
        → targets_on server rows state now m method core ≡ record { uri = uri; address = Some address } ∷ [] }
    ensures none_of_register { (server : Server) (rows : List Binding) (state : ProxyState) (now : ℕ) (m : Message) (method : List ℕ)
        (core : CoreFields)
        → is_register method ≡ true → targets_on server rows state now m method core ≡ [] }
{}

/// Where no user has a key by SHA-256 a challenge is one field, by MD5, as before there was another algorithm.
pub fn md5_alone_is_unchanged()
    ensures { (server : Server) (a : Arrival) (q : Question) → AllByRecursion HasMd5Alone server.config.users
        → challenges_to server a q ≡ record {
          name = challenge_name q.operation;
          value = challenge Md5 server.config.realm
              (nonce_text a.word) (is_stale q.proof);
        } ∷ [] }
{}
