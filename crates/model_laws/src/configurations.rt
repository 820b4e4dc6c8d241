//! What another configuration changes and what it leaves, said of the definitions of a step: open requests go on as they began.
ghost use Rattle.std.specs.Prelude.{◌≡◌, ◌∷◌, [], codes, ℕ, Bool, false, List, Option, None};
ghost use Rattle.std.specs.Option.{option_and_then};
ghost use Rattle.sip_uri.specs.declared.addr.Addr.{Addr};
ghost use Rattle.sip_location.specs.declared.binding.Binding.{Binding};
ghost use Rattle.sip_policy.specs.declared.decision.Decision.{Decision};
ghost use Rattle.sip_policy.specs.User.{is_users_address};
ghost use Rattle.sip_targets.specs.declared.targets.Targets.{Targets};
ghost use Rattle.sip_message_fields.specs.declared.field.Field.{Field};
ghost use Rattle.sip_message_form.specs.declared.message.Message.{Message};
ghost use Rattle.sip_best.specs.declared.final_answer.Final.{Final};
ghost use Rattle.sip_event.specs.declared.event.Event.{Event};
ghost use Rattle.sip_event.specs.declared.event.StepOut.{StepOut};
ghost use Rattle.sip_config_types.specs.declared.config.Config.{Config};
ghost use Rattle.sip_model.specs.state.declared.server.Server.{Server};
ghost use Rattle.sip_model.specs.state.declared.branch.Branch.{Branch};
ghost use Rattle.sip_model.specs.state.declared.open_request.OpenRequest.{OpenRequest};
ghost use Rattle.sip_model.specs.state.declared.proxy_state.ProxyState.{ProxyState};
ghost use Rattle.sip_model.specs.state.State.{first_state};
ghost use Rattle.sip_model.specs.context_model.Branches.{upward_of};
ghost use Rattle.sip_model.specs.context_model.Sending.{ack_packets, branch_packets, made_answer};
ghost use Rattle.sip_model.specs.verdict_model.declared.question.Question.{Question};
ghost use Rattle.sip_model.specs.verdict_model.Verdict.{request_targets, responding};
ghost use Rattle.sip_model.specs.steps_model.Examples.{knowing, sample};
ghost use Rattle.sip_model.specs.steps_model.Step.{Act, IsStep};
ghost use Rattle.sip_model.specs.Run.{Link, IsChain, IsRun, under};
ghost use Rattle.sip_model.specs.Periods.{IsRunUnder};
ghost use Rattle.sip_model.specs.Bindings.{bindings_after};
ghost use Rattle.sip_model.specs.Histories.{Judged, asked_in, judged_at, nonces_after};
ghost use Rattle.sip_model.specs.Access.{Access};
ghost use Rattle.model_laws.specs.TwoPeriods.{both_outs, next_second, two_periods, two_seconds};
ghost use Rattle.model_laws.specs.TwoPeriods.{gone_and_back, once_back, outs_of_both, periods_of_both};
ghost use Rattle.model_laws.specs.WrongRules;

/// Under another configuration a server has its users, rules, offset, hops and host addresses. What it is to others stays, whatever
/// the other one says of it: host, port, IP address and own domains, and the realm; and its word does.
pub fn what_another_configuration_changes()
    ensures own { (server : Server) (config : Config) → (under server config).config.own ≡ server.config.own }
    ensures realm { (server : Server) (config : Config) → (under server config).config.realm ≡ server.config.realm }
    ensures word { (server : Server) (config : Config) → (under server config).word ≡ server.word }
    ensures users { (server : Server) (config : Config) → (under server config).config.users ≡ config.users }
    ensures rules { (server : Server) (config : Config) → (under server config).config.rules ≡ config.rules }
    ensures offset { (server : Server) (config : Config) → (under server config).config.offset ≡ config.offset }
    ensures hops { (server : Server) (config : Config) → (under server config).config.hops ≡ config.hops }
    ensures addresses { (server : Server) (config : Config) → (under server config).config.addresses ≡ config.addresses }
{}

/// An open request goes on as it began, whichever configuration is in force: its requests, CANCELs and ACKs, and the answers that are
/// made to it, are the same bytes to the same addresses, and responses are given to the same branches.
pub fn open_requests_go_on_as_they_began()
    ensures requests { (server : Server) (config : Config) (again : Bool) (r : OpenRequest) (b : Branch)
        → branch_packets (under server config) again r b ≡ branch_packets server again r b }
    ensures acks { (server : Server) (config : Config) (again : Bool) (r : OpenRequest) (b : Branch) (to : Option (List ℕ))
        → ack_packets (under server config) again r b to ≡ ack_packets server again r b to }
    ensures answers { (server : Server) (config : Config) (number : ℕ) (m : Message) (from : Addr) (status : ℕ) (extras : List Field)
        → made_answer (under server config) number m from status extras ≡ made_answer server number m from status extras }
    ensures best { (server : Server) (config : Config) (r : OpenRequest) (best : Final) → upward_of (under server config) r best
        ≡ upward_of server r best }
    ensures responses { (server : Server) (config : Config) (requests : List OpenRequest) (fields : List Field)
        → responding (under server config) requests fields ≡ responding server requests fields }
{}

/// What stands isn't judged again: a step in which policy isn't asked (of a response, a CANCEL, an ACK, a copy, a request of a known
/// dialog, a deadline, what goes again, a send that failed) is one by each configuration by which hosts have the same addresses,
/// whoever its users are, whatever its rules say, and whichever hops it has.
pub fn what_stands_is_not_judged_again()
    ensures { (server : Server) (config : Config) (old new : ProxyState) (act : Act) (out : StepOut)
        → config.addresses ≡ server.config.addresses
        → option_and_then (λ (j : Judged). asked_in j.verdict) (judged_at server old act) ≡ None
        → IsStep server old act out new → IsStep (under server config) old act out new }
{}

/// Who is no user's address in an own domain isn't reached, whatever is bound for it: a request that a rule allows is answered 404.
pub fn who_is_no_user_is_not_reached()
    ensures { (server : Server) (rows : List Binding) (now : ℕ) (m : Message) (q : Question) (id : ℕ)
        → is_users_address server.config.users server.config.own.domains q.target ≡ false
        → request_targets server rows now m q (Decision.Allow id) ≡ Targets.NotFound }
{}

/// What a history bound, and which nonces it knows, doesn't ask which configuration is in force behind it: each REGISTER counts, and
/// each challenge, by the configuration of its own step.
pub fn histories_keep_their_configurations()
    ensures bindings { (server : Server) (config : Config) (history : List Link) → bindings_after (under server config) history
        ≡ bindings_after server history }
    ensures nonces { (server : Server) (config : Config) (history : List Link) → nonces_after (under server config) history
        ≡ nonces_after server history }
{}

/// A step by one configuration and a step behind it by another one are a run under both: each is what its own configuration makes of
/// the datagram, as where a user is gone for the first, and is one again for the next. They are no run of any one server.
pub fn two_configurations_are_no_run()
    ensures under_both { IsRunUnder sample (first_state 1) two_periods None both_outs two_seconds next_second.after }
    ensures gone_and_back { IsRunUnder sample (knowing (codes "5082" ∷ [])) periods_of_both None outs_of_both gone_and_back once_back.after }
    ensures one_history { IsChain sample (knowing (codes "5082" ∷ [])) gone_and_back once_back.after }
    ensures of_none { (server : Server) (events : List Event) (until : Option ℕ) (steps : List StepOut) (last : ProxyState)
        → IsRun server (first_state 1) events until steps two_seconds last → ⊥ }
{}

/// No step goes by the rules of before: what they let through isn't sent, and neither a Warning nor a record names a rule of theirs.
pub fn steps_go_by_the_rules_in_force()
    ensures sent { (after : ProxyState) (earlier : List Link) → Access sample (WrongRules.sent_as_before after ∷ earlier) → ⊥ }
    ensures warned { (after : ProxyState) (earlier : List Link) → Access sample (WrongRules.denied_as_before after ∷ earlier) → ⊥ }
    ensures recorded { (after : ProxyState) (earlier : List Link) → Access sample (WrongRules.recorded_as_before after ∷ earlier) → ⊥ }
{}
