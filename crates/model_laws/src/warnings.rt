ghost use Rattle.std.specs.Prelude.{◌≡◌, ◌<◌, ◌^◌, ◌∷◌, [], ℕ, Contains};
ghost use Rattle.sip_uri.specs.declared.addr.Addr.{Addr};
ghost use Rattle.sip_message_form.specs.declared.message.Message.{Message};
ghost use Rattle.sip_route.specs.declared.own.Own.{Own};
ghost use Rattle.sip_model.specs.state.declared.server.Server.{Server};
ghost use Rattle.sip_edit_response.specs.Extras.{denial_warning};
ghost use Rattle.sip_model.specs.context_model.Sending.{made_answer};

/// The Warning of a 403 names one rule: two rules, whose numbers fit 32 bits, have two Warnings (RFC 3261 20.43). And
/// the 403 has it.
pub fn two_rules_have_two_warnings()
    ensures differ { (own : Own) (one two : ℕ) → one < 2 ^ 32 → two < 2 ^ 32 → denial_warning own one ≡ denial_warning own two → one ≡ two }
    ensures told { (server : Server) (number : ℕ) (m : Message) (from : Addr) (rule : ℕ)
        → Contains (made_answer server number m from 403
        (denial_warning server.config.own rule ∷ [])).fields (denial_warning server.config.own rule) }
{}
