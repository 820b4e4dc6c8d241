ghost use Rattle.std.specs.Prelude.{◌≡◌, codes, false, None};
ghost use Rattle.sip_event.specs.declared.event.Event.TheVariants.{Datagram};
ghost use Rattle.sip_message_form.specs.Text.{text_of};
ghost use Rattle.sip_hops.specs.Examples.{local};
ghost use Rattle.sip_edit_response.specs.Examples.{register};
ghost use Rattle.sip_edit.specs.OnwardExamples.{invite};
ghost use Rattle.sip_model.specs.state.State.{first_state};
ghost use Rattle.sip_validate.specs.Refusal.{refusal_of};
ghost use Rattle.sip_model.specs.steps_model.Examples.{sample, arriving_at};
ghost use Rattle.sip_model.specs.steps_model.Step.{Given};
ghost use Rattle.sip_model.specs.Access.{IsSaidAt};
ghost use Rattle.model_laws.specs.Valid.{SaysNewRequest};

/// Requests pass the checks: an INVITE and a REGISTER of the worked examples are refused by none of them, and as the
/// first datagram each says a request that is valid, new and outside a dialog. So what a law says of such requests, it
/// says of some.
pub fn validity_is_not_empty()
    ensures invite { refusal_of sample.config.own invite false ≡ None }
    ensures register { refusal_of sample.config.own register false ≡ None }
    ensures new_invite { SaysNewRequest sample (first_state 1) (text_of invite) invite (codes "INVITE") }
    ensures new_register { SaysNewRequest sample (first_state 1) (text_of register) register (codes "REGISTER") }
    ensures comes { IsSaidAt (first_state 1) (Given (Datagram 1000 1 (local 5070) (text_of invite))) (arriving_at 1 1000 5070)
        (text_of invite) invite false }
{}
