ghost use Rattle.std.specs.Prelude.{◌≡◌, [], ◌∷◌, codes, true, Some, None, Err};
ghost use Rattle.sip_message_fields.specs.declared.field_name.FieldName.TheVariants as Name;
ghost use Rattle.sip_hops.specs.Examples.{local};
ghost use Rattle.sip_message_form.specs.declared.error.ReadError.TheVariants as Unread;
ghost use Rattle.sip_location.specs.declared.error.LocationError.TheVariants.{BadStar, TooBrief, OldCSeq, TooMany};
ghost use Rattle.sip_edit.specs.OnwardExamples as Onward;
ghost use Rattle.model_context.specs.Calls;
ghost use Rattle.model_verdict.specs.Verdict.{Refused, Drop, Answer, message_verdict, refused_by, found_for_cancel};
ghost use Rattle.model_verdict.specs.Examples;
ghost use Rattle.test_definitions.specs.Refusals.{open_cancel, open_ack, requiring, said_by};

/// The status that refuses a registration (RFC 3261 10.3): 400 for a bad `*` (step 6), 423 for an interval that is too brief (step
/// 7), with Min-Expires (20.23), 500 for an old CSeq (step 7), and 503 for more bindings than there is room for.
pub fn registrations()
    ensures bad_star { refused_by BadStar ≡ Refused 400 [] }
    ensures brief { refused_by TooBrief ≡ Refused 423 (record { name = Name.MinExpires; value = codes "60" } ∷ []) }
    ensures old { refused_by OldCSeq ≡ Refused 500 [] }
    ensures many { refused_by TooMany ≡ Refused 503 [] }
{}

/// A request that needs an extension gets 420, which names it in Unsupported (RFC 3261 8.2.2.3, 16.3 step 5).
#[tactic(auto, unfolding(sip_uri::specs::Reading::reading_of, sip_uri::specs::Reading::rest_of, sip_header::specs::CoreFields::core_in))]
pub fn extensions()
    ensures { Examples.verdict_on (Examples.knowing [] []) (requiring (codes "100rel"))
        ≡ Answer 420 (record { name = Name.Unsupported; value = codes "100rel" } ∷ []) }
{}

/// An ACK that the checks refuse isn't sent on, also in its dialog (RFC 3261 16.3), and nothing answers it.
#[tactic(auto, unfolding(sip_uri::specs::Reading::reading_of, sip_uri::specs::Reading::rest_of, sip_header::specs::CoreFields::core_in))]
pub fn acks()
    ensures { message_verdict Calls.sample (Examples.knowing (Examples.accepted ∷ []) (Examples.call ∷ [])) (Examples.arriving_from (local 5070))
        Examples.ack true ≡ Drop }
{}

/// A CANCEL cancels neither a CANCEL nor an ACK (RFC 3261 9.1, 9.2), though they have the branch of their INVITE.
pub fn cancels()
    ensures cancel { found_for_cancel (Examples.knowing (open_cancel ∷ Calls.one_target ∷ []) []) Calls.one_target.key (local 5070)
        ≡ Some Calls.one_target }
    ensures ack { found_for_cancel (Examples.knowing (open_ack ∷ Calls.one_target ∷ []) []) Calls.one_target.key (local 5070)
        ≡ Some Calls.one_target }
    ensures alone { found_for_cancel (Examples.knowing (open_cancel ∷ []) []) Calls.one_target.key (local 5070) ≡ None }
{}

/// A request whose body came short is a bad one (RFC 3261 18.3), by what is read of its datagram; where 1,024 are open, the checks
/// still come first.
#[tactic(auto, unfolding(sip_uri::specs::Reading::reading_of, sip_uri::specs::Reading::rest_of, sip_header::specs::CoreFields::core_in))]
pub fn short_bodies()
    ensures read { said_by (Err (Unread.ShortBody Onward.invite)) ≡ Some (Answer 400 []) }
    ensures full { message_verdict Calls.sample (Examples.knowing (Examples.times 1024 Calls.one_target) []) (Examples.arriving_from (local 5070))
        Onward.text_message true ≡ Answer 400 [] }
    ensures cancel { message_verdict Calls.sample (Examples.knowing (Examples.times 1024 Calls.one_target) []) (Examples.arriving_from (local 5070))
        (Examples.cancel_with Examples.invite_via) true ≡ Answer 400 [] }
{}
