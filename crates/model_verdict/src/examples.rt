//! Worked examples of verdicts, as contracts that compute: which open request or branch a datagram belongs to, and what a new one gets.
ghost use Rattle.std.specs.Prelude.{◌≡◌, ◌∷◌, [], codes, Some, None, true, false};
ghost use Rattle.sip_hops.specs.Examples.{local};
ghost use Rattle.model_context.specs.edit_response.Examples.{register};
ghost use Rattle.model_context.specs.edit.OnwardExamples as Onward;
ghost use Rattle.sip_dialog.specs.Examples as Dialogs;
ghost use Rattle.sip_targets.specs.Examples.{help_contact};
ghost use Rattle.sip_targets.specs.declared.targets.Targets.{Targets};
ghost use Rattle.model_context.specs.Calls;
ghost use Rattle.model_verdict.specs.Verdict.{Drop, Respond, Copy, AckOn, Cancel, Answer, InDialog, Challenge, Send, message_verdict};
ghost use Rattle.model_verdict.specs.Examples;

/// A response belongs to the branch that its top Via, this server's, names, and that was sent with the
/// method of its CSeq: to the second target or to its CANCEL.
pub fn responses()
    ensures first { Examples.verdict_on Examples.in_fork (Examples.response_with (Examples.both_vias 1) (codes "7 INVITE" ∷ []))
        ≡ Respond Examples.forked Calls.first_branch 180 }
    ensures second { Examples.verdict_on Examples.in_fork (Examples.response_with (Examples.both_vias 2) (codes "7 INVITE" ∷ []))
        ≡ Respond Examples.forked Examples.second_target 180 }
    ensures cancel { Examples.verdict_on Examples.in_fork (Examples.response_with (Examples.both_vias 2) (codes "7 CANCEL" ∷ []))
        ≡ Respond Examples.forked Examples.second_cancel 180 }
    ensures no_target { Examples.verdict_on Examples.in_fork (Examples.response_with (Examples.both_vias 3) (codes "7 INVITE" ∷ [])) ≡ Drop }
    ensures other_method { Examples.verdict_on Examples.in_fork (Examples.response_with (Examples.both_vias 1) (codes "7 BYE" ∷ [])) ≡ Drop }
    ensures other_server { Examples.verdict_on Examples.in_fork
        (Examples.response_with (Examples.invite_via ∷ Examples.own_via 1 ∷ []) (codes "7 INVITE" ∷ [])) ≡ Drop }
    ensures short { message_verdict Calls.sample Examples.in_fork (Examples.arriving_from (local 5082))
        (Examples.response_with (Examples.both_vias 1) (codes "7 INVITE" ∷ [])) true ≡ Drop }
{}

/// A response to a target's request that has no second Via is dropped; one to a CANCEL of this server needs
/// none. A response without a CSeq, or with two of them, is dropped.
pub fn dropped_responses()
    ensures one_via { Examples.verdict_on Examples.in_fork (Examples.response_with (Examples.own_via 1 ∷ []) (codes "7 INVITE" ∷ [])) ≡ Drop }
    ensures to_cancel { Examples.verdict_on Examples.in_fork (Examples.response_with (Examples.own_via 2 ∷ []) (codes "7 CANCEL" ∷ []))
        ≡ Respond Examples.forked Examples.second_cancel 180 }
    ensures no_cseq { Examples.verdict_on Examples.in_fork (Examples.response_with (Examples.both_vias 1) []) ≡ Drop }
    ensures two_cseqs { Examples.verdict_on Examples.in_fork
        (Examples.response_with (Examples.both_vias 1) (codes "7 INVITE" ∷ codes "7 CANCEL" ∷ [])) ≡ Drop }
{}

/// In the call a BYE goes to the first Route that is left without this server's own, and to the Request-URI
/// where none is, if the dialog holds that address; else it gets 481.
#[tactic(auto, unfolding(sip_uri::specs::Reading::reading_of, sip_uri::specs::Reading::rest_of, sip_header::specs::CoreFields::core_in))]
pub fn next_hop()
    ensures request_uri { Examples.verdict_on Examples.in_call (Examples.bye Examples.tagged (Examples.own_route ∷ []))
        ≡ InDialog (local 5082) (Dialogs.call_of (codes "f1") (codes "t1")) }
    ensures route { Examples.verdict_on (Examples.knowing [] (Examples.call_holding (local 5070 ∷ local 5082 ∷ local 5091 ∷ []) ∷ []))
        (Examples.bye Examples.tagged (Examples.own_route ∷ codes "<sip:pc.host.com;lr>" ∷ codes "<sip:127.0.0.1:5070;lr>" ∷ []))
        ≡ InDialog (local 5091) (Dialogs.call_of (codes "f1") (codes "t1")) }
    ensures not_held { Examples.verdict_on Examples.in_call (Examples.bye Examples.tagged
        (Examples.own_route ∷ codes "<sip:pc.host.com;lr>" ∷ [])) ≡ Answer 481 [] }
{}

/// A request with a To tag outside every dialog that is known gets 481: the tag of another call, no dialog
/// at all, or one that was known for twelve hours.
#[tactic(auto, unfolding(sip_uri::specs::Reading::reading_of, sip_uri::specs::Reading::rest_of, sip_header::specs::CoreFields::core_in))]
pub fn outside_dialogs()
    ensures other_tag { Examples.verdict_on Examples.in_call (Examples.bye (codes "<sip:help@host.com>;tag=t9") []) ≡ Answer 481 [] }
    ensures none_known { Examples.verdict_on (Examples.knowing [] []) (Examples.bye Examples.tagged []) ≡ Answer 481 [] }
    ensures over { message_verdict Calls.sample Examples.in_call (record (Examples.arriving_from (local 5070)) { now = 43262000 })
        (Examples.bye Examples.tagged []) false ≡ Answer 481 [] }
    ensures last { message_verdict Calls.sample Examples.in_call (record (Examples.arriving_from (local 5070)) { now = 43261999 })
        (Examples.bye Examples.tagged []) false ≡ InDialog (local 5082) (Dialogs.call_of (codes "f1") (codes "t1")) }
{}

/// A CANCEL finds the INVITE by its branch and both parts of its sent-by, if it comes from the same IP
/// address, from whatever port. Of two requests that it names it finds the earlier.
#[tactic(auto, unfolding(sip_uri::specs::Reading::reading_of, sip_uri::specs::Reading::rest_of, sip_header::specs::CoreFields::core_in))]
pub fn cancels()
    ensures found { Examples.verdict_on Examples.in_invite (Examples.cancel_with Examples.invite_via) ≡ Cancel (Some Calls.one_target) }
    ensures other_port { Examples.verdict_from (local 5099) Examples.in_invite (Examples.cancel_with Examples.invite_via)
        ≡ Cancel (Some Calls.one_target) }
    ensures other_address { Examples.verdict_from (record (local 5070) { ip = 127 ∷ 0 ∷ 0 ∷ 2 ∷ [] }) Examples.in_invite
        (Examples.cancel_with Examples.invite_via) ≡ Cancel None }
    ensures other_host { Examples.verdict_on Examples.in_invite
        (Examples.cancel_with (codes "SIP/2.0/UDP 127.0.0.1:5070;branch=z9hG4bKinv1;rport")) ≡ Cancel None }
    ensures other_sent_by_port { Examples.verdict_on Examples.in_invite
        (Examples.cancel_with (codes "SIP/2.0/UDP pc.host.com:5071;branch=z9hG4bKinv1;rport")) ≡ Cancel None }
    ensures other_branch { Examples.verdict_on Examples.in_invite
        (Examples.cancel_with (codes "SIP/2.0/UDP pc.host.com:5070;branch=z9hG4bKinv2;rport")) ≡ Cancel None }
    ensures earlier { Examples.verdict_on (Examples.knowing (Examples.message_of_branch ∷ Calls.one_target ∷ []) [])
        (Examples.cancel_with Examples.invite_via) ≡ Cancel (Some Examples.message_of_branch) }
    ensures short { message_verdict Calls.sample Examples.in_invite (Examples.arriving_from (local 5070))
        (Examples.cancel_with Examples.invite_via) true ≡ Answer 400 [] }
{}

/// With 1,023 open requests a REGISTER is served: it is challenged. With 1,024 it gets 503, and so does a
/// CANCEL; a copy of an open request is still one.
#[tactic(auto, unfolding(sip_uri::specs::Reading::reading_of, sip_uri::specs::Reading::rest_of, sip_header::specs::CoreFields::core_in))]
pub fn room()
    ensures served { Examples.verdict_on (Examples.knowing (Examples.times 1023 Calls.one_target) []) register
        ≡ Challenge Examples.unproven_register }
    ensures full { Examples.verdict_on (Examples.knowing (Examples.times 1024 Calls.one_target) []) register ≡ Answer 503 [] }
    ensures cancel { Examples.verdict_on (Examples.knowing (Examples.times 1024 Calls.one_target) [])
        (Examples.cancel_with Examples.invite_via) ≡ Answer 503 [] }
    ensures copy { Examples.verdict_on (Examples.knowing (Examples.times 1024 Calls.one_target) []) Onward.invite ≡ Copy Calls.one_target }
{}

/// A copy of an open INVITE or MESSAGE belongs to it, also once it has its final answer; with another sent-by it is
/// a new request, and without a binding of help's it has no target.
#[tactic(auto, unfolding(sip_uri::specs::Reading::reading_of, sip_uri::specs::Reading::rest_of, sip_header::specs::CoreFields::core_in))]
pub fn copies()
    ensures invite { Examples.verdict_on Examples.in_invite Onward.invite ≡ Copy Calls.one_target }
    ensures message { Examples.verdict_on (Examples.knowing (Calls.message_to [] ∷ []) []) Onward.text_message ≡ Copy (Calls.message_to []) }
    ensures answered { Examples.verdict_on (Examples.knowing (Examples.accepted ∷ []) []) Onward.invite ≡ Copy Examples.accepted }
    ensures new { Examples.verdict_on Examples.in_invite (Examples.request_with (codes "INVITE") (codes "sip:help@host.com")
        (codes "SIP/2.0/UDP pc.host.com:5071;branch=z9hG4bKinv1;rport") (codes "<sip:help@host.com>") [])
        ≡ Send Examples.unproven_call 4 Targets.Unavailable }
{}

/// An INVITE to help goes to the binding as long as that lives, and nowhere from the moment at which it expires (RFC 3261 10.3).
#[tactic(auto, unfolding(sip_uri::specs::Reading::reading_of, sip_uri::specs::Reading::rest_of, sip_header::specs::CoreFields::core_in))]
pub fn bindings_expire()
    ensures lives { Examples.verdict_on (Examples.bound_until 64001) Onward.invite
        ≡ Send Examples.unproven_call 4 (Targets.Bindings (record { uri = help_contact; address = Some (local 5082) } ∷ [])) }
    ensures expired { Examples.verdict_on (Examples.bound_until 64000) Onward.invite ≡ Send Examples.unproven_call 4 Targets.Unavailable }
{}

/// An ACK with the key of an INVITE that was answered 486 belongs to it. With the key of one that was
/// answered 200 it is sent on in the dialog, and dropped where none is known.
#[tactic(auto, unfolding(sip_uri::specs::Reading::reading_of, sip_uri::specs::Reading::rest_of, sip_header::specs::CoreFields::core_in))]
pub fn acks()
    ensures refused { Examples.verdict_on (Examples.knowing (Examples.refused ∷ []) (Examples.call ∷ [])) Examples.ack ≡ Copy Examples.refused }
    ensures accepted { Examples.verdict_on (Examples.knowing (Examples.accepted ∷ []) (Examples.call ∷ [])) Examples.ack
        ≡ AckOn (local 5082) (Dialogs.call_of (codes "f1") (codes "t1")) }
    ensures no_dialog { Examples.verdict_on (Examples.knowing (Examples.accepted ∷ []) []) Examples.ack ≡ Drop }
    ensures alone { Examples.verdict_on (Examples.knowing [] []) Examples.ack ≡ Drop }
{}

/// Mufasa, proven, registers by a rule that lets him do so for every user of host.com: alice is bound; nobody
/// of that name, or another domain in the Request-URI, gets 404.
pub fn registrations()
    ensures known { Examples.registers (Examples.registration (codes "sip:host.com") (codes "<sip:alice@host.com>")) ≡ Some (7, 200) }
    ensures unknown { Examples.registers (Examples.registration (codes "sip:host.com") (codes "<sip:nobody@host.com>")) ≡ Some (7, 404) }
    ensures foreign { Examples.registers (Examples.registration (codes "sip:other.net") (codes "<sip:alice@host.com>")) ≡ Some (7, 404) }
{}
