//! Worked examples of steps, as contracts that compute to the byte: registrations, calls and their forks, CANCELs, dialogs.
ghost use Rattle.std.specs.Prelude.{◌≡◌, ◌∷◌, [], codes, length, map};
ghost use Rattle.sip_audit.specs.Lines.{line_of};
ghost use Rattle.sip_edit_response.specs.Examples as Replies;
ghost use Rattle.sip_edit_response.specs.ExtrasExamples as Extras;
ghost use Rattle.model_verdict.specs.edit.OnwardExamples as Onward;
ghost use Rattle.sip_event.specs.declared.packet.Packet.{Packet};
ghost use Rattle.sip_hops.specs.Examples as Places;
ghost use Rattle.model_steps.specs.Examples;

/// A REGISTER without credentials gets the 401 of 348 bytes, to the byte, at the port of its Via, and
/// nothing else.
pub fn first_challenge()
    ensures sends { Examples.challenge_effect.originals ≡ Examples.packet_of 5062 1 0 Replies.challenged_text ∷ [] }
    ensures length { length Replies.challenged_text ≡ 348 }
    ensures audit { map line_of Examples.challenge_effect.records ≡ codes "1000 1 REGISTER - Mufasa@host.com register - challenge 401" ∷ [] }
{}

/// The same REGISTER again, with a right credential, gets the 200 of 267 bytes.
pub fn registered()
    ensures sends { Examples.seen Examples.register_effect ≡ (5062, 0, 267) ∷ [] }
    ensures answer { Examples.first_lines Examples.register_effect ≡ codes "SIP/2.0 200 OK" ∷ [] }
    ensures audit { map line_of Examples.register_effect.records ≡ codes "2000 2 REGISTER Mufasa Mufasa@host.com register 1 answer 200" ∷ [] }
{}

/// An INVITE to an address that rule 3 denies gets the 403 of 280 bytes that names the rule.
pub fn vault_denied()
    ensures sends { Examples.vault_effect.originals ≡ Examples.packet_of 5070 1 0 Extras.denied_text ∷ [] }
    ensures audit { map line_of Examples.vault_effect.records ≡ codes "1000 1 INVITE - vault@host.com send 3 deny" ∷ [] }
{}

/// A MESSAGE to a user with one binding goes there, to the byte, without a 100 and without Record-Route.
pub fn message_to_help()
    ensures sends { Examples.message_sent.originals ≡ Examples.packet_of 5082 3 1 Onward.onward_message_text ∷ [] }
    ensures length { length Onward.onward_message_text ≡ 321 }
    ensures audit { map line_of Examples.message_sent.records ≡ codes "5000 3 MESSAGE - help@host.com send 4 sent 1" ∷ [] }
{}

/// An INVITE to a user with one binding: the caller gets a 100 of 210 bytes, and the INVITE of 394 bytes
/// goes to the binding. Without an answer it counts as 408 at 94,000, which goes to the caller in 242 bytes;
/// at 126,000 the request leaves.
pub fn no_answer()
    ensures called { Examples.seen (Examples.calling (codes "5082" ∷ [])) ≡ (5070, 0, 210) ∷ (5082, 1, 394) ∷ [] }
    ensures audit { map line_of (Examples.calling (codes "5082" ∷ [])).records ≡ codes "62000 4 INVITE - help@host.com send 4 sent 1" ∷ [] }
    ensures timeout { Examples.seen (Examples.passing (Examples.calling (codes "5082" ∷ [])).state 94000) ≡ (5070, 0, 242) ∷ [] }
    ensures left { (Examples.passing (Examples.passing (Examples.calling (codes "5082" ∷ [])).state 94000).state 126000).state.requests ≡ [] }
{}

/// The one binding rings at 63,000 and does nothing more: at 248,000 it is sent a CANCEL of 235 bytes, and
/// at 280,000 it counts as 487, which goes to the caller in 245 bytes.
pub fn timer_c()
    ensures rings { Examples.first_lines (Examples.hearing (Examples.calling (codes "5082" ∷ [])).state 63000 (Examples.ringing_from 1))
        ≡ codes "SIP/2.0 180 Ringing" ∷ [] }
    ensures cancelled { Examples.seen
        (Examples.passing (Examples.hearing (Examples.calling (codes "5082" ∷ [])).state 63000 (Examples.ringing_from 1)).state 248000)
        ≡ (5082, 0, 235) ∷ [] }
    ensures given_up { Examples.seen
        (Examples.passing (Examples.passing (Examples.hearing (Examples.calling (codes "5082" ∷ [])).state 63000
        (Examples.ringing_from 1)).state 248000).state 280000) ≡ (5070, 0, 245) ∷ [] }
{}

/// Three bindings. The first is busy and the second declines: each gets an ACK, and nobody a CANCEL, since
/// nothing was heard of the third. When that rings, it gets its CANCEL; when it ends, the 603 goes up.
pub fn decline_wins()
    ensures busy { Examples.first_lines (Examples.hearing (Examples.calling (codes "5082" ∷ codes "5083" ∷ codes "5084" ∷ [])).state 63000
        (Examples.answer_with 1 486 (codes "Busy Here") [])) ≡ codes "ACK sip:help@127.0.0.1:5082 SIP/2.0" ∷ [] }
    ensures declines { Examples.first_lines (Examples.hearing
        (Examples.hearing (Examples.calling (codes "5082" ∷ codes "5083" ∷ codes "5084" ∷ [])).state 63000
        (Examples.answer_with 1 486 (codes "Busy Here") [])).state 63100 (Examples.answer_with 2 603 (codes "Decline") []))
        ≡ codes "ACK sip:help@127.0.0.1:5083 SIP/2.0" ∷ [] }
    ensures rings { Examples.first_lines
        (Examples.hearing (Examples.hearing (Examples.hearing (Examples.calling (codes "5082" ∷ codes "5083" ∷ codes "5084" ∷ [])).state
        63000 (Examples.answer_with 1 486 (codes "Busy Here") [])).state 63100 (Examples.answer_with 2 603 (codes "Decline") [])).state
        63200 (Examples.ringing_from 3)) ≡ codes "SIP/2.0 180 Ringing" ∷ codes "CANCEL sip:help@127.0.0.1:5084 SIP/2.0" ∷ [] }
    ensures ends { Examples.first_lines
        (Examples.hearing (Examples.hearing (Examples.hearing
        (Examples.hearing (Examples.calling (codes "5082" ∷ codes "5083" ∷ codes "5084" ∷ [])).state 63000
        (Examples.answer_with 1 486 (codes "Busy Here") [])).state 63100 (Examples.answer_with 2 603 (codes "Decline") [])).state 63200
        (Examples.ringing_from 3)).state 63300 (Examples.answer_with 3 487 (codes "Request Terminated") []))
        ≡ codes "ACK sip:help@127.0.0.1:5084 SIP/2.0" ∷ codes "SIP/2.0 603 Decline" ∷ [] }
{}

/// A copied INVITE gets its denial again, or its 100, and nothing for the first time, and changes nothing; an
/// ACK of the denial gets nothing, nor does a copy after it, nor one of an INVITE that was accepted. A further
/// 603 behind a 486 gets the ACK of that again; a 200 behind one, and a 486 behind a 200, get none.
pub fn goes_again()
    ensures copied { Examples.lines_again (Examples.asking Examples.vault_effect.state 1700 Examples.to_vault) ≡ codes "SIP/2.0 403 Forbidden" ∷ [] }
    ensures no_original { (Examples.asking Examples.vault_effect.state 1700 Examples.to_vault).originals ≡ [] }
    ensures unchanged { (Examples.asking Examples.vault_effect.state 1700 Examples.to_vault).state.requests ≡ Examples.vault_effect.state.requests }
    ensures tried { Examples.lines_again (Examples.asking (Examples.calling (codes "5082" ∷ [])).state 62100 Onward.invite)
        ≡ codes "SIP/2.0 100 Trying" ∷ [] }
    ensures acknowledged { Examples.lines_again (Examples.asking Examples.vault_effect.state 1700 Examples.vault_ack) ≡ [] }
    ensures then_copied { Examples.lines_again (Examples.asking (Examples.asking Examples.vault_effect.state 1700 Examples.vault_ack).state
        1800 Examples.to_vault) ≡ [] }
    ensures accepted { Examples.lines_again (Examples.asking Examples.in_call 63500 Onward.invite) ≡ [] }
    ensures busy { Examples.lines_again
        (Examples.hearing (Examples.hearing (Examples.calling (codes "5082" ∷ codes "5083" ∷ [])).state 63000
        (Examples.answer_with 1 486 (codes "Busy Here") [])).state 63500 (Examples.answer_with 1 603 (codes "Decline") []))
        ≡ codes "ACK sip:help@127.0.0.1:5082 SIP/2.0" ∷ [] }
    ensures success_again { Examples.lines_again
        (Examples.hearing (Examples.hearing (Examples.calling (codes "5082" ∷ codes "5083" ∷ [])).state 63000
        (Examples.answer_with 1 486 (codes "Busy Here") [])).state 63500 (Examples.accepted_from 1)) ≡ [] }
    ensures after_success { Examples.lines_again (Examples.hearing Examples.in_call 63500 (Examples.answer_with 1 486 (codes "Busy Here") [])) ≡ [] }
{}

/// Two bindings ring and both answer: the first 200 goes up and the other binding gets a CANCEL; the second
/// 200 goes up, too.
pub fn two_answers()
    ensures first { Examples.first_lines
        (Examples.hearing (Examples.hearing (Examples.hearing (Examples.calling (codes "5082" ∷ codes "5083" ∷ [])).state 63000
        (Examples.ringing_from 1)).state 63100 (Examples.ringing_from 2)).state 63200 (Examples.accepted_from 1)) ≡ codes "SIP/2.0 200 OK"
        ∷ codes "CANCEL sip:help@127.0.0.1:5083 SIP/2.0" ∷ [] }
    ensures second { Examples.first_lines
        (Examples.hearing (Examples.hearing (Examples.hearing
        (Examples.hearing (Examples.calling (codes "5082" ∷ codes "5083" ∷ [])).state 63000 (Examples.ringing_from 1)).state 63100
        (Examples.ringing_from 2)).state 63200 (Examples.accepted_from 1)).state 63300 (Examples.accepted_from 2)) ≡ codes "SIP/2.0 200 OK" ∷ [] }
    ensures dialog { length
        (Examples.hearing (Examples.hearing (Examples.hearing
        (Examples.hearing (Examples.calling (codes "5082" ∷ codes "5083" ∷ [])).state 63000 (Examples.ringing_from 1)).state 63100
        (Examples.ringing_from 2)).state 63200 (Examples.accepted_from 1)).state 63300 (Examples.accepted_from 2)).state.dialogs ≡ 1 }
{}

/// The caller cancels before any answer: 200, and nobody gets a CANCEL until the binding rings. From
/// another IP address the CANCEL names nothing: 481.
pub fn cancel()
    ensures answered { Examples.first_lines (Examples.cancelled_call (Examples.calling (codes "5082" ∷ [])).state (Places.local 5070))
        ≡ codes "SIP/2.0 200 OK" ∷ [] }
    ensures rings { Examples.first_lines
        (Examples.hearing (Examples.cancelled_call (Examples.calling (codes "5082" ∷ [])).state (Places.local 5070)).state 63000
        (Examples.ringing_from 1)) ≡ codes "SIP/2.0 180 Ringing" ∷ codes "CANCEL sip:help@127.0.0.1:5082 SIP/2.0" ∷ [] }
    ensures from_elsewhere { Examples.first_lines (Examples.cancelled_call (Examples.calling (codes "5082" ∷ [])).state
        (record (Places.local 5070) { ip = 127 ∷ 0 ∷ 0 ∷ 2 ∷ [] })) ≡ codes "SIP/2.0 481 Call/Transaction Does Not Exist" ∷ [] }
{}

/// Two bindings. The first can not be sent to, then the second answers 404, which goes up. Where neither can
/// be sent to, a 500 goes up. After the first rang, a fault changes nothing.
pub fn send_faults()
    ensures one { Examples.first_lines (Examples.failing (Examples.calling (codes "5082" ∷ codes "5083" ∷ [])).state 1) ≡ [] }
    ensures then { Examples.first_lines
        (Examples.hearing (Examples.failing (Examples.calling (codes "5082" ∷ codes "5083" ∷ [])).state 1).state 63000
        (Examples.answer_with 2 404 (codes "Not Found") [])) ≡ codes "ACK sip:help@127.0.0.1:5083 SIP/2.0" ∷ codes "SIP/2.0 404 Not Found" ∷ [] }
    ensures both { Examples.first_lines
        (Examples.failing (Examples.failing (Examples.calling (codes "5082" ∷ codes "5083" ∷ [])).state 1).state 2)
        ≡ codes "SIP/2.0 500 Server Internal Error" ∷ [] }
    ensures late { Examples.first_lines
        (Examples.failing (Examples.hearing (Examples.calling (codes "5082" ∷ codes "5083" ∷ [])).state 63000
        (Examples.ringing_from 1)).state 1) ≡ [] }
{}

/// The same REGISTER with a right credential of another user matches no rule: 403 by rule 0.
pub fn third_party_register()
    ensures answer { Examples.first_lines (Examples.registering_by (Examples.alices (codes "REGISTER") (codes "sip:host.com")))
        ≡ codes "SIP/2.0 403 Forbidden" ∷ [] }
    ensures audit { map line_of (Examples.registering_by (Examples.alices (codes "REGISTER") (codes "sip:host.com"))).records
        ≡ codes "2000 2 REGISTER alice Mufasa@host.com register 0 deny" ∷ [] }
    ensures unbound { (Examples.registering_by (Examples.alices (codes "REGISTER") (codes "sip:host.com"))).state.bindings ≡ [] }
{}

/// The REGISTER that was accepted, once more after its transaction ended: its count was used, so it gets the
/// 401 of 360 bytes, and the binding stays.
pub fn stale_challenge()
    ensures sends { Examples.seen Examples.stale_effect ≡ (5062, 0, 360) ∷ [] }
    ensures audit { map line_of Examples.stale_effect.records ≡ codes "40000 4 REGISTER - Mufasa@host.com register - challenge 401" ∷ [] }
    ensures bound { length Examples.stale_effect.state.bindings ≡ 1 }
{}

/// Mufasa calls 911: one INVITE, with that Request-URI, to the gateway at port 5090 by rule 5. alice is not of
/// the staff: rule 6 lets her through, and there is no such user: 404. Mufasa has no live binding: 480.
pub fn calls_of_proven_users()
    ensures gateway { Examples.first_lines (Examples.calling_by Examples.to_911 (Examples.mufasas (codes "INVITE") Examples.to_911))
        ≡ codes "SIP/2.0 100 Trying" ∷ codes "INVITE sip:911@host.com SIP/2.0" ∷ [] }
    ensures port { map (λ p. p.to) (Examples.calling_by Examples.to_911 (Examples.mufasas (codes "INVITE") Examples.to_911)).originals
        ≡ Places.local 5070 ∷ Places.local 5090 ∷ [] }
    ensures audit { map line_of (Examples.calling_by Examples.to_911 (Examples.mufasas (codes "INVITE") Examples.to_911)).records
        ≡ codes "2000 2 INVITE Mufasa 911@host.com send 5 sent 1" ∷ [] }
    ensures no_user { map line_of (Examples.calling_by Examples.to_911 (Examples.alices (codes "INVITE") Examples.to_911)).records
        ≡ codes "2000 2 INVITE alice 911@host.com send 6 answer 404" ∷ [] }
    ensures no_binding { map line_of (Examples.calling_by (codes "sip:Mufasa@host.com")
        (Examples.alices (codes "INVITE") (codes "sip:Mufasa@host.com"))).records
        ≡ codes "2000 2 INVITE alice Mufasa@host.com send 6 answer 480" ∷ [] }
{}

/// In the call a BYE with another To tag gets 481, and so does one to an address that the dialog does not
/// hold. One with this server in Route goes to the address that it holds, without that Route. After its 200
/// the dialog is over.
pub fn dialog_targets()
    ensures other_tag { Examples.first_lines (Examples.asking Examples.in_call 64000 (Examples.bye Examples.help_text (codes "t9") []))
        ≡ codes "SIP/2.0 481 Call/Transaction Does Not Exist" ∷ [] }
    ensures other_address { Examples.first_lines (Examples.asking Examples.in_call 64000
        (Examples.bye (codes "sip:help@127.0.0.1:9") (codes "t1") []))
        ≡ codes "SIP/2.0 481 Call/Transaction Does Not Exist" ∷ [] }
    ensures forwarded { Examples.first_lines (Examples.asking Examples.in_call 64000
        (Examples.bye Examples.help_text (codes "t1") (Examples.own_route ∷ []))) ≡ codes "BYE sip:help@127.0.0.1:5082 SIP/2.0" ∷ [] }
    ensures ended { (Examples.hearing (Examples.asking Examples.in_call 64000
        (Examples.bye Examples.help_text (codes "t1") (Examples.own_route ∷ []))).state 64100 Examples.bye_accepted).state.dialogs ≡ [] }
{}

/// The ACK of the 200 goes to the binding in 320 bytes, without a transaction. To an address that the dialog
/// does not hold it goes nowhere.
pub fn ack_in_dialog()
    ensures forwarded { Examples.seen (Examples.asking Examples.in_call 63500 (Examples.acknowledging Examples.help_text)) ≡ (5082, 0, 320) ∷ [] }
    ensures dropped { Examples.seen (Examples.asking Examples.in_call 63500 (Examples.acknowledging (codes "sip:help@127.0.0.1:9"))) ≡ [] }
{}

/// A BYE in the call to an address that the dialog does not hold is answered 481, and doesn't renew the dialog, which is known
/// since the INVITE came.
pub fn refused_requests_renew_no_dialog()
    ensures { map (λ d. d.since) (Examples.asking Examples.in_call 64000
        (Examples.bye (codes "sip:help@127.0.0.1:9") (codes "t1") [])).state.dialogs ≡ 62000 ∷ [] }
{}

/// Without any request in it, the dialog is known for less than twelve hours after the INVITE came.
pub fn dialog_lifetime()
    ensures last { Examples.first_lines (Examples.asking Examples.in_call 43261999 (Examples.bye Examples.help_text (codes "t1") []))
        ≡ codes "BYE sip:help@127.0.0.1:5082 SIP/2.0" ∷ [] }
    ensures over { Examples.first_lines (Examples.asking Examples.in_call 43262000 (Examples.bye Examples.help_text (codes "t1") []))
        ≡ codes "SIP/2.0 481 Call/Transaction Does Not Exist" ∷ [] }
{}

/// A response goes up to the caller, wherever it came from.
pub fn responses_go_to_the_caller()
    ensures { map (λ (p : Packet). p.to.port) (Examples.hearing (Examples.calling (codes "5082" ∷ [])).state 63000
        (Examples.answer_with 1 200 (codes "OK") [])).originals ≡ 5070 ∷ [] }
{}
