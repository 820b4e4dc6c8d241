ghost use Rattle.std.specs.Prelude.{◌≡◌, [], ◌∷◌, codes, map, length};
ghost use Rattle.sip_audit.specs.Lines.{line_of};
ghost use Rattle.sip_hops.specs.Examples.{local};
ghost use Rattle.sip_digest.specs.declared.nonces.Nonce.{Nonce};
ghost use Rattle.sip_edit_response.specs.Examples as Replies;
ghost use Rattle.sip_edit.specs.OnwardExamples as Onward;
ghost use Rattle.sip_event.specs.declared.packet.Packet.{Packet};
ghost use Rattle.sip_model.specs.steps_model.Examples.{calling, first_lines, knowing, packet_of, seen};
ghost use Rattle.model_laws.specs.TwoConfigurations;

/// Who isn't a user can't register: no rule is for his address, so he is denied by rule 0. Once he is one he is challenged, answers,
/// and is registered.
pub fn new_user_registers()
    ensures denied { first_lines TwoConfigurations.unknown ≡ codes "SIP/2.0 403 Forbidden" ∷ [] }
    ensures by_no_rule { map line_of TwoConfigurations.unknown.records ≡ codes "1000 1 REGISTER - Mufasa@host.com register 0 deny" ∷ [] }
    ensures challenged { map line_of TwoConfigurations.challenged.records ≡ codes "2000 2 REGISTER - Mufasa@host.com register - challenge 401" ∷ [] }
    ensures let_through { map line_of TwoConfigurations.registered.records
        ≡ codes "3000 3 REGISTER Mufasa Mufasa@host.com register 1 answer 200" ∷ [] }
    ensures bound { length TwoConfigurations.registered.state.bindings ≡ 1 }
{}

/// Nobody reaches a user who is gone, though his binding lives: what comes for him gets 404. His bindings stay as they are until
/// they expire. So where he is a user again before that, also with another password, his old phone rings again.
pub fn gone_user_is_not_called()
    ensures not_found { first_lines (TwoConfigurations.message_under TwoConfigurations.after_help) ≡ codes "SIP/2.0 404 Not Found" ∷ [] }
    ensures let_through { map line_of (TwoConfigurations.message_under TwoConfigurations.after_help).records
        ≡ codes "5000 4 MESSAGE - help@host.com send 4 answer 404" ∷ [] }
    ensures bound { (TwoConfigurations.message_under TwoConfigurations.after_help).state.bindings ≡ (knowing (codes "5082" ∷ [])).bindings }
    ensures returned { first_lines TwoConfigurations.message_again ≡ codes "MESSAGE sip:help@127.0.0.1:5082 SIP/2.0" ∷ [] }
{}

/// A rule that is turned denies the next call, and the Warning of the 403 names it by its number in the new rules, though a rule of
/// that number was another one before.
pub fn turned_rule_denies()
    ensures sent { first_lines (calling (codes "5082" ∷ [])) ≡ codes "SIP/2.0 100 Trying" ∷ codes "INVITE sip:help@127.0.0.1:5082 SIP/2.0" ∷ [] }
    ensures denied { TwoConfigurations.second_call.originals ≡ packet_of 5070 5 0 TwoConfigurations.second_denied ∷ [] }
    ensures recorded { map line_of TwoConfigurations.second_call.records ≡ codes "62100 5 INVITE - help@host.com send 3 deny" ∷ [] }
{}

/// An INVITE that is open when everything is denied goes on: it goes again to the same phone in the same bytes, its 180 goes to the
/// caller, and his CANCEL to the phone.
pub fn open_call_goes_on()
    ensures again { map (λ (p : Packet). p.bytes) (TwoConfigurations.again_under TwoConfigurations.closed (calling (codes "5082" ∷ [])).state)
        ≡ Onward.onward_invite_text ∷ [] }
    ensures phone { map (λ (p : Packet). p.to) (TwoConfigurations.again_under TwoConfigurations.closed (calling (codes "5082" ∷ [])).state)
        ≡ local 5082 ∷ [] }
    ensures rings { first_lines TwoConfigurations.rings ≡ codes "SIP/2.0 180 Ringing" ∷ [] }
    ensures given_up { first_lines TwoConfigurations.given_up ≡ codes "SIP/2.0 200 OK" ∷ codes "CANCEL sip:help@127.0.0.1:5082 SIP/2.0" ∷ [] }
{}

/// Who is denied now can't call, and hangs up in a call that began before: his BYE goes where the dialog holds, and ends it.
pub fn denied_user_hangs_up()
    ensures denied { map line_of TwoConfigurations.calls_more.records ≡ codes "63900 6 INVITE - help@host.com send 0 deny" ∷ [] }
    ensures forwarded { first_lines TwoConfigurations.hangs_up ≡ codes "BYE sip:help@127.0.0.1:5082 SIP/2.0" ∷ [] }
    ensures ended { TwoConfigurations.hung_up.state.dialogs ≡ [] }
{}

/// A dialog holds the address that a host had when it was told. While the host has that, the BYE to its name goes there; once it has
/// another one, that isn't of the dialog: 481.
pub fn moved_host_is_not_in_the_dialog()
    ensures stays { map (λ (p : Packet). p.to) (TwoConfigurations.hangs_up_while 5083).originals ≡ local 5083 ∷ [] }
    ensures moved { first_lines (TwoConfigurations.hangs_up_while 5084) ≡ codes "SIP/2.0 481 Call/Transaction Does Not Exist" ∷ [] }
{}

/// An answer by a key of before is wrong, and not stale, and uses no count of its nonce up: by the new key the first count is right.
pub fn changed_key_is_wrong()
    ensures wrong { seen TwoConfigurations.by_old_key ≡ (5062, 0, 348) ∷ [] }
    ensures challenged { map line_of TwoConfigurations.by_old_key.records ≡ codes "2000 2 REGISTER - Mufasa@host.com register - challenge 401" ∷ [] }
    ensures unspent { map (λ (row : Nonce). row.count) TwoConfigurations.by_old_key.state.nonces ≡ 0 ∷ 0 ∷ [] }
    ensures right { map line_of TwoConfigurations.by_new_key.records ≡ codes "3000 3 REGISTER Mufasa Mufasa@host.com register 1 answer 200" ∷ [] }
{}

/// A window opens by the offset that is in force: what is 7:59 an hour ahead of UTC is 8:59 two hours ahead.
pub fn window_opens_by_the_new_offset()
    ensures before { map line_of TwoConfigurations.before_day.records ≡ codes "25199998 1 INVITE - help@host.com send - challenge 407" ∷ [] }
    ensures open { map line_of TwoConfigurations.by_day_now.records ≡ codes "25199999 2 INVITE - help@host.com send 4@539 answer 480" ∷ [] }
{}

/// Once some user has a key by SHA-256, a challenge has a field by each algorithm; before, it has one.
pub fn sha256_is_offered_from_now_on()
    ensures by_md5 { TwoConfigurations.first_challenge.originals ≡ packet_of 5062 1 0 Replies.challenged_text ∷ [] }
    ensures by_both { TwoConfigurations.second_challenge.originals ≡ packet_of 5062 2 0 TwoConfigurations.challenged_by_both ∷ [] }
{}
