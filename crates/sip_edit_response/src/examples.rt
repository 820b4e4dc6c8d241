ghost use Rattle.std.specs.Prelude.{◌≡◌, ◌∷◌, codes, length, [], true};
ghost use Rattle.sip_message_form.specs.Text.{text_of};
ghost use Rattle.sip_message_fields.specs.declared.field_name.FieldName.TheVariants as Name;
ghost use Rattle.sip_edit_response.specs.Challenges.{challenge_fields};
ghost use Rattle.sip_edit_response.specs.Examples;
ghost use Rattle.sip_edit_response.specs.Reply.{answered_to, reply_of};
ghost use Rattle.sip_edit_response.specs.Tags.{to_tag};

pub mod extras;

/// A To gets a tag, also where its URI has parameters, of which a `tag` is none of the To's; one with a tag, one that
/// can't be read, and that of a 100 stay.
#[tactic(auto, unfolding(sip_uri::specs::Reading::reading_of, sip_uri::specs::Reading::rest_of))]
pub fn to_example()
    ensures parameters { answered_to 200 (codes "t1") (codes "<sip:help@host.com;tag=x>") ≡ codes "<sip:help@host.com;tag=x>;tag=t1" }
    ensures tagged { answered_to 200 (codes "t1") (codes "sip:help@host.com;tag=x") ≡ codes "sip:help@host.com;tag=x" }
    ensures unreadable { answered_to 200 (codes "t1") (codes "<sip:help@host.com;lr;LR>") ≡ codes "<sip:help@host.com;lr;LR>" }
    ensures trying { answered_to 100 (codes "t1") (codes "<sip:help@host.com>") ≡ codes "<sip:help@host.com>" }
{}

/// A 100 and a 200 to an INVITE whose To has a tag and which has no CSeq: the 100 alone has its Timestamp.
pub fn timestamp_example()
    ensures trying { text_of (reply_of Examples.timed_invite 100 (codes "x") []) ≡ codes "SIP/2.0 100 Trying\r\nVia: SIP/2.0/UDP 127.0.0.1;branch=z9hG4bKinv1\r\nVia: SIP/2.0/UDP pc.host.com;branch=z9hG4bKinv0\r\nFrom: <sip:x@away.net>;tag=f1\r\nTo: <sip:help@host.com>;tag=t1\r\nCall-ID: k1\r\nTimestamp: 54\r\nContent-Length: 0\r\n\r\n" }
    ensures ok { text_of (reply_of Examples.timed_invite 200 (codes "x") []) ≡ codes "SIP/2.0 200 OK\r\nVia: SIP/2.0/UDP 127.0.0.1;branch=z9hG4bKinv1\r\nVia: SIP/2.0/UDP pc.host.com;branch=z9hG4bKinv0\r\nFrom: <sip:x@away.net>;tag=f1\r\nTo: <sip:help@host.com>;tag=t1\r\nCall-ID: k1\r\nContent-Length: 0\r\n\r\n" }
{}

/// A REGISTER that is challenged.
pub fn challenge_example()
    ensures text { text_of Examples.challenged ≡ Examples.challenged_text }
    ensures length { length Examples.challenged_text ≡ 348 }
{}

/// The same where SHA-256 is offered; a stale one says so in both fields.
pub fn two_challenges_example()
    ensures text { text_of (Examples.challenged_by (Examples.first_challenge true)) ≡ Examples.challenged_twice_text }
    ensures length { length Examples.challenged_twice_text ≡ 474 }
    ensures stale { challenge_fields Name.ProxyAuthenticate true (codes "r") (codes "n") true
        ≡ record { name = Name.ProxyAuthenticate; value = codes "Digest realm=\"r\", nonce=\"n\", algorithm=SHA-256, qop=\"auth\", stale=true" }
        ∷ record { name = Name.ProxyAuthenticate; value = codes "Digest realm=\"r\", nonce=\"n\", algorithm=MD5, qop=\"auth\", stale=true" }
        ∷ [] }
{}

/// The tag of the first datagram after the boot word 0.
pub fn to_tag_example()
    ensures { to_tag 0 1 ≡ codes "0000000000000000.1" }
{}
