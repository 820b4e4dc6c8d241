ghost use Rattle.std.specs.Prelude.{◌≡◌, [], ◌∷◌, codes, true, false, map, replicate, Some, None};
ghost use Rattle.sip_message_fields.specs.declared.field_name.FieldName.TheVariants as Name;
ghost use Rattle.sip_header.specs.FieldExamples.{fields_of};
ghost use Rattle.sip_dialog.specs.Dialogs.{learnt, renewed, without_dialog, after_invite, is_full_for};
ghost use Rattle.sip_dialog.specs.Examples.{at_port, call_of, success, ringing, one_call};
ghost use Rattle.test_definitions.specs.Dialogs.{told_by, answered, two_calls};

/// What a message of a dialog tells: the address of its Contact, the remote target, and of each Record-Route, the route set
/// (RFC 3261 12.1.1); a Route tells none, nor does a Record-Route without brackets (20.30).
#[tactic(auto, unfolding(sip_uri::specs::Reading::reading_of, sip_uri::specs::Reading::rest_of))]
pub fn telling()
    ensures contact { told_by (fields_of Name.Contact (codes "<sip:bob@192.0.2.4:5082>" ∷ [])) ≡ at_port 5082 ∷ [] }
    ensures record_route { told_by (fields_of Name.RecordRoute (codes "<sip:p1.example.com:5091;lr>" ∷ codes "<sip:p2.example.com:5092;lr>" ∷ []))
        ≡ at_port 5091 ∷ at_port 5092 ∷ [] }
    ensures bare { told_by (fields_of Name.RecordRoute (codes "sip:p1.example.com:5091" ∷ [])) ≡ [] }
    ensures route { told_by (fields_of Name.Route (codes "<sip:p1.example.com:5091;lr>" ∷ [])) ≡ [] }
{}

/// What is told is learnt: from a request of the dialog, whose Contact may be new (RFC 3261 12.2), and from a further answer
/// to the INVITE. A ringing that comes behind the 2xx leaves the dialog confirmed (12.1).
pub fn learning()
    ensures request { map (λ d. d.addresses) (renewed 64000 success.id (at_port 5090 ∷ []) one_call)
        ≡ (at_port 5070 ∷ at_port 5082 ∷ at_port 5090 ∷ []) ∷ [] }
    ensures answer { map (λ d. d.addresses) (learnt 64000 (record success { addresses = at_port 5090 ∷ [] }) one_call)
        ≡ (at_port 5070 ∷ at_port 5082 ∷ at_port 5090 ∷ []) ∷ [] }
    ensures ringing { map (λ d. d.has_success) (learnt 64000 (record success { is_success = false }) one_call) ≡ true ∷ [] }
{}

/// Where an INVITE leaves, the early dialogs of another stay (RFC 3261 12.3); and where a BYE has its 2xx, the other dialogs of
/// its Call-ID do (15).
pub fn ending()
    ensures own { after_invite 94000 4 two_calls ≡ one_call }
    ensures of_another { after_invite 94000 9 two_calls ≡ two_calls }
    ensures by_bye { map (λ d. d.id) (without_dialog 64000 success.id two_calls) ≡ ringing.id ∷ [] }
{}

/// There is a place for one more up to 4,095 known dialogs; one that is known needs none.
pub fn places()
    ensures free { (map (is_full_for 64000 ringing.id) (map (λ d. replicate 4095 d) one_call)) ≡ false ∷ [] }
    ensures full { (map (is_full_for 64000 ringing.id) (map (λ d. replicate 4096 d) one_call)) ≡ true ∷ [] }
    ensures known { (map (is_full_for 64000 success.id) (map (λ d. replicate 4096 d) one_call)) ≡ false ∷ [] }
{}

/// An answer names the dialog of the INVITE's Call-ID and From tag, and of its own To tag; without one it names none (RFC 3261
/// 12.1.1).
#[tactic(auto, unfolding(sip_uri::specs::Reading::reading_of, sip_uri::specs::Reading::rest_of, sip_header::specs::CoreFields::core_in))]
pub fn names()
    ensures tagged { answered (codes "<sip:help@host.com>;tag=t1") ≡ Some (call_of (codes "f1") (codes "t1")) }
    ensures untagged { answered (codes "<sip:help@host.com>") ≡ None }
{}
