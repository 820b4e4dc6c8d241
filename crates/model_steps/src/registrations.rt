ghost use Rattle.std.specs.Prelude.{◌≡◌, [], ◌∷◌, codes, length, map};
ghost use Rattle.sip_audit.specs.Lines.{line_of};
ghost use Rattle.model_steps.specs.Examples;
ghost use Rattle.model_steps.specs.RegisterExamples as Registers;

/// The 200 to a REGISTER lists the bindings of its own address alone, whatever else is known: it has the same
/// 267 bytes beside another user's bindings. These stay, and one of them that has expired is in nobody's way.
pub fn registered_beside_others()
    ensures alone { Examples.seen (Registers.registered_beside []) ≡ (5062, 0, 267) ∷ [] }
    ensures beside { Examples.seen (Registers.registered_beside Registers.others) ≡ (5062, 0, 267) ∷ [] }
    ensures audit { map line_of (Registers.registered_beside Registers.others).records
        ≡ codes "2000 2 REGISTER Mufasa Mufasa@host.com register 1 answer 200" ∷ [] }
{}

/// A credential that proved its user counts as used, also where the request was then denied: a second request
/// with it is challenged as stale, by 401 in 360 bytes.
pub fn denied_credential_is_used()
    ensures denied { Examples.first_lines (Examples.registering_by (Examples.alices (codes "REGISTER") (codes "sip:host.com")))
        ≡ codes "SIP/2.0 403 Forbidden" ∷ [] }
    ensures again { Examples.seen Registers.denied_again ≡ (5062, 0, 360) ∷ [] }
    ensures audit { map line_of Registers.denied_again.records ≡ codes "3000 3 REGISTER - Mufasa@host.com register - challenge 401" ∷ [] }
{}

/// A REGISTER for 59 seconds gets a 423 whose Min-Expires says 60, from the datagram to the byte. Nothing is
/// bound; its credential counts as used.
pub fn interval_too_brief()
    ensures sends { Registers.brief_effect.originals ≡ Examples.packet_of 5062 2 0 Registers.brief_text ∷ [] }
    ensures length { length Registers.brief_text ≡ 249 }
    ensures audit { map line_of Registers.brief_effect.records ≡ codes "2000 2 REGISTER Mufasa Mufasa@host.com register 1 answer 423" ∷ [] }
    ensures unbound { Registers.brief_effect.state.bindings ≡ [] }
    ensures used { Registers.brief_effect.state.nonces ≡ Registers.used_nonce ∷ [] }
{}

/// A REGISTER that is refused changes no binding, neither its user's nor another's, not even one that has expired (RFC 3261 10.3).
pub fn refused_registers_change_no_binding()
    ensures answer { Examples.first_lines (Registers.brief_beside Registers.known_before) ≡ codes "SIP/2.0 423 Interval Too Brief" ∷ [] }
    ensures kept { (Registers.brief_beside Registers.known_before).state.bindings ≡ Registers.known_before }
{}

/// A user with a binding who makes another gets both listed, the first first; one that has expired, and one of another
/// user, aren't (RFC 3261 10.3 step 8).
pub fn both_are_listed()
    ensures { (Registers.registered_beside Registers.known_before).originals ≡ Examples.packet_of 5062 2 0 Registers.both_text ∷ [] }
{}
