ghost use Rattle.std.specs.Prelude.{◌≡◌, [], ◌∷◌, ◌++◌, codes, Some, Ok, Err};
ghost use Rattle.sip_uri.specs.Examples as Uris;
ghost use Rattle.sip_header.specs.declared.expires.Expires.TheVariants.{Seconds};
ghost use Rattle.sip_header.specs.declared.contact_item.ContactItem.TheVariants.{Star};
ghost use Rattle.sip_location.specs.declared.error.LocationError.TheVariants.{BadStar, TooBrief, OldCSeq, TooMany};
ghost use Rattle.sip_location.specs.Binding.{seconds_left};
ghost use Rattle.sip_location.specs.Examples;
ghost use Rattle.sip_location.specs.Registration.{registered};
ghost use Rattle.test_definitions.specs.Bindings.{until, registering_for, first_of_sixteen};

/// A contact is bound for what it says itself, whatever Expires says, and for what Expires says where it says nothing (RFC 3261
/// 10.2.1.1, 10.3 step 7).
pub fn intervals()
    ensures own { Examples.seconds_after [] (record (Examples.asking (codes "c1") 3 (Examples.contact_for (codes "60") ∷ []))
        { expires = Seconds 120 }) ≡ Ok (60 ∷ []) }
    ensures field { Examples.seconds_after [] (record (Examples.asking (codes "c1") 3 (Examples.contact_alone Examples.first_contact ∷ []))
        { expires = Seconds 120 }) ≡ Ok (120 ∷ []) }
{}

/// What a 200 lists of a binding is rounded up to a second: one that lives is listed with a second at least.
pub fn listed()
    ensures whole { seconds_left 1000 (until 61000) ≡ 60 }
    ensures begun { seconds_left 1001 (until 61000) ≡ 60 }
    ensures last { seconds_left 60999 (until 61000) ≡ 1 }
{}

/// The first refusal counts: a bad `*` before a contact that is too brief, that before an old CSeq, and that before too many
/// bindings. A contact of another scheme asks for nothing, and so is never old.
pub fn order()
    ensures bad_star { registered Examples.two_bindings
        (Examples.asking (codes "c1") 3 (Star ∷ Examples.contact_for (codes "30") ∷ [])) 1000 ≡ Err BadStar }
    ensures brief { registered Examples.two_bindings (Examples.asking (codes "c1") 2 (Examples.contact_for (codes "30") ∷ [])) 1000
        ≡ Err TooBrief }
    ensures old { registered Examples.sixteen_bindings (Examples.asking (codes "c1") 1
        (Examples.contact_alone first_of_sixteen ∷ Examples.contact_alone Uris.bob ∷ [])) 1000 ≡ Err OldCSeq }
    ensures other_scheme { Examples.contacts_after Examples.two_bindings (Examples.asking (codes "c1") 1 (Examples.other_contact ∷ []))
        ≡ Ok (Examples.first_contact ∷ Examples.second_contact ∷ []) }
{}

/// A REGISTER is for the address of record of its To, whoever sends it (RFC 3261 10.3 step 5).
#[tactic(auto, unfolding(sip_uri::specs::Reading::reading_of, sip_uri::specs::Reading::rest_of, sip_header::specs::CoreFields::core_in))]
pub fn readings()
    ensures to { registering_for (codes "<sip:Mufasa@host.com>;tag=a1") (codes "<sip:alice@Host.com:5060>") ≡ Some Examples.alice }
{}

/// A contact that is too brief, or older, leaves the bindings of all contacts as they were. A seventeenth
/// binding is too many.
pub fn all_or_none()
    ensures brief { registered Examples.two_bindings (Examples.asking (codes "c2") 1
        (Examples.contact_alone Uris.bob ∷ Examples.contact_for (codes "59") ∷ [])) 1000 ≡ Err TooBrief }
    ensures old { registered Examples.two_bindings (Examples.asking (codes "c1") 2
        (Examples.contact_alone Uris.bob ∷ Examples.contact_for (codes "60") ∷ [])) 1000 ≡ Err OldCSeq }
    ensures other_call { Examples.contacts_after Examples.two_bindings
        (Examples.asking (codes "c9") 5 (Examples.contact_for (codes "60") ∷ [])) ≡ Ok (Examples.first_contact ∷ Examples.second_contact ∷ []) }
    ensures seventeenth { registered Examples.sixteen_bindings (Examples.asking (codes "c2") 1 (Examples.contact_alone Uris.bob ∷ [])) 1000
        ≡ Err TooMany }
    ensures expired { Examples.contacts_after (Examples.sixteen_bindings
        ++ record (Examples.binding_by (codes "c1") 1 Uris.bob) { expires_at = 1000 } ∷ []) (Examples.asking (codes "c2") 1 [])
        ≡ Ok (Examples.sixteen_contacts) }
{}

/// In the same Call-ID a contact is bound anew by a higher CSeq, in its place and with the new expiry; by an equal
/// one it is refused, and so is one that is lower (RFC 3261 10.3 step 7).
pub fn refreshed_contact()
    ensures higher { Examples.live_after Examples.mufasa 1000 Examples.two_bindings
        (Examples.asking (codes "c1") 3 (Examples.contact_for (codes "60") ∷ []))
        ≡ Ok (record (Examples.binding_by (codes "c1") 3 Examples.first_contact) { expires_at = 61000 }
        ∷ Examples.binding_by (codes "c9") 5 Examples.second_contact ∷ []) }
    ensures equal { registered Examples.two_bindings (Examples.asking (codes "c1") 2 (Examples.contact_for (codes "60") ∷ [])) 1000 ≡ Err OldCSeq }
    ensures lower { registered Examples.two_bindings (Examples.asking (codes "c1") 1 (Examples.contact_for (codes "60") ∷ [])) 1000 ≡ Err OldCSeq }
    ensures removed { registered Examples.two_bindings (Examples.asking (codes "c1") 2 (Examples.contact_for (codes "0") ∷ [])) 1000 ≡ Err OldCSeq }
{}

/// A REGISTER of one address of record leaves another its bindings at every moment, one that has expired, too; also
/// a `*` that removes all (RFC 3261 10.3).
pub fn other_address_is_untouched()
    ensures bound { Examples.live_after Examples.alice 1000 Examples.beside_alice
        (Examples.asking (codes "c1") 3 (Examples.contact_for (codes "60") ∷ [])) ≡ Ok (Examples.alices_binding Examples.first_contact 3601000 ∷ []) }
    ensures earlier { Examples.live_after Examples.alice 999 Examples.beside_alice
        (Examples.asking (codes "c1") 3 (Examples.contact_for (codes "60") ∷ []))
        ≡ Ok (Examples.alices_binding Examples.second_contact 1000 ∷ Examples.alices_binding Examples.first_contact 3601000 ∷ []) }
    ensures removed { Examples.live_after Examples.alice 999 Examples.beside_alice (Examples.removing_all 3)
        ≡ Ok (Examples.alices_binding Examples.second_contact 1000 ∷ Examples.alices_binding Examples.first_contact 3601000 ∷ []) }
    ensures none_left { Examples.live_after Examples.mufasa 1000 Examples.beside_alice (Examples.removing_all 3) ≡ Ok [] }
{}
