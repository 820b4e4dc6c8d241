ghost use Rattle.std.specs.Prelude.{◌≡◌, [], ◌∷◌, codes, Ok, Err};
ghost use Rattle.sip_uri.specs.Examples as Uris;
ghost use Rattle.sip_header.specs.declared.expires.Expires.TheVariants.{Absent, Malformed, Seconds};
ghost use Rattle.sip_header.specs.declared.contact_item.ContactItem.TheVariants.{Star};
ghost use Rattle.sip_location.specs.declared.error.LocationError.TheVariants.{BadStar, TooBrief, OldCSeq};
ghost use Rattle.sip_location.specs.Examples;
ghost use Rattle.sip_location.specs.Registration.{registered};

/// Bindings by the Call-ID c1 with CSeq 2 and by c9 with 5. A `*` with Expires 0 in c1 is refused with
/// CSeq 2 and removes both with 3. Without Expires 0, or beside another contact, it is bad.
pub fn star_and_old_cseq()
    ensures old { registered Examples.two_bindings (Examples.removing_all 2) 1000 ≡ Err OldCSeq }
    ensures removed { Examples.contacts_after Examples.two_bindings (Examples.removing_all 3) ≡ Ok [] }
    ensures without_expires { registered Examples.two_bindings (record (Examples.removing_all 3) { expires = Absent }) 1000 ≡ Err BadStar }
    ensures repeated_expires { registered Examples.two_bindings (record (Examples.removing_all 3) { expires = Malformed }) 1000 ≡ Err BadStar }
    ensures beside_another { registered Examples.two_bindings
        (record (Examples.removing_all 3) { contacts = Star ∷ Examples.contact_alone Examples.first_contact ∷ [] }) 1000 ≡ Err BadStar }
    ensures not_alone { registered Examples.two_bindings (record (Examples.removing_all 3) { contacts = Star ∷ Star ∷ [] }) 1000 ≡ Err BadStar }
{}

/// A contact for 30 seconds is too brief, for 60 seconds it is bound, for 0 it is removed. What is no
/// number counts as an hour, whatever Expires says; a day and an hour are listed as a day. One of another scheme
/// asks for nothing.
pub fn contact_intervals()
    ensures brief { registered Examples.two_bindings (Examples.asking (codes "c1") 3 (Examples.contact_for (codes "30") ∷ [])) 1000 ≡ Err TooBrief }
    ensures minute { Examples.seconds_after [] (Examples.asking (codes "c1") 3 (Examples.contact_for (codes "60") ∷ [])) ≡ Ok (60 ∷ []) }
    ensures removed { Examples.contacts_after Examples.two_bindings (Examples.asking (codes "c1") 3 (Examples.contact_for (codes "0") ∷ []))
        ≡ Ok (Examples.second_contact ∷ []) }
    ensures malformed { Examples.seconds_after [] (record (Examples.asking (codes "c1") 3 (Examples.contact_for (codes "soon") ∷ []))
        { expires = Seconds 60 }) ≡ Ok (3600 ∷ []) }
    ensures field { Examples.seconds_after [] (record (Examples.asking (codes "c1") 3 (Examples.contact_alone Examples.first_contact ∷ []))
        { expires = Seconds 120 }) ≡ Ok (120 ∷ []) }
    ensures neither { Examples.seconds_after [] (Examples.asking (codes "c1") 3 (Examples.contact_alone Examples.first_contact ∷ []))
        ≡ Ok (3600 ∷ []) }
    ensures other_scheme { Examples.seconds_after [] (Examples.asking (codes "c1") 3
        (Examples.other_contact ∷ Examples.contact_for (codes "60") ∷ [])) ≡ Ok (60 ∷ []) }
    ensures a_day { Examples.seconds_after [] (Examples.asking (codes "c1") 3 (Examples.contact_for (codes "90000") ∷ [])) ≡ Ok (86400 ∷ []) }
{}

/// Of bindings of `sip:carol@chicago.com;security=on`, `sip:carol@chicago.com;security=off` and
/// `sip:bob@biloxi.com`, the contact `sip:carol@chicago.com` equals the first two: it replaces both, in the
/// place of the first.
pub fn replaces_each_equal_contact()
    ensures { Examples.contacts_after Examples.carols_bindings (Examples.asking (codes "c2") 1 (Examples.contact_alone Uris.carol ∷ []))
        ≡ Ok (Uris.carol ∷ Uris.bob ∷ []) }
{}
