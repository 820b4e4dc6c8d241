ghost use Rattle.std.specs.Prelude.{◌≡◌, [], ◌∷◌, codes, Some, None};
ghost use Rattle.sip_message_form.specs.fields.declared.field_name.FieldName.TheVariants as Name;
ghost use Rattle.sip_header.specs.declared.contact_item.ContactItem.TheVariants.{Star};
ghost use Rattle.sip_header.specs.declared.max_forwards.MaxForwards.TheVariants as MaxForwards;
ghost use Rattle.sip_header.specs.declared.expires.Expires.TheVariants as Expires;
ghost use Rattle.sip_header.specs.ContactItem.{contact_of};
ghost use Rattle.sip_header.specs.MaxForwards.{max_forwards_of};
ghost use Rattle.sip_header.specs.Expires.{expires_of, contact_expires};
ghost use Rattle.sip_header.specs.FieldExamples.{contact_with, contact_to, fields_of, uri_at};

/// `*`, an address with a parameter, and what is neither. In brackets parameters and headers are the URI's; without them a `;` begins
/// parameters of the field,
/// and no `?` may stand.
#[tactic(auto, unfolding(sip_uri::specs::Reading::reading_of, sip_uri::specs::Reading::rest_of))]
pub fn contact_example()
    ensures star { contact_of (codes "*") ≡ Some Star }
    ensures address { contact_of (codes "<sip:host.com>;expires=60")
        ≡ Some (contact_with (record { name = codes "expires"; value = Some (codes "60") })) }
    ensures of_uri { contact_of (codes "<sip:host.com;expires=60?a=>")
        ≡ Some (contact_to (record (uri_at (codes "host.com") None)
        { parameters = record { name = codes "expires"; value = Some (codes "60") } ∷ []; headers = record { name = codes "a"; value = [] } ∷ [] })) }
    ensures bare { contact_of (codes "sip:host.com;expires=60") ≡ Some (contact_with (record { name = codes "expires"; value = Some (codes "60") })) }
    ensures bare_headers { contact_of (codes "sip:host.com?a=") ≡ None }
    ensures star_with_parameter { contact_of (codes "*;expires=0") ≡ None }
{}

/// No Max-Forwards, 0, one with leading zeros; one above 255, one that is no number, and two.
pub fn max_forwards_example()
    ensures absent { max_forwards_of [] ≡ MaxForwards.Absent }
    ensures zero { max_forwards_of (fields_of Name.MaxForwards (codes "0" ∷ [])) ≡ MaxForwards.Hops 0 }
    ensures leading_zeros { max_forwards_of (fields_of Name.MaxForwards (codes "0255" ∷ [])) ≡ MaxForwards.Hops 255 }
    ensures too_large { max_forwards_of (fields_of Name.MaxForwards (codes "256" ∷ [])) ≡ MaxForwards.Malformed }
    ensures not_a_number { max_forwards_of (fields_of Name.MaxForwards (codes "-1" ∷ [])) ≡ MaxForwards.Malformed }
    ensures repeated { max_forwards_of (fields_of Name.MaxForwards (codes "70" ∷ codes "70" ∷ [])) ≡ MaxForwards.Malformed }
{}

/// The `expires` of a contact with and without a value, quoted, and 2^64; an Expires and two of them.
pub fn expires_example()
    ensures seconds { contact_expires (contact_with (record { name = codes "Expires"; value = Some (codes "60") })) ≡ Expires.Seconds 60 }
    ensures no_value { contact_expires (contact_with (record { name = codes "expires"; value = None })) ≡ Expires.Malformed }
    ensures quoted { contact_expires (contact_with (record { name = codes "expires"; value = Some (codes "\"60\"") })) ≡ Expires.Malformed }
    ensures too_large { contact_expires (contact_with (record { name = codes "expires"; value = Some (codes "18446744073709551616") }))
        ≡ Expires.Malformed }
    ensures absent { contact_expires (contact_with (record { name = codes "q"; value = None })) ≡ Expires.Absent }
    ensures star { contact_expires Star ≡ Expires.Absent }
    ensures field { expires_of (fields_of Name.Expires (codes "0" ∷ [])) ≡ Expires.Seconds 0 }
    ensures repeated { expires_of (fields_of Name.Expires (codes "0" ∷ codes "0" ∷ [])) ≡ Expires.Malformed }
{}
