ghost use Rattle.std.specs.Prelude.{◌≡◌, [], ◌∷◌, codes, Some, None, Ok, Err};
ghost use Rattle.sip_message_form.specs.fields.declared.field_name.FieldName.TheVariants as Name;
ghost use Rattle.sip_header.specs.declared.error.HeaderError.TheVariants.{Missing, Malformed};
ghost use Rattle.sip_header.specs.Parameters.{tag_of};
ghost use Rattle.sip_header.specs.Via.{via_of};
ghost use Rattle.sip_header.specs.CSeq.{cseq_of};
ghost use Rattle.sip_header.specs.CoreFields.{core_of};
ghost use Rattle.sip_header.specs.Examples.{address_with, tag_a1, register_with, register_numbered};

pub mod fields;

/// The core fields of a REGISTER; without CSeq, and with a number of 2^31.
#[tactic(auto, unfolding(sip_uri::specs::Reading::reading_of, sip_uri::specs::Reading::rest_of, crate::specs::CoreFields::core_in))]
pub fn core_fields_example()
    ensures read { core_of (register_numbered (codes "1 REGISTER"))
        ≡ Ok (record {
          from = address_with (tag_a1 ∷ []);
          to = address_with [];
          call_id = codes "c1@127.0.0.1";
          cseq =
              record { number = 1; method = codes "REGISTER" };
        }) }
    ensures tags { (tag_of (tag_a1 ∷ []) ≡ Some (codes "a1")) × (tag_of [] ≡ None) }
    ensures missing { core_of (register_with []) ≡ Err (Missing Name.CSeq) }
    ensures too_large { core_of (register_numbered (codes "2147483648 INVITE")) ≡ Err (Malformed Name.CSeq) }
{}

/// Blanks may stand around `/`, `;` and `=`, and the letters of `SIP` in any case; `branch` needs a value, and
/// blanks may not stand around the `:` of a port.
pub fn via_example()
    ensures blanks { via_of (codes "sip / 2.0 / UDP  pc.host.com:05070 ; branch = z9hG4bK1 ;rport")
        ≡ Some (record {
          transport = codes "UDP";
          host = codes "pc.host.com";
          port = Some 5070;
          parameters =
              record { name = codes "branch"; value = Some (codes "z9hG4bK1") } ∷ record { name = codes "rport"; value = None } ∷ [];
        }) }
    ensures bare_branch { via_of (codes "SIP/2.0/UDP h;branch") ≡ None }
    ensures blank_port { via_of (codes "SIP/2.0/UDP h :5060") ≡ None }
    ensures port_zero { via_of (codes "SIP/2.0/UDP h:0") ≡ None }
{}

/// A CSeq's number is below 2^31, and leading zeros don't count.
pub fn cseq_example()
    ensures number { cseq_of (codes "0004711 INVITE") ≡ Some (record { number = 4711; method = codes "INVITE" }) }
    ensures too_large { cseq_of (codes "2147483648 INVITE") ≡ None }
    ensures no_blank { cseq_of (codes "1") ≡ None }
{}
