ghost use Rattle.std.specs.Prelude.{◌≡◌, ◌∷◌, [], true, false, codes, Some, option_map};
ghost use Rattle.std.specs.Option.{option_and_then};
ghost use Rattle.std.specs.List.{flat_map};
ghost use Rattle.sip_message.specs.Lines.{head_at};
ghost use Rattle.sip_message.specs.Field.{entries_of, kept};
ghost use Rattle.sip_message.specs.Parts.{folds_said};
ghost use Rattle.sip_message_form.specs.Text.{field_text};
ghost use Rattle.sip_message_fields.specs.declared.field_name.FieldName.TheVariants.{Subject};

/// A compact `v` with two items is two Via fields and is written as two lines (RFC 3261 7.3.3 and 7.3.1), and a
/// fold counts as one space (7.3.1).
pub fn compact_and_folded()
    ensures compact { option_map (flat_map field_text) (option_and_then kept
        (entries_of (codes "v: SIP/2.0/UDP one, SIP/2.0/UDP two" ∷ []))) ≡ Some (codes "Via: SIP/2.0/UDP one\r\nVia: SIP/2.0/UDP two\r\n") }
    ensures folded { option_and_then (λ head. entries_of head.0) (head_at (codes "Subject: I know\r\n  you\r\n\r\n"))
        ≡ Some (record { name = Subject; value = codes "I know you" } ∷ []) }
{}

/// Of a Subject with a fold and a Via of two items without one, the first value alone is joined: the others are
/// parts of the datagram (RFC 3261 7.3.1).
pub fn joined_where_folded()
    ensures { folds_said (codes "OPTIONS sip:a SIP/2.0\r\nSubject: I know\r\n  you\r\nv: x, y\r\n\r\n") ≡ Some (true ∷ false ∷ false ∷ []) }
{}
