ghost use Rattle.std.specs.Prelude.{◌≡◌, ℕ, List, length};
ghost use Rattle.sip_uri.specs.declared.aor.Aor.{Aor};
ghost use Rattle.sip_message_fields.specs.declared.field.Field.{Field};
ghost use Rattle.sip_location.specs.declared.binding.Binding.{Binding};
ghost use Rattle.sip_location.specs.Binding.{live};
ghost use Rattle.sip_model.specs.steps_model.Effect.{contact_fields};
ghost use Rattle.model_laws.specs.Lists.{ListsInOrder};

/// What a 200 to a REGISTER lists is all that lives: one Contact for each live binding of the address, in the order of
/// the bindings, and no other list of fields is that (RFC 3261 10.3 step 8).
pub fn live_are_listed()
    ensures in_order { (now : ℕ) (aor : Aor) (rows : List Binding) → ListsInOrder now aor rows (contact_fields now aor rows) }
    ensures alone { (now : ℕ) (aor : Aor) (rows : List Binding) (fields : List Field) → ListsInOrder now aor rows fields → fields
        ≡ contact_fields now aor rows }
    ensures as_many { (now : ℕ) (aor : Aor) (rows : List Binding) → length (contact_fields now aor rows) ≡ length (live aor now rows) }
{}
