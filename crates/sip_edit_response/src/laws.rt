ghost use Rattle.std.specs.Prelude.{◌≡◌, ◌∷◌, [], ◌++◌, ℕ, List, codes, true, false};
ghost use Rattle.sip_message_fields.specs.declared.field_name.FieldName.{FieldName};
ghost use Rattle.sip_edit_response.specs.Challenges.{challenge_fields};

/// Where SHA-256 isn't offered a challenge is one field, as RFC 2617 3.2.1 has it.
pub fn md5_alone_is_unchanged()
    ensures first { (name : FieldName) (realm nonce : List ℕ) → challenge_fields name false realm nonce false
        ≡ record {
          name = name;
          value = codes "Digest realm=\"" ++ realm ++ codes "\", nonce=\"" ++ nonce
              ++ codes "\", algorithm=MD5, qop=\"auth\"";
        } ∷ [] }
    ensures stale { (name : FieldName) (realm nonce : List ℕ) → challenge_fields name false realm nonce true
        ≡ record {
          name = name;
          value = codes "Digest realm=\"" ++ realm ++ codes "\", nonce=\"" ++ nonce
              ++ codes "\", algorithm=MD5, qop=\"auth\", stale=true";
        } ∷ [] }
{}
