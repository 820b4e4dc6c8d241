ghost use Rattle.std.specs.Prelude.{◌≡◌, codes};
ghost use Rattle.sip_digest.specs.NonceText.{nonce_text};

/// The nonce of the word 1 reads `00000000000000000000000000000001`.
pub fn nonce_text_example()
    ensures { nonce_text 1 ≡ codes "00000000000000000000000000000001" }
{}
