ghost use Rattle.std.specs.Prelude.{◌≡◌, ◌≢◌, ◌∷◌, ◌++◌, ℕ, ◌^◌, ◌<◌, ◌≤◌, ◌↔◌, List, [], Any, Some, None, codes, find, reverse};
ghost use Rattle.std.specs.Str.{byte};
ghost use Rattle.md5.specs.Md5.{md5};
ghost use Rattle.hex.specs.Hex.{encode_lower};
ghost use Rattle.sip_digest.specs.declared.algorithm.Algorithm.TheVariants.{Md5};
ghost use Rattle.sip_digest.specs.declared.nonces.Nonce.{Nonce};
ghost use Rattle.sip_digest.specs.declared.nonces.Worth.TheVariants.{Right, Stale, Wrong};
ghost use Rattle.sip_digest.specs.Credential.{Credential, count_of};
ghost use Rattle.sip_digest.specs.NonceText.{nonce_text, word_of};
ghost use Rattle.sip_digest.specs.Nonces.{HasOneLive, IsNonceOf, is_this, issued, spent_by, worth_of};

/// A text names a word of 128 bits exactly when it is the text of the word's nonce.
pub fn text_names_its_word()
    ensures { (text : List ℕ) (word : ℕ) → (word_of text ≡ Some word) ↔ ((word < 2 ^ 128) × (text ≡ nonce_text word)) }
{}

/// A word whose nonce lives changes nothing when it is issued again.
pub fn live_word_stays()
    ensures { (rows : List Nonce) (word now : ℕ) → Any (IsNonceOf word now) rows → issued rows word now ≡ rows }
{}

/// A credential that was right and spent is stale.
pub fn spent_credential_is_stale()
    ensures { (rows : List Nonce) (a1 : List ℕ) (c : Credential) (now : ℕ) → worth_of rows a1 c now ≡ Right
        → worth_of (spent_by rows c now) a1 c now ≡ Stale }
{}

/// A count that was accepted for a nonce isn't accepted again, by whichever algorithm and of whichever user it
/// comes: a nonce has one count (RFC 2617 3.2.2, nonce-count).
pub fn one_count_for_both()
    ensures { (rows : List Nonce) (a1 b1 : List ℕ) (c d : Credential) (now : ℕ) → d.nonce ≡ c.nonce → count_of d ≡ count_of c
        → worth_of rows a1 c now ≡ Right → worth_of (spent_by rows c now) b1 d now ≢ Right }
{}

/// What is answered by MD5 is what RFC 2617 3.2.2.1 says, and nothing else proves a user by it.
pub fn md5_is_unchanged()
    ensures without_qop { (rows : List Nonce) (a1 method uri nonce response : List ℕ) (now : ℕ)
        → (worth_of rows a1 (record { algorithm = Md5; method = method; uri = uri; nonce = nonce; protection = None; response = response })
        now ≢ Wrong)
        ↔ (response ≡ encode_lower (md5 (a1 ++ byte ":" ∷ (nonce ++ byte ":" ∷ encode_lower (md5 (method ++ byte ":" ∷ uri)))))) }
    ensures with_qop { (rows : List Nonce) (a1 method uri nonce count client response : List ℕ) (now : ℕ)
        → (worth_of rows a1 (record {
          algorithm = Md5;
          method = method;
          uri = uri;
          nonce = nonce;
          protection = Some
              (record { nc = count; cnonce = client });
          response = response;
        }) now ≢ Wrong)
        ↔ (response ≡ encode_lower (md5
        (a1 ++ byte ":" ∷ (nonce ++ byte ":" ∷ (count ++ byte ":" ∷ (client ++ (codes ":auth:"
        ++ encode_lower (md5 (method ++ byte ":" ∷ uri))))))))) }
{}

/// Of the rows of a word at most one lives, whatever was issued and used while moments didn't go back; so the
/// first live row of a word is its newest.
pub fn one_live_row()
    ensures first { (now : ℕ) → HasOneLive now [] }
    ensures later { (rows : List Nonce) (now later : ℕ) → now ≤ later → HasOneLive now rows → HasOneLive later rows }
    ensures issued { (rows : List Nonce) (word now : ℕ) → HasOneLive now rows → HasOneLive now (issued rows word now) }
    ensures used { (rows : List Nonce) (c : Credential) (now : ℕ) → HasOneLive now rows → HasOneLive now (spent_by rows c now) }
    ensures newest { (rows : List Nonce) (word now : ℕ) → HasOneLive now rows → find (is_this word now) (reverse rows)
        ≡ find (is_this word now) rows }
{}
