ghost use Rattle.std.specs.Prelude.{◌≡◌, ℕ, true, nat_le, List, length, Some};
ghost use Rattle.std.specs.List.{list_all};
ghost use Rattle.sip_uri.specs.Addresses;

/// The dotted text of each address is read as that address, and no other text is (RFC 3261 25.1,
/// `IPv4address`).
pub fn ip_text_is_read()
    ensures read { (ip : List ℕ) → length ip ≡ 4 → list_all (λ n. nat_le n 255) ip ≡ true
        → Addresses.ip_of (Addresses.ip_text ip) ≡ Some ip }
    ensures written { (text : List ℕ) (ip : List ℕ) → Addresses.ip_of text ≡ Some ip → text ≡ Addresses.ip_text ip }
{}
