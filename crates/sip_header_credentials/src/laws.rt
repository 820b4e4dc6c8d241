ghost use Rattle.std.specs.Prelude.{◌≡◌, ℕ, List, Some};
ghost use Rattle.sip_header_credentials.specs.Credentials.{IsCredentials, credentials_of};
ghost use Rattle.sip_header_credentials.specs.declared.credentials.Credentials.{Credentials};

/// A value is read as credentials exactly where it writes those (RFC 2617 3.2.2).
pub fn credentials_law()
    ensures read { (value : List ℕ) (credentials : Credentials) → IsCredentials value credentials → credentials_of value ≡ Some credentials }
    ensures written { (value : List ℕ) (credentials : Credentials) → credentials_of value ≡ Some credentials → IsCredentials value credentials }
{}
