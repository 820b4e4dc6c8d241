ghost use Rattle.std.specs.Prelude.{◌≡◌, codes, Some, None};
ghost use Rattle.sip_header_credentials.specs.Credentials.{credentials_of};

/// Names in any case, a comma in quoted text, and an item that is ignored; a lone `Digest`, a comma at the end and
/// a name that stands twice are malformed.
pub fn credentials_example()
    ensures read { credentials_of (codes "digest UserName=\"a,b\" , nc=00000001, opaque=\"x\"")
        ≡ Some (record {
          username = Some (codes "a,b");
          realm = None;
          nonce = None;
          uri = None;
          response = None;
          algorithm = None;
          qop =
              None;
          nc = Some (codes "00000001");
          cnonce = None;
        }) }
    ensures lone { credentials_of (codes "Digest") ≡ None }
    ensures comma { credentials_of (codes "Digest nc=1,") ≡ None }
    ensures twice { credentials_of (codes "Digest x=1, X=2") ≡ None }
    ensures scheme { credentials_of (codes "Basic x=1") ≡ None }
{}
