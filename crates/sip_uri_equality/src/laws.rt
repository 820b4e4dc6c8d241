ghost use Rattle.std.specs.Prelude.{◌≡◌, true};
ghost use Rattle.sip_uri_equality.specs.Equality.{same, names_say_different};

use sip_uri::Uri;

/// Equality of URIs (RFC 3261 19.1.4) doesn't depend on which of two stands first.
pub fn equality_is_symmetric()
    ensures { (left : Uri) (right : Uri) → same left right ≡ same right left }
{}

/// A URI equals itself, if no two of its parameters have one name once escapes are resolved.
pub fn equality_is_reflexive()
    ensures { (uri : Uri) → names_say_different uri.parameters ≡ true → same uri uri ≡ true }
{}
