ghost use Rattle.std.specs.Prelude.{◌≡◌, codes, Ok, Err};
ghost use Rattle.sip_uri.specs.declared.error.UriError.{UriError};
ghost use Rattle.sip_uri.specs.Uri.{text_of, IsWritten};
ghost use Rattle.sip_uri.specs.Reading.{reading_of};
ghost use Rattle.sip_uri.specs.Aor.{aor_of};
ghost use Rattle.sip_uri.specs.Examples.{bob_x, bob_x_with_lr, each_part, empty_password, escaped_name};

/// `SIP:Bob%20X@Host.com` is read, is written `sip:Bob%20X@Host.com`, and names the user `Bob X` of
/// `host.com`. `tel:+1` has another scheme, and `sip:@host` has an empty user.
#[tactic(auto, unfolding(crate::specs::Reading::reading_of, crate::specs::Reading::rest_of))]
pub fn uri_text()
    ensures read { reading_of (codes "SIP:Bob%20X@Host.com") ≡ Ok bob_x }
    ensures text { text_of bob_x ≡ codes "sip:Bob%20X@Host.com" }
    ensures aor { aor_of bob_x ≡ record { user = codes "Bob X"; host = codes "host.com" } }
    ensures other_scheme { reading_of (codes "tel:+1") ≡ Err UriError.Scheme }
    ensures empty_user { reading_of (codes "sip:@host") ≡ Err UriError.Syntax }
{}

/// `SIP:Bob%20X@Host.com;lr` is read as a URI of the grammar with a parameter, is written with the scheme
/// in lower case, and names the same address of record as without it.
#[tactic(auto, unfolding(crate::specs::Reading::reading_of, crate::specs::Reading::rest_of))]
pub fn uri_text_with_parameter()
    ensures read { reading_of (codes "SIP:Bob%20X@Host.com;lr") ≡ Ok bob_x_with_lr }
    ensures written { IsWritten (codes "SIP:Bob%20X@Host.com;lr") bob_x_with_lr }
    ensures text { text_of bob_x_with_lr ≡ codes "sip:Bob%20X@Host.com;lr" }
    ensures aor { aor_of bob_x_with_lr ≡ record { user = codes "Bob X"; host = codes "host.com" } }
{}

/// A URI with each part, whose user has `;` and `?` and whose port has a leading zero, is read, and written
/// as it was. An empty password is read, and names of parameters are compared as they are written.
#[tactic(auto, unfolding(crate::specs::Reading::reading_of, crate::specs::Reading::rest_of))]
pub fn uri_text_with_each_part()
    ensures read { reading_of (codes "SIPS:a;b?c/d:p$%20@[::1]:05060;x=[1];LR?Subject=&to=b?") ≡ Ok each_part }
    ensures text { text_of each_part ≡ codes "sips:a;b?c/d:p$%20@[::1]:05060;x=[1];LR?Subject=&to=b?" }
    ensures no_password { reading_of (codes "sip:a:@h") ≡ Ok empty_password }
    ensures escaped_names { reading_of (codes "sip:h;x=1;%78=2") ≡ Ok escaped_name }
{}

/// No scheme, an empty user before a password, two `@`, no host, a port of 0, and one of 65536.
#[tactic(auto, unfolding(crate::specs::Reading::reading_of, crate::specs::Reading::rest_of))]
pub fn bad_places()
    ensures no_scheme { reading_of (codes "h") ≡ Err UriError.Syntax }
    ensures only_password { reading_of (codes "sip::p@h") ≡ Err UriError.Syntax }
    ensures two_ats { reading_of (codes "sip:a@b@h") ≡ Err UriError.Syntax }
    ensures no_host { reading_of (codes "sip:;lr") ≡ Err UriError.Syntax }
    ensures port_zero { reading_of (codes "sip:h:0") ≡ Err UriError.Syntax }
    ensures large_port { reading_of (codes "sip:h:65536") ≡ Err UriError.Syntax }
{}

/// A repeated name in another case, an empty name, and an empty value; a lone `?`, a header without `=`, and
/// one without a name.
#[tactic(auto, unfolding(crate::specs::Reading::reading_of, crate::specs::Reading::rest_of))]
pub fn bad_parameters_and_headers()
    ensures repeated_name { reading_of (codes "sip:h;lr;a;LR=1") ≡ Err UriError.Syntax }
    ensures empty_parameter { reading_of (codes "sip:h;lr;") ≡ Err UriError.Syntax }
    ensures empty_value { reading_of (codes "sip:h;a=") ≡ Err UriError.Syntax }
    ensures lone_mark { reading_of (codes "sip:h?") ≡ Err UriError.Syntax }
    ensures no_equals { reading_of (codes "sip:h?a=1&b") ≡ Err UriError.Syntax }
    ensures empty_header_name { reading_of (codes "sip:h?=a") ≡ Err UriError.Syntax }
{}
