ghost use Rattle.std.specs.Prelude.{◌≡◌, ◌&&◌};
ghost use Rattle.sip_uri_equality.specs.Equality as Definitions;

use crate::headers::are_same_headers;
use crate::parameters::are_same_parameters;
use crate::texts::{says_same, says_same_no_case};
use sip_text::Bytes;
use sip_uri::{Scheme, Uri, UserInfo};

fn is_same_scheme(left: Scheme, right: Scheme) -> bool
    ensures { result ≡ Definitions.is_same_scheme left right }
{
    match (left, right) {
        (Scheme::Sip, Scheme::Sip) => true,
        (Scheme::Sips, Scheme::Sips) => true,
        _ => false,
    }
}

/// Whether two passwords say the same, or neither URI has one.
fn are_same_passwords(left: &Option<Bytes>, right: &Option<Bytes>) -> bool
    ensures { result ≡ Definitions.both_or_none Definitions.says_same left.now right.now }
{
    match (left, right) {
        (Some(left), Some(right)) => says_same(left.as_slice(), right.as_slice()),
        (None, None) => true,
        _ => false,
    }
}

/// Whether two URIs have the same user and password, compared with case, or neither has a user.
fn is_same_userinfo(left: &Option<UserInfo>, right: &Option<UserInfo>) -> bool
    ensures { result ≡ Definitions.is_same_userinfo left.now right.now }
{
    match (left, right) {
        (Some(left), Some(right)) => {
            says_same(left.user.as_slice(), right.user.as_slice())
                && are_same_passwords(&left.password, &right.password)
        }
        (None, None) => true,
        _ => false,
    }
}

/// Whether the digits of two ports are the same, or neither URI has a port.
fn are_same_ports(left: &Option<Bytes>, right: &Option<Bytes>) -> bool
    ensures { result ≡ Definitions.both_or_none Definitions.says_same_no_case left.now right.now }
{
    match (left, right) {
        (Some(left), Some(right)) => says_same_no_case(left.as_slice(), right.as_slice()),
        (None, None) => true,
        _ => false,
    }
}

/// Whether two URIs have the same scheme, user, password, host and port; what is shortest is compared first.
pub(crate) fn is_same_place(left: &Uri, right: &Uri) -> bool
    ensures { result ≡ (Definitions.is_same_scheme left.now.scheme right.now.scheme
        && Definitions.is_same_userinfo left.now.userinfo right.now.userinfo && Definitions.says_same_no_case left.now.host right.now.host
        && Definitions.both_or_none Definitions.says_same_no_case left.now.port right.now.port) }
{
    if !are_same_ports(&left.port, &right.port) {
        return false;
    }
    if !says_same_no_case(left.host.as_slice(), right.host.as_slice()) {
        return false;
    }
    is_same_scheme(left.scheme, right.scheme) && is_same_userinfo(&left.userinfo, &right.userinfo)
}

/// Whether two URIs are equal (RFC 3261 19.1.4): scheme, user, password, host, port, parameters and headers
/// match, user and password compared with case. A parameter that only one URI has is ignored, unless it is
/// `user`, `ttl`, `method`, `maddr` or `transport`; headers match in any order. Not transitive. Takes time
/// that grows little faster than the URIs, and memory where one has more than 256 parameters or headers; without memory, more time.
pub fn same(left: &Uri, right: &Uri) -> bool
    ensures { result ≡ Definitions.same left.now right.now }
{
    is_same_place(left, right)
        && are_same_parameters(left.parameters.as_slice(), right.parameters.as_slice())
        && are_same_headers(left.headers.as_slice(), right.headers.as_slice())
}
