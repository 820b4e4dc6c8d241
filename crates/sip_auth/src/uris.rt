ghost use Rattle.std.specs.Prelude.{◌≡◌, true, IfOk};
ghost use Rattle.sip_uri_equality.specs.Equality.{same};
ghost use Rattle.sip_auth.specs.Proof.{is_equal_uri};

use sip_uri::{Uri, uri_in};
use sip_uri_equality::laws::equality_is_reflexive;
use sip_uri_equality::same;
use sip_uri_ref::UriRef;
use std::alloc::{AllocError, Global};

/// Whether a URI is equal to itself, as one without parameters is.
fn equals_itself(uri: &Uri) -> bool
    ensures { result ≡ same uri.now uri.now }
{
    equality_is_reflexive();
    uri.parameters.as_slice().is_empty() || same(uri, uri)
}

/// Whether a text is a SIP URI without parameters and headers, as most are, which is equal to itself. `false` says nothing.
#[tactic(auto, using(crate::proofs::PlainUris::equals_itself))]
fn is_plain_uri(text: &[u8]) -> bool
    ensures { result ≡ true → is_equal_uri text.now text.now ≡ true }
{
    match UriRef::plain_of(text) {
        Some(_) => true,
        None => false,
    }
}

/// Whether a text is a SIP URI that is equal to itself.
fn is_equal_to_itself(alloc: Global, text: &[u8]) -> Result<bool, AllocError>
    ensures { IfOk result (λ equal. equal ≡ is_equal_uri text.now text.now) }
{
    if is_plain_uri(text) {
        return Ok(true);
    }
    match uri_in(alloc, text)? {
        Some(uri) => Ok(equals_itself(&uri)),
        None => Ok(false),
    }
}

/// Whether two texts are SIP URIs that are equal (RFC 3261 19.1.4). Most are the same text, which is read once.
pub(crate) fn is_equal_uri(alloc: Global, left: &[u8], right: &[u8]) -> Result<bool, AllocError>
    ensures { IfOk result (λ equal. equal ≡ is_equal_uri left.now right.now) }
{
    if left == right {
        return is_equal_to_itself(alloc, left);
    }
    let Some(left) = uri_in(alloc, left)? else {
        return Ok(false);
    };
    let Some(right) = uri_in(alloc, right)? else {
        return Ok(false);
    };
    Ok(same(&left, &right))
}
