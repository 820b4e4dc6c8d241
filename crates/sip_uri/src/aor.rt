//! Addresses of record (RFC 3261 10.3): of a URI, and whether two are the same.
ghost use Rattle.std.specs.Prelude.{◌≡◌, ◌↔◌, IfOk, IsTrue, ◌++◌};
ghost use Rattle.std.specs.Option.{unwrap_or};
ghost use Rattle.sip_text.specs.Escapes.{unescaped};
ghost use Rattle.sip_uri.specs.Aor as Definitions;
ghost use Rattle.std.specs.Hash as fed;
ghost use Rattle.std.specs.Cmp.Rules.{comparing, hashing};
ghost use Rattle.std.proofs.Common.{rules};

use crate::uri::Uri;
use crate::user::UserInfo;
use sip_text::{Bytes, TextError, lower_case, same_bytes, unescape};
use std::alloc::{AllocError, Global};
use std::hash::{Hash, Hasher};

/// An address of record: the user and the host that a registrar keeps bindings for (RFC 3261 10.3).
pub struct Aor {
    /// The user without escapes; empty where a URI has none.
    pub user: Bytes,
    /// The host. [`aor_of`] gives it in lower case.
    pub host: Bytes,
}

/// Written out, so that it is proved once and not wherever one is dropped.
impl Drop for Aor {
    fn drop(self) {
        let Aor { user: _, host: _ } = self;
    }
}

/// Written out, so that a copy is known to be equal.
impl Clone for Aor {
    ghost is_clone = { λ aor copy. copy ≡ aor };

    fn clone(&self) -> Result<Aor, AllocError> {
        Ok(Aor {
            user: self.user.clone()?,
            host: self.host.clone()?,
        })
    }
}

/// Byte by byte, as [`same_aor`].
impl PartialEq for Aor {
    ghost eq = { Definitions.is_same_aor };

    ghost laws = { Prim.search (comparing, rules) };

    fn eq(&self, other: &Aor) -> bool {
        same_aor(self, other)
    }
}

impl Eq for Aor {
    ghost laws = { Prim.search (comparing, rules) };
}

impl Hash for Aor {
    ghost hash_input = { λ aor. fed.slice fed.u8 aor.user ++ fed.slice fed.u8 aor.host };

    ghost respects_eq = { Prim.search (hashing, rules) };

    fn hash<H: Hasher>(&self, state: &mut H) {
        self.user.as_slice().hash(state);
        self.host.as_slice().hash(state);
    }
}

/// What a user says without its escapes; with a bad escape, the user as it stands.
fn without_escapes(alloc: Global, user: &[u8]) -> Result<Bytes, AllocError>
    ensures { IfOk result (λ plain. plain ≡ unwrap_or (unescaped user.now) user.now) }
{
    match unescape(alloc, user) {
        Ok(plain) => Ok(plain),
        Err(TextError::NoMemory) => Err(AllocError),
        Err(_) => Bytes::copy(alloc, user),
    }
}

fn user_of(alloc: Global, userinfo: &Option<UserInfo>) -> Result<Bytes, AllocError>
    ensures { IfOk result (λ user. user ≡ Definitions.user_named userinfo.now) }
{
    match userinfo {
        Some(userinfo) => without_escapes(alloc, userinfo.user.as_slice()),
        None => Ok(Bytes::new(alloc)),
    }
}

/// The address of record that a URI names: its user without escapes, empty where it has none, and its
/// host in lower case. Password, port, parameters and headers are dropped (RFC 3261 10.3). A user with
/// a bad escape, which no URI that is read has, is taken as it stands.
pub fn aor_of(alloc: Global, uri: &Uri) -> Result<Aor, AllocError>
    ensures { IfOk result (λ aor. aor ≡ Definitions.aor_of uri.now) }
{
    let user = user_of(alloc, &uri.userinfo)?;
    let host = lower_case(alloc, uri.host.as_slice())?;
    Ok(Aor { user, host })
}

/// Whether two addresses of record are the same, byte by byte.
pub fn same_aor(left: &Aor, right: &Aor) -> bool
    ensures value { result ≡ Definitions.is_same_aor left.now right.now }
    ensures equal { IsTrue result ↔ (left.now ≡ right.now) }
{
    same_bytes(left.user.as_slice(), right.user.as_slice())
        && same_bytes(left.host.as_slice(), right.host.as_slice())
}
