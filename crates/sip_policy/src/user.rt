ghost use Rattle.std.specs.Prelude.{◌≡◌, IfOk};
ghost use Rattle.std.specs.List.{list_any};
ghost use Rattle.std.specs.Str.{bytes_eq};

use crate::texts::copy_texts;
use sip_text::{Bytes, Items, same_bytes};
use std::alloc::{AllocError, Global};

/// A configured user.
pub struct User {
    pub name: Bytes,
    /// MD5 of `name:realm:password` in lower-case hexadecimal digits (H(A1) of RFC 2617 3.2.2.2).
    pub a1: [u8; 32],
    /// The same by SHA-256, where it is configured (RFC 7616 3.4.2).
    pub a1_sha256: Option<[u8; 64]>,
    /// The groups that the user is in.
    pub groups: Items<Bytes>,
}

/// Written out, so that it is proved once and not wherever a user is dropped.
impl Drop for User {
    fn drop(self) {
        let User {
            name: _,
            a1: _,
            a1_sha256: _,
            groups: _,
        } = self;
    }
}

impl User {
    /// The user, copied. `AllocError` is the only refusal.
    pub fn copy(&self, alloc: Global) -> Result<User, AllocError>
        ensures { IfOk result (λ copy. copy ≡ self.now) }
    {
        let name = self.name.clone()?;
        let groups = copy_texts(alloc, self.groups.as_slice())?;
        Ok(User {
            name,
            a1: self.a1,
            a1_sha256: self.a1_sha256,
            groups,
        })
    }

    /// Whether the user is in a group. Takes no memory.
    pub fn is_in(&self, group: &[u8]) -> bool
        ensures { result ≡ list_any (bytes_eq group.now) self.now.groups }
    {
        self.groups
            .as_slice()
            .iter()
            .any(|own| same_bytes(group, own.as_slice()))
    }
}
