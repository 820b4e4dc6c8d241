ghost use Rattle.std.specs.Prelude.{◌≡◌, ◌+◌, length, IfOk};
ghost use Rattle.sip_uri.specs.Aor.{is_same_aor};

use crate::aor_ref::AorRef;
use sip_text::same_bytes;
use sip_uri::Aor;
use std::alloc::{AllocError, Global};
use std::boxed::BoxedSlice;
use std::marker::Model;

/// An address of record as bindings are filed under it, in one block of memory: the length of its user in four bytes, its
/// user and its host.
#[derive(Drop)]
pub(crate) struct KeptAor {
    block: BoxedSlice<u8, Global>,
}

impl Model for KeptAor {
    ghost use Rattle.std.specs.Prelude.{◌≤◌, ◌+◌, length};
    ghost use Rattle.std.specs.Box.{boxed_slice_items};
    ghost use Rattle.sip_uri.specs.declared.aor.Aor.{Aor};
    ghost use Rattle.sip_location.specs.KeptAor.{aor_in, user_length};

    ghost Value = { Aor };

    ghost view = { λ f. aor_in (boxed_slice_items f.block) };

    ghost invariant = { λ f. 4 + user_length (boxed_slice_items f.block) ≤ length (boxed_slice_items f.block) };
}

impl KeptAor {
    /// An address of record, copied. A user of 4 GiB or more, which no datagram brings, is refused as want of memory.
    pub(crate) fn of(alloc: Global, aor: &Aor) -> Result<Self, AllocError>
        ensures { IfOk result (λ filed. filed ≡ aor.now) }
    {
        let user = aor.user.as_slice();
        let host = aor.host.as_slice();
        let user_length = u32::try_from(user.len()).map_err(|_| AllocError)?;
        let length = user.len().saturating_add(host.len()).saturating_add(4);
        let mut block = Vec::with_capacity(alloc, length)?;
        block.extend_from_slice(&user_length.to_le_bytes())?;
        block.extend_from_slice(user)?;
        block.extend_from_slice(host)?;
        Ok(KeptAor {
            block: block.into_boxed_slice(),
        })
    }

    /// Where in its block the host begins.
    fn host_place(&self) -> usize
        ensures { result ≡ 4 + length self.now.user }
    {
        let front = self.block.as_slice();
        4 + u32::from_le_bytes([front[0], front[1], front[2], front[3]]) as usize
    }

    fn user(&self) -> &[u8]
        ensures { result.now ≡ self.now.user }
    {
        &self.block.as_slice()[4..self.host_place()]
    }

    fn host(&self) -> &[u8]
        ensures { result.now ≡ self.now.host }
    {
        &self.block.as_slice()[self.host_place()..]
    }

    /// It, lent.
    pub(crate) fn lent(&self) -> AorRef<'_>
        ensures { result ≡ self.now }
    {
        AorRef::new(self.user(), self.host())
    }

    /// Whether it is this one, byte by byte.
    pub(crate) fn is_same(&self, aor: &AorRef<'_>) -> bool
        ensures { result ≡ is_same_aor self.now aor.now }
    {
        same_bytes(self.user(), aor.user()) && same_bytes(self.host(), aor.host())
    }
}
