ghost use Rattle.std.specs.Prelude.{◌≡◌};
ghost use Rattle.sipd_reload.specs.Watch as Definitions;

use crate::stamp::{Stamp, same_stamp};
use sip_text::{Bytes, same_bytes};

/// What is known of a file from the last looks. Known bytes are those in force, and those refused last.
#[derive(Drop)]
pub enum Seen {
    /// Nothing.
    Nothing,
    /// It held these bytes, which aren't known, at one look.
    Other(Bytes),
    /// It held known bytes at one look, and had this stamp.
    Once(Stamp),
    /// It held known bytes at two looks, and had this stamp at both: it is read when it has another one.
    Twice(Stamp),
}

impl Seen {
    /// Whether a file with this stamp is read.
    pub(crate) fn is_read(&self, stamp: &Stamp) -> bool
        ensures { result ≡ Definitions.is_read self.now stamp.now }
    {
        match self {
            Seen::Twice(seen) => !same_stamp(seen, stamp),
            _ => true,
        }
    }

    /// Whether it had this stamp when it held known bytes.
    fn has_stamp(&self, stamp: &Stamp) -> bool
        ensures { result ≡ Definitions.has_stamp self.now stamp.now }
    {
        match self {
            Seen::Once(seen) | Seen::Twice(seen) => same_stamp(seen, stamp),
            _ => false,
        }
    }

    /// What is known when it holds known bytes once more, under this stamp.
    pub(crate) fn with_known(&self, stamp: Stamp) -> Seen
        ensures { result ≡ Definitions.with_known self.now stamp }
    {
        if self.has_stamp(&stamp) {
            Seen::Twice(stamp)
        } else {
            Seen::Once(stamp)
        }
    }

    /// Whether it held these bytes, which aren't known, at the last look.
    pub(crate) fn has_other(&self, bytes: &[u8]) -> bool
        ensures { result ≡ Definitions.has_other self.now bytes.now }
    {
        match self {
            Seen::Other(seen) => same_bytes(seen.as_slice(), bytes),
            _ => false,
        }
    }
}
