//! What is chosen by a time, or by whom something is for: as `report`, `calls` and `sources` choose.
ghost use Rattle.std.specs.Prelude.{◌≡◌, IfOk, option_map};
ghost use Rattle.sipd_report.specs.Chosen as Definitions;

use crate::target::{push_user, put_target};
use sip_text::{Bytes, same_bytes};
use sip_uri::Aor;
use std::alloc::{AllocError, Global};

/// Whether a second is the one that is given, or later; any is, where none is given.
fn is_since(since: Option<u64>, second: u64) -> bool
    ensures { result ≡ Definitions.is_since since second }
{
    match since {
        Some(since) => since <= second,
        None => true,
    }
}

/// Whether it is before the one that is given.
fn is_before(until: Option<u64>, second: u64) -> bool
    ensures { result ≡ Definitions.is_before until second }
{
    match until {
        Some(until) => second < until,
        None => true,
    }
}

/// Whether a second is from the one on that is given, and before the other, as far as they are given.
pub fn is_within(since: Option<u64>, until: Option<u64>, second: u64) -> bool
    ensures { result ≡ Definitions.is_within since until second }
{
    is_since(since, second) && is_before(until, second)
}

/// Whether a text says an address of record, or its user.
fn says_aor(alloc: Global, text: &[u8], aor: &Aor) -> Result<bool, AllocError>
    ensures { IfOk result (λ is. is ≡ Definitions.says_aor text.now aor.now) }
{
    let mut user = Bytes::new(alloc);
    push_user(&mut user, aor.user.as_slice())?;
    let mut whole = Bytes::new(alloc);
    put_target(&mut whole, aor)?;
    if same_bytes(text, whole.as_slice()) {
        return Ok(true);
    }
    Ok(same_bytes(text, user.as_slice()))
}

/// Whether an address of record is the one that is given, as `USER` or `USER@HOST`, as an audit line writes them; any is, where none is
/// given. `AllocError` is the only refusal.
pub fn is_of_target(alloc: Global, wanted: Option<&[u8]>, aor: &Aor) -> Result<bool, AllocError>
    ensures { IfOk result (λ is. is ≡ Definitions.is_of_target (option_map (λ text. text.now) wanted.entry) aor.now) }
{
    match wanted {
        Some(text) => says_aor(alloc, text, aor),
        None => Ok(true),
    }
}
