//! Which calls are shown.
ghost use Rattle.std.specs.Prelude.{◌≡◌, IfOk, option_map};
ghost use Rattle.sipd_calls.specs.Choices as Definitions;

use crate::words::began;
use sip_days::Call;
use sip_text::same_bytes;
use sip_uri::{Addr, addr_text, ip_text};
use sipd_report::{is_challenge, is_of_target, is_of_user, is_within};
use std::alloc::{AllocError, Global};

/// Which calls are shown: those that meet all of what is given. Times are in seconds since 1970 began, on the office's clock.
#[derive(Drop)]
pub struct CallFilter<'q> {
    /// From this second on.
    pub since: Option<u64>,
    /// Before this second.
    pub until: Option<u64>,
    /// The name of the proven caller.
    pub user: Option<&'q [u8]>,
    /// Who was called: `USER`, or `USER@HOST`, as an audit line writes them.
    pub target: Option<&'q [u8]>,
    /// Where the INVITE came from: `IP`, or `IP:PORT`.
    pub from: Option<&'q [u8]>,
    /// Those that were asked for a credential, too.
    pub challenged: bool,
}

/// Whether a text says an address, or its IP.
fn says_addr(alloc: Global, text: &[u8], addr: Addr) -> Result<bool, AllocError>
    ensures { IfOk result (λ is. is ≡ Definitions.says_addr text.now addr) }
{
    let ip = ip_text(alloc, addr.ip)?;
    let whole = addr_text(alloc, addr)?;
    if same_bytes(text, whole.as_slice()) {
        return Ok(true);
    }
    Ok(same_bytes(text, ip.as_slice()))
}

/// Whether a place is the one that is given; none isn't.
fn is_at(alloc: Global, text: &[u8], source: Option<Addr>) -> Result<bool, AllocError>
    ensures { IfOk result (λ is. is ≡ Definitions.is_at text.now source) }
{
    match source {
        Some(addr) => says_addr(alloc, text, addr),
        None => Ok(false),
    }
}

fn is_from(alloc: Global, wanted: Option<&[u8]>, source: Option<Addr>) -> Result<bool, AllocError>
    ensures { IfOk result (λ is. is ≡ Definitions.is_from (option_map (λ text. text.now) wanted.entry) source) }
{
    match wanted {
        Some(text) => is_at(alloc, text, source),
        None => Ok(true),
    }
}

impl CallFilter<'_> {
    /// Whether a call began when it is asked for.
    fn is_in_time(&self, call: &Call) -> bool
        ensures { result ≡ Definitions.is_in_time self.now call.now }
    {
        is_within(self.since, self.until, began(call))
    }

    /// Whether that is so, and its caller is asked for.
    fn asks_for(&self, call: &Call) -> bool
        ensures { result ≡ Definitions.is_asked self.now call.now }
    {
        self.is_in_time(call)
            && is_of_user(self.user, &call.decision.who)
            && (self.challenged || !is_challenge(call.decision.outcome))
    }

    /// Whether a call is shown. `AllocError` is the only refusal.
    pub fn shows(&self, alloc: Global, call: &Call) -> Result<bool, AllocError>
        ensures { IfOk result (λ is. is ≡ Definitions.is_shown self.now call.now) }
    {
        if !self.asks_for(call) {
            return Ok(false);
        }
        if !is_of_target(alloc, self.target, &call.decision.target)? {
            return Ok(false);
        }
        is_from(alloc, self.from, call.source)
    }
}
