ghost use Rattle.std.specs.Prelude.{◌≡◌, true};
ghost use Rattle.sip_proxy.specs.verdict.Verdict.{are_somebody};

use sip_proxy::verdict::Judged;
use sip_targets::Targets;

/// What policy decided about a request that goes to its targets (RFC 3261 16.5), lent: the rule that lets it through, and the
/// targets, which are somebody.
#[derive(Drop)]
pub struct RoutedRequest<'a, 'v> {
    pub judged: &'a Judged<'v>,
    pub rule: u32,
    pub targets: &'a Targets,
    pub ghost somebody: { are_somebody targets.now ≡ true },
}
