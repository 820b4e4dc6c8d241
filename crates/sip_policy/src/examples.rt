//! Worked examples of decisions, of patterns, and of the minutes at which a rule holds, as contracts that compute.
ghost use Rattle.std.specs.Prelude.{◌≡◌, ℕ, true, false, List, [], codes, pos, negsuc, Some, None};
ghost use Rattle.sip_uri.specs.Examples.{sample_domains};
ghost use Rattle.sip_policy.specs.declared.decision.Decision.{Decision};
ghost use Rattle.sip_policy.specs.declared.operation.Operation.{Operation};
ghost use Rattle.sip_policy.specs.declared.target_pattern.TargetPattern.{TargetPattern};
ghost use Rattle.sip_policy.specs.Operation.{operation_of};
ghost use Rattle.sip_policy.specs.TargetPattern.{matches_target};
ghost use Rattle.sip_policy.specs.Window.{minute_of, is_within};
ghost use Rattle.sip_policy.specs.Examples.{sample_users, sample_decision, user_at, by_day, by_night, call_to_help, recorded_call};

/// Nobody proven: an INVITE to `alice@host.com` is challenged, since rule 6 needs a user; one to
/// `vault@host.com` is denied by rule 3, and so is a proven user's; one to `help@host.com` is allowed.
pub fn call_challenge_and_vault()
    ensures alice { sample_decision None (Operation.Send (codes "INVITE")) (user_at (codes "alice") (codes "host.com"))
        ≡ Decision.Challenge }
    ensures vault { sample_decision None (Operation.Send (codes "INVITE")) (user_at (codes "vault") (codes "host.com"))
        ≡ Decision.Deny 3 }
    ensures vault_proven { (name : List ℕ)
        → sample_decision (Some name) (Operation.Send (codes "INVITE")) (user_at (codes "vault") (codes "host.com"))
        ≡ Decision.Deny 3 }
    ensures help { sample_decision None (Operation.Send (codes "INVITE")) (user_at (codes "help") (codes "host.com"))
        ≡ Decision.Allow 4 }
{}

/// A MESSAGE to `x@other.net` is denied by rule 0, whether nobody or any user is proven.
pub fn foreign_domain_denied()
    ensures nobody { sample_decision None (Operation.Send (codes "MESSAGE")) (user_at (codes "x") (codes "other.net"))
        ≡ Decision.Deny 0 }
    ensures proven { (name : List ℕ)
        → sample_decision (Some name) (Operation.Send (codes "MESSAGE")) (user_at (codes "x") (codes "other.net"))
        ≡ Decision.Deny 0 }
{}

/// An INVITE of Mufasa's, who is staff, to `911@host.com` goes by the hop `gw`, the first; another method of his
/// and an INVITE of alice's are allowed by rule 6; nobody's INVITE is challenged.
pub fn gateway()
    ensures staff { sample_decision (Some (codes "Mufasa")) (Operation.Send (codes "INVITE")) (user_at (codes "911") (codes "host.com"))
        ≡ Decision.Via 5 0 }
    ensures other_method { sample_decision (Some (codes "Mufasa")) (Operation.Send (codes "MESSAGE")) (user_at (codes "911") (codes "host.com"))
        ≡ Decision.Allow 6 }
    ensures alice { sample_decision (Some (codes "alice")) (Operation.Send (codes "INVITE")) (user_at (codes "911") (codes "host.com"))
        ≡ Decision.Allow 6 }
    ensures nobody { sample_decision None (Operation.Send (codes "INVITE")) (user_at (codes "911") (codes "host.com"))
        ≡ Decision.Challenge }
{}

/// Mufasa may register contacts of his own address by rule 1 and list them by rule 2, and alice may not
/// register his. A REGISTER by nobody is challenged where To names a configured user of an own domain,
/// and is denied by rule 0 elsewhere.
pub fn registration()
    ensures own { sample_decision (Some (codes "Mufasa")) Operation.Register (user_at (codes "Mufasa") (codes "host.com"))
        ≡ Decision.Allow 1 }
    ensures list { sample_decision (Some (codes "Mufasa")) Operation.List (user_at (codes "Mufasa") (codes "host.com"))
        ≡ Decision.Allow 2 }
    ensures third_party { sample_decision (Some (codes "alice")) Operation.Register (user_at (codes "Mufasa") (codes "host.com"))
        ≡ Decision.Deny 0 }
    ensures first_challenge { sample_decision None Operation.Register (user_at (codes "Mufasa") (codes "host.com"))
        ≡ Decision.Challenge }
    ensures unknown_user { sample_decision None Operation.Register (user_at (codes "nobody") (codes "host.com"))
        ≡ Decision.Deny 0 }
    ensures foreign_domain { sample_decision None Operation.Register (user_at (codes "Mufasa") (codes "other.net"))
        ≡ Decision.Deny 0 }
{}

/// A user is compared with case and a domain without; an empty prefix is that of every user, also of the
/// empty one; a prefix is no more than a prefix. A REGISTER registers or lists, a method is compared with
/// case.
pub fn patterns()
    ensures domain { matches_target sample_users sample_domains None (user_at (codes "vault") (codes "host.com"))
        (TargetPattern.Exact (codes "vault") (codes "Host.COM")) ≡ true }
    ensures user { matches_target sample_users sample_domains None (user_at (codes "vault") (codes "host.com"))
        (TargetPattern.Exact (codes "Vault") (codes "host.com")) ≡ false }
    ensures empty_user { matches_target sample_users sample_domains None (user_at [] (codes "host.com"))
        (TargetPattern.Prefix [] (codes "host.com")) ≡ true }
    ensures prefix { matches_target sample_users sample_domains None (user_at (codes "9") (codes "host.com"))
        (TargetPattern.Prefix (codes "91") (codes "host.com")) ≡ false }
    ensures register { operation_of (codes "REGISTER") true ≡ Operation.Register }
    ensures query { operation_of (codes "REGISTER") false ≡ Operation.List }
    ensures other { operation_of (codes "register") true ≡ Operation.Send (codes "register") }
{}

/// The minute of the day, an hour ahead of UTC, at UTC, five hours behind (-300) and at the ends of what is
/// configured; the day begins again at midnight.
pub fn minutes_of_the_day()
    ensures before_eight { minute_of 25199999 (pos 60) ≡ 479 }
    ensures eight { minute_of 25200000 (pos 60) ≡ 480 }
    ensures before_six { minute_of 61199999 (pos 60) ≡ 1079 }
    ensures six { minute_of 61200000 (pos 60) ≡ 1080 }
    ensures at_first { minute_of 0 (pos 0) ≡ 0 }
    ensures last { minute_of 86399999 (pos 0) ≡ 1439 }
    ensures next_day { minute_of 86400000 (pos 0) ≡ 0 }
    ensures over_midnight { minute_of 82800000 (pos 60) ≡ 0 }
    ensures behind { minute_of 0 (negsuc 299) ≡ 1140 }
    ensures behind_at_noon { minute_of 43200000 (negsuc 299) ≡ 420 }
    ensures most_behind { minute_of 0 (negsuc 719) ≡ 720 }
    ensures most_ahead { minute_of 43200000 (pos 840) ≡ 120 }
{}

/// A window has its first minute and not its last, also over midnight.
pub fn minutes_of_a_window()
    ensures before { is_within 479 by_day ≡ false }
    ensures first { is_within 480 by_day ≡ true }
    ensures last { is_within 1079 by_day ≡ true }
    ensures end { is_within 1080 by_day ≡ false }
    ensures before_night { is_within 1079 by_night ≡ false }
    ensures first_of_night { is_within 1080 by_night ≡ true }
    ensures midnight { is_within 0 by_night ≡ true }
    ensures last_of_night { is_within 479 by_night ≡ true }
    ensures end_of_night { is_within 480 by_night ≡ false }
{}

/// Where rule 4 has a window, anyone may call help within it, and nobody's call is challenged by rule 6
/// outside of it; the minute is recorded where rule 4 decides. Outside of it, a proven user calls by rule 6.
pub fn calls_within_a_window()
    ensures before { call_to_help by_day None 25199999 ≡ Decision.Challenge }
    ensures first { call_to_help by_day None 25200000 ≡ Decision.Allow 4 }
    ensures last { call_to_help by_day None 61199999 ≡ Decision.Allow 4 }
    ensures end { call_to_help by_day None 61200000 ≡ Decision.Challenge }
    ensures night { call_to_help by_night None 25199999 ≡ Decision.Allow 4 }
    ensures end_of_night { call_to_help by_night None 25200000 ≡ Decision.Challenge }
    ensures proven_before { call_to_help by_day (Some (codes "alice")) 25199999 ≡ Decision.Allow 6 }
    ensures proven_within { call_to_help by_day (Some (codes "alice")) 25200000 ≡ Decision.Allow 4 }
    ensures recorded { recorded_call by_day None 25200000 ≡ Some 480 }
    ensures recorded_by_night { recorded_call by_night None 25199999 ≡ Some 479 }
    ensures not_recorded { recorded_call by_day None 25199999 ≡ None }
    ensures not_recorded_proven { recorded_call by_day (Some (codes "alice")) 25199999 ≡ None }
{}
