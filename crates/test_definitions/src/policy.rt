ghost use Rattle.std.specs.Prelude.{◌≡◌, [], ◌∷◌, codes, true, false, None, Some};
ghost use Rattle.sip_uri.specs.Examples.{sample_domains};
ghost use Rattle.sip_policy.specs.declared.decision.Decision.{Decision};
ghost use Rattle.sip_policy.specs.declared.operation.Operation.{Operation};
ghost use Rattle.sip_policy.specs.declared.operation.OperationPattern.TheVariants as Pattern;
ghost use Rattle.sip_policy.specs.declared.target_pattern.TargetPattern.TheVariants as Target;
ghost use Rattle.sip_policy.specs.declared.who.Who.{Who};
ghost use Rattle.sip_policy.specs.Examples.{sample_users, user_at};
ghost use Rattle.sip_policy.specs.User.{is_own_domain, is_users_address};
ghost use Rattle.test_definitions.specs.Policy.{allowing, at_home, decision_by, minute_by};

/// Where nobody is proven, a rule decides only if it is for `anyone` and not on `self`; every other one that matches asks
/// for a proof: one for `anyone` on `self`, one for a user, and one for a group.
pub fn proofs()
    ensures anyone { decision_by (allowing Who.Anyone Pattern.Register Target.Any) None Operation.Register (at_home (codes "Mufasa"))
        ≡ Decision.Allow 8 }
    ensures anyone_on_self { decision_by (allowing Who.Anyone Pattern.Register Target.SelfTarget) None Operation.Register
        (at_home (codes "Mufasa")) ≡ Decision.Challenge }
    ensures user { decision_by (allowing (Who.User (codes "Mufasa")) Pattern.SendAny Target.Any) None
        (Operation.Send (codes "INVITE")) (at_home (codes "alice")) ≡ Decision.Challenge }
    ensures group { decision_by (allowing (Who.Group (codes "staff")) Pattern.SendAny Target.Any) None
        (Operation.Send (codes "INVITE")) (at_home (codes "alice")) ≡ Decision.Challenge }
{}

/// A rule for one user is for that user alone, whose name is compared byte by byte.
pub fn users()
    ensures the_user { decision_by (allowing (Who.User (codes "alice")) Pattern.SendAny Target.Any) (Some (codes "alice"))
        (Operation.Send (codes "INVITE")) (at_home (codes "help")) ≡ Decision.Allow 8 }
    ensures another { decision_by (allowing (Who.User (codes "alice")) Pattern.SendAny Target.Any) (Some (codes "Mufasa"))
        (Operation.Send (codes "INVITE")) (at_home (codes "help")) ≡ Decision.Deny 0 }
    ensures another_case { decision_by (allowing (Who.User (codes "mufasa")) Pattern.SendAny Target.Any) (Some (codes "Mufasa"))
        (Operation.Send (codes "INVITE")) (at_home (codes "help")) ≡ Decision.Deny 0 }
{}

/// A rule that lets bindings be listed lets none be made, and the other way round; methods are compared with case (RFC
/// 3261 7.1).
pub fn operations()
    ensures register_by_list { decision_by (allowing Who.Proven Pattern.List Target.SelfTarget) (Some (codes "Mufasa")) Operation.Register
        (at_home (codes "Mufasa")) ≡ Decision.Deny 0 }
    ensures list_by_register { decision_by (allowing Who.Proven Pattern.Register Target.SelfTarget) (Some (codes "Mufasa")) Operation.List
        (at_home (codes "Mufasa")) ≡ Decision.Deny 0 }
    ensures send_by_register { decision_by (allowing Who.Proven Pattern.Register Target.Any) (Some (codes "Mufasa"))
        (Operation.Send (codes "INVITE")) (at_home (codes "help")) ≡ Decision.Deny 0 }
    ensures other_case { decision_by (allowing Who.Proven (Pattern.Send (codes "INVITE")) Target.Any) (Some (codes "Mufasa"))
        (Operation.Send (codes "invite")) (at_home (codes "help")) ≡ Decision.Deny 0 }
{}

/// A rule for one address is for its user part and its domain alone, also where the user part stands in another domain; so is
/// one for a prefix, and one for `self`.
pub fn targets()
    ensures exact { decision_by (allowing Who.Anyone Pattern.SendAny (Target.Exact (codes "help") (codes "host.com"))) None
        (Operation.Send (codes "INVITE")) (user_at (codes "help") (codes "far.net")) ≡ Decision.Deny 0 }
    ensures prefix { decision_by (allowing Who.Anyone Pattern.SendAny (Target.Prefix (codes "he") (codes "host.com"))) None
        (Operation.Send (codes "INVITE")) (user_at (codes "help") (codes "far.net")) ≡ Decision.Deny 0 }
    ensures self_elsewhere { decision_by (allowing Who.Proven Pattern.Register Target.SelfTarget) (Some (codes "Mufasa")) Operation.Register
        (user_at (codes "Mufasa") (codes "far.net")) ≡ Decision.Deny 0 }
    ensures self_of_another { decision_by (allowing Who.Proven Pattern.Register Target.SelfTarget) (Some (codes "Mufasa")) Operation.Register
        (at_home (codes "alice")) ≡ Decision.Deny 0 }
{}

/// A user has an address in each own domain, which is compared without case (RFC 3261 19.1.4), and in no other; and nobody
/// else has one there.
pub fn addresses()
    ensures own_domain { is_own_domain (codes "Host.COM" ∷ []) (codes "host.com") ≡ true }
    ensures user { is_users_address sample_users sample_domains (at_home (codes "alice")) ≡ true }
    ensures foreign { is_users_address sample_users sample_domains (user_at (codes "alice") (codes "far.net")) ≡ false }
    ensures nobody { is_users_address sample_users sample_domains (at_home (codes "nobody")) ≡ false }
    ensures other_case { is_users_address sample_users sample_domains (at_home (codes "Alice")) ≡ false }
{}

/// The minute is recorded of what a rule with a window decides, and not of a challenge, which names no rule.
pub fn minutes()
    ensures decided { minute_by Who.Anyone None ≡ Some 480 }
    ensures proven { minute_by Who.Proven (Some (codes "alice")) ≡ Some 480 }
    ensures challenged { minute_by Who.Proven None ≡ None }
{}
