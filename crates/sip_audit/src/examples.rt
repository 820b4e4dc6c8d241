ghost use Rattle.std.specs.Prelude.{◌≡◌, true, false, codes, Some, None};
ghost use Rattle.sip_audit.specs.declared.record.AuditOutcome.TheVariants.{Challenge, Deny};
ghost use Rattle.sip_audit.specs.Lines.{target_text, rule_text, is_minute_of, line_of};
ghost use Rattle.sip_audit.specs.Examples as Records;

/// A byte of a user part that is of no name is written as an escape, with digits in upper case.
pub fn audit_target()
    ensures space { target_text (record { user = codes "a b"; host = codes "host.com" }) ≡ codes "a%20b@host.com" }
    ensures upper_case { target_text (record { user = codes "a/b%"; host = codes "host.com" }) ≡ codes "a%2Fb%25@host.com" }
{}

/// The line of each outcome.
pub fn audit_line()
    ensures challenged { line_of Records.challenged ≡ codes "1000 1 REGISTER - Mufasa@host.com register - challenge 401" }
    ensures answered { line_of Records.answered ≡ codes "2000 2 REGISTER Mufasa Mufasa@host.com register 1 answer 200" }
    ensures denied { line_of Records.denied ≡ codes "2000 2 REGISTER alice Mufasa@host.com register 0 deny" }
    ensures sent { line_of Records.sent ≡ codes "62000 4 INVITE - help@host.com send 4 sent 1" }
    ensures listed { line_of Records.listed ≡ codes "2000 2 REGISTER Mufasa Mufasa@host.com list 1 answer 200" }
{}

/// The number of a rule with a window is followed by the minute at which it decided; a challenge names no
/// rule, and no minute.
pub fn audit_line_of_a_window()
    ensures answered { line_of Records.within_a_window ≡ codes "25200000 1 INVITE - help@host.com send 4@480 answer 480" }
    ensures challenged { line_of Records.before_a_window ≡ codes "25199999 1 INVITE - help@host.com send - challenge 407" }
    ensures denied { line_of Records.denied_within ≡ codes "25200000 1 INVITE - help@host.com send 4@480 deny" }
    ensures sent { line_of Records.sent_within ≡ codes "25200000 1 INVITE - help@host.com send 4@480 sent 2" }
    ensures first_minute { rule_text 4 (Some 0) ≡ codes "4@0" }
{}

/// A minute is one of the day, and goes with the number of a rule.
pub fn minute_of_a_record()
    ensures last { is_minute_of (Deny 4) (Some 1439) ≡ true }
    ensures past { is_minute_of (Deny 4) (Some 1440) ≡ false }
    ensures no_rule { is_minute_of (Deny 0) (Some 480) ≡ false }
    ensures challenge { is_minute_of (Challenge 407) (Some 480) ≡ false }
    ensures none { is_minute_of (Challenge 407) None ≡ true }
{}
