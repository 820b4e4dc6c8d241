//! Worked examples of changes told and summed up, as contracts that compute.
ghost use Rattle.std.specs.Prelude.{◌≡◌, ◌++◌, [], ◌∷◌, codes, negsuc, true, false};
ghost use Rattle.sip_policy.specs.Examples.{rule_1, rule_2, rule_3, rule_4, rule_5, rule_6};
ghost use Rattle.sip_policy.specs.declared.rule_verdict.RuleVerdict.{RuleVerdict};
ghost use Rattle.sip_hops.specs.Examples.{local};
ghost use Rattle.sip_config_types.specs.Sample.{sample};
ghost use Rattle.sipd_changes.specs.Changes.{changes_of, can_be_taken};
ghost use Rattle.sipd_changes.specs.Examples.{told_of, summed_of, with_users, same_names, zazu_for_help, with_rules, far_first, by_second, pc_at, and_numbers, twelve, moved};

/// Of the same configuration nothing is told, and a server that runs can take it.
pub fn nothing_differs()
    ensures told { told_of sample ≡ codes "nothing differs\n" }
    ensures taken { can_be_taken (changes_of sample sample) ≡ true }
{}

/// Every key of the frame that differs, the port that is bound, and the offset.
pub fn head_is_told()
    ensures frame { told_of (record sample {
      own = record { host = codes "SIP.host.com"; port = 5061; domains = []; ip = 127 ∷ 0 ∷ 0 ∷ 2 ∷ [] };
      realm = codes "office";
    })
        ≡ codes "host differs: a server that runs can't take it, and a restart with it begins anew\n"
        ++ codes "port differs: a server that runs can't take it, and a restart with it begins anew\n"
        ++ codes "address differs: a server that runs can't take it, and a restart with it begins anew\n"
        ++ codes "domains differs: a server that runs can't take it, and a restart with it begins anew\n"
        ++ codes "realm differs: a server that runs can't take it, and a restart with it begins anew\n"
        ++ codes "a server that runs can't take it\n" }
    ensures bound { told_of (record sample { bound_port = 5070 })
        ≡ codes "port of address 5060 before, 5070 now: a server that runs can't take it\na server that runs can't take it\n" }
    ensures offset { told_of (record sample { offset = negsuc 299 }) ≡ codes "offset 0 before, -300 now\na server that runs can take it\n" }
    ensures bound_is_not_taken { can_be_taken (changes_of sample (record sample { bound_port = 5070 })) ≡ false }
{}

/// Who has another digest or other groups, who comes and who goes. Their order counts for nothing.
pub fn users_are_told()
    ensures same { told_of (with_users same_names)
        ≡ codes "user alice has another a1\nuser alice has another a1_sha256\nuser help joins group staff\na server that runs can take it\n" }
    ensures other { told_of (with_users zazu_for_help)
        ≡ codes "user Mufasa leaves group staff\nuser zazu comes\n"
        ++ codes "user help goes: calls to it get 404, and its phones stay registered until their intervals are over\n"
        ++ codes "a server that runs can take it\n" }
{}

/// A hop that comes before another one moves nothing, and changes no rule that names the other.
pub fn hops_are_told()
    ensures comes { told_of (record sample { hops = far_first; rules = rule_1 ∷ rule_2 ∷ rule_3 ∷ rule_4 ∷ by_second ∷ rule_6 ∷ [] })
        ≡ codes "hop far comes at 127.0.0.1:5095\na server that runs can take it\n" }
    ensures moves { told_of (record sample { hops = record { name = codes "gw"; address = local 5095 } ∷ [] })
        ≡ codes "hop gw moves from 127.0.0.1:5090 to 127.0.0.1:5095\na server that runs can take it\n" }
{}

/// Hosts are compared without case.
pub fn hosts_are_told()
    ensures same { told_of (record sample { addresses = pc_at 5091 }) ≡ codes "nothing differs\n" }
    ensures moves { told_of (record sample { addresses = pc_at 5092 })
        ≡ codes "host_address PC.host.com:5060 moves from 127.0.0.1:5091 to 127.0.0.1:5092: in calls that stand, requests to it get 481\n"
        ++ codes "a server that runs can take it\n" }
    ensures goes { told_of (record sample { addresses = [] })
        ≡ codes "host_address pc.host.com:5060 goes from 127.0.0.1:5091: in calls that stand, requests to it get 481\n"
        ++ codes "a server that runs can take it\n" }
{}

/// Rules that go and come, one that says something else, and a number that is used again for other requests.
pub fn rules_are_told()
    ensures goes { told_of (with_rules (rule_1 ∷ rule_2 ∷ rule_4 ∷ rule_5 ∷ rule_6 ∷ []))
        ≡ codes "rule 3 goes: anyone, send *, vault@host.com: deny\na server that runs can take it\n" }
    ensures comes { told_of (with_rules (record rule_6 { id = 7 } ∷ rule_1 ∷ record rule_3 { id = 8 } ∷ rule_2 ∷ rule_3 ∷ rule_4 ∷ rule_5 ∷ rule_6 ∷ []))
        ≡ codes "rule 7 comes first: proven, send *, @host.com: allow\n"
        ++ codes "rule 8 comes behind rule 1: anyone, send *, vault@host.com: deny\na server that runs can take it\n" }
    ensures says { told_of (with_rules (rule_1 ∷ rule_2 ∷ rule_3 ∷ record rule_4 { verdict = RuleVerdict.Deny } ∷ rule_5 ∷ rule_6 ∷ []))
        ≡ codes "rule 4 before: anyone, send *, help@host.com: allow\nrule 4 now: anyone, send *, help@host.com: deny\n"
        ++ codes "a server that runs can take it\n" }
    ensures again { told_of (with_rules (rule_1 ∷ rule_2 ∷ record rule_4 { id = 3 } ∷ rule_5 ∷ rule_6 ∷ []))
        ≡ codes "rule 3 before: anyone, send *, vault@host.com: deny\nrule 3 now: anyone, send *, help@host.com: allow\n"
        ++ codes "warning: rule 3 is for other requests now, and older lines of the log mean the one before\n"
        ++ codes "rule 4 goes: anyone, send *, help@host.com: allow\na server that runs can take it\n" }
    ensures order { told_of (with_rules (rule_1 ∷ rule_2 ∷ rule_4 ∷ rule_3 ∷ rule_5 ∷ rule_6 ∷ []))
        ≡ codes "rules in another order: 1 2 4 3 5 6\na server that runs can take it\n" }
{}

/// In a few words: how many users come, go and change, each once, and which keys changed, each once.
pub fn changes_are_summed_up()
    ensures none { summed_of sample ≡ codes "nothing differs" }
    ensures users { summed_of (with_users zazu_for_help) ≡ codes "1 user more, 1 user fewer, 1 user changed" }
    ensures same_users { summed_of (with_users same_names) ≡ codes "2 users changed" }
    ensures nobody { summed_of (with_users []) ≡ codes "3 users fewer" }
    ensures places { summed_of (record sample {
      hops = far_first;
      rules = rule_1 ∷ rule_2 ∷ rule_3 ∷ rule_4 ∷ by_second ∷ rule_6 ∷ [];
      addresses = pc_at 5092;
      offset = negsuc 299;
    })
        ≡ codes "offset changed, hop changed, host_address changed" }
    ensures frame { summed_of moved ≡ codes "address changed, realm changed" }
{}

/// And rules by their numbers, twelve at most; one of which all is told twice is named once.
pub fn rules_are_summed_up()
    ensures goes { summed_of (with_rules (rule_1 ∷ rule_2 ∷ rule_4 ∷ rule_5 ∷ rule_6 ∷ [])) ≡ codes "rule 3 gone" }
    ensures comes { summed_of (with_rules
        (record rule_6 { id = 7 } ∷ rule_1 ∷ record rule_3 { id = 8 } ∷ rule_2 ∷ rule_3 ∷ rule_4 ∷ rule_5 ∷ rule_6 ∷ []))
        ≡ codes "rules 7 and 8 new" }
    ensures again { summed_of (with_rules (rule_1 ∷ rule_2 ∷ record rule_4 { id = 3 } ∷ record rule_5 { verdict = RuleVerdict.Deny } ∷ rule_6 ∷ []))
        ≡ codes "rule 4 gone, rules 3 and 5 changed" }
    ensures order { summed_of (with_rules (rule_1 ∷ rule_2 ∷ rule_4 ∷ rule_3 ∷ rule_5 ∷ rule_6 ∷ [])) ≡ codes "order of rules changed" }
    ensures three { summed_of (with_rules (and_numbers (7 ∷ 9 ∷ 8 ∷ []))) ≡ codes "rules 7, 9 and 8 new" }
    ensures dozen { summed_of (with_rules (and_numbers twelve)) ≡ codes "rules 7, 8, 9, 10, 11, 12, 13, 14, 15, 16, 17 and 18 new" }
    ensures many { summed_of (with_rules (and_numbers (twelve ++ 19 ∷ 20 ∷ [])))
        ≡ codes "rules 7, 8, 9, 10, 11, 12, 13, 14, 15, 16, 17, 18 and 2 more new" }
    ensures all { summed_of (record sample { users = []; rules = [] }) ≡ codes "3 users fewer, rules 1, 2, 3, 4, 5 and 6 gone" }
{}
