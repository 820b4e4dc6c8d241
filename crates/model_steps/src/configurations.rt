ghost use Rattle.std.specs.Prelude.{◌≡◌, [], ◌∷◌, codes, map};
ghost use Rattle.sip_audit.specs.Lines.{line_of};
ghost use Rattle.sip_policy.specs.Examples as Policy;
ghost use Rattle.model_steps.specs.Examples;
ghost use Rattle.model_steps.specs.ConfigurationExamples as Configurations;

/// Where rule 4 has a window, an INVITE to help, who has no binding, is let through within it, to a 480 whose
/// record names the minute, and challenged outside of it, since rule 6 asks for a user.
pub fn calls_within_a_window()
    ensures before_window { map line_of (Configurations.called_at Policy.by_day 25199999).records
        ≡ codes "25199999 1 INVITE - help@host.com send - challenge 407" ∷ [] }
    ensures window_opens { map line_of (Configurations.called_at Policy.by_day 25200000).records
        ≡ codes "25200000 1 INVITE - help@host.com send 4@480 answer 480" ∷ [] }
    ensures last_minute { map line_of (Configurations.called_at Policy.by_day 61199999).records
        ≡ codes "61199999 1 INVITE - help@host.com send 4@1079 answer 480" ∷ [] }
    ensures window_closes { map line_of (Configurations.called_at Policy.by_day 61200000).records
        ≡ codes "61200000 1 INVITE - help@host.com send - challenge 407" ∷ [] }
    ensures overnight_open { map line_of (Configurations.called_at Policy.by_night 25199999).records
        ≡ codes "25199999 1 INVITE - help@host.com send 4@479 answer 480" ∷ [] }
    ensures overnight_closed { map line_of (Configurations.called_at Policy.by_night 25200000).records
        ≡ codes "25200000 1 INVITE - help@host.com send - challenge 407" ∷ [] }
    ensures answered { Examples.seen (Configurations.called_at Policy.by_day 25200000) ≡ (5070, 0, 250) ∷ [] }
{}

/// Where some user has a key by SHA-256, a challenge has a field by each algorithm, in 474 bytes; Mufasa, who
/// has none, answers by MD5.
pub fn two_challenges()
    ensures challenged { Examples.seen Configurations.challenged_twice ≡ (5062, 0, 474) ∷ [] }
    ensures registered { Examples.seen (Configurations.answered_by Configurations.mufasas_by_md5) ≡ (5062, 0, 267) ∷ [] }
    ensures audit { map line_of (Configurations.answered_by Configurations.mufasas_by_md5).records
        ≡ codes "2000 2 REGISTER Mufasa Mufasa@host.com register 1 answer 200" ∷ [] }
{}

/// An answer by SHA-256 of a user who has no such key proves nobody: 401 again, and not as stale.
pub fn sha256_without_key()
    ensures challenged { Examples.seen (Configurations.answered_by Configurations.mufasas_by_sha256) ≡ (5062, 0, 474) ∷ [] }
    ensures audit { map line_of (Configurations.answered_by Configurations.mufasas_by_sha256).records
        ≡ codes "2000 2 REGISTER - Mufasa@host.com register - challenge 401" ∷ [] }
{}

/// One count for both algorithms: what was used by MD5 is stale by SHA-256, and the next is right.
pub fn one_count_for_both()
    ensures by_md5 { Examples.seen Configurations.once ≡ (5062, 0, 249) ∷ [] }
    ensures stale { Examples.seen Configurations.twice ≡ (5062, 0, 482) ∷ [] }
    ensures by_sha256 { Examples.seen Configurations.thrice ≡ (5062, 0, 249) ∷ [] }
    ensures audit { map line_of Configurations.thrice.records ≡ codes "4000 4 REGISTER help help@host.com register 1 answer 200" ∷ [] }
{}
