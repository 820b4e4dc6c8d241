ghost use Rattle.std.specs.Prelude.{◌≡◌, [], ◌∷◌, drop};
ghost use Rattle.sip_timers.specs.Lives.{left_alone, sends};
ghost use Rattle.sip_transactions.specs.ClientInvite.{start, invite_machine};
ghost use Rattle.sip_transactions.specs.ClientOther.{start as start_other, other_machine};
ghost use Rattle.sip_transactions.specs.declared.client_actions.ClientAction.TheVariants.{Up};
ghost use Rattle.sip_transactions.specs.declared.client_actions.Report.TheVariants.{Timeout};
ghost use Rattle.sip_transactions.specs.declared.client_invite.ClientInvite.TheVariants.{Terminated};
ghost use Rattle.sip_transactions.specs.declared.client_other.ClientOther.TheVariants.{Terminated as Over};

/// An INVITE that nobody answers is sent at these moments, and given up after 32,000 ms.
pub fn invite_unanswered()
    ensures sent { sends invite_machine (left_alone invite_machine 8 start)
        ≡ 0 ∷ 500 ∷ 1500 ∷ 3500 ∷ 7500 ∷ 15500 ∷ 31500 ∷ [] }
    ensures given_up { drop 7 (left_alone invite_machine 8 start) ≡ (32000, Terminated, Up Timeout ∷ []) ∷ [] }
{}

/// Another request that nobody answers is sent at these moments, and given up after 32,000 ms.
pub fn other_unanswered()
    ensures sent { sends other_machine (left_alone other_machine 12 start_other)
        ≡ 0 ∷ 500 ∷ 1500 ∷ 3500 ∷ 7500 ∷ 11500 ∷ 15500 ∷ 19500 ∷ 23500 ∷ 27500 ∷ 31500 ∷ [] }
    ensures given_up { drop 11 (left_alone other_machine 12 start_other) ≡ (32000, Over, Up Timeout ∷ []) ∷ [] }
{}
