ghost use Rattle.std.specs.Prelude.{◌≡◌, [], ◌∷◌, false, drop};
ghost use Rattle.sip_timers.specs.declared.letter.Letter.TheVariants.{J};
ghost use Rattle.sip_timers.specs.Lives.{left_alone, life, sends};
ghost use Rattle.sip_transactions.specs.ServerInvite.{server_invite, invite_machine};
ghost use Rattle.sip_transactions.specs.ServerOther.{server_other, other_machine};
ghost use Rattle.sip_transactions.specs.declared.server_actions.ServerAction.TheVariants.{Send, SendAgain, Start};
ghost use Rattle.sip_transactions.specs.declared.server_invite.ServerInvite.TheVariants.{Proceeding, Terminated};
ghost use Rattle.sip_transactions.specs.declared.server_invite.ServerInviteInput.TheVariants.{Answer};
ghost use Rattle.sip_transactions.specs.declared.server_other.ServerOther.TheVariants.{Trying, Completed, Terminated as Over};
ghost use Rattle.sip_transactions.specs.declared.server_other.ServerOtherInput.TheVariants.{Request, Answer as Answered, Fired};

/// A final answer that no ACK follows is sent at these moments, and given up after 32,000 ms.
pub fn unacknowledged()
    ensures sent { sends invite_machine (left_alone invite_machine 12 (server_invite (Proceeding false) (Answer 486)))
        ≡ 0 ∷ 500 ∷ 1500 ∷ 3500 ∷ 7500 ∷ 11500 ∷ 15500 ∷ 19500 ∷ 23500 ∷ 27500 ∷ 31500 ∷ [] }
    ensures given_up { drop 11 (left_alone invite_machine 12 (server_invite (Proceeding false) (Answer 486)))
        ≡ (32000, Terminated, []) ∷ [] }
{}

/// A request is answered 200, and each of its retransmissions is answered again, until Timer J fires
/// after 32,000 ms.
pub fn answered()
    ensures answers { life other_machine Trying (Answered 200 ∷ Request ∷ Request ∷ Fired J ∷ [])
        ≡ (Completed, Send ∷ Start J 32000 ∷ [])
        ∷ (Completed, SendAgain ∷ [])
        ∷ (Completed, SendAgain ∷ [])
        ∷ (Over, [])
        ∷ [] }
    ensures end { left_alone other_machine 2 (server_other Trying (Answered 200))
        ≡ (0, Completed, Send ∷ Start J 32000 ∷ [])
        ∷ (32000, Over, [])
        ∷ [] }
{}
