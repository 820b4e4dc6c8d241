ghost use Rattle.std.specs.Prelude.{◌≡◌, ◌≤◌, ◌⊎◌, List, [], ◌∷◌, true, false, None};
ghost use Rattle.std.specs.List.{list_any};
ghost use Rattle.sip_timers.specs.declared.letter.Letter.TheVariants.{G, H, I, J, L};
ghost use Rattle.sip_timers.specs.Machine.{IsOneOf, KeepsTimers};
ghost use Rattle.sip_timers.specs.Resends.{SendsAgainBy, NoneSendsByTime};
ghost use Rattle.sip_transactions.specs.ServerAction.{sends_again, copy_actions};
ghost use Rattle.sip_transactions.specs.ServerInvite.{invite_machine, wait_g, answers_copy};
ghost use Rattle.sip_transactions.specs.ServerOther.{server_other, other_machine, finals_sent, answers_copy as answers_other_copy};
ghost use Rattle.sip_transactions.specs.declared.server_invite.ServerInviteInput.TheVariants.{Invite, Fired};
ghost use Rattle.sip_transactions.specs.declared.server_other.ServerOther.TheVariants.{Trying, Completed};
ghost use Rattle.sip_transactions.specs.declared.server_other.ServerOtherInput.{ServerOtherInput};
ghost use Rattle.sip_transactions.specs.declared.server_other.ServerOtherInput.TheVariants.{Answer, Request};

use crate::server_invite::{ServerInvite, ServerInviteInput};
use crate::server_other::{ServerOther, ServerOtherInput};
use sip_timers::Letter;

/// The timers of an INVITE's transaction run as its table starts them, and no other does.
pub fn invite_timers(state: ServerInvite, letter: Letter)
    ensures keeps { KeepsTimers invite_machine }
    ensures own { invite_machine.runs state letter ≡ true → IsOneOf (G ∷ H ∷ I ∷ L ∷ []) letter }
{}

/// The timer of another request's transaction runs as its table starts it, and no other does.
pub fn other_timers(state: ServerOther, letter: Letter)
    ensures keeps { KeepsTimers other_machine }
    ensures own { other_machine.runs state letter ≡ true → IsOneOf (J ∷ []) letter }
{}

/// Whatever a transaction hears, it sends one final answer at most, retransmissions aside: once it has, the
/// core's answers change nothing (RFC 3261 17.2.2).
#[tactic(auto, using(crate::proofs::SingleFinal::trying))]
pub fn single_final(status: u16)
    ensures one { (inputs : List ServerOtherInput) → finals_sent Trying inputs ≤ 1 }
    ensures further { server_other Completed (Answer status) ≡ (Completed, []) }
{}

/// A 300 to 699 to an INVITE goes again by Timer G alone, first after 500 ms and then after twice the wait, at
/// most 4,000, until its ACK comes (RFC 3261 17.2.1). A copy of the INVITE gets the last answer again, but no
/// 2xx, and moves nothing; nothing else sends it again.
pub fn invite_goes_again(state: ServerInvite, input: ServerInviteInput)
    ensures again { SendsAgainBy invite_machine G wait_g 4000 }
    ensures until_ack { wait_g state ≡ None → invite_machine.runs state G ≡ false }
    ensures copy { invite_machine.on state Invite ≡ (state, copy_actions (answers_copy state)) }
    ensures alone { list_any sends_again (invite_machine.on state input).1 ≡ true → (input ≡ Invite) ⊎ (input ≡ Fired G) }
{}

/// A copy of another request gets the last answer again and moves nothing; nothing else sends it again, and no
/// timer sends anything (RFC 3261 17.2.2).
pub fn other_goes_again(state: ServerOther, input: ServerOtherInput)
    ensures quiet { NoneSendsByTime other_machine }
    ensures copy { other_machine.on state Request ≡ (state, copy_actions (answers_other_copy state)) }
    ensures alone { list_any sends_again (other_machine.on state input).1 ≡ true → input ≡ Request }
{}
