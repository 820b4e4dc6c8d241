ghost use Rattle.std.specs.Prelude.{◌≡◌, [], ◌∷◌, true, false, None};
ghost use Rattle.std.specs.List.{list_any};
ghost use Rattle.sip_timers.specs.declared.letter.Letter.TheVariants.{A, B, D, E, F, K, M};
ghost use Rattle.sip_timers.specs.Machine.{IsOneOf, KeepsTimers};
ghost use Rattle.sip_timers.specs.Resends.{Begins, SendsAgainBy, SendsOnlyBy};
ghost use Rattle.sip_transactions.specs.ClientAction.{acks_again};
ghost use Rattle.sip_transactions.specs.ClientInvite.{start, invite_machine, wait_a, IsFailure};
ghost use Rattle.sip_transactions.specs.ClientOther.{start as start_other, other_machine, wait_e};
ghost use Rattle.sip_transactions.specs.declared.client_actions.ClientAction.TheVariants.{AckAgain};
ghost use Rattle.sip_transactions.specs.declared.client_invite.ClientInvite.TheVariants.{Completed};
ghost use Rattle.sip_transactions.specs.declared.client_other.ClientOther.TheVariants.{Proceeding, Completed as Answered, Terminated};

use crate::client_invite::{ClientInvite, ClientInviteInput};
use crate::client_other::ClientOther;
use sip_timers::Letter;

/// The timers of an INVITE's transaction run as its table starts them, and no other does.
pub fn invite_timers(state: ClientInvite, letter: Letter)
    ensures keeps { KeepsTimers invite_machine }
    ensures own { invite_machine.runs state letter ≡ true → IsOneOf (A ∷ B ∷ D ∷ M ∷ []) letter }
{}

/// The timers of another request's transaction run as its table starts them, and no other does.
pub fn other_timers(state: ClientOther, letter: Letter)
    ensures keeps { KeepsTimers other_machine }
    ensures own { other_machine.runs state letter ≡ true → IsOneOf (E ∷ F ∷ K ∷ []) letter }
{}

/// An INVITE goes again by Timer A alone, first after 500 ms and then after twice the wait, at most 32,000,
/// until a response comes (RFC 3261 17.1.1.2).
pub fn invite_goes_again(state: ClientInvite)
    ensures first { Begins invite_machine A wait_a start }
    ensures again { SendsAgainBy invite_machine A wait_a 32000 }
    ensures alone { SendsOnlyBy invite_machine A }
    ensures until_heard { wait_a state ≡ None → invite_machine.runs state A ≡ false }
{}

/// Another request goes again by Timer E alone, first after 500 ms and then after twice the wait, at most
/// 4,000, and after so much once a response came, which moves no moment, until a final one does (RFC 3261
/// 17.1.2.2).
pub fn other_goes_again()
    ensures first { Begins other_machine E wait_e start_other }
    ensures again { SendsAgainBy other_machine E wait_e 4000 }
    ensures alone { SendsOnlyBy other_machine E }
    ensures once_heard { other_machine.runs Proceeding E ≡ true }
    ensures until_answered { (other_machine.runs Answered E ≡ false) × (other_machine.runs Terminated E ≡ false) }
{}

/// A further 300 to 699 gets the ACK again and changes nothing else, and nothing else sends it again (RFC 3261
/// 17.1.1.2).
pub fn failure_acknowledged_again(state: ClientInvite, input: ClientInviteInput)
    ensures again { IsFailure input → invite_machine.on Completed input ≡ (Completed, AckAgain ∷ []) }
    ensures alone { list_any acks_again (invite_machine.on state input).1 ≡ true → (state ≡ Completed) × IsFailure input }
{}
