ghost use Rattle.std.specs.Prelude.{◌≡◌, ◌≤◌, ◌+◌, ℕ, true, false, List, codes};
ghost use Rattle.sip_event.specs.declared.packet.Packet.{Packet};
ghost use Rattle.model_steps.specs.state.declared.server.Server.{Server};
ghost use Rattle.model_steps.specs.state.declared.proxy_state.ProxyState.{ProxyState};
ghost use Rattle.model_steps.specs.state.State.{first_state};
ghost use Rattle.sip_model.specs.Run.{Link, IsChain};
ghost use Rattle.sip_model.specs.Copies.{copies_of};
ghost use Rattle.sip_model.specs.FinalAnswers.{begins_final, begins_success, is_final_to, IsAnsweredOnce, copies_came, AnswersGoAgain};

use crate::order::one_final_answer;
use crate::parts::steps_have_parts;
use model_transactions::copies::{
    begins_with, copy_leaves_one_less, nothing_leaves_more, stays_timely,
};

/// Whatever happens, the caller of a request is sent at most one final answer for the first time, or several 2xx
/// if that is an INVITE, each from another of those who took it; counted in the packets that go out, by their
/// bytes. Copies of an answer go again as retransmissions, and aren't counted here.
pub fn one_final_answer_in_packets()
    ensures { (server : Server) (first : ℕ) (history : List Link) (last : ProxyState) → IsChain server (first_state first) history last
        → (number : ℕ) → IsAnsweredOnce number history }
{
    steps_have_parts();
    one_final_answer();
}

/// The final answers to a request go again no more often than copies of it came, and to an INVITE ten times
/// more, by Timer G: so the answer of an INVITE that is refused is handed out at most eleven times, and once
/// more for each copy of the INVITE that came, and that of another request once, and once more for each copy.
pub fn final_answers_go_again()
    ensures whole { (server : Server) (first : ℕ) (history : List Link) (last : ProxyState)
        → IsChain server (first_state first) history last → (number : ℕ) → AnswersGoAgain number history }
    ensures each { (server : Server) (first : ℕ) (history : List Link) (last : ProxyState) → IsChain server (first_state first) history last
        → (number : ℕ) (p : Packet) → is_final_to number p ≡ true → copies_of p history ≤ 10 + copies_came number history }
{
    steps_have_parts();
    begins_with();
    copy_leaves_one_less();
    nothing_leaves_more();
    stays_timely();
}

/// A 180 is no final answer; a 200 is one, and a 2xx; a 486 is one, and no 2xx; and an ACK is no answer.
pub fn answers_are_told_apart()
    ensures provisional { begins_final (codes "SIP/2.0 180 Ringing\r\n") ≡ false }
    ensures accepted { begins_final (codes "SIP/2.0 200 OK\r\n") ≡ true }
    ensures is_success { begins_success (codes "SIP/2.0 200 OK\r\n") ≡ true }
    ensures refused { begins_final (codes "SIP/2.0 486 Busy Here\r\n") ≡ true }
    ensures no_success { begins_success (codes "SIP/2.0 486 Busy Here\r\n") ≡ false }
    ensures ack { begins_final (codes "ACK sip:bob@example.com SIP/2.0\r\n") ≡ false }
{}
