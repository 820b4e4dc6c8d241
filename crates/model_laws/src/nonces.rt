ghost use Rattle.std.specs.Prelude.{◌≡◌, ◌<◌, ◌≤◌, ◌^◌, ℕ, List, Some, length, Any, count_by, Contains};
ghost use Rattle.std.specs.List.{AllByRecursion};
ghost use Rattle.sip_digest.specs.declared.nonces.Nonce.{Nonce};
ghost use Rattle.sip_digest.specs.NonceText.{nonce_text, word_of};
ghost use Rattle.sip_digest.specs.Nonces.{IsNonceOf, is_this, issued};
ghost use Rattle.sip_message_form.specs.declared.message.Message.{Message};
ghost use Rattle.sip_model.specs.state.declared.server.Server.{Server};
ghost use Rattle.sip_model.specs.state.declared.proxy_state.ProxyState.{ProxyState};
ghost use Rattle.sip_model.specs.state.Arrival.{Arrival};
ghost use Rattle.sip_model.specs.verdict_model.declared.question.Question.{Question};
ghost use Rattle.sip_model.specs.verdict_model.Verdict.{Challenge};
ghost use Rattle.sip_model.specs.steps_model.Effect.{challenges_to, effect_of};
ghost use Rattle.model_laws.specs.Nonces.{TellsNonce};

use sip_digest::laws::text_names_its_word;

/// The nonce that a challenge tells is the one that it issues, so it can be answered: there is a field, each field
/// tells the text of the datagram's word, no other word has that text, and behind the challenge a live nonce of the
/// word is known. Where none lived before, it was issued at the challenge's own moment, with no count used.
pub fn nonce_told_is_nonce_issued()
    ensures tells { (server : Server) (a : Arrival) (q : Question) → AllByRecursion (TellsNonce (nonce_text a.word)) (challenges_to server a q) }
    ensures several { (server : Server) (a : Arrival) (q : Question) → 1 ≤ length (challenges_to server a q) }
    ensures read { (word : ℕ) → word < 2 ^ 128 → word_of (nonce_text word) ≡ Some word }
    ensures known { (server : Server) (a : Arrival) (m : Message) (q : Question) (state : ProxyState)
        → Any (IsNonceOf a.word a.now) (effect_of server a m (Challenge q) state).state.nonces }
    ensures fresh { (nonces : List Nonce) (word now : ℕ) → count_by (is_this word now) nonces ≡ 0
        → Contains (issued nonces word now) (record { word = word; since = now; count = 0 }) }
{
    text_names_its_word();
}
