ghost use Rattle.std.specs.Prelude.{◌≡◌, ℕ, IfOk};
ghost use Rattle.sip_uri.specs.declared.addr.Addr.{Addr};
ghost use Rattle.sip_forwarding.specs.steps_model.Effect as Effects;

use sip_auth::offers_sha256;
use sip_dialog_updates::state::Server;
use sip_digest::nonce_text;
use sip_edit_response::challenge_fields;
use sip_message_fields::{FieldName, Fields};
use sip_policy::Operation;
use sip_verdict::verdict_model::Question;
use std::alloc::{AllocError, Global};

/// Whether a registrar is asked, which challenges as a user agent server (RFC 3261 22.2).
fn is_registration(operation: &Operation) -> bool
    ensures { result ≡ Effects.is_registration operation.now }
{
    match operation {
        Operation::Register | Operation::List => true,
        Operation::Send(_) => false,
    }
}

/// The status of a challenge: 401 by a registrar, 407 by a proxy (RFC 3261 21.4.2, 21.4.8). Takes no memory.
pub fn challenge_status(operation: &Operation) -> u16
    ensures { result ≡ Effects.challenge_status operation.now }
{
    if is_registration(operation) { 401 } else { 407 }
}

/// The name of the field of a challenge: WWW-Authenticate by a registrar, Proxy-Authenticate by a proxy (RFC 3261 20.44,
/// 20.27). Takes no memory.
pub fn challenge_name(operation: &Operation) -> FieldName
    ensures { result ≡ Effects.challenge_name operation.now }
{
    if is_registration(operation) {
        FieldName::WwwAuthenticate
    } else {
        FieldName::ProxyAuthenticate
    }
}

/// The fields of the challenge of a request whose datagram brought this word: one for each algorithm by which some user
/// may answer, all with the nonce of the word, and all of them stale or none (RFC 3261 22.1, RFC 8760 2.3). `AllocError`
/// is the only refusal.
pub fn challenges_to(
    alloc: Global,
    server: &Server,
    word: u128,
    question: &Question<'_>,
) -> Result<Fields, AllocError>
    ensures { IfOk result (λ fields. (number now : ℕ) (from : Addr) → fields
        ≡ Effects.challenges_to server.now (record { number = number; now = now; word = word; from = from }) question.now) }
{
    let config = &server.config;
    let name = challenge_name(&question.operation);
    let with_sha256 = offers_sha256(&config.users);
    let realm = config.realm.as_slice();
    let nonce = nonce_text(word);
    let stale = question.proof.is_stale();
    challenge_fields(alloc, &name, with_sha256, realm, nonce.as_slice(), stale)
}
