//! What policy is asked about a request outside a dialog: who is proven, what is asked for, of which address of record, at which minute.
//! The answer is given by `Judge::ruling`.
ghost use Rattle.std.specs.Prelude.{◌≡◌, false, IfOk, if◌then◌else◌};
ghost use Rattle.std.specs.Option.{unwrap_or};
ghost use Rattle.sip_policy.specs.Operation as Operations;
ghost use Rattle.sip_location.specs.Registering as Naming;
ghost use Rattle.sip_route.specs.Way.{request_uri_of};
ghost use Rattle.model_verdict.specs.Verdict as Verdict;

use crate::judge::Judge;
use crate::validated::Validated;
use model_verdict::Question;
use sip_auth::proof_of;
use sip_digest::Nonces;
use sip_header::CoreFields;
use sip_message_fields::FieldName;
use sip_message_form::View;
use sip_policy::{Operation, Rules, minute_of};
use sip_targets::RequestUri;
use sip_text::Bytes;
use sip_uri::Aor;
use std::alloc::{AllocError, Global};

/// Whether a method is REGISTER. Takes no memory.
pub(crate) fn is_register(method: &[u8]) -> bool
    ensures { result ≡ Verdict.is_register method.now }
{
    method == b"REGISTER".as_slice()
}

/// An address of record; without one, what names nobody.
fn known_or_nobody(alloc: Global, aor: Option<Aor>) -> Aor
    ensures { result ≡ unwrap_or aor Naming.nobody }
{
    match aor {
        Some(aor) => aor,
        None => Aor {
            user: Bytes::new(alloc),
            host: Bytes::new(alloc),
        },
    }
}

/// The address of record that To names (RFC 3261 10.3 step 5).
fn to_aor(alloc: Global, core: &CoreFields<'_>) -> Result<Aor, AllocError>
    ensures { IfOk result (λ aor. aor ≡ Naming.to_aor core.now) }
{
    let aor = core.to.aor(alloc)?;
    Ok(known_or_nobody(alloc, aor))
}

/// The address of record that a request of a method is for, of which this was read: To's of a REGISTER, that of the
/// Request-URI of any other.
fn target_of(
    alloc: Global,
    method: &[u8],
    core: &CoreFields<'_>,
    uri: &RequestUri<'_>,
) -> Result<Aor, AllocError>
    ensures { IfOk result (λ aor. aor ≡ (if Verdict.is_register method.now then Naming.to_aor core.now
        else Naming.aor_or_nobody uri.now)) }
{
    if is_register(method) {
        to_aor(alloc, core)
    } else {
        uri.aor(alloc)
    }
}

/// What a request asks for.
fn operation_of(alloc: Global, method: &[u8], request: &View<'_>) -> Result<Operation, AllocError>
    ensures { IfOk result (λ operation. operation ≡ Operations.operation_of method.now (Verdict.has_contact request.now.fields)) }
{
    let has_contact = request.fields().first(&FieldName::Contact).is_some();
    Operation::of_request(alloc, method, has_contact)
}

impl<R: Rules> Judge<R> {
    /// What policy is asked about a request that passed the checks, with the Request-URI of one that is no REGISTER.
    /// `AllocError` is the only refusal.
    #[tactic(auto, using(crate::proofs::ByMethod::target_by_method))]
    pub fn question_of<'v>(
        &self,
        alloc: Global,
        nonces: &Nonces,
        request: &Validated<'v, '_>,
    ) -> Result<Question<'v>, AllocError>
        requires { Verdict.is_register request.now.method.now ≡ false
            → request.now.uri.now ≡ request_uri_of self.now.config.own request.now.message.now }
        ensures { IfOk result (λ question. question ≡ Verdict.question_of self.now nonces.now request.now.moment request.now.message.now
            request.now.method.now request.now.core.now) }
    {
        let config = &self.server().config;
        let message = request.message;
        let target = target_of(alloc, request.method, request.core, request.uri)?;
        let operation = operation_of(alloc, request.method, message)?;
        let realm = config.realm.as_slice();
        let proof = proof_of(alloc, realm, &config.users, nonces, request.moment, message)?;
        Ok(Question {
            proof,
            operation,
            target,
            minute: minute_of(request.moment, config.offset),
        })
    }
}
