ghost use Rattle.std.specs.Prelude.{◌≡◌, IfOk};
ghost use Rattle.sip_verdict.specs.state.Names.{AreNames};

use sip_base::Shared;
use sip_engine_request::proxy::ReceivedRequest;
use sip_verdict::state::{DialogNames, KeptRequest, Server};
use std::alloc::{AllocError, Global};

/// Keeps a request that is answered here. `AllocError` is the only refusal.
pub(crate) fn keep(
    alloc: Global,
    request: &ReceivedRequest<'_>,
) -> Result<Shared<KeptRequest>, AllocError>
    ensures { IfOk result (λ kept. kept ≡ record { message = request.now.message.now; source = request.now.arrival.from }) }
{
    KeptRequest::of(alloc, request.message, &request.via, request.arrival.from)
}

/// Keeps a request that goes on from this server, with its names, where they were made. `AllocError` is the only refusal.
pub(crate) fn keep_onward(
    alloc: Global,
    server: &Server,
    request: &ReceivedRequest<'_>,
    names: &mut Option<DialogNames>,
) -> Result<Shared<KeptRequest>, AllocError>
    requires { AreNames request.now.message.now names.old }
    ensures { IfOk result (λ kept. kept ≡ record { message = request.now.message.now; source = request.now.arrival.from }) }
{
    let own = &server.config.own;
    let realm = server.config.realm.as_slice();
    let from = request.arrival.from;
    let names = names.take();
    KeptRequest::onward(
        alloc,
        own,
        realm,
        request.message,
        &request.via,
        from,
        names,
    )
}
