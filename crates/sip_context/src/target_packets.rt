//! What the branches of an open request send: its requests to targets (RFC 3261 16.6), their CANCELs (9.1) and ACKs (17.1.1.3).
ghost use Rattle.std.specs.Prelude.{◌≡◌, ◌++◌, ◌∷◌, [], IfOk, OnOk, true, false, option_map};
ghost use Rattle.std.specs.List.{flat_map};
ghost use Rattle.sip_message_form.specs.Text.{text_of};
ghost use Rattle.sip_edit.specs.OwnRequests;
ghost use Rattle.sip_context_branches.specs.context_model.state.State.{is_invite};
ghost use Rattle.sip_context_branches.specs.context_model.Sending as Spec;
ghost use Rattle.sip_context.specs.Base;

use sip_context_branches::context_model::state::{Branch, OpenRequest, Server, is_invite};
use sip_edit::{BranchId, ack_text, cancel_text};
use sip_event::{Packet, Ticket};
use sip_text::{Bytes, Items};
use sip_uri::Addr;
use std::alloc::{AllocError, Global};

/// Whether an open request is an INVITE that begins a dialog.
fn begins_dialog(alloc: Global, request: &OpenRequest) -> Result<bool, AllocError>
    ensures { IfOk result (λ begins. begins ≡ Spec.begins_dialog request.now) }
{
    if !is_invite(request) {
        return Ok(false);
    }
    let names = request.request.get().names_dialog(alloc)?;
    Ok(!names)
}

/// The branch of this server's Via on the request to a target.
fn branch_id(request: &OpenRequest, branch: &Branch) -> BranchId
    ensures { result ≡ record { number = request.now.number; target = branch.now.number } }
{
    BranchId {
        number: request.number,
        target: branch.number,
    }
}

/// Adds a packet to an address: of the datagram that brought its request, and of a branch of that.
fn put_packet(
    out: &mut Items<Packet>,
    to: Addr,
    bytes: Bytes,
    datagram: u64,
    branch: u32,
    again: bool,
) -> Result<(), AllocError>
    ensures { OnOk result
        (out.new ≡ out.old ++ record { to = to; bytes = bytes; ticket = record { datagram = datagram; branch = branch }; again = again } ∷ []) }
{
    let ticket = Ticket { datagram, branch };
    out.push(Packet {
        to,
        bytes,
        ticket,
        again,
    })
}

/// The text of the CANCEL of the request of a branch of an open request.
fn cancel_bytes(
    alloc: Global,
    server: &Server,
    request: &OpenRequest,
    branch: &Branch,
) -> Result<Bytes, AllocError>
    ensures { IfOk result (λ text. text ≡ text_of (OwnRequests.cancel_of (Spec.request_of server.now request.now branch.now))) }
{
    let own = &server.config.own;
    let heard = request.request.get();
    let routes = heard.routes_kept(alloc, own)?;
    let id = branch_id(request, branch);
    let uri = branch.uri.get();
    cancel_text(
        alloc,
        own,
        server.word,
        id,
        uri.as_slice(),
        routes,
        heard.message(),
    )
}

/// Adds the CANCEL of the request of a branch of an open request.
fn put_cancel(
    alloc: Global,
    out: &mut Items<Packet>,
    server: &Server,
    again: bool,
    request: &OpenRequest,
    branch: &Branch,
) -> Result<(), AllocError>
    requires { branch.now.is_cancel ≡ true }
    ensures { OnOk result (out.new ≡ out.old ++ Spec.branch_packets server.now again request.now branch.now) }
{
    let Some(address) = branch.address else {
        return Ok(());
    };
    let text = cancel_bytes(alloc, server, request, branch)?;
    put_packet(out, address, text, request.number, 0, again)
}

/// The text of the request of a branch of an open request, of which it is known whether it begins a dialog.
fn request_text(
    alloc: Global,
    server: &Server,
    request: &OpenRequest,
    begins_dialog: bool,
    branch: &Branch,
) -> Result<Bytes, AllocError>
    requires { begins_dialog ≡ Spec.begins_dialog request.now }
    ensures { IfOk result (λ text. text ≡ text_of (Spec.request_of server.now request.now branch.now)) }
{
    let heard = request.request.get();
    let id = branch_id(request, branch);
    let uri = branch.uri.get();
    heard.text_to(alloc, server, id, begins_dialog, uri.as_slice())
}

/// Adds the request of a branch of an open request, which is no CANCEL.
fn put_request(
    alloc: Global,
    out: &mut Items<Packet>,
    server: &Server,
    again: bool,
    request: &OpenRequest,
    branch: &Branch,
) -> Result<(), AllocError>
    requires { branch.now.is_cancel ≡ false }
    ensures { OnOk result (out.new ≡ out.old ++ Spec.branch_packets server.now again request.now branch.now) }
{
    let Some(address) = branch.address else {
        return Ok(());
    };
    let begins = begins_dialog(alloc, request)?;
    let bytes = request_text(alloc, server, request, begins, branch)?;
    put_packet(out, address, bytes, request.number, branch.number, again)
}

/// Adds what a branch of an open request sends.
#[tactic(auto, unfolding(crate::specs::Base::sends))]
fn put_sent(
    alloc: Global,
    out: &mut Items<Packet>,
    server: &Server,
    again: bool,
    request: &OpenRequest,
    branch: &Branch,
) -> Result<(), AllocError>
    ensures { OnOk result (out.new ≡ out.old ++ Base.sends server.now again request.now branch.now) }
{
    if branch.is_cancel {
        return put_cancel(alloc, out, server, again, request, branch);
    }
    put_request(alloc, out, server, again, request, branch)
}

/// Adds what a branch of an open request sends: its request, or the CANCEL of that (RFC 3261 9.1, 16.6). It is written
/// once, and of a request only what isn't the same for all branches. `AllocError` is the only refusal.
#[tactic(auto, unfolding(crate::specs::Base::sends))]
pub fn branch_packets(
    alloc: Global,
    out: &mut Items<Packet>,
    server: &Server,
    again: bool,
    request: &OpenRequest,
    branch: &Branch,
) -> Result<(), AllocError>
    ensures { OnOk result (out.new ≡ out.old ++ Spec.branch_packets server.now again request.now branch.now) }
{
    put_sent(alloc, out, server, again, request, branch)
}

/// Adds what each of some branches of an open request sends.
fn put_each(
    alloc: Global,
    out: &mut Items<Packet>,
    server: &Server,
    again: bool,
    request: &OpenRequest,
    branches: &[Branch],
) -> Result<(), AllocError>
    ensures { OnOk result (out.new ≡ out.old ++ flat_map (Base.sends server.now again request.now) branches.now) }
{
    for branch in branches {
        put_sent(alloc, out, server, again, request, branch)?;
    }
    Ok(())
}

/// Adds what some branches of an open request send, in their order. Each packet is written once. `AllocError` is the only
/// refusal.
#[tactic(auto, unfolding(crate::specs::Base::sends))]
pub fn packets_of_branches(
    alloc: Global,
    out: &mut Items<Packet>,
    server: &Server,
    again: bool,
    request: &OpenRequest,
    branches: &[Branch],
) -> Result<(), AllocError>
    ensures { OnOk result (out.new ≡ out.old ++ flat_map (Spec.branch_packets server.now again request.now) branches.now) }
{
    put_each(alloc, out, server, again, request, branches)
}

/// The text of the ACK of a final answer with this To, if that had one, which a branch of an open request sends.
fn ack_bytes(
    alloc: Global,
    server: &Server,
    request: &OpenRequest,
    branch: &Branch,
    to: Option<&[u8]>,
) -> Result<Bytes, AllocError>
    ensures { IfOk result (λ text. text ≡ text_of (OwnRequests.ack_with (option_map (λ value. value.now) to.entry) (Spec.request_of server.now request.now branch.now))) }
{
    let own = &server.config.own;
    let heard = request.request.get();
    let routes = heard.routes_kept(alloc, own)?;
    let id = branch_id(request, branch);
    let uri = branch.uri.get();
    ack_text(
        alloc,
        own,
        server.word,
        id,
        to,
        uri.as_slice(),
        routes,
        heard.message(),
    )
}

/// Adds the ACK of a final answer of an INVITE that is no 2xx, which a branch sends, with this To if that had one (RFC 3261
/// 17.1.1.3). `AllocError` is the only refusal.
pub fn ack_packets(
    alloc: Global,
    out: &mut Items<Packet>,
    server: &Server,
    again: bool,
    request: &OpenRequest,
    branch: &Branch,
    to: Option<&[u8]>,
) -> Result<(), AllocError>
    ensures { OnOk result (out.new ≡ out.old ++ Spec.ack_packets server.now again request.now branch.now (option_map (λ value. value.now) to.entry)) }
{
    let Some(address) = branch.address else {
        return Ok(());
    };
    let bytes = ack_bytes(alloc, server, request, branch, to)?;
    put_packet(out, address, bytes, request.number, 0, again)
}
