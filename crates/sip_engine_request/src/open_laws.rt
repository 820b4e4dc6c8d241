ghost use Rattle.std.specs.Prelude.{◌≡◌, ℕ, List, ◌≤◌, ◌<◌};
ghost use Rattle.sip_proxy.specs.Proxy.{Becomes, IsCounted};
ghost use Rattle.sip_proxy.specs.verdict.context_model.Branches.{Change};
ghost use Rattle.sip_proxy.specs.forwarding.Forwarding.{Teach};
ghost use Rattle.sip_hops.specs.declared.host_address.HostAddress.{HostAddress};
ghost use Rattle.sip_dialog_updates.specs.DialogUpdates.{after_updates};
ghost use Rattle.sip_dialog_updates.specs.declared.dialog_update.DialogUpdate.{DialogUpdate};
ghost use Rattle.sip_proxy.specs.steps_model.Effect.{changed, counted, dialogs_after, replaced};
ghost use Rattle.sip_proxy.specs.forwarding.Arrivals.{arrival_of};
ghost use Rattle.sip_proxy.specs.forwarding.declared.arrival.Arrival.{Arrival};
ghost use Rattle.sip_dialog_updates.specs.state.SameState.{SameState};
ghost use Rattle.sip_dialog_updates.specs.state.declared.open_request.OpenRequest.{OpenRequest};
ghost use Rattle.sip_dialog_updates.specs.state.declared.proxy_state.ProxyState.{ProxyState};
ghost use Rattle.sip_dialog_updates.specs.state.declared.server.Server.{Server};
ghost use Rattle.sip_engine_request.specs.OpenSteps.{left_by};
ghost use Rattle.sip_event.specs.declared.packet.Ticket.{Ticket};
ghost use Rattle.sip_proxy.specs.fork.Due.{IsNothingDue};
ghost use Rattle.sip_proxy.specs.steps_model.Step.{NoneBy, NoneAgainBy, fault_effect};
ghost use Rattle.sip_engine_request.specs.Faults.{failed_of, failing};
ghost use Rattle.sip_engine_request.specs.Next.{IsNext};

/// What a state becomes that then takes a datagram's number is the same as what the step leaves of the counted state: with
/// these open requests and what the updates make of the dialogs; and by a change of an open request, as the change says.
pub fn counted_states_are_same()
    ensures left { (a : Arrival) (requests : List OpenRequest) (updates : List DialogUpdate) (old middle new : ProxyState)
        → a.number ≡ old.next → Becomes a.now requests updates old middle → IsCounted middle new
        → SameState new (left_by a requests (after_updates a.now updates old.dialogs) old) }
    ensures changed { (rows : List HostAddress) (server : Server) (a : Arrival) (change : Change) (updates : List DialogUpdate)
        (old middle new : ProxyState) → a.number ≡ old.next → server.config.addresses ≡ rows
        → Teach rows server a.now updates (dialogs_after server a.now change)
        → Becomes a.now (replaced change.request old.requests) updates old middle → IsCounted middle new
        → SameState new (changed server a.now (counted (arrival_of a) old) change).state }
{}

/// By any moment before the next one no deadline stands, and nothing is to go again; by the next one and any later moment
/// something does. Where nothing is due at all, nothing is by any moment.
pub fn next_moment_is_first()
    ensures before { (requests : List OpenRequest) (due moment : ℕ) → IsNext requests due → moment < due → NoneBy moment requests }
    ensures before_again { (requests : List OpenRequest) (due moment : ℕ) → IsNext requests due → moment < due → NoneAgainBy moment requests }
    ensures from_then { (requests : List OpenRequest) (due moment : ℕ) → IsNext requests due → due ≤ moment → NoneBy moment requests
        → NoneAgainBy moment requests → ⊥ }
    ensures never { (requests : List OpenRequest) (moment : ℕ) → IsNothingDue requests → NoneBy moment requests }
    ensures never_again { (requests : List OpenRequest) (moment : ℕ) → IsNothingDue requests → NoneAgainBy moment requests }
{}

/// A fault fails the branch that its ticket names, and one that names none changes nothing (RFC 3261 16.9).
pub fn faults_fail_named_branches()
    ensures { (server : Server) (now : ℕ) (ticket : Ticket) (state : ProxyState) → fault_effect server now ticket state
        ≡ failing server now state (failed_of ticket state.requests) }
{}
