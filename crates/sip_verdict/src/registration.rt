//! From a REGISTER that a rule let through to the registrar's plan, or to the status that refuses it (RFC 3261 10.3).
//! The bindings change later, when the plan is taken (`sip_proxy`).
ghost use Rattle.std.specs.Prelude.{◌≡◌, ◌≢◌, ◌≤◌, ◌<◌, ◌^◌, ◌&&◌, [], ◌∷◌, IfOk, IfSome, OnOk, List, ℕ};
ghost use Rattle.sip_message_fields.specs.Values.{values_of};
ghost use Rattle.sip_message_fields.specs.declared.field_name.FieldName.TheVariants as Name;
ghost use Rattle.sip_location.specs.Locations.{IsPlan};
ghost use Rattle.sip_location.specs.Registering as Naming;
ghost use Rattle.sip_location.specs.Registration.{registered};
ghost use Rattle.sip_location.specs.declared.binding.Binding.{Binding};
ghost use Rattle.sip_location.specs.declared.error.LocationError.TheVariants.{NoMemory};
ghost use Rattle.sip_policy.specs.User.{is_users_address};
ghost use Rattle.sip_uri.specs.declared.aor.Aor.{Aor};
ghost use Rattle.sip_route.specs.Way.{request_uri_of};
ghost use Rattle.model_verdict.specs.Verdict as Verdict;
ghost use Rattle.sip_edit_response.specs.Extras;
ghost use Rattle.sip_verdict.specs.Registering.{ComesTo, HasRoom};

use crate::judge::Judge;
use crate::registering::Registering;
use crate::validated::Validated;
use model_verdict::state::Server;
use sip_edit_response::min_expires;
use sip_header::{CoreFields, expires_of};
use sip_location::{Contacts, LocationError, Locations, Refresh, RegisterPlan, Registration};
use sip_message_fields::{Field, FieldName, Fields, ViewFields};
use sip_policy::{Rules, is_own_domain, is_users_address};
use sip_targets::RequestUri;
use sip_text::Text;
use sip_uri::Aor;
use std::alloc::{AllocError, Global};

/// What a REGISTER with these core fields and fields asks for, whose To names this address of record (RFC 3261 10.3).
fn registration_of<'v>(
    alloc: Global,
    core: &'v CoreFields<'_>,
    fields: &'v ViewFields<'_>,
    aor: &Aor,
) -> Result<Registration<'v>, AllocError>
    requires { aor.now ≡ Naming.to_aor core.now }
    ensures { IfOk result (λ registration. registration ≡ Naming.registration_of core.now fields.now) }
{
    let values = fields.values(alloc, &FieldName::Contact)?;
    let contacts = Contacts::read(alloc, values.as_slice())?;
    let aor = aor.clone()?;
    Ok(Registration {
        aor,
        contacts,
        expires: expires_of(fields),
        call_id: Text::new(core.call_id.as_slice()),
        cseq: core.cseq.number,
    })
}

/// The fields of a 423 (RFC 3261 10.3 step 7).
fn brief_fields(alloc: Global) -> Result<Fields, AllocError>
    ensures { IfOk result (λ fields. fields ≡ Extras.min_expires ∷ []) }
{
    let mut fields = Fields::new(alloc);
    fields.push(min_expires(alloc)?)?;
    Ok(fields)
}

/// What refuses a REGISTER that the registrar refuses.
fn refused_by(alloc: Global, error: LocationError) -> Result<Registering, AllocError>
    ensures outcome { IfOk result (λ outcome. (rows : List Binding) (now : ℕ) (aor : Aor) → ComesTo rows now aor (Verdict.refused_by error) outcome) }
    ensures memory { OnOk result (error ≢ NoMemory) }
    ensures room { IfOk result (λ outcome. (room : ℕ) → HasRoom room outcome) }
{
    match error {
        LocationError::NoMemory => Err(AllocError),
        LocationError::BadStar => Ok(Registering::Refused(400, Fields::new(alloc))),
        LocationError::TooBrief => Ok(Registering::Refused(423, brief_fields(alloc)?)),
        LocationError::OldCSeq => Ok(Registering::Refused(500, Fields::new(alloc))),
        LocationError::TooMany => Ok(Registering::Refused(503, Fields::new(alloc))),
    }
}

/// What the registrar plans for a registration, or how it refuses it.
fn planned(
    alloc: Global,
    locations: &mut Locations,
    now: u64,
    registration: Registration<'_>,
) -> Result<Registering, AllocError>
    requires { now < 2 ^ 62 }
    ensures outcome { IfOk result (ComesTo locations.old.rows now registration.entry.aor
        (Verdict.registered_by (registered locations.old.rows registration.entry now))) }
    ensures unchanged { locations.new.rows ≡ locations.old.rows }
    ensures room { IfOk result (HasRoom locations.new.room) }
{
    match locations.plan(&registration, now) {
        Ok(plan) => Ok(Registering::Planned(plan)),
        Err(error) => refused_by(alloc, error),
    }
}

/// The value of the only Contact. Takes no memory.
#[tactic(auto, using(crate::proofs::Refreshing::only_value))]
fn only_contact<'v>(fields: &'v ViewFields<'_>) -> Option<&'v [u8]>
    ensures { IfSome result (λ contact. contact.now ∷ [] ≡ values_of Name.Contact fields.now) }
{
    let contact = fields.first(&FieldName::Contact)?;
    if fields.count(&FieldName::Contact) == 1 {
        Some(contact)
    } else {
        None
    }
}

/// What the registrar plans for a REGISTER with one Contact that asks for the only binding again. None says nothing.
fn planned_refresh(
    locations: &mut Locations,
    request: &Validated<'_, '_>,
    contact: &[u8],
    aor: &Aor,
) -> Result<Option<RegisterPlan>, AllocError>
    requires moment { request.now.moment < 2 ^ 62 }
    requires named { aor.now ≡ Naming.to_aor request.now.core.now }
    requires contact { contact.now ∷ [] ≡ values_of Name.Contact request.now.message.now.fields }
    ensures plan { IfOk result (λ made. IfSome made (IsPlan locations.old.rows
        (Naming.registration_of request.now.core.now request.now.message.now.fields) request.now.moment)) }
    ensures unchanged { locations.new.rows ≡ locations.old.rows }
    ensures room { IfOk result (λ made. IfSome made (λ plan. 1 ≤ locations.new.room)) }
{
    let core = request.core;
    let refresh = Refresh {
        aor,
        contact,
        expires: expires_of(request.message.fields()),
        call_id: core.call_id.as_slice(),
        cseq: core.cseq.number,
    };
    locations.plan_refresh(&refresh, request.moment)
}

/// The same for a REGISTER with any number of Contacts.
fn planned_if_refresh(
    locations: &mut Locations,
    request: &Validated<'_, '_>,
    aor: &Aor,
) -> Result<Option<RegisterPlan>, AllocError>
    requires moment { request.now.moment < 2 ^ 62 }
    requires named { aor.now ≡ Naming.to_aor request.now.core.now }
    ensures plan { IfOk result (λ made. IfSome made (IsPlan locations.old.rows
        (Naming.registration_of request.now.core.now request.now.message.now.fields) request.now.moment)) }
    ensures unchanged { locations.new.rows ≡ locations.old.rows }
    ensures room { IfOk result (λ made. IfSome made (λ plan. 1 ≤ locations.new.room)) }
{
    match only_contact(request.message.fields()) {
        Some(contact) => planned_refresh(locations, request, contact, aor),
        None => Ok(None),
    }
}

/// What the registrar plans for a REGISTER that passed the checks, or how it refuses it.
fn planned_for(
    alloc: Global,
    locations: &mut Locations,
    request: &Validated<'_, '_>,
    aor: &Aor,
) -> Result<Registering, AllocError>
    requires moment { request.now.moment < 2 ^ 62 }
    requires named { aor.now ≡ Naming.to_aor request.now.core.now }
    ensures outcome { IfOk result (ComesTo locations.old.rows request.now.moment (Naming.to_aor request.now.core.now)
        (Verdict.registered_by (registered locations.old.rows
        (Naming.registration_of request.now.core.now request.now.message.now.fields) request.now.moment))) }
    ensures unchanged { locations.new.rows ≡ locations.old.rows }
    ensures room { IfOk result (HasRoom locations.new.room) }
{
    if let Some(plan) = planned_if_refresh(locations, request, aor)? {
        return Ok(Registering::Planned(plan));
    }
    let registration = registration_of(alloc, request.core, request.message.fields(), aor)?;
    planned(alloc, locations, request.moment, registration)
}

/// The status that names nobody.
fn not_found(alloc: Global) -> Registering
    ensures outcome { (rows : List Binding) (now : ℕ) (aor : Aor) → ComesTo rows now aor (Verdict.Refused 404 []) result }
    ensures room { (room : ℕ) → HasRoom room result }
{
    Registering::Refused(404, Fields::new(alloc))
}

/// Whether a Request-URI names an own domain.
#[tactic(auto, using(crate::proofs::RequestUris::by_host, crate::proofs::RequestUris::by_none))]
fn is_for_own_domain(server: &Server, uri: &RequestUri<'_>) -> bool
    ensures { result ≡ Verdict.is_own_uri server.now uri.now }
{
    let domains = server.config.own.domains.as_slice();
    match uri.host() {
        Some(host) => is_own_domain(domains, host),
        None => false,
    }
}

/// Whether an address of record is a configured user's of an own domain.
fn is_for_user(server: &Server, aor: &Aor) -> bool
    ensures { result ≡ is_users_address server.now.config.users server.now.config.own.domains aor.now }
{
    let config = &server.config;
    is_users_address(&config.users, config.own.domains.as_slice(), aor)
}

/// Whether a REGISTER, of which this was read, is for an own domain and a configured user of one.
fn is_registrable(server: &Server, request: &Validated<'_, '_>, aor: &Aor) -> bool
    requires { aor.now ≡ Naming.to_aor request.now.core.now }
    ensures { result ≡ (Verdict.is_own_uri server.now request.now.uri.now
        && is_users_address server.now.config.users server.now.config.own.domains (Naming.to_aor request.now.core.now)) }
{
    is_for_own_domain(server, request.uri) && is_for_user(server, aor)
}

/// What a REGISTER that was let through comes to.
fn registering_by(
    alloc: Global,
    server: &Server,
    locations: &mut Locations,
    request: &Validated<'_, '_>,
    aor: &Aor,
) -> Result<Registering, AllocError>
    requires moment { request.now.moment < 2 ^ 62 }
    requires read { request.now.uri.now ≡ request_uri_of server.now.config.own request.now.message.now }
    requires named { aor.now ≡ Naming.to_aor request.now.core.now }
    ensures outcome { IfOk result (ComesTo locations.old.rows request.now.moment (Naming.to_aor request.now.core.now)
        (Verdict.registration_by server.now locations.old.rows request.now.moment request.now.message.now
        request.now.core.now)) }
    ensures unchanged { locations.new.rows ≡ locations.old.rows }
    ensures room { IfOk result (HasRoom locations.new.room) }
{
    if !is_registrable(server, request, aor) {
        return Ok(not_found(alloc));
    }
    planned_for(alloc, locations, request, aor)
}

impl<R: Rules> Judge<R> {
    /// What a REGISTER that passed the checks and was let through comes to: 404 unless its Request-URI names an own
    /// domain and To a configured user of one, else what the registrar refuses, or plans for the address of record that
    /// To names, which is handed in (RFC 3261 10.3). No binding changes. `AllocError` is the only refusal. Moments are
    /// below 2^62.
    pub fn registering(
        &self,
        alloc: Global,
        locations: &mut Locations,
        request: &Validated<'_, '_>,
        aor: &Aor,
    ) -> Result<Registering, AllocError>
        requires moment { request.now.moment < 2 ^ 62 }
        requires read { request.now.uri.now ≡ request_uri_of self.now.config.own request.now.message.now }
        requires named { aor.now ≡ Naming.to_aor request.now.core.now }
        ensures outcome { IfOk result (ComesTo locations.old.rows request.now.moment (Naming.to_aor request.now.core.now)
            (Verdict.registration_by self.now locations.old.rows request.now.moment request.now.message.now
            request.now.core.now)) }
        ensures unchanged { locations.new.rows ≡ locations.old.rows }
        ensures room { IfOk result (HasRoom locations.new.room) }
    {
        registering_by(alloc, self.server(), locations, request, aor)
    }
}
