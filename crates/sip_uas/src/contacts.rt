ghost use Rattle.std.specs.Prelude.{◌≡◌, List, Ok, IfOk, map};
ghost use Rattle.sip_location.specs.Binding as Definitions;
ghost use Rattle.sip_location.specs.Locations.{IsPlan};
ghost use Rattle.sip_location.specs.Registration.{registered};
ghost use Rattle.sip_location.specs.declared.binding.Binding.{Binding};
ghost use Rattle.sip_location.specs.declared.registration.Registration.{Registration};
ghost use Rattle.sip_forwarding.specs.steps_model.Effect as Effects;

use sip_edit_response::contact_value;
use sip_location::{BindingRef, Bindings, RegisterPlan};
use sip_message_fields::{Field, FieldName, Fields};
use std::alloc::{AllocError, Global};

/// The seconds that a binding has left, rounded up.
fn seconds_left(now: u64, binding: &BindingRef<'_>) -> u64
    ensures { result ≡ Definitions.seconds_left now binding.now }
{
    binding.expires_at().saturating_sub(now).div_ceil(1000)
}

/// The field that lists a binding.
fn contact_field(alloc: Global, now: u64, binding: &BindingRef<'_>) -> Result<Field, AllocError>
    ensures { IfOk result (λ field. field ≡ Effects.contact_field now binding.now) }
{
    let value = contact_value(alloc, binding.uri_text(), seconds_left(now, binding))?;
    Ok(Field {
        name: FieldName::Contact,
        value,
    })
}

/// The fields that list some bindings.
fn fields_of(alloc: Global, now: u64, bindings: Bindings<'_>) -> Result<Fields, AllocError>
    ensures { IfOk result (λ fields. fields ≡ map (Effects.contact_field now) bindings.entry) }
{
    let mut left = bindings;
    let mut fields = Fields::new(alloc);
    while let Some(binding) = left.next() {
        fields.push(contact_field(alloc, now, &binding)?)?;
    }
    Ok(fields)
}

/// The Contact fields of the 200 to a REGISTER, told by its plan before that is applied: one for each binding that is live
/// then, in their order, with the whole seconds that it has left (RFC 3261 10.3 step 8). `AllocError` is the only refusal.
pub fn contact_fields(alloc: Global, now: u64, plan: &RegisterPlan) -> Result<Fields, AllocError>
    ensures planned { IfOk result (λ fields. fields ≡ map (Effects.contact_field now) plan.now.bindings) }
    ensures registered { IfOk result (λ fields. (rows after : List Binding) (r : Registration) → IsPlan rows r now plan.now
        → registered rows r now ≡ Ok after → fields ≡ Effects.contact_fields now plan.now.aor after) }
{
    fields_of(alloc, now, plan.bindings())
}
