ghost use Rattle.std.specs.Prelude.{◌≡◌, ◌++◌, IfOk, OnOk};
ghost use Rattle.sip_edit.specs.Onward as Spec;

use crate::onward::put_all;
use sip_message_fields::{KnownName, Value, ViewField, ViewFields, ViewName};
use sip_message_form::View;
use sip_route::Own;
use sip_text::Bytes;
use std::alloc::{AllocError, Global};

/// The most bytes of this server's Record-Route besides its host.
const REST_OF_RECORD_ROUTE: usize = 15;

/// The value of this server's Record-Route.
fn record_route_value(alloc: Global, own: &Own) -> Result<Bytes, AllocError>
    ensures { IfOk result (λ value. value ≡ (Spec.record_route_field own.now).value) }
{
    let host = own.host.as_slice();
    let mut value = Bytes::with_room(alloc, host.len().saturating_add(REST_OF_RECORD_ROUTE))?;
    value.extend(b"<sip:")?;
    value.extend(host)?;
    value.extend(b":")?;
    value.push_decimal(u64::from(own.port))?;
    value.extend(b";lr>")?;
    Ok(value)
}

/// This server's Record-Route (RFC 3261 20.30).
pub(crate) fn record_route<'v>(alloc: Global, own: &Own) -> Result<ViewField<'v>, AllocError>
    ensures { IfOk result (λ field. field ≡ Spec.record_route_field own.now) }
{
    let value = record_route_value(alloc, own)?;
    let name = ViewName::of_name(KnownName::RecordRoute);
    Ok(ViewField::new(name, Value::of_bytes(alloc, value)?))
}

/// Adds some fields with a further one behind the first.
fn put_second<'v>(
    out: &mut ViewFields<'v>,
    field: ViewField<'v>,
    fields: &'v [ViewField<'_>],
) -> Result<(), AllocError>
    ensures { OnOk result (out.new ≡ out.old ++ Spec.put_second field.entry fields.now) }
{
    let Some((first, others)) = fields.split_first() else {
        return out.push(field);
    };
    out.push(first.lent()?)?;
    out.push(field)?;
    put_all(out, others)
}

/// A request with this server's Record-Route behind its Via (RFC 3261 16.6 step 4). Of what it had no byte is copied.
/// `AllocError` is the only refusal.
pub fn push_record_route<'v>(
    alloc: Global,
    own: &Own,
    request: &'v View<'_>,
) -> Result<View<'v>, AllocError>
    ensures { IfOk result (λ edited. edited ≡ Spec.with_record_route own.now request.now) }
{
    let others = request.fields().as_slice();
    let mut fields = ViewFields::with_room(alloc, others.len().saturating_add(1))?;
    put_second(&mut fields, record_route(alloc, own)?, others)?;
    Ok(request.with_fields(fields))
}
