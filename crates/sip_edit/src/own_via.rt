//! This server's Via and its branch (RFC 3261 8.1.1.7, 16.6 step 8, 18.1.1), and a response without its top Via (16.7 step 3).
//! How a response is known by such a Via is in `sip_edit`.
ghost use Rattle.std.specs.Prelude.{◌≡◌, ◌++◌, codes, decimal, drop, IfOk, IsTrue, OnOk};
ghost use Rattle.sip_message_fields.specs.declared.field_name.FieldName.TheVariants as Name;
ghost use Rattle.sip_message_fields.specs.Values;
ghost use Rattle.sip_message_form.specs.Text.{field_text};
ghost use Rattle.sip_edit.specs.OwnVia;
ghost use Rattle.sip_text.specs.Numbers.{hex_text};

use crate::branch_id::BranchId;
use sip_message_fields::{FieldName, ViewField, ViewFields};
use sip_message_form::{Kept, View};
use sip_route::Own;
use sip_text::{Buffer, Bytes, hex_text};
use std::alloc::{AllocError, Global};

/// The most bytes of a branch: the magic cookie, 16 hexadecimal digits, and two numbers, each behind a `.`.
const LONGEST_BRANCH: usize = 55;

/// The most bytes of a Via of this server's besides its host and its branch, with its name and its CRLF.
const REST_OF_VIA: usize = 33;

/// Adds what stands behind the magic cookie in the branch of this server's Via to a target.
fn put_numbers(out: &mut Buffer, boot: u64, number: u64, target: u32) -> Result<(), AllocError>
    ensures { OnOk result (out.new ≡ out.old ++ (hex_text boot ++ codes "." ++ decimal number ++ codes "." ++ decimal target)) }
{
    out.extend(hex_text(boot).as_slice())?;
    out.extend(b".")?;
    out.push_decimal(number)?;
    out.extend(b".")?;
    out.push_decimal(u64::from(target))
}

/// Adds what stands before the branch in a Via of this server's.
fn put_place(out: &mut Buffer, own: &Own) -> Result<(), AllocError>
    ensures { OnOk result (out.new ≡ out.old ++ codes "SIP/2.0/UDP " ++ own.now.host ++ codes ":" ++ decimal own.now.port ++ codes ";branch=") }
{
    out.extend(b"SIP/2.0/UDP ")?;
    out.extend(own.host.as_slice())?;
    out.extend(b":")?;
    out.push_decimal(u64::from(own.port))?;
    out.extend(b";branch=")
}

/// The branch of this server's Via to a target of the request that the datagram with this number brought, of the run of
/// the server that began with this boot word (RFC 3261 8.1.1.7, 16.6 step 8). `AllocError` is the only refusal.
pub fn branch_text(alloc: Global, boot: u64, number: u64, target: u32) -> Result<Bytes, AllocError>
    ensures { IfOk result (λ branch. branch ≡ OwnVia.branch_text boot number target) }
{
    let mut branch = Buffer::with_room(alloc, LONGEST_BRANCH)?;
    branch.extend(b"z9hG4bK")?;
    put_numbers(&mut branch, boot, number, target)?;
    Ok(branch.into_bytes())
}

/// The value of this server's Via with a branch (RFC 3261 16.6 step 8, 18.1.1). `AllocError` is the only refusal.
pub fn own_via_value(alloc: Global, own: &Own, branch: &[u8]) -> Result<Bytes, AllocError>
    ensures { IfOk result (λ value. value ≡ OwnVia.own_via own.now branch.now) }
{
    let room = own.host.as_slice().len().saturating_add(branch.len());
    let mut value = Buffer::with_room(alloc, room.saturating_add(REST_OF_VIA))?;
    put_place(&mut value, own)?;
    value.extend(branch)?;
    Ok(value.into_bytes())
}

/// How much room this server's Via with a branch takes at most, with its name and its CRLF.
pub(crate) fn via_room(own: &Own) -> usize {
    let room = own.host.as_slice().len().saturating_add(LONGEST_BRANCH);
    room.saturating_add(REST_OF_VIA)
}

/// Adds the name of a Via of this server's, and what stands before its parameters.
fn put_named_place(out: &mut Buffer, own: &Own) -> Result<(), AllocError>
    ensures { OnOk result (out.new ≡ out.old ++ codes "Via: " ++ codes "SIP/2.0/UDP " ++ own.now.host ++ codes ":" ++ decimal own.now.port) }
{
    out.extend(b"Via: SIP/2.0/UDP ")?;
    out.extend(own.host.as_slice())?;
    out.extend(b":")?;
    out.push_decimal(u64::from(own.port))
}

/// Adds the parameter of a Via that says its branch.
fn put_branch_parameter(
    out: &mut Buffer,
    boot: u64,
    number: u64,
    target: u32,
) -> Result<(), AllocError>
    ensures { OnOk result (out.new ≡ out.old ++ codes ";branch=" ++ OwnVia.branch_text boot number target) }
{
    out.extend(b";branch=z9hG4bK")?;
    put_numbers(out, boot, number, target)
}

/// Adds this server's Via to a target as a field, as `own_via_value` and `branch_text` give it, straight where it is sent.
#[tactic(auto, using(crate::proofs::OwnViaLines::line_is))]
pub(crate) fn put_via(
    out: &mut Buffer,
    own: &Own,
    boot: u64,
    branch: BranchId,
) -> Result<(), AllocError>
    ensures { OnOk result (out.new ≡ out.old
        ++ field_text (OwnVia.own_via_field own.now (OwnVia.branch_text boot branch.number branch.target))) }
{
    put_named_place(out, own)?;
    put_branch_parameter(out, boot, branch.number, branch.target)?;
    out.extend(b"\r\n")
}

/// Views of some fields without the first of a name.
fn without_first<'v>(
    alloc: Global,
    fields: &'v [ViewField<'_>],
    name: &FieldName,
) -> Result<ViewFields<'v>, AllocError>
    ensures { IfOk result (λ views. views ≡ Values.without_first name.now fields.now) }
{
    let mut views = ViewFields::with_room(alloc, fields.len())?;
    let mut is_found = false;
    for field in fields {
        if !is_found && field.name().is_same(name) {
            is_found = true;
        } else {
            views.push(field.lent()?)?;
        }
    }
    Ok(views)
}

/// A response without its top Via, as it goes back (RFC 3261 16.7 step 3). No byte is copied. `AllocError` is the only
/// refusal.
pub fn pop_via<'v>(alloc: Global, response: &'v View<'_>) -> Result<View<'v>, AllocError>
    ensures { IfOk result (λ popped. popped ≡ OwnVia.without_top_via response.now) }
{
    let fields = without_first(alloc, response.fields().as_slice(), &FieldName::Via)?;
    Ok(response.with_fields(fields))
}

/// Whether the top Via of a response is its first field, as it mostly is.
fn is_via_first(response: &View<'_>) -> bool
    ensures { IsTrue result → drop 1 response.now.fields ≡ Values.without_first Name.Via response.now.fields }
{
    match response.fields().as_slice().split_first() {
        Some((first, _)) => first.name().is_same(&FieldName::Via),
        None => false,
    }
}

/// A response without its top Via, as it goes back (RFC 3261 16.7 step 3), which is written and kept. `AllocError` is the
/// only refusal.
pub fn kept_without_via(alloc: Global, response: &View<'_>) -> Result<Kept, AllocError>
    ensures { IfOk result (λ kept. kept ≡ OwnVia.without_top_via response.now) }
{
    if is_via_first(response) {
        return Kept::without_first(alloc, response);
    }
    let popped = pop_via(alloc, response)?;
    Kept::of(alloc, &popped)
}
