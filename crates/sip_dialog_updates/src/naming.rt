ghost use Rattle.std.specs.Prelude.{◌≡◌, All, map, option_map, count_by, IfOk};
ghost use Rattle.std.specs.Option.{option_and_then};
ghost use Rattle.std.specs.Result.{result_ok};
ghost use Rattle.sip_message_fields.specs.declared.field_name.FieldName.TheVariants as Name;
ghost use Rattle.sip_message_fields.specs.FieldName.{is_same_name};
ghost use Rattle.sip_message_fields.specs.KeptField.{field_kept, IsStored};
ghost use Rattle.sip_message_fields.specs.Values.{first_value};
ghost use Rattle.sip_header.specs.CoreFields.{name_addr_in};
ghost use Rattle.sip_header.specs.Parameters.{tag_of};
ghost use Rattle.sip_state.specs.Dialogs as Dialogs;

use crate::tags::written_tag_of;
use sip_dialog::DialogId;
use sip_message_fields::{KeptField, KnownName};
use sip_message_form::Kept;
use sip_state::OpenRequest;
use sip_text::same_no_case;
use std::alloc::{AllocError, Global};

/// Whether a field that is kept so in a store is a To.
fn is_to(store: &[u8], kept: &KeptField) -> bool
    requires { IsStored store.now kept.now }
    ensures { result ≡ is_same_name (field_kept store.now kept.now).name Name.To }
{
    match kept.known {
        Some(known) => known.is_same(KnownName::To),
        None => same_no_case(kept.spelling.of(store), b"To"),
    }
}

/// The value of the first To among fields that are kept so in a store.
fn first_to<'k>(store: &'k [u8], list: &[KeptField]) -> Option<&'k [u8]>
    requires { All (IsStored store.now) list.now }
    ensures { option_map (λ value. value.now) result ≡ first_value Name.To (map (field_kept store.now) list.now) }
{
    for kept in list {
        if is_to(store, kept) {
            return Some(kept.value.of(store));
        }
    }
    None
}

/// How many of them are To.
fn count_of_to(store: &[u8], list: &[KeptField]) -> usize
    requires { All (IsStored store.now) list.now }
    ensures { result ≡ count_by (λ field. is_same_name field.name Name.To) (map (field_kept store.now) list.now) }
{
    let mut count = 0;
    for kept in list {
        if is_to(store, kept) {
            count += 1;
        }
    }
    count
}

/// The tag of the one To of a kept message, if there is one and it has a tag.
#[tactic(auto, using(crate::proofs::ToTags::none_there, crate::proofs::ToTags::several_there, crate::proofs::ToTags::one_there))]
fn to_tag_of(alloc: Global, message: &Kept) -> Result<Option<&[u8]>, AllocError>
    ensures { IfOk result (λ tag. option_map (λ x. x.now) tag
        ≡ option_and_then (λ to. tag_of to.parameters) (result_ok (name_addr_in Name.To message.now.fields))) }
{
    let (store, list) = message.places();
    let Some(value) = first_to(store, list) else {
        return Ok(None);
    };
    if 1 < count_of_to(store, list) {
        return Ok(None);
    }
    let tag = written_tag_of(alloc, value)?;
    Ok(tag)
}

/// The dialog that an answer names for an open INVITE (RFC 3261 12.1.1). `AllocError` is the only refusal.
#[tactic(auto, using(crate::proofs::Answered::with_tag, crate::proofs::Answered::without_tag))]
pub fn answered_dialog(
    alloc: Global,
    request: &OpenRequest,
    answer: &Kept,
) -> Result<Option<DialogId>, AllocError>
    ensures { IfOk result (λ id. id ≡ Dialogs.answered_dialog request.now answer.now) }
{
    match to_tag_of(alloc, answer)? {
        Some(to_tag) => request.request.get().dialog_to(alloc, to_tag),
        None => Ok(None),
    }
}
