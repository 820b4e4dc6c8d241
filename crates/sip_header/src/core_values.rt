ghost use Rattle.std.specs.Prelude.{◌≡◌, if◌then◌else◌};
ghost use Rattle.sip_message_form.specs.fields.FieldName.{is_same_name};
ghost use Rattle.sip_message_form.specs.fields.declared.field_name.FieldName.TheVariants as Name;
ghost use Rattle.sip_message_form.specs.fields.Values.{values_of};
ghost use Rattle.sip_header.specs.Found.{found_of, and_value};

use sip_message_form::fields::{FieldName, ViewField};
use sip_text::Text;

/// The value of a field of which there should be one, as it was found.
#[derive(Drop)]
pub(crate) enum Found<'a> {
    Nowhere,
    Once(Text<'a>),
    /// More than once.
    Again,
}

impl<'a> Found<'a> {
    /// One more value was found.
    #[inline(always)]
    fn add(&mut self, value: &'a [u8])
        ensures { self.new ≡ and_value self.old value.now }
    {
        *self = match self {
            Found::Nowhere => Found::Once(Text::new(value)),
            Found::Once(_) | Found::Again => Found::Again,
        };
    }

    /// One more field was seen, which may have a name.
    #[inline(always)]
    fn see(&mut self, field: &'a ViewField<'_>, name: &FieldName)
        ensures { self.new ≡ (if is_same_name field.now.name name.now then and_value self.old field.now.value else self.old) }
    {
        if field.name().is_same(name) {
            self.add(field.value().as_slice());
        }
    }
}

/// The values of the fields that every message needs, as they were found (RFC 3261 8.1.1).
#[derive(Drop)]
pub(crate) struct CoreValues<'a> {
    pub from: Found<'a>,
    pub to: Found<'a>,
    pub call_id: Found<'a>,
    pub cseq: Found<'a>,
}

/// The values of From, To, Call-ID and CSeq among some fields, over which it passes once.
#[tactic(auto, using(crate::proofs::FoundValues::and_field))]
pub(crate) fn core_values<'v>(fields: &'v [ViewField<'_>]) -> CoreValues<'v>
    ensures from { result.from ≡ found_of (values_of Name.From fields.now) }
    ensures to { result.to ≡ found_of (values_of Name.To fields.now) }
    ensures call_id { result.call_id ≡ found_of (values_of Name.CallId fields.now) }
    ensures cseq { result.cseq ≡ found_of (values_of Name.CSeq fields.now) }
{
    let mut values = CoreValues {
        from: Found::Nowhere,
        to: Found::Nowhere,
        call_id: Found::Nowhere,
        cseq: Found::Nowhere,
    };
    // Made once, and not for each field.
    let (from, to) = (FieldName::From, FieldName::To);
    let (call_id, cseq) = (FieldName::CallId, FieldName::CSeq);
    for field in fields {
        if !field.name().may_be_known() {
            continue;
        }
        values.from.see(field, &from);
        values.to.see(field, &to);
        values.call_id.see(field, &call_id);
        values.cseq.see(field, &cseq);
    }
    values
}
