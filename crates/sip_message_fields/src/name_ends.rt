//! How many of the first fields of a list hold all that have a name: told for each known name as a field is added, so that who looks
//! for a name passes no field behind the last that has it, and none where no field has it.
ghost use Rattle.std.specs.Prelude.{◌≡◌, ◌<◌, ◌∷◌, ◌++◌, [], List, length};
ghost use Rattle.sip_message_fields.specs.declared.field.Field.{Field};
ghost use Rattle.sip_message_fields.specs.NameEnds as Ends;
ghost use Rattle.sip_message_fields.specs.NameEnds.{AreEnds};

use crate::known_names::KnownName;
use crate::view_name::ViewName;

/// So many names are known.
pub(crate) const NAMES: usize = 25;

/// The end of a name that may stand anywhere.
pub(crate) const ANYWHERE: u8 = 255;

/// The end of a name that the field behind so many has.
#[inline(always)]
fn end_behind(count: usize) -> u8
    ensures { result ≡ Ends.end_behind count }
{
    if count < 254 {
        count as u8 + 1
    } else {
        ANYWHERE
    }
}

/// The place of a known name among the ends.
#[inline(always)]
pub(crate) fn place_of(known: KnownName) -> usize
    ensures place { result ≡ Ends.place_of known }
    ensures low { result < 25 }
{
    match known {
        KnownName::Via => 0,
        KnownName::From => 1,
        KnownName::To => 2,
        KnownName::CallId => 3,
        KnownName::CSeq => 4,
        KnownName::Contact => 5,
        KnownName::MaxForwards => 6,
        KnownName::ContentLength => 7,
        KnownName::ContentType => 8,
        KnownName::ContentEncoding => 9,
        KnownName::Subject => 10,
        KnownName::Supported => 11,
        KnownName::Route => 12,
        KnownName::RecordRoute => 13,
        KnownName::Expires => 14,
        KnownName::Require => 15,
        KnownName::ProxyRequire => 16,
        KnownName::Unsupported => 17,
        KnownName::Authorization => 18,
        KnownName::ProxyAuthorization => 19,
        KnownName::WwwAuthenticate => 20,
        KnownName::ProxyAuthenticate => 21,
        KnownName::Warning => 22,
        KnownName::MinExpires => 23,
        KnownName::Timestamp => 24,
    }
}

/// Notes the name of a field that comes behind so many. One of which it wasn't told whether it is known may be any.
#[inline(always)]
#[tactic(auto, using(crate::proofs::NameEnds::noted_known, crate::proofs::NameEnds::noted_other, crate::proofs::NameEnds::noted_any))]
pub(crate) fn note(ends: &mut [u8; NAMES], name: &ViewName<'_>, count: usize)
    ensures { (fields : List Field) (field : Field) → field.name ≡ name.now → count ≡ length fields → AreEnds ends.old fields
        → AreEnds ends.new (fields ++ field ∷ []) }
{
    match name.known() {
        Some(known) => ends[place_of(known)] = end_behind(count),
        None => {
            if name.may_be_known() {
                *ends = [ANYWHERE; NAMES];
            }
        }
    }
}
