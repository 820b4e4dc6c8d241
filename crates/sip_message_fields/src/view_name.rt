//! Names of fields that are lent: read from what was written, and told from others without case (RFC 3261 7.3.1, 7.3.3).
ghost use Rattle.std.specs.Prelude.{◌≡◌, false, IfOk};
ghost use Rattle.std.specs.Str.{bytes_eq};
ghost use Rattle.sip_message_fields.specs.declared.field_name.FieldName.TheVariants.{Other};
ghost use Rattle.sip_message_fields.specs.FieldName.{spelling, name_of, is_length, is_list, is_same_name};
ghost use Rattle.sip_message_fields.specs.declared.known_names.KnownName.{KnownName};
ghost use Rattle.sip_message_fields.specs.KnownName.{field_name_of, name_seen};

use crate::full_spelling::spelled_in_full;
use crate::{FieldName, KnownName};
use sip_text::{Bytes, same_bytes, same_no_case};
use std::alloc::{AllocError, Global};
use std::marker::Model;

/// The name of a field of a view, seen as that name: one that this project knows, or any other as a part of what
/// was read.
#[derive(Drop)]
pub struct ViewName<'a> {
    known: Option<KnownName>,
    /// Whether it was looked for among the names that this project knows, so that one that isn't known is compared with none of them.
    is_told: bool,
    spelling: &'a [u8],
}

impl<'a> Model for ViewName<'a> {
    ghost use Rattle.sip_message_fields.specs.declared.field_name.FieldName.{FieldName};
    ghost use Rattle.sip_message_fields.specs.KnownName.{name_seen, IsTold};

    ghost Value = { FieldName };

    ghost view = { λ n. name_seen n.known n.spelling.now };

    ghost invariant = { λ n. IsTold n.is_told n.known n.spelling.now };
}

/// Written out, so that a copy is known to be equal.
impl<'a> Clone for ViewName<'a> {
    ghost is_clone = { λ name copy. copy ≡ name };

    fn clone(&self) -> Result<ViewName<'a>, AllocError> {
        Ok(ViewName {
            known: self.known,
            is_told: self.is_told,
            spelling: self.spelling,
        })
    }
}

/// Whether a name is its full spelling, of which it is known whether this project knows it: another name always is.
#[tactic(auto, using(crate::proofs::KnownNames::itself))]
fn is_in_full(known: Option<KnownName>, name: &[u8]) -> bool
    ensures { result ≡ bytes_eq name.now (spelling (name_seen known name.now)) }
{
    match known {
        Some(known) => same_bytes(name, known.spelling()),
        None => true,
    }
}

impl<'a> ViewName<'a> {
    /// A name that this project knows.
    #[inline]
    pub fn of_name(name: KnownName) -> Self
        ensures { result ≡ field_name_of name }
    {
        ViewName {
            known: Some(name),
            is_told: true,
            spelling: b"",
        }
    }

    /// The name that is written so (RFC 3261 7.3.1 and 7.3.3).
    #[inline(always)]
    #[tactic(auto, using(crate::proofs::ToldNames::told_by))]
    pub fn of_part(name: &'a [u8]) -> Self
        ensures { result ≡ name_of name.now }
    {
        ViewName {
            known: KnownName::from_bytes(name),
            is_told: true,
            spelling: name,
        }
    }

    /// The name that is written so (RFC 3261 7.3.1 and 7.3.3), and whether this is its full spelling, letter by letter.
    #[inline(always)]
    #[tactic(auto, using(crate::proofs::KnownNames::full_name, crate::proofs::KnownNames::full_again, crate::proofs::ToldNames::told_by))]
    pub fn of_written(name: &'a [u8]) -> (Self, bool)
        ensures name { result.0 ≡ name_of name.now }
        ensures full { result.1 ≡ bytes_eq name.now (spelling (name_of name.now)) }
    {
        if let Some(known) = spelled_in_full(name) {
            let written = ViewName {
                known: Some(known),
                is_told: true,
                spelling: name,
            };
            return (written, true);
        }
        let known = KnownName::from_bytes(name);
        let written = ViewName {
            known,
            is_told: true,
            spelling: name,
        };
        (written, is_in_full(known, name))
    }

    /// The name of a field that was made, of which no byte is copied. In the server no response that is made as a view has
    /// further fields.
    #[inline]
    pub fn of_field_name(name: &'a FieldName) -> Self
        ensures { result ≡ name.now }
    {
        ViewName {
            known: KnownName::of(name),
            is_told: false,
            spelling: name.spelling(),
        }
    }

    /// A name that this project doesn't know. In the server no step asks for a field of such a name.
    #[inline]
    pub fn of_other(spelling: &'a [u8]) -> Self
        ensures { result ≡ Other spelling.now }
    {
        ViewName {
            known: None,
            is_told: false,
            spelling,
        }
    }

    /// The name that was kept so.
    #[inline]
    pub(crate) fn of_kept(known: Option<KnownName>, spelling: &'a [u8]) -> Self
        ensures { result ≡ name_seen known spelling.now }
    {
        ViewName {
            known,
            is_told: false,
            spelling,
        }
    }

    /// The same name, of which no byte is copied.
    #[inline]
    pub fn lent(&self) -> Result<ViewName<'_>, AllocError>
        ensures { IfOk result (λ view. view ≡ self.now) }
    {
        Ok(ViewName {
            known: self.known,
            is_told: self.is_told,
            spelling: self.spelling,
        })
    }

    /// Which name it is, if this project knows it.
    #[inline]
    pub(crate) fn known(&self) -> Option<KnownName>
        ensures { name_seen result (spelling self.now) ≡ self.now }
    {
        self.known
    }

    /// The name in its full spelling (RFC 3261 20); another name as it was written.
    #[inline]
    pub fn spelling(&self) -> &[u8]
        ensures { result.now ≡ spelling self.now }
    {
        match self.known {
            Some(known) => known.spelling(),
            None => self.spelling,
        }
    }

    /// The name, which owns its bytes.
    pub fn to_name(&self, alloc: Global) -> Result<FieldName, AllocError>
        ensures { IfOk result (λ name. name ≡ self.now) }
    {
        match self.known {
            Some(known) => Ok(known.to_name()),
            None => {
                let spelling = Bytes::copy(alloc, self.spelling)?;
                Ok(FieldName::Other(spelling))
            }
        }
    }

    /// Whether it may be a name that this project knows: not where it was told when it was read that it is none.
    #[inline(always)]
    #[tactic(auto, using(crate::proofs::ToldNames::never_known))]
    pub fn may_be_known(&self) -> bool
        ensures { (known : KnownName) → result ≡ false → is_same_name self.now (field_name_of known) ≡ false }
    {
        match self.known {
            Some(_) => true,
            None => !self.is_told,
        }
    }

    /// Whether it is a name, of which it is known whether this project knows it: only of other names the spelling is
    /// compared, and with a known name only where it wasn't told when it was read.
    #[inline]
    pub(crate) fn is_named(&self, known: Option<KnownName>, name: &FieldName) -> bool
        requires { name_seen known (spelling name.now) ≡ name.now }
        ensures { result ≡ is_same_name self.now name.now }
    {
        match (self.known, known) {
            (Some(left), Some(right)) => left.is_same(right),
            (None, Some(_)) => {
                if self.is_told {
                    return false;
                }
                self.is_spelled(name)
            }
            _ => self.is_spelled(name),
        }
    }

    /// Whether it is spelled as a name is. It stands apart, so that where a field is looked for known names are compared
    /// in place.
    fn is_spelled(&self, name: &FieldName) -> bool
        ensures { result ≡ is_same_name self.now name.now }
    {
        same_no_case(self.spelling(), name.spelling())
    }

    /// Whether it is this name: names are compared without case (RFC 3261 7.3.1). Takes no memory.
    pub fn is_same(&self, other: &FieldName) -> bool
        ensures { result ≡ is_same_name self.now other.now }
    {
        match KnownName::of(other) {
            Some(known) => self.is_named(Some(known), other),
            None => self.is_spelled(other),
        }
    }

    /// Whether it is Content-Length, which a message that was read doesn't keep as a field.
    #[inline]
    pub fn is_content_length(&self) -> bool
        ensures { result ≡ is_length self.now }
    {
        match self.known {
            Some(known) => known.is_content_length(),
            None => false,
        }
    }

    /// Whether values of this name are cut at their commas, so that each item is a field of its own.
    #[inline]
    pub fn is_list(&self) -> bool
        ensures { result ≡ is_list self.now }
    {
        match self.known {
            Some(known) => known.is_list(),
            None => false,
        }
    }
}
