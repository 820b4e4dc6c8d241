//! A request under check, with what was read of it before. The rows of the table are said of it in `faults` and `refusal`.
ghost use Rattle.std.specs.Prelude.{◌≡◌, Some, is_ok};
ghost use Rattle.std.specs.Option.{option_and_then};
ghost use Rattle.sip_message_fields.specs.declared.field_name.FieldName.TheVariants as Name;
ghost use Rattle.sip_message_fields.specs.Values.{first_value};
ghost use Rattle.sip_uri.specs.Reading.{reading_of};
ghost use Rattle.sip_header.specs.Via.{via_of};
ghost use Rattle.sip_validate.specs.UncheckedRequest.{unchecked_with};

use sip_header::{CoreFields, MaxForwards, Via, max_forwards_of};
use sip_message_fields::ViewFields;
use sip_message_form::{View, ViewStart};
use sip_route::{Own, Way};
use sip_text::same_bytes;
use std::marker::Model;

/// A request that is checked: where it is, its parts, whether fewer bytes of its body came than its Content-Length
/// says, and its top Via and its core fields, which are read once.
#[derive(Drop)]
pub(crate) struct UncheckedRequest<'a, 'v> {
    pub(crate) own: &'a Own,
    pub(crate) method: &'a [u8],
    pub(crate) uri: &'a [u8],
    pub(crate) version: &'a [u8],
    pub(crate) fields: &'a ViewFields<'a>,
    /// The Via on top.
    pub(crate) via: &'a Via<'a>,
    pub(crate) short: bool,
    pub(crate) core: &'a CoreFields<'v>,
    /// What its Max-Forwards says, for which two rows of the table ask.
    pub(crate) max_forwards: MaxForwards,
    /// Whether the Request-URI, as it came, is a SIP or SIPS URI, where that was read.
    pub(crate) is_uri: Option<bool>,
}

impl<'a, 'v> Model for UncheckedRequest<'a, 'v> {
    ghost use Rattle.std.specs.Prelude.{◌≡◌, Some, IfSome, is_ok};
    ghost use Rattle.std.specs.Option.{option_and_then};
    ghost use Rattle.sip_message_fields.specs.declared.field_name.FieldName.TheVariants as Name;
    ghost use Rattle.sip_message_fields.specs.Values.{first_value};
    ghost use Rattle.sip_uri.specs.Reading.{reading_of};
    ghost use Rattle.sip_header.specs.MaxForwards.{max_forwards_of};
    ghost use Rattle.sip_header.specs.Via.{via_of};
    ghost use Rattle.sip_route.specs.Way.{way_from};
    ghost use Rattle.sip_validate.specs.UncheckedRequest.{UncheckedRequest};

    ghost Value = { UncheckedRequest };

    ghost view = { λ r. record {
      own = r.own.now;
      method = r.method.now;
      uri = r.uri.now;
      version = r.version.now;
      fields = r.fields.now;
      short = r.short;
      core = Some r.core.now;
      way = way_from r.own.now r.uri.now r.fields.now;
    } };

    ghost invariant = { λ r. (option_and_then via_of (first_value Name.Via r.fields.now) ≡ Some r.via.now)
        × (r.max_forwards ≡ max_forwards_of r.fields.now)
        × IfSome r.is_uri (λ is_uri. is_uri ≡ is_ok (reading_of r.uri.now)) };
}

impl<'a, 'v> UncheckedRequest<'a, 'v> {
    ghost use Rattle.sip_validate.specs.UncheckedRequest as Definition;

    /// The request that a message is, whose top Via and core fields are these; a response is none.
    pub(crate) fn of(
        own: &'a Own,
        message: &'a View<'a>,
        via: &'a Via<'a>,
        short: bool,
        core: &'a CoreFields<'v>,
    ) -> Option<Self>
        requires { option_and_then via_of (first_value Name.Via message.now.fields) ≡ Some via.now }
        ensures { result ≡ unchecked_with (Some core.now) own.now message.now.fields short message.now.start }
    {
        let ViewStart::Request {
            method,
            uri,
            version,
        } = message.start()
        else {
            return None;
        };
        Some(UncheckedRequest {
            own,
            method,
            uri,
            version: version.as_slice(),
            fields: message.fields(),
            via,
            short,
            core,
            max_forwards: max_forwards_of(message.fields()),
            is_uri: None,
        })
    }

    /// The same request, whose Request-URI that is left on this way is a SIP or SIPS URI or not: where it is left as it
    /// came, it needn't be read again.
    #[tactic(auto, using(crate::proofs::Uris::by_bytes))]
    pub(crate) fn with_uri_left(self, way: &Way<'_>, is_uri: bool) -> Self
        requires { is_uri ≡ is_ok (reading_of way.now.uri) }
        ensures { result ≡ self.entry }
    {
        if !same_bytes(way.uri.as_slice(), self.uri) {
            return self;
        }
        UncheckedRequest {
            is_uri: Some(is_uri),
            ..self
        }
    }

    /// Whether it is a REGISTER.
    pub(crate) fn is_register(&self) -> bool
        ensures { result ≡ Definition.is_register self.now }
    {
        same_bytes(self.method, b"REGISTER")
    }
}
