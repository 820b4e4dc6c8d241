ghost use Rattle.std.specs.Prelude.{◌≡◌, IfOk};
ghost use Rattle.sip_uri_equality.specs.Equality as Definitions;

use crate::equality::is_same_place;
use crate::{header_order, parameter_order};
use sip_uri::{Uri, UriHeader, UriParameter};
use std::alloc::{AllocError, Global};
use std::marker::Model;

/// A URI that is compared with many others: its parameters and its headers are put in order once.
#[derive(Drop)]
pub struct Ordered<'a> {
    uri: &'a Uri,
    parameters: Vec<&'a UriParameter>,
    headers: Vec<&'a UriHeader>,
}

impl<'a> Model for Ordered<'a> {
    ghost use Rattle.sip_uri.specs.declared.uri.Uri.{Uri};
    ghost use Rattle.sip_uri_equality.specs.Order.{order_of_names, order_of_headers, ArePutInOrder};

    ghost Value = { Uri };

    ghost view = { λ o. o.uri.now };

    ghost invariant = { λ o. ArePutInOrder order_of_names o.uri.now.parameters o.parameters.items
        × ArePutInOrder order_of_headers o.uri.now.headers o.headers.items };
}

impl<'a> Ordered<'a> {
    /// A URI, put in order. `AllocError` is the only refusal; without parameters and headers it takes no memory.
    pub fn of(alloc: Global, uri: &'a Uri) -> Result<Self, AllocError>
        ensures { IfOk result (λ ordered. ordered ≡ uri.now) }
    {
        let parameters = parameter_order::in_order(alloc, uri.parameters.as_slice())?;
        let headers = header_order::in_order(alloc, uri.headers.as_slice())?;
        Ok(Ordered {
            uri,
            parameters,
            headers,
        })
    }

    /// The URI.
    pub fn uri(&self) -> &'a Uri
        ensures { result.now ≡ self.now }
    {
        self.uri
    }

    /// Whether it equals another one, as [`same`](crate::same) says (RFC 3261 19.1.4). Takes no memory, and time that
    /// grows as both URIs do.
    pub fn same(&self, other: &Ordered<'_>) -> bool
        ensures { result ≡ Definitions.same self.now other.now }
    {
        if !is_same_place(self.uri, other.uri) {
            return false;
        }
        let parameters = self.parameters.as_slice();
        if parameter_order::differ_at_a_place(parameters, other.parameters.as_slice()) {
            return false;
        }
        if !parameter_order::ordered_are_same(parameters, other.parameters.as_slice()) {
            return false;
        }
        header_order::ordered_are_same(self.headers.as_slice(), other.headers.as_slice())
    }
}
