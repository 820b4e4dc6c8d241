ghost use Rattle.std.specs.Prelude.{◌≡◌, IfOk};

use crate::headers::UriHeader;
use crate::parameters::UriParameter;
use crate::port_value;
use crate::scheme::Scheme;
use crate::user::UserInfo;
use sip_text::{Bytes, Items};
use std::alloc::AllocError;

/// A SIP or SIPS URI (RFC 3261 19.1.1). Each text is kept as it was written, with its escapes.
pub struct Uri {
    pub scheme: Scheme,
    /// What stands before the `@`, where one stands.
    pub userinfo: Option<UserInfo>,
    /// A host name, or an address in square brackets, brackets included.
    pub host: Bytes,
    /// The digits of the port, where a `:` stands.
    pub port: Option<Bytes>,
    pub parameters: Items<UriParameter>,
    pub headers: Items<UriHeader>,
}

/// Written out, so that it is proved once and not wherever a URI is dropped.
impl Drop for Uri {
    fn drop(self) {
        let Uri {
            scheme: _,
            userinfo: _,
            host: _,
            port: _,
            parameters: _,
            headers: _,
        } = self;
    }
}

fn copied_userinfo(userinfo: &Option<UserInfo>) -> Result<Option<UserInfo>, AllocError>
    ensures { IfOk result (λ copy. copy ≡ userinfo.now) }
{
    userinfo.clone()
}

fn copied_text(text: &Bytes) -> Result<Bytes, AllocError>
    ensures { IfOk result (λ copy. copy ≡ text.now) }
{
    text.clone()
}

fn copied_port(port: &Option<Bytes>) -> Result<Option<Bytes>, AllocError>
    ensures { IfOk result (λ copy. copy ≡ port.now) }
{
    port.clone()
}

fn copied_parameters(parameters: &Items<UriParameter>) -> Result<Items<UriParameter>, AllocError>
    ensures { IfOk result (λ copy. copy ≡ parameters.now) }
{
    parameters.clone()
}

fn copied_headers(headers: &Items<UriHeader>) -> Result<Items<UriHeader>, AllocError>
    ensures { IfOk result (λ copy. copy ≡ headers.now) }
{
    headers.clone()
}

/// Written out, so that a copy is known to be equal.
impl Clone for Uri {
    ghost is_clone = { λ uri copy. copy ≡ uri };

    fn clone(&self) -> Result<Uri, AllocError> {
        Ok(Uri {
            scheme: self.scheme,
            userinfo: copied_userinfo(&self.userinfo)?,
            host: copied_text(&self.host)?,
            port: copied_port(&self.port)?,
            parameters: copied_parameters(&self.parameters)?,
            headers: copied_headers(&self.headers)?,
        })
    }
}

impl Uri {
    ghost use Rattle.sip_uri.specs.Port.{port_number};

    /// The number of the port, 1 to 65535. None where no port, or no such number, is written.
    pub fn port_number(&self) -> Option<u16>
        ensures { result ≡ port_number self.now.port }
    {
        port_value(self.port.as_ref()?.as_slice())
    }
}
