//! By what a request's server transaction is told from others (RFC 3261 17.2.3): branch and sent-by of its top Via, and its method.
//! Which open request has a key is found in `table`.
ghost use Rattle.std.specs.Prelude.{◌≡◌, ◌↔◌, IsTrue, IfOk};
ghost use Rattle.std.specs.Str.{bytes_eq};
ghost use Rattle.sip_transaction_table.specs.Key.{key_method, key_from, same_key, is_cancelled_by};

use crate::method::KeyMethod;
use sip_header::{Via, branch_of};
use sip_text::{Bytes, lower_case, same_bytes};
use std::alloc::{AllocError, Global};

/// What a request's server transaction is found by (RFC 3261 17.2.3).
pub struct TransactionKey {
    /// The branch of the top Via, with the magic cookie.
    pub branch: Bytes,
    /// The host of its sent-by, in lower case.
    pub host: Bytes,
    /// The port of its sent-by, 5060 where none is written.
    pub port: u16,
    /// The method, INVITE for an ACK.
    pub method: KeyMethod,
}

/// Written out, so that it is proved once and not wherever one is dropped.
impl Drop for TransactionKey {
    fn drop(self) {
        let TransactionKey {
            branch: _,
            host: _,
            port: _,
            method: _,
        } = self;
    }
}

/// The method as it counts in a key.
fn method_in_key(method: &[u8]) -> &[u8]
    ensures { result.now ≡ key_method method.now }
{
    if same_bytes(method, b"ACK") {
        b"INVITE"
    } else {
        method
    }
}

/// The key of a request with this method, top Via and branch.
fn key_from(
    alloc: Global,
    method: &[u8],
    via: &Via<'_>,
    branch: &[u8],
) -> Result<Option<TransactionKey>, AllocError>
    ensures { IfOk result (λ key. key ≡ key_from method.now via.now branch.now) }
{
    if !branch.starts_with(b"z9hG4bK") {
        return Ok(None);
    }
    let branch = Bytes::copy(alloc, branch)?;
    let host = lower_case(alloc, via.host.as_slice())?;
    let method = KeyMethod::copy(alloc, method_in_key(method))?;
    Ok(Some(TransactionKey {
        branch,
        host,
        port: via.port.unwrap_or(5060),
        method,
    }))
}

impl TransactionKey {
    ghost use Rattle.sip_transaction_table.specs.Key.{via_key};

    /// The key of a request of this method with this Via on top (RFC 3261 17.2.3). None where the Via has no
    /// branch that begins with the magic cookie. `AllocError` is the only refusal.
    pub fn of_request(
        alloc: Global,
        method: &[u8],
        via: &Via<'_>,
    ) -> Result<Option<TransactionKey>, AllocError>
        ensures { IfOk result (λ key. key ≡ via_key method.now via.now) }
    {
        match branch_of(&via.parameters) {
            Some(branch) => key_from(alloc, method, via, branch),
            None => Ok(None),
        }
    }

    /// Whether the method is this one, byte by byte. Takes no memory.
    pub fn is_method(&self, method: &[u8]) -> bool
        ensures { result ≡ bytes_eq self.now.method method.now }
    {
        same_bytes(self.method.as_slice(), method)
    }

    /// Whether a CANCEL with the key `cancel` names a request with this one: of the same branch and sent-by, and neither ACK
    /// nor CANCEL (RFC 3261 9.2). Takes no memory.
    pub(crate) fn is_cancelled_by(&self, cancel: &TransactionKey) -> bool
        ensures { result ≡ is_cancelled_by cancel.now self.now }
    {
        if !same_bytes(self.branch.as_slice(), cancel.branch.as_slice()) {
            return false;
        }
        if !same_bytes(self.host.as_slice(), cancel.host.as_slice()) {
            return false;
        }
        if self.port != cancel.port {
            return false;
        }
        if self.is_method(b"CANCEL") {
            return false;
        }
        if self.is_method(b"ACK") {
            return false;
        }
        true
    }
}

/// Whether two keys are the same.
pub fn same_key(left: &TransactionKey, right: &TransactionKey) -> bool
    ensures value { result ≡ same_key left.now right.now }
    ensures equal { IsTrue result ↔ (left.now ≡ right.now) }
{
    if left.port != right.port {
        return false;
    }
    if !same_bytes(left.branch.as_slice(), right.branch.as_slice()) {
        return false;
    }
    if !same_bytes(left.host.as_slice(), right.host.as_slice()) {
        return false;
    }
    left.is_method(right.method.as_slice())
}
