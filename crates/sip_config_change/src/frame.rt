ghost use Rattle.std.specs.Prelude.{◌≡◌, length};
ghost use Rattle.std.specs.Cmp.Lexicographic.{pointwise};
ghost use Rattle.std.specs.Str.{bytes_eq};
ghost use Rattle.sip_config_change.specs.Frame.{is_kept, frame_key_of};

use crate::key::FrameKey;
use sip_config_types::Config;
use sip_text::{Bytes, same_bytes};

/// Whether two lists of one length have the same texts at the same places.
fn are_same_at_each_place(left: &[Bytes], right: &[Bytes]) -> bool
    requires { length left.now ≡ length right.now }
    ensures { result ≡ pointwise bytes_eq left.now right.now }
{
    for (index, text) in left.iter().enumerate() {
        if !same_bytes(text.as_slice(), right[index].as_slice()) {
            return false;
        }
    }
    true
}

/// The same of lists that may differ in length.
fn same_texts(left: &[Bytes], right: &[Bytes]) -> bool
    ensures { result ≡ pointwise bytes_eq left.now right.now }
{
    if left.len() != right.len() {
        return false;
    }
    are_same_at_each_place(left, right)
}

impl FrameKey {
    /// Whether two configurations say the same of this key. Takes no memory.
    pub fn is_kept(self, old: &Config, new: &Config) -> bool
        ensures { result ≡ is_kept old.now new.now self }
    {
        match self {
            FrameKey::Host => same_bytes(old.own.host.as_slice(), new.own.host.as_slice()),
            FrameKey::Port => old.own.port == new.own.port,
            FrameKey::Address => old.own.ip == new.own.ip,
            FrameKey::Domains => same_texts(old.own.domains.as_slice(), new.own.domains.as_slice()),
            FrameKey::Realm => same_bytes(old.realm.as_slice(), new.realm.as_slice()),
        }
    }
}

/// The first key by which the frames of two configurations differ; none where they have the same. Takes no memory.
pub fn frame_key(old: &Config, new: &Config) -> Option<FrameKey>
    ensures { result ≡ frame_key_of old.now new.now }
{
    if !FrameKey::Host.is_kept(old, new) {
        return Some(FrameKey::Host);
    }
    if !FrameKey::Port.is_kept(old, new) {
        return Some(FrameKey::Port);
    }
    if !FrameKey::Address.is_kept(old, new) {
        return Some(FrameKey::Address);
    }
    if !FrameKey::Domains.is_kept(old, new) {
        return Some(FrameKey::Domains);
    }
    if !FrameKey::Realm.is_kept(old, new) {
        return Some(FrameKey::Realm);
    }
    None
}
