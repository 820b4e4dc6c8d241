ghost use Rattle.std.specs.Prelude.{◌≡◌, codes, IfSome};
ghost use Rattle.std.specs.Str.{bytes_eq};
ghost use Rattle.sip_transaction_table.specs.KeyMethod.{spelling};

use sip_text::same_bytes;

/// The methods that phones send, of which a key keeps no bytes (RFC 3261 7.1, and RFC 3262, 3311, 3428, 3515, 3903, 6086 and
/// 6665); an ACK's key is its INVITE's.
#[derive(Clone, Copy)]
pub(crate) enum KnownMethod {
    Invite,
    Register,
    Options,
    Bye,
    Cancel,
    Message,
    Subscribe,
    Notify,
    Info,
    Update,
    Prack,
    Refer,
    Publish,
}

/// Those that aren't INVITE.
const OTHERS: [KnownMethod; 12] = [
    KnownMethod::Register,
    KnownMethod::Bye,
    KnownMethod::Cancel,
    KnownMethod::Options,
    KnownMethod::Message,
    KnownMethod::Subscribe,
    KnownMethod::Notify,
    KnownMethod::Info,
    KnownMethod::Update,
    KnownMethod::Prack,
    KnownMethod::Refer,
    KnownMethod::Publish,
];

impl KnownMethod {
    /// The one that a method is and that isn't INVITE, byte by byte, if it is one.
    pub(crate) fn of_other(method: &[u8]) -> Option<KnownMethod>
        ensures { IfSome result (λ known. method.now ≡ spelling known) }
    {
        for known in &OTHERS {
            if same_bytes(method, known.spelling()) {
                return Some(*known);
            }
        }
        None
    }

    /// Its bytes.
    #[inline]
    pub(crate) fn spelling(self) -> &'static [u8]
        ensures { result.now ≡ spelling self }
    {
        match self {
            KnownMethod::Invite => b"INVITE",
            KnownMethod::Register => b"REGISTER",
            KnownMethod::Options => b"OPTIONS",
            KnownMethod::Bye => b"BYE",
            KnownMethod::Cancel => b"CANCEL",
            KnownMethod::Message => b"MESSAGE",
            KnownMethod::Subscribe => b"SUBSCRIBE",
            KnownMethod::Notify => b"NOTIFY",
            KnownMethod::Info => b"INFO",
            KnownMethod::Update => b"UPDATE",
            KnownMethod::Prack => b"PRACK",
            KnownMethod::Refer => b"REFER",
            KnownMethod::Publish => b"PUBLISH",
        }
    }

    /// Whether it is INVITE.
    #[inline]
    pub(crate) fn is_invite(self) -> bool
        ensures { result ≡ bytes_eq (spelling self) (codes "INVITE") }
    {
        match self {
            KnownMethod::Invite => true,
            KnownMethod::Register
            | KnownMethod::Options
            | KnownMethod::Bye
            | KnownMethod::Cancel
            | KnownMethod::Message
            | KnownMethod::Subscribe
            | KnownMethod::Notify
            | KnownMethod::Info
            | KnownMethod::Update
            | KnownMethod::Prack
            | KnownMethod::Refer
            | KnownMethod::Publish => false,
        }
    }
}
