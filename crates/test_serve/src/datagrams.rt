//! What is heard and sent where `help` registers two addresses and is called, with no words but W(1), W(2) and so on.

use sip_uri::Addr;

/// A datagram that comes from a phone, or goes to one. Tables have its name, and not its bytes, of which a constant may have few.
#[derive(Clone, Copy)]
pub enum Datagram {
    /// `help` registers without credentials.
    Asks,
    /// `help` registers its first address.
    Binds,
    /// `help` registers its second address.
    BindsAgain,
    /// A call to `help`.
    Calls,
    /// What goes to `help` first.
    Challenge,
    /// Its first address is bound.
    Bound,
    /// The first answer to the call.
    Trying,
    /// The call, on its way to the first address.
    Invite1,
    /// The call, on its way to the second address.
    Invite2,
    /// The answer to the call where it reaches nobody.
    Failed,
    /// The answer to the call where nobody answers.
    TimedOut,
    /// What goes to `help`, who registers without credentials once more, in the fifth place.
    Challenge5,
}

const ASKS: &[u8] = b"\
REGISTER sip:host.com SIP/2.0\r\n\
Via: SIP/2.0/UDP 127.0.0.1:5082;branch=z9hG4bKh1\r\n\
Max-Forwards: 70\r\n\
From: <sip:help@host.com>;tag=a1\r\n\
To: <sip:help@host.com>\r\n\
Call-ID: h1\r\n\
CSeq: 1 REGISTER\r\n\
Contact: <sip:help@127.0.0.1:5082>\r\n\
Content-Length: 0\r\n\
\r\n\
";

const BINDS: &[u8] = b"\
REGISTER sip:host.com SIP/2.0\r\n\
Via: SIP/2.0/UDP 127.0.0.1:5082;branch=z9hG4bKh2\r\n\
Max-Forwards: 70\r\n\
From: <sip:help@host.com>;tag=a1\r\n\
To: <sip:help@host.com>\r\n\
Call-ID: h1\r\n\
CSeq: 2 REGISTER\r\n\
Contact: <sip:help@127.0.0.1:5082>\r\n\
Authorization: Digest username=\"help\", realm=\"testrealm@host.com\", nonce=\"00000000000000000000000000000001\", uri=\"sip:host.com\", response=\"85d4d673c58c2ed45136af95f6d881d3\", qop=auth, nc=00000001, cnonce=\"0a4f113b\"\r\n\
Content-Length: 0\r\n\
\r\n\
";

const BINDS_AGAIN: &[u8] = b"\
REGISTER sip:host.com SIP/2.0\r\n\
Via: SIP/2.0/UDP 127.0.0.1:5082;branch=z9hG4bKh3\r\n\
Max-Forwards: 70\r\n\
From: <sip:help@host.com>;tag=a1\r\n\
To: <sip:help@host.com>\r\n\
Call-ID: h1\r\n\
CSeq: 3 REGISTER\r\n\
Contact: <sip:help@127.0.0.1:5083>\r\n\
Authorization: Digest username=\"help\", realm=\"testrealm@host.com\", nonce=\"00000000000000000000000000000001\", uri=\"sip:host.com\", response=\"38d1a33114e16be1e04485c1f629fdd2\", qop=auth, nc=00000002, cnonce=\"0a4f113b\"\r\n\
Content-Length: 0\r\n\
\r\n\
";

const CALLS: &[u8] = b"\
INVITE sip:help@host.com SIP/2.0\r\n\
Via: SIP/2.0/UDP pc.host.com:5070;branch=z9hG4bKinv1;rport\r\n\
Max-Forwards: 70\r\n\
From: <sip:x@away.net>;tag=f1\r\n\
To: <sip:help@host.com>\r\n\
Call-ID: k1\r\n\
CSeq: 7 INVITE\r\n\
Contact: <sip:x@127.0.0.1:5070>\r\n\
Content-Length: 0\r\n\
\r\n\
";

const CHALLENGE: &[u8] = b"\
SIP/2.0 401 Unauthorized\r\n\
Via: SIP/2.0/UDP 127.0.0.1:5082;branch=z9hG4bKh1\r\n\
From: <sip:help@host.com>;tag=a1\r\n\
To: <sip:help@host.com>;tag=0000000000000000.1\r\n\
Call-ID: h1\r\n\
CSeq: 1 REGISTER\r\n\
WWW-Authenticate: Digest realm=\"testrealm@host.com\", nonce=\"00000000000000000000000000000001\", algorithm=MD5, qop=\"auth\"\r\n\
Content-Length: 0\r\n\
\r\n\
";

const BOUND: &[u8] = b"\
SIP/2.0 200 OK\r\n\
Via: SIP/2.0/UDP 127.0.0.1:5082;branch=z9hG4bKh2\r\n\
From: <sip:help@host.com>;tag=a1\r\n\
To: <sip:help@host.com>;tag=0000000000000000.2\r\n\
Call-ID: h1\r\n\
CSeq: 2 REGISTER\r\n\
Contact: <sip:help@127.0.0.1:5082>;expires=3600\r\n\
Content-Length: 0\r\n\
\r\n\
";

const TRYING: &[u8] = b"\
SIP/2.0 100 Trying\r\n\
Via: SIP/2.0/UDP pc.host.com:5070;branch=z9hG4bKinv1;rport=5070;received=127.0.0.1\r\n\
From: <sip:x@away.net>;tag=f1\r\n\
To: <sip:help@host.com>\r\n\
Call-ID: k1\r\n\
CSeq: 7 INVITE\r\n\
Content-Length: 0\r\n\
\r\n\
";

const INVITE_1: &[u8] = b"\
INVITE sip:help@127.0.0.1:5082 SIP/2.0\r\n\
Via: SIP/2.0/UDP sip.host.com:5060;branch=z9hG4bK0000000000000000.4.1\r\n\
Record-Route: <sip:sip.host.com:5060;lr>\r\n\
Via: SIP/2.0/UDP pc.host.com:5070;branch=z9hG4bKinv1;rport=5070;received=127.0.0.1\r\n\
Max-Forwards: 69\r\n\
From: <sip:x@away.net>;tag=f1\r\n\
To: <sip:help@host.com>\r\n\
Call-ID: k1\r\n\
CSeq: 7 INVITE\r\n\
Contact: <sip:x@127.0.0.1:5070>\r\n\
Content-Length: 0\r\n\
\r\n\
";

const INVITE_2: &[u8] = b"\
INVITE sip:help@127.0.0.1:5083 SIP/2.0\r\n\
Via: SIP/2.0/UDP sip.host.com:5060;branch=z9hG4bK0000000000000000.4.2\r\n\
Record-Route: <sip:sip.host.com:5060;lr>\r\n\
Via: SIP/2.0/UDP pc.host.com:5070;branch=z9hG4bKinv1;rport=5070;received=127.0.0.1\r\n\
Max-Forwards: 69\r\n\
From: <sip:x@away.net>;tag=f1\r\n\
To: <sip:help@host.com>\r\n\
Call-ID: k1\r\n\
CSeq: 7 INVITE\r\n\
Contact: <sip:x@127.0.0.1:5070>\r\n\
Content-Length: 0\r\n\
\r\n\
";

const FAILED: &[u8] = b"\
SIP/2.0 500 Server Internal Error\r\n\
Via: SIP/2.0/UDP pc.host.com:5070;branch=z9hG4bKinv1;rport=5070;received=127.0.0.1\r\n\
From: <sip:x@away.net>;tag=f1\r\n\
To: <sip:help@host.com>;tag=0000000000000000.4\r\n\
Call-ID: k1\r\n\
CSeq: 7 INVITE\r\n\
Content-Length: 0\r\n\
\r\n\
";

const TIMED_OUT: &[u8] = b"\
SIP/2.0 408 Request Timeout\r\n\
Via: SIP/2.0/UDP pc.host.com:5070;branch=z9hG4bKinv1;rport=5070;received=127.0.0.1\r\n\
From: <sip:x@away.net>;tag=f1\r\n\
To: <sip:help@host.com>;tag=0000000000000000.4\r\n\
Call-ID: k1\r\n\
CSeq: 7 INVITE\r\n\
Content-Length: 0\r\n\
\r\n\
";

const CHALLENGE_5: &[u8] = b"\
SIP/2.0 401 Unauthorized\r\n\
Via: SIP/2.0/UDP 127.0.0.1:5082;branch=z9hG4bKh1\r\n\
From: <sip:help@host.com>;tag=a1\r\n\
To: <sip:help@host.com>;tag=0000000000000000.5\r\n\
Call-ID: h1\r\n\
CSeq: 1 REGISTER\r\n\
WWW-Authenticate: Digest realm=\"testrealm@host.com\", nonce=\"00000000000000000000000000000005\", algorithm=MD5, qop=\"auth\"\r\n\
Content-Length: 0\r\n\
\r\n\
";

/// An address on this machine.
fn local(port: u16) -> Addr {
    Addr {
        ip: [127, 0, 0, 1],
        port,
    }
}

impl Datagram {
    /// Where it comes from, or goes to.
    pub fn addr(self) -> Addr {
        match self {
            Datagram::Calls | Datagram::Trying | Datagram::Failed | Datagram::TimedOut => local(
                5070,
            ),
            Datagram::Invite2 => local(5083),
            _ => local(5082),
        }
    }

    pub fn bytes(self) -> &'static [u8] {
        match self {
            Datagram::Asks => ASKS,
            Datagram::Binds => BINDS,
            Datagram::BindsAgain => BINDS_AGAIN,
            Datagram::Calls => CALLS,
            Datagram::Challenge => CHALLENGE,
            Datagram::Bound => BOUND,
            Datagram::Trying => TRYING,
            Datagram::Invite1 => INVITE_1,
            Datagram::Invite2 => INVITE_2,
            Datagram::Failed => FAILED,
            Datagram::TimedOut => TIMED_OUT,
            Datagram::Challenge5 => CHALLENGE_5,
        }
    }
}
