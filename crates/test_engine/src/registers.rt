//! The datagrams of the stored run `registered`, and its script with its print.

/// A datagram that comes from Mufasa's phone. Tables have its name, and not its bytes, of which a constant may have few.
#[derive(Clone, Copy)]
pub enum Datagram {
    /// He registers without credentials.
    Registers,
    /// He does with the right credential.
    RegistersAgain,
    /// He does once more without credentials.
    RegistersLater,
    /// No bytes.
    Nothing,
}

impl Datagram {
    pub fn bytes(self) -> &'static [u8] {
        match self {
            Datagram::Registers => REGISTER,
            Datagram::RegistersAgain => REGISTER_AGAIN,
            Datagram::RegistersLater => REGISTER_LATER,
            Datagram::Nothing => b"",
        }
    }
}

/// A REGISTER without credentials.
pub const REGISTER: &[u8] = b"\
REGISTER sip:host.com SIP/2.0\r\n\
Via: SIP/2.0/UDP 127.0.0.1:5062;branch=z9hG4bKreg1\r\n\
Max-Forwards: 70\r\n\
From: <sip:Mufasa@host.com>;tag=a1\r\n\
To: <sip:Mufasa@host.com>\r\n\
Call-ID: c1@127.0.0.1\r\n\
CSeq: 1 REGISTER\r\n\
Contact: <sip:Mufasa@127.0.0.1:5062>\r\n\
Content-Length: 0\r\n\
\r\n\
";

/// The same with the right credential.
pub const REGISTER_AGAIN: &[u8] = b"\
REGISTER sip:host.com SIP/2.0\r\n\
Via: SIP/2.0/UDP 127.0.0.1:5062;branch=z9hG4bKreg2\r\n\
Max-Forwards: 70\r\n\
From: <sip:Mufasa@host.com>;tag=a1\r\n\
To: <sip:Mufasa@host.com>\r\n\
Call-ID: c1@127.0.0.1\r\n\
CSeq: 2 REGISTER\r\n\
Contact: <sip:Mufasa@127.0.0.1:5062>\r\n\
Authorization: Digest username=\"Mufasa\", realm=\"testrealm@host.com\", nonce=\"00000000000000000000000000000001\", uri=\"sip:host.com\", response=\"bd9454039b0b6bed147dae94f4738ec0\", qop=auth, nc=00000001, cnonce=\"0a4f113b\"\r\n\
Content-Length: 0\r\n\
\r\n\
";

/// Another one without credentials.
const REGISTER_LATER: &[u8] = b"\
REGISTER sip:host.com SIP/2.0\r\n\
Via: SIP/2.0/UDP 127.0.0.1:5062;branch=z9hG4bKreg3\r\n\
Max-Forwards: 70\r\n\
From: <sip:Mufasa@host.com>;tag=a1\r\n\
To: <sip:Mufasa@host.com>\r\n\
Call-ID: c1@127.0.0.1\r\n\
CSeq: 3 REGISTER\r\n\
Contact: <sip:Mufasa@127.0.0.1:5062>\r\n\
Content-Length: 0\r\n\
\r\n\
";

/// A script of both.
pub const REGISTERED_SCRIPT: &[u8] = b"\
datagram 1000 127.0.0.1:5062 00000000000000000000000000000001\n\
REGISTER sip:host.com SIP/2.0\n\
Via: SIP/2.0/UDP 127.0.0.1:5062;branch=z9hG4bKreg1\n\
Max-Forwards: 70\n\
From: <sip:Mufasa@host.com>;tag=a1\n\
To: <sip:Mufasa@host.com>\n\
Call-ID: c1@127.0.0.1\n\
CSeq: 1 REGISTER\n\
Contact: <sip:Mufasa@127.0.0.1:5062>\n\
Content-Length: 0\n\
\n\
.\n\
datagram 2000 127.0.0.1:5062 00000000000000000000000000000002\n\
REGISTER sip:host.com SIP/2.0\n\
Via: SIP/2.0/UDP 127.0.0.1:5062;branch=z9hG4bKreg2\n\
Max-Forwards: 70\n\
From: <sip:Mufasa@host.com>;tag=a1\n\
To: <sip:Mufasa@host.com>\n\
Call-ID: c1@127.0.0.1\n\
CSeq: 2 REGISTER\n\
Contact: <sip:Mufasa@127.0.0.1:5062>\n\
Authorization: Digest username=\"Mufasa\", realm=\"testrealm@host.com\", nonce=\"00000000000000000000000000000001\", uri=\"sip:host.com\", response=\"bd9454039b0b6bed147dae94f4738ec0\", qop=auth, nc=00000001, cnonce=\"0a4f113b\"\n\
Content-Length: 0\n\
\n\
.\n\
";

/// Its print.
pub const REGISTERED_PRINT: &[u8] = b"\
packet 1000 127.0.0.1:5062 1/0 first 348\n\
SIP/2.0 401 Unauthorized\r\n\
Via: SIP/2.0/UDP 127.0.0.1:5062;branch=z9hG4bKreg1\r\n\
From: <sip:Mufasa@host.com>;tag=a1\r\n\
To: <sip:Mufasa@host.com>;tag=0000000000000000.1\r\n\
Call-ID: c1@127.0.0.1\r\n\
CSeq: 1 REGISTER\r\n\
WWW-Authenticate: Digest realm=\"testrealm@host.com\", nonce=\"00000000000000000000000000000001\", algorithm=MD5, qop=\"auth\"\r\n\
Content-Length: 0\r\n\
\r\n\
\n\
audit 1000 1 REGISTER - Mufasa@host.com register - challenge 401\n\
packet 2000 127.0.0.1:5062 2/0 first 267\n\
SIP/2.0 200 OK\r\n\
Via: SIP/2.0/UDP 127.0.0.1:5062;branch=z9hG4bKreg2\r\n\
From: <sip:Mufasa@host.com>;tag=a1\r\n\
To: <sip:Mufasa@host.com>;tag=0000000000000000.2\r\n\
Call-ID: c1@127.0.0.1\r\n\
CSeq: 2 REGISTER\r\n\
Contact: <sip:Mufasa@127.0.0.1:5062>;expires=3600\r\n\
Content-Length: 0\r\n\
\r\n\
\n\
audit 2000 2 REGISTER Mufasa Mufasa@host.com register 1 answer 200\n\
";
