//! Phones on loopback, and a server on a port that the system chooses. Its clock stands still, so nothing goes again. Its words
//! are W(1), W(2) and so on, one for each datagram, so all that it writes is known but for the ports of the phones.

use crate::phone::Phone;
use crate::trial::Trial;
use sip_transport::UdpLink;
use sip_uri::Addr;
use std::alloc::{AllocError, Global};
use std::io;
use std::net::Net;

/// How many turns a datagram may take on its way.
const TURNS: u32 = 1_000;

const ANY_PORT: Addr = Addr {
    ip: [127, 0, 0, 1],
    port: 0,
};

/// Which phone.
#[derive(Clone, Copy)]
pub(crate) enum Who {
    /// That of Mufasa, who calls.
    Caller,
    /// That of `help`, who is called.
    Called,
}

/// What a phone hears: how it begins, and what it has.
pub(crate) type Hearing = (Who, &'static str, &'static str);

/// What a phone sends to the server, and what is heard of it then, one after the other. `CALLER` and `CALLED` stand for the
/// ports of the phones.
pub(crate) type Leg = (Who, &'static str, &'static [Hearing]);

const CHALLENGED: &str = "SIP/2.0 401 Unauthorized\r\n";

const ACCEPTED: &str = "SIP/2.0 200 OK\r\n";

/// A REGISTER over UDP that asks for an answer to the port that it comes from (RFC 3581) is answered to the socket that it came
/// from, by a challenge with the first word.
pub(crate) const LOOPBACK: &[Leg] = &[(
    Who::Caller,
    "REGISTER sip:host.com SIP/2.0\r\nVia: SIP/2.0/UDP 127.0.0.1:5062;branch=z9hG4bKreg1;rport\r\nMax-Forwards: 70\r\nFrom: <sip:Mufasa@host.com>;tag=a1\r\nTo: <sip:Mufasa@host.com>\r\nCall-ID: c1@127.0.0.1\r\nCSeq: 1 REGISTER\r\nContact: <sip:Mufasa@127.0.0.1:5062>\r\nContent-Length: 0\r\n\r\n",
    &[(
        Who::Caller,
        CHALLENGED,
        "\r\nWWW-Authenticate: Digest realm=\"testrealm@host.com\", nonce=\"00000000000000000000000000000001\", algorithm=MD5, qop=\"auth\"\r\n",
    )],
)];

/// Two phones register with the right answers to their challenges, which another program made, and one calls the other through
/// the server: the call and its answer, the ACK to the Contact of that, and the BYE of the phone that was called, which goes
/// the way that the server recorded, and its answer.
pub(crate) const CALL_ON_LOOPBACK: &[Leg] = &[
    (
        Who::Called,
        "REGISTER sip:host.com SIP/2.0\r\nVia: SIP/2.0/UDP 127.0.0.1:CALLED;branch=z9hG4bKhelp1\r\nMax-Forwards: 70\r\nFrom: <sip:help@host.com>;tag=r1\r\nTo: <sip:help@host.com>\r\nCall-ID: help@127.0.0.1\r\nCSeq: 1 REGISTER\r\nContact: <sip:help@127.0.0.1:CALLED>\r\nContent-Length: 0\r\n\r\n",
        &[(Who::Called, CHALLENGED, "\r\nCSeq: 1 REGISTER\r\n")],
    ),
    (
        Who::Called,
        "REGISTER sip:host.com SIP/2.0\r\nVia: SIP/2.0/UDP 127.0.0.1:CALLED;branch=z9hG4bKhelp2\r\nMax-Forwards: 70\r\nFrom: <sip:help@host.com>;tag=r1\r\nTo: <sip:help@host.com>\r\nCall-ID: help@127.0.0.1\r\nCSeq: 2 REGISTER\r\nContact: <sip:help@127.0.0.1:CALLED>\r\nAuthorization: Digest username=\"help\", realm=\"testrealm@host.com\", nonce=\"00000000000000000000000000000001\", uri=\"sip:host.com\", response=\"85d4d673c58c2ed45136af95f6d881d3\", qop=auth, nc=00000001, cnonce=\"0a4f113b\"\r\nContent-Length: 0\r\n\r\n",
        &[(Who::Called, ACCEPTED, "\r\nCSeq: 2 REGISTER\r\n")],
    ),
    (
        Who::Caller,
        "REGISTER sip:host.com SIP/2.0\r\nVia: SIP/2.0/UDP 127.0.0.1:CALLER;branch=z9hG4bKMufasa1\r\nMax-Forwards: 70\r\nFrom: <sip:Mufasa@host.com>;tag=r1\r\nTo: <sip:Mufasa@host.com>\r\nCall-ID: Mufasa@127.0.0.1\r\nCSeq: 1 REGISTER\r\nContact: <sip:Mufasa@127.0.0.1:CALLER>\r\nContent-Length: 0\r\n\r\n",
        &[(Who::Caller, CHALLENGED, "\r\nCSeq: 1 REGISTER\r\n")],
    ),
    (
        Who::Caller,
        "REGISTER sip:host.com SIP/2.0\r\nVia: SIP/2.0/UDP 127.0.0.1:CALLER;branch=z9hG4bKMufasa2\r\nMax-Forwards: 70\r\nFrom: <sip:Mufasa@host.com>;tag=r1\r\nTo: <sip:Mufasa@host.com>\r\nCall-ID: Mufasa@127.0.0.1\r\nCSeq: 2 REGISTER\r\nContact: <sip:Mufasa@127.0.0.1:CALLER>\r\nAuthorization: Digest username=\"Mufasa\", realm=\"testrealm@host.com\", nonce=\"00000000000000000000000000000003\", uri=\"sip:host.com\", response=\"de3b7a92fe6b68571895e1039fa9583a\", qop=auth, nc=00000001, cnonce=\"0a4f113b\"\r\nContent-Length: 0\r\n\r\n",
        &[(Who::Caller, ACCEPTED, "\r\nCSeq: 2 REGISTER\r\n")],
    ),
    (
        Who::Caller,
        "INVITE sip:help@host.com SIP/2.0\r\nVia: SIP/2.0/UDP 127.0.0.1:CALLER;branch=z9hG4bKcallerINVITE\r\nMax-Forwards: 70\r\nFrom: <sip:Mufasa@host.com>;tag=f1\r\nTo: <sip:help@host.com>\r\nCall-ID: k1@127.0.0.1\r\nCSeq: 7 INVITE\r\nContact: <sip:Mufasa@127.0.0.1:CALLER>\r\nContent-Length: 0\r\n\r\n",
        &[
            (
                Who::Caller,
                "SIP/2.0 100 Trying\r\n",
                "\r\nCSeq: 7 INVITE\r\n",
            ),
            (
                Who::Called,
                "INVITE sip:help@127.0.0.1:",
                "\r\nRecord-Route: <sip:sip.host.com:5060;lr>\r\n",
            ),
        ],
    ),
    (
        Who::Called,
        "SIP/2.0 200 OK\r\nVia: SIP/2.0/UDP sip.host.com:5060;branch=z9hG4bK0000000000000000.5.1\r\nRecord-Route: <sip:sip.host.com:5060;lr>\r\nVia: SIP/2.0/UDP 127.0.0.1:CALLER;branch=z9hG4bKcallerINVITE\r\nFrom: <sip:Mufasa@host.com>;tag=f1\r\nTo: <sip:help@host.com>;tag=b1\r\nCall-ID: k1@127.0.0.1\r\nCSeq: 7 INVITE\r\nContact: <sip:help@127.0.0.1:CALLED>\r\nContent-Length: 0\r\n\r\n",
        &[(
            Who::Caller,
            ACCEPTED,
            "\r\nCSeq: 7 INVITE\r\nContact: <sip:help@127.0.0.1:CALLED>\r\n",
        )],
    ),
    (
        Who::Caller,
        "ACK sip:help@127.0.0.1:CALLED SIP/2.0\r\nVia: SIP/2.0/UDP 127.0.0.1:CALLER;branch=z9hG4bKcallerACK\r\nRoute: <sip:sip.host.com:5060;lr>\r\nMax-Forwards: 70\r\nFrom: <sip:Mufasa@host.com>;tag=f1\r\nTo: <sip:help@host.com>;tag=b1\r\nCall-ID: k1@127.0.0.1\r\nCSeq: 7 ACK\r\nContact: <sip:Mufasa@127.0.0.1:CALLER>\r\nContent-Length: 0\r\n\r\n",
        &[(
            Who::Called,
            "ACK sip:help@127.0.0.1:",
            "\r\nCSeq: 7 ACK\r\n",
        )],
    ),
    (
        Who::Called,
        "BYE sip:Mufasa@127.0.0.1:CALLER SIP/2.0\r\nVia: SIP/2.0/UDP 127.0.0.1:CALLED;branch=z9hG4bKbye\r\nRoute: <sip:sip.host.com:5060;lr>\r\nMax-Forwards: 70\r\nFrom: <sip:help@host.com>;tag=b1\r\nTo: <sip:Mufasa@host.com>;tag=f1\r\nCall-ID: k1@127.0.0.1\r\nCSeq: 1 BYE\r\nContent-Length: 0\r\n\r\n",
        &[(
            Who::Caller,
            "BYE sip:Mufasa@127.0.0.1:",
            "\r\nCSeq: 1 BYE\r\n",
        )],
    ),
    (
        Who::Caller,
        "SIP/2.0 200 OK\r\nVia: SIP/2.0/UDP sip.host.com:5060;branch=z9hG4bK0000000000000000.8.1\r\nVia: SIP/2.0/UDP 127.0.0.1:CALLED;branch=z9hG4bKbye\r\nFrom: <sip:help@host.com>;tag=b1\r\nTo: <sip:Mufasa@host.com>;tag=f1\r\nCall-ID: k1@127.0.0.1\r\nCSeq: 1 BYE\r\nContact: <sip:help@127.0.0.1:CALLER>\r\nContent-Length: 0\r\n\r\n",
        &[(Who::Called, ACCEPTED, "\r\nCSeq: 1 BYE\r\n")],
    ),
];

/// A server of the sample configuration, and the port that it hears.
struct LoopbackServer {
    trial: Trial<UdpLink>,
    port: u16,
}

/// Written out, so that it is proved once and not wherever one is dropped.
impl Drop for LoopbackServer {
    fn drop(self) {
        let LoopbackServer { trial: _, port: _ } = self;
    }
}

impl LoopbackServer {
    fn new<R: Net>(rt: &R, alloc: Global) -> io::Result<LoopbackServer> {
        let link = UdpLink::bind(rt, alloc, ANY_PORT)?;
        let port = link.port()?;
        let trial = Trial::new(alloc, 1, link, &[1_000])?;
        Ok(LoopbackServer { trial, port })
    }

    /// Whether a phone hears something, within so many turns, that begins so and has such a part.
    fn reaches(&mut self, phone: &mut Phone, start: &str, part: &str) -> bool {
        for _ in 0..TURNS {
            if self.trial.serve(1).is_err() {
                return false;
            }
            if let Some(is_right) = phone.hears(start, part) {
                return is_right;
            }
        }
        false
    }
}

/// Both phones.
struct Phones {
    caller: Phone,
    called: Phone,
}

/// Written out, so that it is proved once and not wherever they are dropped.
impl Drop for Phones {
    fn drop(self) {
        let Phones {
            caller: _,
            called: _,
        } = self;
    }
}

impl Phones {
    fn new<R: Net>(rt: &R, alloc: Global) -> io::Result<Phones> {
        let caller = Phone::new(rt, alloc)?;
        Ok(Phones {
            caller,
            called: Phone::new(rt, alloc)?,
        })
    }

    /// A text with their ports.
    fn filled(&self, alloc: Global, text: &str) -> Result<String, AllocError> {
        let text = text.replace(alloc, "CALLER", self.caller.port.as_str())?;
        text.replace(alloc, "CALLED", self.called.port.as_str())
    }

    fn sends(&self, who: Who, port: u16, text: &str) -> bool {
        match who {
            Who::Caller => self.caller.sends(port, text),
            Who::Called => self.called.sends(port, text),
        }
    }

    /// Whether a text goes from a phone to a port.
    fn send(&self, alloc: Global, who: Who, port: u16, text: &str) -> bool {
        match self.filled(alloc, text) {
            Ok(text) => self.sends(who, port, text.as_str()),
            Err(_) => false,
        }
    }

    fn are_reached(
        &mut self,
        server: &mut LoopbackServer,
        who: Who,
        start: &str,
        part: &str,
    ) -> bool {
        match who {
            Who::Caller => server.reaches(&mut self.caller, start, part),
            Who::Called => server.reaches(&mut self.called, start, part),
        }
    }

    /// Whether a phone hears of a server what it is to hear.
    fn hear(&mut self, alloc: Global, server: &mut LoopbackServer, hearing: &Hearing) -> bool {
        let (who, start, part) = *hearing;
        match self.filled(alloc, part) {
            Ok(part) => self.are_reached(server, who, start, part.as_str()),
            Err(_) => false,
        }
    }

    /// Whether what a phone sends is heard as it is to be.
    fn go(&mut self, alloc: Global, server: &mut LoopbackServer, leg: &Leg) -> bool {
        let (who, text, heard) = *leg;
        if !self.send(alloc, who, server.port, text) {
            return false;
        }
        for hearing in heard {
            if !self.hear(alloc, server, hearing) {
                return false;
            }
        }
        true
    }
}

fn all_go(alloc: Global, server: &mut LoopbackServer, phones: &mut Phones, legs: &[Leg]) -> bool {
    for leg in legs {
        if !phones.go(alloc, server, leg) {
            return false;
        }
    }
    true
}

fn hold_of<R: Net>(rt: &R, alloc: Global, server: &mut LoopbackServer, legs: &[Leg]) -> bool {
    match Phones::new(rt, alloc) {
        Ok(mut phones) => all_go(alloc, server, &mut phones, legs),
        Err(_) => false,
    }
}

/// Whether phones hear of a server what they are to hear.
pub(crate) fn hold<R: Net>(rt: &R, alloc: Global, legs: &[Leg]) -> bool {
    match LoopbackServer::new(rt, alloc) {
        Ok(mut server) => hold_of(rt, alloc, &mut server, legs),
        Err(_) => false,
    }
}
