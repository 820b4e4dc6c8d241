//! The link that the program serves over. What a socket did no clause can say; a link over memory, which tells it, is in `memory_link`.
ghost use Rattle.std.specs.Prelude.{◌≡◌, ◌≤◌, [], length, IfOk, IfSome, IsSome, OnOk, OnErr, None, true};
ghost use Rattle.sip_transport.specs.Told.{counted, most_bytes, IsWritable};

use crate::datagram::{Instead, LinkFault, MOST_BYTES, SendOutcome};
use crate::link::Link;
use sip_uri::Addr;
use std::alloc::{AllocError, Global};
use std::io;
use std::io::ErrorKind;
use std::marker::Model;
use std::net::{IpAddr, Ipv4Addr, Net, SocketAddr, UdpSocket};
use std::time::Duration;

/// How many datagrams from port 0 in a row are passed over at most. Where more come, the next receive goes on behind them.
const MOST_PASSED: u32 = 64;

/// A link over a UDP socket of IPv4. What comes from port 0 is passed over, since nobody there can be answered (RFC 768). It tells
/// nothing of what it hears and is given, and how long it waits.
#[derive(Drop)]
pub struct UdpLink {
    socket: UdpSocket,
    /// Whether the socket answers at once where nothing is there.
    at_once: bool,
    /// How long the socket waits else, in milliseconds; at first 0, forever.
    timeout: u64,
    buffer: Vec<u8>,
    /// How many bytes at the buffer's front are those of the last datagram.
    held: usize,
    /// What waiting came to, until the next receive.
    kept: Option<Result<Option<Addr>, LinkFault>>,
    receives: u64,
    failures: u64,
}

impl Model for UdpLink {
    ghost use Rattle.std.specs.Prelude.{◌≤◌, take, length};
    ghost use Rattle.sip_transport.specs.Told.{most_bytes};
    ghost use Rattle.sip_transport.specs.UdpLink.{UdpState, IsAnswerable};

    ghost Value = { UdpState };

    ghost view = { λ l. record { kept = l.kept; held = take l.held l.buffer.items; receives = l.receives; failures = l.failures } };

    ghost invariant = { λ l. (l.held ≤ length l.buffer.items) × (length l.buffer.items ≤ most_bytes) × IsAnswerable l.kept };
}

/// That many zeros.
fn zeros(alloc: Global, count: usize) -> Result<Vec<u8>, AllocError>
    ensures { IfOk result (λ v. length v.items ≡ count) }
{
    vec![in alloc; 0; count]
}

/// The socket's address that this is.
fn socket_address(addr: Addr) -> SocketAddr {
    let [a, b, c, d] = addr.ip;
    SocketAddr::new(IpAddr::V4(Ipv4Addr::new(a, b, c, d)), addr.port)
}

/// Whether such a receive heard nothing, and didn't fail.
fn is_nothing(kind: ErrorKind) -> bool {
    matches!(
        kind,
        ErrorKind::WouldBlock | ErrorKind::TimedOut | ErrorKind::Interrupted
    )
}

/// The next datagram's length and source, put into the buffer, or nothing.
fn hear(socket: &UdpSocket, buffer: &mut [u8]) -> Result<Option<(usize, Addr)>, LinkFault>
    ensures { IfOk result (λ found. IfSome found (λ heard. heard.0 ≤ length buffer.new)) }
{
    match socket.recv_from(buffer) {
        Ok((length, SocketAddr::V4(from))) => {
            let ip = from.ip().octets();
            let port = from.port();
            Ok(Some((length, Addr { ip, port })))
        }
        Ok((_, SocketAddr::V6(_))) => Ok(None),
        Err(fault) if is_nothing(fault.kind()) => Ok(None),
        Err(_) => Err(LinkFault),
    }
}

impl UdpLink {
    /// Binds the address; port 0 is one that is free. Its buffer is made here, once.
    pub fn bind<R: Net>(rt: &R, alloc: Global, addr: Addr) -> io::Result<UdpLink>
        ensures { IfOk result (λ link. link ≡ record { kept = None; held = []; receives = 0; failures = 0 }) }
    {
        let buffer = zeros(alloc, MOST_BYTES)?;
        let socket = UdpSocket::bind(rt, socket_address(addr))?;
        Ok(UdpLink {
            socket,
            at_once: false,
            timeout: 0,
            buffer,
            held: 0,
            kept: None,
            receives: 0,
            failures: 0,
        })
    }

    /// The port that it is bound to.
    pub fn port(&self) -> io::Result<u16> {
        Ok(self.socket.local_addr()?.port())
    }

    /// The next datagram, waited for so many milliseconds at most. One from port 0 ends the wait: what is there behind it is heard.
    fn hear_within(&mut self, milliseconds: u64) -> Result<Option<Addr>, LinkFault>
        ensures same { (self.new.receives ≡ self.old.receives) × (self.new.failures ≡ self.old.failures) × (self.new.kept ≡ self.old.kept) }
        ensures writable { IfOk result (λ from. IfSome from (λ source. IsWritable source self.new.held)) }
    {
        if self.at_once {
            self.set_at_once(false)?;
        }
        match self.hear_for(milliseconds)? {
            Some(Addr { port: 0, .. }) => self.hear_at_once(),
            found => Ok(found),
        }
    }

    /// The next datagram, from port 0 too, waited for so many milliseconds at most. To tell the socket how long to wait is a call of the
    /// system, and while phones speak something comes sooner. So where it was told to wait for less, but for no less than an eighth, it
    /// is told the rest only once nothing came by then; and it is told three quarters at first, which do for shorter waits, too.
    fn hear_for(&mut self, milliseconds: u64) -> Result<Option<Addr>, LinkFault>
        ensures same { (self.new.receives ≡ self.old.receives) × (self.new.failures ≡ self.old.failures) × (self.new.kept ≡ self.old.kept) }
        ensures few { OnOk result (length self.new.held ≤ most_bytes) }
    {
        if milliseconds < self.timeout || self.timeout <= milliseconds / 8 {
            let at_first = milliseconds.saturating_sub(milliseconds / 4);
            self.set_timeout(at_first)?;
        }
        match self.hear()? {
            None if self.timeout < milliseconds => {
                let rest = milliseconds.saturating_sub(self.timeout);
                self.set_timeout(rest)?;
                self.hear()
            }
            found => Ok(found),
        }
    }

    /// The next datagram, where one is there.
    fn hear_at_once(&mut self) -> Result<Option<Addr>, LinkFault>
        ensures same { (self.new.receives ≡ self.old.receives) × (self.new.failures ≡ self.old.failures) × (self.new.kept ≡ self.old.kept) }
        ensures writable { IfOk result (λ from. IfSome from (λ source. IsWritable source self.new.held)) }
    {
        if !self.at_once {
            self.set_at_once(true)?;
        }
        for _ in 0..MOST_PASSED {
            match self.hear()? {
                Some(Addr { port: 0, .. }) => {}
                found => return Ok(found),
            }
        }
        Ok(None)
    }

    /// Lets the socket answer at once, or wait.
    fn set_at_once(&mut self, at_once: bool) -> Result<(), LinkFault>
        ensures { self.new ≡ self.old }
    {
        match self.socket.set_nonblocking(at_once) {
            Ok(()) => {
                self.at_once = at_once;
                Ok(())
            }
            Err(_) => Err(LinkFault),
        }
    }

    /// Lets the socket wait so many milliseconds, where it waits.
    fn set_timeout(&mut self, milliseconds: u64) -> Result<(), LinkFault>
        ensures { self.new ≡ self.old }
    {
        let timeout = Duration::from_millis(milliseconds);
        match self.socket.set_read_timeout(Some(timeout)) {
            Ok(()) => {
                self.timeout = milliseconds;
                Ok(())
            }
            Err(_) => Err(LinkFault),
        }
    }

    /// The next datagram as the socket has it, from port 0 too, held from here on.
    fn hear(&mut self) -> Result<Option<Addr>, LinkFault>
        ensures same { (self.new.receives ≡ self.old.receives) × (self.new.failures ≡ self.old.failures) × (self.new.kept ≡ self.old.kept) }
        ensures few { length self.new.held ≤ most_bytes }
    {
        self.held = 0;
        let Some((length, from)) = hear(&self.socket, self.buffer.as_mut_slice())? else {
            return Ok(None);
        };
        self.held = length;
        Ok(Some(from))
    }

    /// What waiting came to, or else what is there.
    fn take_kept(&mut self) -> Result<Option<Addr>, LinkFault>
        ensures same { (self.new.receives ≡ self.old.receives) × (self.new.failures ≡ self.old.failures) }
        ensures kept { IfSome self.old.kept (λ found. (result ≡ found) × (self.new.held ≡ self.old.held)) }
        ensures none { self.new.kept ≡ None }
        ensures writable { IfOk result (λ from. IfSome from (λ source. IsWritable source self.new.held)) }
    {
        match self.kept.take() {
            None => self.hear_at_once(),
            Some(found) => found,
        }
    }
}

impl Link for UdpLink {
    ghost receives = { λ l. l.receives };

    ghost failures = { λ l. l.failures };

    ghost heard = { λ _. None };

    ghost given = { λ _. None };

    ghost held = { λ l. l.held };

    ghost fresh = { λ _. true };

    ghost aside = { λ _. None };

    ghost waits = { λ _. None };

    fn receive(&mut self) -> Result<Option<Addr>, LinkFault>
        ensures counted { self.new.receives ≡ counted self.old.receives }
        ensures ok { OnOk result (self.new.failures ≡ self.old.failures) }
        ensures err { OnErr result (self.new.failures ≡ counted self.old.failures) }
        ensures kept { IfSome self.old.kept (λ found. (result ≡ found) × (self.new.held ≡ self.old.held)) }
        ensures none { self.new.kept ≡ None }
        ensures writable { IfOk result (λ from. IfSome from (λ source. IsWritable source self.new.held)) }
    {
        self.receives = self.receives.saturating_add(1);
        let found = self.take_kept();
        if found.is_err() {
            self.failures = self.failures.saturating_add(1);
        }
        found
    }

    fn set_aside(&mut self, _from: Addr, _instead: Instead)
        ensures { self.new ≡ self.old }
    {}

    fn bytes(&self) -> &[u8] {
        &self.buffer.as_slice()[..self.held]
    }

    fn send(&mut self, to: Addr, bytes: &[u8]) -> Result<SendOutcome, AllocError>
        ensures { self.new ≡ self.old }
    {
        match self.socket.send_to(bytes, socket_address(to)) {
            Ok(length) if length == bytes.len() => Ok(SendOutcome::Went),
            _ => Ok(SendOutcome::Failed),
        }
    }

    // Keeps what waiting came to for the next `receive`: the datagram, that none came, or a fault. Doesn't wait where something is
    // kept already.
    fn wait(&mut self, milliseconds: u64)
        ensures receives { self.new.receives ≡ self.old.receives }
        ensures failures { self.new.failures ≡ self.old.failures }
        ensures at_once { milliseconds ≡ 0 → self.new ≡ self.old }
        ensures keeps { IsSome self.old.kept → self.new ≡ self.old }
        ensures waited { ¬ (milliseconds ≡ 0) → IsSome self.new.kept }
    {
        if self.kept.is_some() || milliseconds == 0 {
            return;
        }
        let found = self.hear_within(milliseconds);
        self.kept = Some(found);
    }
}
