//! The phones of the trials on loopback.
use std::alloc::{AllocError, Global};
use std::io;
use std::net::{IpAddr, Ipv4Addr, Net, SocketAddr, UdpSocket};

/// A phone on loopback: a socket of its own, and the digits of its port.
pub struct Phone {
    socket: UdpSocket,
    pub port: String,
    buffer: Vec<u8>,
}

/// Written out, so that it is proved once and not wherever one is dropped.
impl Drop for Phone {
    fn drop(self) {
        let Phone {
            socket: _,
            port: _,
            buffer: _,
        } = self;
    }
}

/// A port of loopback.
fn local(port: u16) -> SocketAddr {
    SocketAddr::new(IpAddr::V4(Ipv4Addr::new(127, 0, 0, 1)), port)
}

/// A socket that doesn't wait, and its port, which the system chooses.
fn bound<R: Net>(rt: &R) -> io::Result<(UdpSocket, u16)> {
    let socket = UdpSocket::bind(rt, local(0))?;
    socket.set_nonblocking(true)?;
    let port = socket.local_addr()?.port();
    Ok((socket, port))
}

fn digits(alloc: Global, port: u16) -> Result<String, AllocError> {
    format!(in alloc; "{port}")
}

/// Whether so many bytes of a buffer are a text that begins so and has such a part.
fn is_text(buffer: &[u8], length: usize, start: &str, part: &str) -> bool {
    match buffer.get(..length) {
        Some(bytes) => match str::from_utf8(bytes) {
            Ok(text) => text.starts_with(start) && text.contains(part),
            Err(_) => false,
        },
        None => false,
    }
}

impl Phone {
    pub fn new<R: Net>(rt: &R, alloc: Global) -> io::Result<Phone> {
        let buffer = vec![in alloc; 0; 2_048]?;
        let (socket, port) = bound(rt)?;
        let port = digits(alloc, port)?;
        Ok(Phone {
            socket,
            port,
            buffer,
        })
    }

    /// Whether a text goes out to a port.
    pub fn sends(&self, port: u16, text: &str) -> bool {
        self.socket.send_to(text.as_bytes(), local(port)).is_ok()
    }

    /// Whether the datagram that is there begins so and has such a part; None where none is there.
    pub fn hears(&mut self, start: &str, part: &str) -> Option<bool> {
        match self.socket.recv_from(self.buffer.as_mut_slice()) {
            Ok((length, _)) => Some(is_text(self.buffer.as_slice(), length, start, part)),
            Err(_) => None,
        }
    }
}
