//! What hears and sends datagrams, and what tells the moment: two traits, a link and a clock over memory, and those of
//! the system, over a UDP socket and over the runtime's clock.
//!
//! - Used: `sip_loop` asks the link and the clock, `sipd_command` opens the socket.
//! - Not here: what is done with a datagram.
//! - Tried: worked examples in `src/examples.rt`, as contracts that compute; `test_serve`, on memory and on loopback.
#![tactic(auto)]

mod clock;
mod datagram;
pub mod examples;
mod link;
mod memory_clock;
mod memory_link;
mod posted;
mod steady_clock;
mod udp_link;

pub use clock::Clock;
pub use datagram::{Given, HeardDatagram, Instead, LinkFault, SendOutcome};
pub use link::Link;
pub use memory_clock::MemoryClock;
pub use memory_link::MemoryLink;
pub use steady_clock::SteadyClock;
pub use udp_link::UdpLink;
