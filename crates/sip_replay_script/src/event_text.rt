ghost use Rattle.std.specs.Prelude.{◌≡◌, ◌≤◌, ◌+◌, ◌++◌, ◌∷◌, [], ℕ, List, length, codes};
ghost use Rattle.sip_event.specs.declared.event.Event.TheVariants.{Datagram, Time, Fault};
ghost use Rattle.sip_replay_script.specs.EventText;

use crate::head_line::DatagramHeadLine;
use sip_digest::nonce_text;
use sip_event::Ticket;
use sip_uri::Addr;

/// Puts a datagram's moment, source and word in front.
fn put_head(text: &mut DatagramHeadLine, at: u64, word: u128, from: Addr)
    requires { length text.old + 160 ≤ 208 }
    ensures text { text.new ≡ EventText.head_before at word from text.old }
    ensures size { length text.new ≤ length text.old + 160 }
{
    text.put_word(&nonce_text(word));
    text.put(b' ');
    text.put_addr(from);
    text.put(b' ');
    text.put_number(at);
}

/// What stands in front of a datagram's text: `text AT IP:PORT WORD` and a space. AT is in milliseconds. Takes no memory.
pub fn text_front(at: u64, word: u128, from: Addr) -> DatagramHeadLine
    ensures front { (rest : List ℕ) → result ++ rest ≡ codes "text " ++ EventText.head_before at word from (32 ∷ rest) }
    ensures size { length result ≤ 208 }
{
    let mut text = DatagramHeadLine::new();
    text.put(b' ');
    put_head(&mut text, at, word, from);
    text.put_word(b"text ");
    text
}

/// The lines of a datagram without bytes: `datagram AT IP:PORT WORD` and `.`, each with its LF. Takes no memory.
pub fn empty_text(at: u64, word: u128, from: Addr) -> DatagramHeadLine
    ensures { result ≡ EventText.event_text (Datagram at word from []) }
{
    let mut text = DatagramHeadLine::new();
    text.put_word(b"\n.\n");
    put_head(&mut text, at, word, from);
    text.put_word(b"datagram ");
    text
}

/// The line of a moment in milliseconds: `time AT` and LF. Takes no memory.
pub fn time_text(at: u64) -> DatagramHeadLine
    ensures { result ≡ EventText.event_text (Time at) }
{
    let mut text = DatagramHeadLine::new();
    text.put(b'\n');
    text.put_number(at);
    text.put_word(b"time ");
    text
}

/// The line of the fault of a packet, at a moment in milliseconds: `fault AT D/K` and LF. Takes no memory.
pub fn fault_text(at: u64, ticket: Ticket) -> DatagramHeadLine
    ensures { result ≡ EventText.event_text (Fault at ticket) }
{
    let mut text = DatagramHeadLine::new();
    text.put(b'\n');
    text.put_number(u64::from(ticket.branch));
    text.put(b'/');
    text.put_number(ticket.datagram);
    text.put(b' ');
    text.put_number(at);
    text.put_word(b"fault ");
    text
}
