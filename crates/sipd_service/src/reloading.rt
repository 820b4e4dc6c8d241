//! Another configuration comes into force between two turns: its file is looked at, its bytes are taken or refused, and that is said.
//! What may change is decided in `sip_config_change`.
ghost use Rattle.std.specs.Prelude.{◌≡◌, ◌⊎◌, true, None, IfErr, IfOk, IfSome, OnErr, OnOk};
ghost use Rattle.sipd_changes.specs.Changes as Differing;
ghost use Rattle.sipd_changes.specs.Summary.{summed_up};
ghost use Rattle.sipd_service.specs.Reloads.{FollowsHops, IsReloaded, IsUnder, IsUnnoted, IsUntakable, Takes, hearing_hops};
ghost use Rattle.sipd_service.specs.declared.reloading.NotTaken.TheVariants as Reason;

use crate::hops::hops_of;
use sip_config::{ConfigError, read_config_bytes};
use sip_config_change::FrameKey;
use sip_config_types::Config;
use sip_guard::Guard;
use sip_journal::{Journal, JournalFault};
use sip_loop::engine::{ChangeError, Engine};
use sip_policy::Rules;
use sip_text::Bytes;
use sip_timers::Timers;
use sip_transport::{Clock, Link};
use sipd_changes::{changes_of, summed_up};
use sipd_reload::{FileFault, Look, Watch, WatchedFile};
use std::alloc::Global;
use std::fmt;
use std::io::Write;

/// Why bytes that the configuration's file holds aren't taken.
#[derive(Clone, Copy)]
pub(crate) enum NotTaken {
    /// Memory ran out.
    NoMemory,
    /// They state no configuration.
    Refused(ConfigError),
    /// By this key the server would be another one to others.
    OtherFrame(FrameKey),
    /// They name another port to bind.
    OtherPort,
}

impl fmt::Display for NotTaken {
    fn fmt<W: fmt::Write>(&self, f: &mut fmt::Formatter<W>) -> fmt::Result {
        match self {
            NotTaken::NoMemory => write!(f, "out of memory"),
            NotTaken::Refused(e) => write!(f, "{e}"),
            NotTaken::OtherFrame(key) => { write!(f, "{key} can't change while the server runs") }
            NotTaken::OtherPort => write!(f, "address can't change while the server runs"),
        }
    }
}

/// What a change does, in a few words, where there is memory for them.
fn words_on(alloc: Global, before: &Config, now: &Config) -> Option<Bytes>
    ensures { IfSome result (λ words. words ≡ summed_up (Differing.changes_of before.now now.now)) }
{
    let Ok(changes) = changes_of(alloc, before, now) else {
        return None;
    };
    match summed_up(alloc, &changes) {
        Ok(words) => Some(words),
        Err(_) => None,
    }
}

/// Has a server that has bound this port be under the configuration that bytes state, and its guard hear the hops of that always. Gives
/// what the change does, in a few words, where there is memory for them.
fn change_to<T: Timers, P: Rules, L: Link, C: Clock>(
    alloc: Global,
    engine: &mut Engine<T, P>,
    link: &mut Guard<L, C>,
    port: u16,
    bytes: &[u8],
) -> Result<Option<Bytes>, NotTaken>
    ensures under { OnOk result (IsUnder port bytes.now engine.old.server engine.new.server) }
    ensures words { IfOk result (λ given. IfSome given (λ words. words ≡ summed_up (Differing.changes_of engine.old.server.config engine.new.server.config))) }
    ensures hears { OnOk result (link.new ≡ hearing_hops engine.new.server.config link.old) }
    ensures refused { IfErr result (λ why. (why ≡ Reason.NoMemory) ⊎ IsUntakable engine.old.server port bytes.now) }
    ensures unchanged { OnErr result (engine.new ≡ engine.old) }
    ensures still { OnErr result (link.new ≡ link.old) }
    ensures state { engine.new.state ≡ engine.old.state }
    ensures timers { engine.new.timers ≡ engine.old.timers }
{
    let config = match read_config_bytes(alloc, bytes) {
        Ok(config) => config,
        Err(ConfigError::NoMemory) => return Err(NotTaken::NoMemory),
        Err(e) => return Err(NotTaken::Refused(e)),
    };
    if config.bound_port != port {
        return Err(NotTaken::OtherPort);
    }
    let words = words_on(alloc, engine.config(), &config);
    let Ok(hops) = hops_of(alloc, &config) else {
        return Err(NotTaken::NoMemory);
    };
    match engine.change(config) {
        Ok(()) => {
            link.hear_always(hops);
            Ok(words)
        }
        Err(ChangeError::NoMemory) => Err(NotTaken::NoMemory),
        Err(ChangeError::OtherFrame(key)) => Err(NotTaken::OtherFrame(key)),
    }
}

/// Says from which datagram on the configuration of a file is in force, and what that changed, where there are words for it.
fn say_in_force<M: Write>(path: &[u8], next: u64, words: &Option<Bytes>, complaints: &mut M) {
    let _ = complaints.write_all(b"sipd: ");
    let _ = complaints.write_all(path);
    let _ = write!(complaints, " is in force from datagram {next} on");
    if let Some(words) = words {
        let _ = complaints.write_all(b" (");
        let _ = complaints.write_all(words.as_slice());
        let _ = complaints.write_all(b")");
    }
    let _ = complaints.write_all(b"\n");
}

/// Says why a file can't be read; what was in force stays.
fn say_unread<M: Write>(fault: FileFault, complaints: &mut M) {
    let text = match fault {
        FileFault::NoMemory =>
            "sipd: no memory for the configuration's file; what was in force stays\n",
        FileFault::Gone => "sipd: the configuration's file is gone; what was in force stays\n",
        FileFault::TooLong =>
            "sipd: the configuration's file is too long; what was in force stays\n",
        FileFault::Device =>
            "sipd: the configuration's file can't be read; what was in force stays\n",
    };
    let _ = complaints.write_all(text.as_bytes());
}

/// Says why the configuration of a file isn't taken; what was in force stays.
fn say_not_taken<M: Write>(alloc: Global, path: &[u8], why: NotTaken, complaints: &mut M) {
    let _ = complaints.write_all(b"sipd: ");
    let _ = complaints.write_all(path);
    let Ok(text) = why.to_string(alloc) else {
        let _ = complaints.write_all(b" isn't taken: out of memory\n");
        return;
    };
    let _ = complaints.write_all(b" isn't taken: ");
    let _ = complaints.write_all(text.as_bytes());
    let _ = complaints.write_all(b"; what was in force stays\n");
}

/// Takes bytes that were offered, or refuses them; the journal is told of what is in force from then on, and the guard hears its hops
/// always. Its fault is the only refusal.
fn take_offered<T: Timers, P: Rules, L: Link, C: Clock, F: WatchedFile, J: Journal, M: Write>(
    alloc: Global,
    engine: &mut Engine<T, P>,
    link: &mut Guard<L, C>,
    port: u16,
    path: &[u8],
    watch: &mut Watch<F>,
    journal: &mut J,
    bytes: Bytes,
    complaints: &mut M,
) -> Result<(), JournalFault>
    ensures takes { OnOk result (Takes port bytes engine.old.server engine.new.server watch.old watch.new (J.written journal.old) (J.written journal.new)) }
    ensures hears { FollowsHops engine.old.server engine.new.server link.old link.new }
    ensures unnoted { OnErr result (IsUnder port bytes engine.old.server engine.new.server × (J.written journal.new ≡ None)) }
    ensures state { engine.new.state ≡ engine.old.state }
    ensures timers { engine.new.timers ≡ engine.old.timers }
    ensures whole { OnOk result (J.faulted journal.new ≡ J.faulted journal.old) }
    ensures said { OnErr result (J.faulted journal.new ≡ true) }
{
    match change_to(alloc, engine, link, port, bytes.as_slice()) {
        Ok(words) => {
            journal.configured(bytes.as_slice())?;
            watch.take(bytes);
            say_in_force(path, engine.next_number(), &words, complaints);
        }
        Err(NotTaken::NoMemory) => say_not_taken(alloc, path, NotTaken::NoMemory, complaints),
        Err(why) => {
            watch.refuse(bytes);
            say_not_taken(alloc, path, why, complaints);
        }
    }
    Ok(())
}

/// Looks at the configuration's file, once a second at most, and does what that comes to. The journal's fault is the only refusal.
pub(crate) fn reload<T: Timers, P: Rules, L: Link, C: Clock, F: WatchedFile, J: Journal, M: Write>(
    alloc: Global,
    engine: &mut Engine<T, P>,
    link: &mut Guard<L, C>,
    port: u16,
    path: &[u8],
    watch: &mut Watch<F>,
    journal: &mut J,
    now: u64,
    complaints: &mut M,
) -> Result<(), JournalFault>
    ensures reloaded { OnOk result (IsReloaded port now engine.old.server engine.new.server watch.old watch.new (J.written journal.old) (J.written journal.new)) }
    ensures hears { FollowsHops engine.old.server engine.new.server link.old link.new }
    ensures unnoted { OnErr result (IsUnnoted port now engine.old.server engine.new.server watch.old × (J.written journal.new ≡ None)) }
    ensures state { engine.new.state ≡ engine.old.state }
    ensures timers { engine.new.timers ≡ engine.old.timers }
    ensures whole { OnOk result (J.faulted journal.new ≡ J.faulted journal.old) }
    ensures said { OnErr result (J.faulted journal.new ≡ true) }
{
    match watch.look(now) {
        Look::Nothing | Look::Unsettled => Ok(()),
        Look::Unread(fault) => {
            say_unread(fault, complaints);
            Ok(())
        }
        Look::Settled(bytes) => take_offered(
            alloc, engine, link, port, path, watch, journal, bytes, complaints,
        ),
    }
}
