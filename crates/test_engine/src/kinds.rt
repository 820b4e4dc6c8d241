use sip_config_types::sample;
use sip_event::Boot;
use sip_policy_index::IndexedRules;
use sip_replay::engine::Engine;
use sip_timers_wheel::WheelTimers;
use std::alloc::{AllocError, Global};

/// The timers that the program has.
pub type ServerTimers = WheelTimers;

/// The rules that the program has.
pub type ServerRules = IndexedRules;

/// The engine of the program.
pub type TestServer = Engine<ServerTimers, ServerRules>;

/// What a replay starts with.
pub const BOOT: Boot = Boot {
    word: 0,
    first: 1,
    keys: 0,
};

/// An engine with the sample configuration, whose first datagram has this number.
pub fn opened(alloc: Global, first: u64) -> Result<TestServer, AllocError> {
    let boot = Boot {
        word: 0,
        first,
        keys: 0,
    };
    TestServer::open(alloc, sample(alloc)?, boot)
}
