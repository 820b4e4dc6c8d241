//! The command `compact` carried out.
use rand::rngs::StdRng;
use sip_policy::Rules;
use sip_timers::Timers;
use sipd_arguments::CompactCall;
use sipd_exit::{Exit, stated_in};
use sipd_start::compact;
use std::io::Write;
use std::random::RandomSource;
use std::rt::{Clock, Files};

/// Makes a shorter record of another one.
pub fn compact_file<
    T: Timers,
    P: Rules,
    R: Files + Clock + RandomSource + Eprint + AllocGlobal,
    C: Write,
>(rt: &R, call: &CompactCall, seen: bool, complaints: &mut C) -> Result<(), Exit> {
    let stated = stated_in(rt, call.config.as_str())?;
    let mut words: StdRng = rand::make_rng(rt)?;
    compact::<T, P, R, _, C>(
        rt,
        &stated,
        call.old.as_str(),
        call.new.as_str(),
        seen,
        &mut words,
        complaints,
    )
}
