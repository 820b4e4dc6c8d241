//! A record told, with what is kept of it.
ghost use Rattle.std.specs.Prelude.{◌≡◌, IfOk};
ghost use Rattle.sipd_page.specs.Page.{WasTold};
ghost use Rattle.sipd_page_sections.specs.Sections.{policy_by};

use sip_config_types::Config;
use sip_journal::RecordHead;
use sip_policy::Rules;
use sip_replay_script::TellingReader;
use sip_timers::Timers;
use sipd_exit::{Exit, Stated};
use sipd_old_record::OldRecord;
use sipd_page_sections::{FileTold, Notes, policy_of};
use sipd_telling::laws::what_is_told_is_lawful;
use sipd_telling::{DayReading, begin, exit_of_file, open_day, tell};
use std::alloc::Global;
use std::io::Write;
use std::rt::{Clock, Files};

/// What is known of a record that was told, whose first line says this head, but for the digest of its end.
fn told_by(alloc: Global, config: &Config, head: &RecordHead) -> Result<FileTold, Exit>
    ensures policy { IfOk result (λ told. told.policy ≡ policy_by config.now) }
    ensures offset { IfOk result (λ told. told.offset ≡ config.now.offset) }
    ensures digest { IfOk result (λ told. told.digest ≡ head.now.digest) }
{
    Ok(FileTold {
        policy: policy_of(alloc, config)?,
        offset: config.offset,
        digest: head.digest,
        sealed: None,
    })
}

/// Tells the notes what a reader gives behind the first line of a record, which says this head, up to its end; what is known of it then.
fn tell_day<T: Timers, P: Rules, I: TellingReader>(
    alloc: Global,
    head: &RecordHead,
    named: Option<&Stated>,
    events: &mut I,
    notes: &mut Notes,
) -> Result<FileTold, Exit>
    ensures { IfOk result (λ told. WasTold notes.old notes.new told.policy told.offset told.digest) }
{
    what_is_told_is_lawful();
    let mut telling = begin::<T, P, I>(alloc, head, named, events)?;
    tell(alloc, &mut telling, events, None, notes)?;
    told_by(alloc, telling.engine.config(), head)
}

/// The same, with the digest of its end.
fn sealed_with(mut told: FileTold, sealed: Option<[u8; 32]>) -> FileTold
    ensures policy { result.policy ≡ told.policy }
    ensures offset { result.offset ≡ told.offset }
    ensures digest { result.digest ≡ told.digest }
{
    told.sealed = sealed;
    told
}

/// Tells the notes the record in a file.
pub(crate) fn tell_file<T: Timers, P: Rules, R: Files + Clock + Eprint + AllocGlobal, C: Write>(
    rt: &R,
    path: &str,
    reading: &DayReading,
    notes: &mut Notes,
    complaints: &mut C,
) -> Result<FileTold, Exit>
    ensures { IfOk result (λ told. WasTold notes.old notes.new told.policy told.offset told.digest) }
{
    let OldRecord { head, mut events } = open_day(rt, path, reading.seen, complaints)?;
    let named = reading.named.as_ref();
    match tell_day::<T, P, _>(rt.alloc(), &head, named, &mut events, notes) {
        Ok(told) => Ok(sealed_with(told, events.inner.reader.end_digest())),
        Err(exit) => Err(exit_of_file(exit, &events, complaints)),
    }
}
