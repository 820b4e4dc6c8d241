//! How the record of a file is opened that is gone on from, and a server as its first line says.
ghost use Rattle.std.specs.Prelude.{◌≡◌, IfErr, IfOk, Ok};
ghost use Rattle.sip_model.specs.TimerOrder.{first_standing};
ghost use Rattle.sip_resume.specs.run.Due.{standing_of};
ghost use Rattle.sip_resume.specs.run.engine.engine_time.proxy.Proxy.{secrets_of};
ghost use Rattle.sipd_old_record.specs.OldRecord.{IsSystemFault};
ghost use Rattle.sipd_start.specs.Boots.{boot_again};
ghost use Rattle.sipd_record_files.specs.Unmade.{IsUnmade};

use crate::not_resumed::StartStop;
use sip_config_types::Config;
use sip_event::Boot;
use sip_journal::RecordHead;
use sip_policy::Rules;
use sip_record_omitted::Expanding;
use sip_record_sealed::Unsealing;
use sip_resume::engine::Engine;
use sip_timers::Timers;
use sipd_exit::Exit;
use sipd_old_record::open_file;
use sipd_progress::{Watched, size_of_file};
use sipd_record_files::Followed;
use std::alloc::Global;
use std::io::BufReader;
use std::rt::{Clock, Files};

/// What a server that goes on starts with: what the first line of its record says, and a new secret of its tables.
pub(crate) fn boot_again(head: &RecordHead, keys: u128) -> Boot
    ensures boot { result ≡ boot_again head.now keys }
{
    Boot {
        word: head.word,
        first: head.first,
        keys,
    }
}

/// A server that has just started, with the configuration with which a record begins.
#[tactic(auto, using(crate::proofs::Beginnings::opened_standing))]
pub(crate) fn open_old<T: Timers, P: Rules>(
    alloc: Global,
    boot: Boot,
    config: Config,
) -> Result<Engine<T, P>, Exit>
    ensures server { IfOk result (λ engine. engine.server ≡ record { config = config; word = boot.word }) }
    ensures standing { IfOk result (λ engine. standing_of engine ≡ first_standing boot.first) }
    ensures refused { IfErr result IsUnmade }
    ensures secrets { IfOk result (λ engine. engine.secrets ≡ secrets_of boot.keys) }
{
    Ok(Engine::open(alloc, config, boot)?)
}

/// What is known of a record's file, where it was read up to a line of the text that it stands for.
#[derive(Clone, Copy)]
pub(crate) struct InFile {
    /// How many lines more stand in the text in front of that than in the file, and how many fewer.
    pub(crate) more: u64,
    pub(crate) fewer: u64,
    /// The line of the file that has the digest of other bytes, if one was read that has.
    pub(crate) changed: Option<u64>,
    /// Whether none was read that holds a digest.
    pub(crate) is_unsealed: bool,
    /// Whether the digest of all of it couldn't be written behind it.
    pub(crate) is_unclosed: bool,
}

impl InFile {
    /// Of what is no file: each line is the line that it is.
    pub(crate) fn unknown() -> InFile {
        InFile {
            more: 0,
            fewer: 0,
            changed: None,
            is_unsealed: false,
            is_unclosed: false,
        }
    }

    /// What is known by a reader.
    pub(crate) fn of<R: Files + Clock + Eprint + AllocGlobal>(
        reader: &Expanding<Watched<'_, R, Unsealing<BufReader<R::File>>>>,
    ) -> InFile {
        let file = &reader.inner.reader;
        InFile {
            more: reader.added(),
            fewer: file.hidden(),
            changed: file.changed(),
            is_unsealed: file.seals() == 0,
            is_unclosed: false,
        }
    }

    /// Adds what is known of the record as one that is followed, where it was read since.
    pub(crate) fn note(&mut self, followed: &Followed) {
        self.is_unclosed = followed.is_unclosed;
        self.is_unsealed = followed.was_unsealed;
    }

    /// What was made of the record by a reader of which this is known: nothing, where that disagrees with a digest in it (`Changed`). Why it
    /// isn't gone on from is said by its lines.
    pub(crate) fn checked<A: Drop>(&self, made: Result<A, StartStop>) -> Result<A, StartStop>
        ensures { IfOk result (λ a. made ≡ Ok a) }
    {
        if let Some(line) = self.changed {
            return Err(StartStop::Exits(Exit::Changed(line)));
        }
        match made {
            Ok(a) => Ok(a),
            Err(StartStop::NotResumed(why)) => Err(StartStop::NotResumed(why.in_file(self))),
            Err(stop) => Err(stop),
        }
    }

    /// The line of the file that is this one of the text.
    pub(crate) fn line(&self, line: u64) -> u64 {
        line.saturating_sub(self.more).saturating_add(self.fewer)
    }
}

/// The record of a file, in which lines may stand for datagrams that were left out, read with a look at how far it is.
#[tactic(auto, using(sipd_old_record::proofs::FirstLines::no_memory))]
pub(crate) fn read_old<'r, R: Files + Clock + Eprint + AllocGlobal>(
    rt: &'r R,
    old: &'r str,
    seen: bool,
) -> Result<Expanding<Watched<'r, R, Unsealing<BufReader<R::File>>>>, Exit>
    ensures { IfErr result IsSystemFault }
{
    let alloc = rt.alloc();
    let file = open_file(rt, alloc, old)?;
    let watched = Watched::new(rt, file, old, size_of_file(rt, old), seen);
    Ok(Expanding::new(alloc, watched)?)
}
