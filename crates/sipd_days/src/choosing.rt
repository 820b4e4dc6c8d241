//! What the words of a command line choose.
ghost use Rattle.std.specs.Prelude.{◌≡◌, ◌<◌, ◌^◌, IfOk, IfSome, option_map, string_bytes};
ghost use Rattle.std.specs.Option.{option_copied};
ghost use Rattle.sipd_days.specs.Choosing as Definitions;
ghost use Rattle.sipd_report.specs.Said;

use sip_uri::ip_of;
use sipd_arguments::{ChosenCalls, ChosenSources};
use sipd_calls::{CallFilter, Notation};
use sipd_exit::Exit;
use sipd_report::{no_time, time_said};
use sipd_sources::SourceFilter;
use std::alloc::Global;

/// How something is written that is asked for as comma-separated values or as objects of JSON: a table for people, where it is neither.
pub(crate) fn form_of(csv: bool, json: bool) -> Option<Notation>
    ensures { result ≡ Definitions.form_of csv json }
{
    if csv {
        return Some(Notation::Csv);
    }
    if json {
        return Some(Notation::Json);
    }
    None
}

/// How the program ends where a word is no time.
fn exit_of_time(alloc: Global, text: &str) -> Exit {
    match no_time(alloc, text) {
        Ok(text) => Exit::Question(text),
        Err(_) => Exit::Memory,
    }
}

/// The time that is said, if one is. `Question`, where a word is no time; `Memory`.
pub(crate) fn time_in(alloc: Global, said: &Option<String>) -> Result<Option<u64>, Exit>
    ensures said { IfOk result (λ time. time ≡ Said.time_in (option_map string_bytes said.now)) }
    ensures small { IfOk result (λ time. IfSome time (λ t. t < 2 ^ 50)) }
{
    let Some(text) = said else {
        return Ok(None);
    };
    match time_said(text.as_bytes()) {
        Some(second) => Ok(Some(second)),
        None => Err(exit_of_time(alloc, text.as_str())),
    }
}

/// The bytes of a word, if it is said.
fn bytes_of(text: &Option<String>) -> Option<&[u8]>
    ensures { option_copied result ≡ option_map string_bytes text.now }
{
    match text {
        Some(text) => Some(text.as_bytes()),
        None => None,
    }
}

/// Which calls are asked for. `Question`, where a word is no time; `Memory`.
pub(crate) fn choice_of<'c>(alloc: Global, chosen: &'c ChosenCalls) -> Result<CallFilter<'c>, Exit>
    ensures { IfOk result (Definitions.IsChoice chosen.now) }
{
    let since = time_in(alloc, &chosen.since)?;
    let until = time_in(alloc, &chosen.until)?;
    Ok(CallFilter {
        since,
        until,
        user: bytes_of(&chosen.user),
        target: bytes_of(&chosen.target),
        from: bytes_of(&chosen.from),
        challenged: chosen.challenged,
    })
}

/// How the program ends where a word is no address.
fn no_address(alloc: Global, text: &str) -> Exit {
    match format!(in alloc; "no address: {text}: it is four numbers with dots, as 192.0.2.7") {
        Ok(text) => Exit::Question(text),
        Err(_) => Exit::Memory,
    }
}

/// The address that is said, if one is. `Question`, where a word is no address; `Memory`.
fn address_in(alloc: Global, said: &Option<String>) -> Result<Option<[u8; 4]>, Exit>
    ensures { IfOk result (λ ip. ip ≡ Definitions.address_in (option_map string_bytes said.now)) }
{
    let Some(text) = said else {
        return Ok(None);
    };
    match ip_of(text.as_bytes()) {
        Some(ip) => Ok(Some(ip)),
        None => Err(no_address(alloc, text.as_str())),
    }
}

/// Which datagrams are to be counted. `Question`, where a word is no time or no address; `Memory`.
pub(crate) fn filter_of(alloc: Global, chosen: &ChosenSources) -> Result<SourceFilter, Exit>
    ensures { IfOk result (Definitions.IsFilter chosen.now) }
{
    let since = time_in(alloc, &chosen.since)?;
    let until = time_in(alloc, &chosen.until)?;
    let from = address_in(alloc, &chosen.from)?;
    Ok(SourceFilter { since, until, from })
}
