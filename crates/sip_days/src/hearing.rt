ghost use Rattle.std.specs.Prelude.{◌≡◌, ◌++◌, [], ◌∷◌, None, Some, map, filter, IfOk, OnOk, if◌then◌else◌};
ghost use Rattle.std.specs.Option.{option_and_then};
ghost use Rattle.sip_days.specs.Calls as Definitions;
ghost use Rattle.sip_days.specs.Hearing;
ghost use Rattle.sip_days.specs.Changing;
ghost use Rattle.sip_days.specs.Begun.{begun_if};

use crate::call::{Answer, Call, Ending};
use crate::call_result::is_taken;
use crate::saying::{answer_at, answers, bye_in, call_id_in, ending_for};
use sip_audit::Record;
use sip_config_types::Config;
use sip_dialog::DialogId;
use sip_event::{Event, StepOut};
use sip_listener::Listener;
use sip_replay_script::PrintStop;
use sip_text::{Bytes, Items};
use sip_uri::Addr;
use std::alloc::{AllocError, Global};
use std::marker::Model;

/// The calls of a day, in the order of their INVITEs, as far as it was told.
#[derive(Drop)]
pub struct Calls {
    alloc: Global,
    calls: Items<Call>,
    /// Where those stand that a later step may change: few of a long day's.
    changing: Items<usize>,
    /// Whether memory ran out while they were told of a step: they are told of no further one then.
    is_broken: bool,
}

impl Model for Calls {
    ghost use Rattle.std.specs.Prelude.{◌≡◌, List, false};
    ghost use Rattle.sip_days.specs.declared.call.Call.{Call};
    ghost use Rattle.sip_days.specs.Changing.{is_open, places_from};

    ghost Value = { List Call };

    ghost view = { λ c. c.calls };

    ghost invariant = { λ c. c.is_broken ≡ false → c.changing ≡ places_from is_open 0 c.calls };
}

impl Calls {
    /// No call yet. Takes no memory.
    pub fn new(alloc: Global) -> Self
        ensures { result ≡ [] }
    {
        Calls {
            alloc,
            calls: Items::new(alloc),
            changing: Items::new(alloc),
            is_broken: false,
        }
    }

    /// The calls.
    pub fn as_slice(&self) -> &[Call]
        ensures { result.now ≡ self.now }
    {
        self.calls.as_slice()
    }
}

/// The end that a BYE, if one comes at a moment, is to a dialog.
fn ended_dialog(id: &DialogId, at: u64, bye: &Option<DialogId>) -> Option<Ending>
    ensures { result ≡ option_and_then (Definitions.ending_for id.now at) bye.now }
{
    match bye {
        Some(bye) => ending_for(id, at, bye),
        None => None,
    }
}

/// The end of an answered call that has none yet, by a BYE which comes at a moment, if one does.
fn ended_by(answer: &Answer, at: u64, bye: &Option<DialogId>) -> Option<Ending>
    ensures { result ≡ Hearing.ended_with (Definitions.is_taken answer.now.status) answer.now.dialog at bye.now None }
{
    if !is_taken(answer.status) {
        return None;
    }
    match &answer.dialog {
        Some(id) => ended_dialog(id, at, bye),
        None => None,
    }
}

/// How an answered call has ended behind one more step, which brings that BYE at a moment.
fn ended_with(
    answer: &Answer,
    at: u64,
    bye: &Option<DialogId>,
    ending: Option<Ending>,
) -> Option<Ending>
    ensures { result ≡ Hearing.ended_with (Definitions.is_taken answer.now.status) answer.now.dialog at bye.now ending }
{
    match ending {
        Some(ending) => Some(ending),
        None => ended_by(answer, at, bye),
    }
}

/// The same of any call.
fn ended_of(call: &Call, at: u64, bye: &Option<DialogId>) -> Option<Ending>
    ensures { result ≡ Hearing.ended_of call.now.answer at bye.now call.now.ending }
{
    match &call.answer {
        Some(answer) => ended_with(answer, at, bye, call.ending),
        None => call.ending,
    }
}

/// Tells a call of one more step, which brings that BYE: it is answered, or, once it was, it ends.
fn tell_call(
    alloc: Global,
    call: &mut Call,
    bye: &Option<DialogId>,
    out: &StepOut,
) -> Result<(), AllocError>
    ensures { OnOk result (call.new ≡ Hearing.hears_with bye.now out.now call.old) }
{
    let ending = ended_of(call, out.at, bye);
    call.ending = ending;
    if call.answer.is_some() {
        return Ok(());
    }
    let answer = answer_at(alloc, call.decision.number, out)?;
    call.answer = answer;
    Ok(())
}

/// Tells the call of a place, if one stands there.
fn tell_at(
    alloc: Global,
    calls: &mut [Call],
    place: usize,
    bye: &Option<DialogId>,
    out: &StepOut,
) -> Result<(), AllocError>
    ensures { OnOk result (calls.new ≡ Changing.with_one (Hearing.hears_with bye.now out.now) place calls.old) }
{
    if place < calls.len() {
        return tell_call(alloc, &mut calls[place], bye, out);
    }
    Ok(())
}

/// Tells the calls of places.
fn tell_each(
    alloc: Global,
    calls: &mut [Call],
    places: &[usize],
    bye: &Option<DialogId>,
    out: &StepOut,
) -> Result<(), AllocError>
    ensures { OnOk result (calls.new ≡ Changing.with_each (Hearing.hears_with bye.now out.now) places.now calls.old) }
{
    for place in places {
        tell_at(alloc, calls, *place, bye, out)?;
    }
    Ok(())
}

/// The same among those that are kept.
fn tell_places(
    alloc: Global,
    calls: &mut Items<Call>,
    places: &[usize],
    bye: &Option<DialogId>,
    out: &StepOut,
) -> Result<(), AllocError>
    ensures { OnOk result (calls.new ≡ Changing.with_each (Hearing.hears_with bye.now out.now) places.now calls.old) }
{
    tell_each(alloc, calls.as_mut_slice(), places, bye, out)
}

/// Whether a BYE may end an answered call.
fn may_end(answer: &Answer, ending: Option<Ending>) -> bool
    ensures { result ≡ Changing.may_change (Some answer.now) ending }
{
    is_taken(answer.status) && answer.dialog.is_some() && !ending.is_some()
}

/// Whether a later step may change a call.
fn is_open(call: &Call) -> bool
    ensures { result ≡ Changing.is_open call.now }
{
    match &call.answer {
        Some(answer) => may_end(answer, call.ending),
        None => true,
    }
}

/// Whether a call stands in a place that a later step may change.
fn is_open_at(calls: &[Call], place: usize) -> bool
    ensures { result ≡ Changing.holds_at Changing.is_open calls.now place }
{
    if place < calls.len() {
        return is_open(&calls[place]);
    }
    false
}

/// Adds a place, if a call stands there that a later step may change.
fn keep_if_open(calls: &[Call], place: usize, left: &mut Items<usize>) -> Result<(), AllocError>
    ensures { OnOk result (left.new ≡ left.old ++ filter (Changing.holds_at Changing.is_open calls.now) (place ∷ [])) }
{
    if is_open_at(calls, place) {
        return left.push(place);
    }
    Ok(())
}

/// Those of places where a call stands that a later step may change.
fn still_open(alloc: Global, calls: &[Call], places: &[usize]) -> Result<Items<usize>, AllocError>
    ensures { IfOk result (λ left. left ≡ filter (Changing.holds_at Changing.is_open calls.now) places.now) }
{
    let mut left = Items::new(alloc);
    for place in places {
        keep_if_open(calls, *place, &mut left)?;
    }
    Ok(left)
}

/// Tells each call that a later step may change, and finds out which of them one still may.
fn tell_changing(
    alloc: Global,
    calls: &mut Items<Call>,
    places: &mut Items<usize>,
    bye: &Option<DialogId>,
    out: &StepOut,
) -> Result<(), AllocError>
    requires { places.old ≡ Changing.places_from Changing.is_open 0 calls.old }
    ensures told { OnOk result (calls.new ≡ map (Hearing.hears_with bye.now out.now) calls.old) }
    ensures places { OnOk result (places.new ≡ Changing.places_from Changing.is_open 0 calls.new) }
{
    tell_places(alloc, calls, places.as_slice(), bye, out)?;
    let left = still_open(alloc, calls.as_slice(), places.as_slice())?;
    *places = left;
    Ok(())
}

/// Tells all calls of one more step: most steps bring no BYE and no final answer, and change none.
fn tell_if_changed(
    alloc: Global,
    calls: &mut Items<Call>,
    places: &mut Items<usize>,
    bye: &Option<DialogId>,
    out: &StepOut,
) -> Result<(), AllocError>
    requires { places.old ≡ Changing.places_from Changing.is_open 0 calls.old }
    ensures told { OnOk result (calls.new ≡ map (Hearing.hears_with bye.now out.now) calls.old) }
    ensures places { OnOk result (places.new ≡ Changing.places_from Changing.is_open 0 calls.new) }
{
    if bye.is_some() {
        return tell_changing(alloc, calls, places, bye, out);
    }
    if answers(out) {
        return tell_changing(alloc, calls, places, bye, out);
    }
    Ok(())
}

/// A copy of the name of who was proven, if anybody was.
fn name_of(who: &Option<Bytes>) -> Result<Option<Bytes>, AllocError>
    ensures { IfOk result (λ name. name ≡ who.now) }
{
    match who {
        Some(name) => Ok(Some(name.clone()?)),
        None => Ok(None),
    }
}

/// A copy of a record.
fn copy_of(decision: &Record) -> Result<Record, AllocError>
    ensures { IfOk result (λ copy. copy ≡ decision.now) }
{
    Ok(Record {
        at: decision.at,
        number: decision.number,
        method: decision.method.clone()?,
        who: name_of(&decision.who)?,
        target: decision.target.clone()?,
        operation: decision.operation,
        minute: decision.minute,
        outcome: decision.outcome,
    })
}

/// Where the datagram of an event came from.
fn source_of(event: &Event) -> Option<Addr>
    ensures { result ≡ Definitions.source_in (Some event.now) }
{
    match event {
        Event::Datagram { from, .. } => Some(*from),
        Event::Time { .. } => None,
        Event::Fault { .. } => None,
    }
}

/// Where the datagram of a step came from.
fn source_in(event: &Option<Event>) -> Option<Addr>
    ensures { result ≡ Definitions.source_in event.now }
{
    match event {
        Some(event) => source_of(event),
        None => None,
    }
}

/// The call that an INVITE begins, as its own step says it, on the clock of the configuration in force then.
fn begun(
    alloc: Global,
    decision: &Record,
    config: &Config,
    event: &Option<Event>,
    out: &StepOut,
) -> Result<Call, AllocError>
    ensures { IfOk result (λ call. call ≡ Hearing.begun_by config.now.offset event.now out.now decision.now) }
{
    let answer = answer_at(alloc, decision.number, out)?;
    let call_id = call_id_in(alloc, event)?;
    Ok(Call {
        decision: copy_of(decision)?,
        source: source_in(event),
        call_id,
        offset: config.offset,
        answer,
        ending: None,
    })
}

/// Adds a place, if it is to be kept.
fn keep_place(places: &mut Items<usize>, place: usize, keeps: bool) -> Result<(), AllocError>
    ensures { OnOk result (places.new ≡ places.old ++ (if keeps then place ∷ [] else [])) }
{
    if keeps {
        return places.push(place);
    }
    Ok(())
}

/// Adds a call, and its place, if a later step may change it.
fn add_call(
    calls: &mut Items<Call>,
    places: &mut Items<usize>,
    call: Call,
) -> Result<(), AllocError>
    requires { places.old ≡ Changing.places_from Changing.is_open 0 calls.old }
    ensures added { OnOk result (calls.new ≡ calls.old ++ call ∷ []) }
    ensures places { OnOk result (places.new ≡ Changing.places_from Changing.is_open 0 calls.new) }
{
    keep_place(places, calls.as_slice().len(), is_open(&call))?;
    calls.push(call)
}

/// Adds the call that a record begins, if it is an INVITE's.
fn add_if_begun(
    alloc: Global,
    calls: &mut Items<Call>,
    places: &mut Items<usize>,
    decision: &Record,
    config: &Config,
    event: &Option<Event>,
    out: &StepOut,
) -> Result<(), AllocError>
    requires { places.old ≡ Changing.places_from Changing.is_open 0 calls.old }
    ensures added { OnOk result (calls.new ≡ calls.old ++ begun_if config.now.offset event.now out.now decision.now) }
    ensures places { OnOk result (places.new ≡ Changing.places_from Changing.is_open 0 calls.new) }
{
    if decision.method.as_slice() == b"INVITE".as_slice() {
        let call = begun(alloc, decision, config, event, out)?;
        return add_call(calls, places, call);
    }
    Ok(())
}

/// Adds the calls that records begin.
fn add_begun(
    alloc: Global,
    calls: &mut Items<Call>,
    places: &mut Items<usize>,
    decisions: &[Record],
    config: &Config,
    event: &Option<Event>,
    out: &StepOut,
) -> Result<(), AllocError>
    requires { places.old ≡ Changing.places_from Changing.is_open 0 calls.old }
    ensures added { OnOk result (calls.new ≡ calls.old ++ map (Hearing.begun_by config.now.offset event.now out.now) (filter Definitions.is_invite decisions.now)) }
    ensures places { OnOk result (places.new ≡ Changing.places_from Changing.is_open 0 calls.new) }
{
    for decision in decisions {
        add_if_begun(alloc, calls, places, decision, config, event, out)?;
    }
    Ok(())
}

/// Tells calls of one more step, under the configuration in force then.
fn tell_calls(
    alloc: Global,
    calls: &mut Items<Call>,
    places: &mut Items<usize>,
    config: &Config,
    event: &Option<Event>,
    out: &StepOut,
) -> Result<(), AllocError>
    requires { places.old ≡ Changing.places_from Changing.is_open 0 calls.old }
    ensures told { OnOk result (calls.new ≡ Hearing.calls_with config.now.offset event.now out.now calls.old) }
    ensures places { OnOk result (places.new ≡ Changing.places_from Changing.is_open 0 calls.new) }
{
    let bye = bye_in(alloc, event, out)?;
    tell_if_changed(alloc, calls, places, &bye, out)?;
    add_begun(
        alloc,
        calls,
        places,
        out.records.as_slice(),
        config,
        event,
        out,
    )?;
    Ok(())
}

impl Listener for Calls {
    ghost use Rattle.std.specs.Prelude.{⊤};
    ghost use Rattle.sip_days.specs.Hearing.{adds_calls};

    ghost hears = { adds_calls };

    ghost refuses = { λ _ _ _. ⊤ };

    ghost gave_up = { λ _. ⊥ };

    fn hear(
        &mut self,
        config: &Config,
        event: Option<Event>,
        out: StepOut,
    ) -> Result<(), PrintStop> {
        if self.is_broken {
            return Err(PrintStop::NoMemory);
        }
        self.is_broken = true;
        match tell_calls(
            self.alloc,
            &mut self.calls,
            &mut self.changing,
            config,
            &event,
            &out,
        ) {
            Ok(()) => {
                self.is_broken = false;
                Ok(())
            }
            Err(_) => Err(PrintStop::NoMemory),
        }
    }
}
